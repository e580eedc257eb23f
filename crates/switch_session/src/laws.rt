//! What holds of every channel. Each law is a function that does nothing: its contract is the law.
ghost use Rattle.std.specs.Prelude.{◌≡◌, ◌++◌, ℕ, List};
ghost use Rattle.switch_session.specs.Fronts.{front_of};
ghost use Rattle.switch_session.specs.Channels.{ChannelState, after_bytes};
ghost use Rattle.switch_session.specs.Laws.{IsReading, TakesFront, OnlyReplies};

/// It makes no difference in which pieces bytes come.
pub fn pieces_make_no_difference()
    ensures { (a b : List ℕ) (channel : ChannelState)
        → after_bytes (a ++ b) channel ≡ after_bytes b (after_bytes a channel) }
{}

/// Bytes are put behind the unread ones, and then messages are taken from the front while whole ones stand there.
pub fn messages_are_taken_from_the_front()
    ensures { (bytes : List ℕ) (channel : ChannelState) → IsReading channel
        → TakesFront bytes channel (front_of (channel.unread ++ bytes)) }
{}

/// Bytes from a switch make the controller reply to the echo requests in them, once each and in their order, until the session
/// fails; and at most the outstanding barrier is answered. Nothing else is sent.
pub fn bytes_are_only_replied_to()
    ensures { (bytes : List ℕ) (channel : ChannelState)
        → OnlyReplies bytes channel (after_bytes bytes channel) }
{}
