//! The channel to one switch.
ghost use Rattle.std.specs.Prelude.{◌≡◌, ◌+◌, ◌-◌, ◌≤◌, ◌++◌, [], length, drop, IfOk, IfNone, IfSome, OnErr, OnOk, vec_len, vec_capacity};
ghost use Rattle.openflow10.specs.Layout.{number_at};
ghost use Rattle.switch_session.specs.Fronts.{front_of};
ghost use Rattle.switch_session.specs.Channels.{first_channel, is_failed, is_open, is_outstanding, after_failure, echo_reply, after_reply, taken_open, taken_by, after_message, after_bytes, after_request};
ghost use Rattle.switch_session.specs.Seen.{channel_of, UsesRoom, IsLeft, IsTaken};
ghost use Rattle.switch_session.specs.declared.fronts.Front.TheVariants.{Short};

use crate::fronts::{BARRIER_REPLY, ECHO_REPLY, ECHO_REQUEST, ERROR, Front, HELLO, front_of};
use crate::{Cause, Session};
use net_base::Memory;
use openflow10::{u8_at, u16_at, u32_at};
use std::alloc::Global;
use std::marker::Model;

/// The first message of a controller: HELLO with xid 0 (OpenFlow 1.0.0, section 5.5.1).
const FIRST: [u8; 8] = [1, 0, 0, 8, 0, 0, 0, 0];

/// What was said on a channel so far.
#[derive(Drop)]
pub struct Talk {
    pub(crate) session: Session,
    pub(crate) sent: Vec<u8>,
    pub(crate) outstanding: Option<u32>,
}

/// Appends bytes for which there is room.
fn extend_reserved(out: &mut Vec<u8>, bytes: &[u8])
    requires { vec_len out.old + length bytes.now ≤ vec_capacity out.old }
    ensures items { out.new.items ≡ out.old.items ++ bytes.now }
    ensures len { vec_len out.new ≡ vec_len out.old + length bytes.now }
    ensures capacity { vec_capacity out.old ≤ vec_capacity out.new }
{
    let Ok(()) = out.extend_from_slice(bytes) else {
        unreachable!()
    };
}

/// Takes so many bytes from the front.
fn remove_front(bytes: &mut Vec<u8>, count: usize)
    requires { count ≤ vec_len bytes.old }
    ensures { bytes.new.items ≡ drop count bytes.old.items }
{
    if count == 0 {
        return;
    }
    let len = bytes.len();
    bytes.as_mut_slice().copy_within(count..len, 0);
    bytes.truncate(len - count);
}

/// Appends the reply to an echo request.
fn push_reply(out: &mut Vec<u8>, request: &[u8])
    requires room { vec_len out.old + length request.now ≤ vec_capacity out.old }
    requires header { 8 ≤ length request.now }
    ensures items { out.new.items ≡ out.old.items ++ echo_reply request.now }
    ensures len { vec_len out.new ≡ vec_len out.old + length request.now }
    ensures capacity { vec_capacity out.old ≤ vec_capacity out.new }
{
    let start = out.len();
    extend_reserved(out, request);
    out[start + 1] = ECHO_REPLY;
}

/// Whether an xid is that of the outstanding barrier.
fn is_outstanding(xid: u32, outstanding: Option<u32>) -> bool
    ensures { result ≡ is_outstanding xid outstanding }
{
    match outstanding {
        Some(number) => number == xid,
        None => false,
    }
}

/// Whether a session failed.
fn is_failed(session: Session) -> bool
    ensures { result ≡ is_failed session }
{
    matches!(session, Session::Failed(_))
}

impl Talk {
    /// The session fails.
    fn fail(&mut self, cause: Cause)
        ensures state { channel_of self.new [] ≡ after_failure cause (channel_of self.old []) }
        ensures sent { self.new.sent ≡ self.old.sent }
    {
        self.session = Session::Failed(cause);
    }

    /// A barrier reply comes.
    fn answer(&mut self, xid: u32)
        ensures state { channel_of self.new [] ≡ after_reply xid (channel_of self.old []) }
        ensures sent { self.new.sent ≡ self.old.sent }
    {
        if is_outstanding(xid, self.outstanding) {
            self.outstanding = None;
        } else {
            self.fail(Cause::Xid(xid));
        }
    }

    /// A message comes to an open session.
    fn take_open(&mut self, message: &[u8])
        requires header { 8 ≤ length message.now }
        requires error { number_at 1 1 message.now ≡ 1 → 12 ≤ length message.now }
        requires room { vec_len self.old.sent + length message.now ≤ vec_capacity self.old.sent }
        ensures state { channel_of self.new [] ≡ taken_open message.now (channel_of self.old []) }
        ensures room { UsesRoom (length message.now) self.old self.new }
    {
        match u8_at(message, 1) {
            ERROR => self.fail(Cause::Error(u16_at(message, 8), u16_at(message, 10))),
            ECHO_REQUEST => push_reply(&mut self.sent, message),
            BARRIER_REPLY => self.answer(u32_at(message, 4)),
            _ => {}
        }
    }

    /// The first message comes.
    fn begin(&mut self, message: &[u8])
        requires header { 8 ≤ length message.now }
        ensures state { channel_of self.new []
            ≡ taken_by Session.Waiting message.now (channel_of self.old []) }
        ensures sent { self.new.sent ≡ self.old.sent }
    {
        if u8_at(message, 1) == HELLO {
            self.session = Session::Open;
        } else {
            self.fail(Cause::NoHello);
        }
    }

    /// A message comes.
    #[tactic(auto, unfolding(crate::specs::Channels::after_message))]
    fn take(&mut self, message: &[u8])
        requires header { 8 ≤ length message.now }
        requires error { number_at 1 1 message.now ≡ 1 → 12 ≤ length message.now }
        requires room { vec_len self.old.sent + length message.now ≤ vec_capacity self.old.sent }
        ensures state { channel_of self.new []
            ≡ after_message message.now (channel_of self.old []) }
        ensures room { UsesRoom (length message.now) self.old self.new }
    {
        match self.session {
            Session::Waiting => self.begin(message),
            Session::Open => self.take_open(message),
            Session::Failed(_) => {}
        }
    }

    /// Takes what stands at the front of the bytes, and says how many of them are done with; nothing where more has to come
    /// first. A failed session is done with all of them.
    fn take_front(&mut self, bytes: &[u8]) -> Option<usize>
        requires room { vec_len self.old.sent + length bytes.now ≤ vec_capacity self.old.sent }
        ensures none { IfNone result (IsLeft self.old self.new bytes.now) }
        ensures some { IfSome result (λ count. IsTaken count self.old self.new bytes.now) }
    {
        if is_failed(self.session) {
            return if bytes.is_empty() {
                None
            } else {
                Some(bytes.len())
            };
        }
        match front_of(bytes) {
            Front::Short => None,
            Front::Fault(cause) => {
                self.fail(cause);
                Some(bytes.len())
            }
            Front::Message(length) => {
                self.take(&bytes[..length]);
                Some(length)
            }
        }
    }

    /// Takes all whole messages from the front of the bytes, and says how many bytes they have.
    fn take_all(&mut self, bytes: &[u8]) -> usize
        requires room { vec_len self.old.sent + length bytes.now ≤ vec_capacity self.old.sent }
        ensures within { result ≤ length bytes.now }
        ensures short { front_of (drop result bytes.now) ≡ Short }
        ensures state { after_bytes bytes.now (channel_of self.old [])
            ≡ channel_of self.new (drop result bytes.now) }
    {
        let mut at = 0;
        while let Some(count) = self.take_front(&bytes[at..]) {
            at += count;
        }
        at
    }
}

/// The channel to one switch: its session, the bytes that came and aren't read yet, all bytes that were sent, and the
/// barrier that is outstanding.
#[derive(Drop)]
pub struct Channel {
    talk: Talk,
    unread: Vec<u8>,
}

impl Model for Channel {
    ghost use Rattle.std.specs.Prelude.{◌≡◌, ◌-◌, vec_len, vec_capacity};
    ghost use Rattle.switch_session.specs.Fronts.{front_of};
    ghost use Rattle.switch_session.specs.Seen.{ChannelView, channel_of};
    ghost use Rattle.switch_session.specs.declared.fronts.Front.TheVariants.{Short};

    ghost Value = { ChannelView };

    ghost view = { λ c. record {
      state = channel_of c.talk c.unread.items;
      room = vec_capacity c.talk.sent - vec_len c.talk.sent;
    } };

    // All that could be taken was taken.
    ghost invariant = { λ c. front_of c.unread.items ≡ Short };
}

impl Channel {
    /// A channel at the beginning: HELLO with xid 0 was sent, and nothing came.
    pub fn make(alloc: Global) -> Result<Channel, Memory>
        ensures { IfOk result (λ c. c.state ≡ first_channel) }
    {
        let mut sent = Vec::new(alloc);
        sent.extend_from_slice(&FIRST)?;
        let talk = Talk {
            session: Session::Waiting,
            sent,
            outstanding: None,
        };
        Ok(Channel {
            talk,
            unread: Vec::new(alloc),
        })
    }

    /// The session.
    pub fn session(&self) -> Session
        ensures { result ≡ self.now.state.session }
    {
        self.talk.session
    }

    /// Whether the session is open.
    pub fn is_open(&self) -> bool
        ensures { result ≡ is_open self.now.state.session }
    {
        matches!(self.talk.session, Session::Open)
    }

    /// All bytes that were sent, in order.
    pub fn sent(&self) -> &[u8]
        ensures { result.now ≡ self.now.state.sent }
    {
        &self.talk.sent
    }

    /// The xid of the barrier request whose reply hasn't come, if there is one.
    pub fn outstanding(&self) -> Option<u32>
        ensures { result ≡ self.now.state.outstanding }
    {
        self.talk.outstanding
    }

    /// Bytes come from the switch. Whole messages are taken at once; what is left waits for more, at most 65534 bytes. After a
    /// refusal the channel is as before. It costs as many steps as there are bytes: none is looked at twice.
    pub fn feed(&mut self, bytes: &[u8]) -> Result<(), Memory>
        ensures ok { OnOk result (self.new.state ≡ after_bytes bytes.now self.old.state) }
        ensures err { OnErr result (self.new.state ≡ self.old.state) }
    {
        if is_failed(self.talk.session) {
            return Ok(());
        }
        // Each reply is as long as its request, so nothing can fail once the messages are taken.
        self.talk.sent.reserve(self.unread.len() + bytes.len())?;
        self.unread.extend_from_slice(bytes)?;
        let count = self.talk.take_all(&self.unread);
        remove_front(&mut self.unread, count);
        Ok(())
    }

    /// Makes room for so many more bytes that are sent.
    pub fn reserve(&mut self, extra: usize) -> Result<(), Memory>
        ensures room { OnOk result (extra ≤ self.new.room) }
        ensures state { self.new.state ≡ self.old.state }
    {
        self.talk.sent.reserve(extra)?;
        Ok(())
    }

    /// Sends a text that ends with the barrier request of this xid. There is room for it.
    pub fn ask(&mut self, text: &[u8], xid: u32)
        requires { length text.now ≤ self.old.room }
        ensures { self.new.state ≡ after_request text.now xid self.old.state }
    {
        extend_reserved(&mut self.talk.sent, text);
        self.talk.outstanding = Some(xid);
    }
}
