//! What a line asks for.
use driver_input::Piece;
use net_base::SwitchId;

/// What a line asks for.
#[derive(Drop)]
pub enum ServeLine {
    /// Nothing: the line is a comment.
    Comment,
    /// The next round is to start.
    Start,
    /// The update is to turn back.
    Back,
    /// The session with this switch is opened again.
    Reopen(SwitchId),
    /// This piece comes from this switch. It is never empty.
    Feed(SwitchId, Piece),
    /// This switch died.
    Dead(SwitchId),
}
