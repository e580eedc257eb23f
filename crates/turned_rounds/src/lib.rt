//! The messages of a round, forward or back, with xids that begin again at their end.
#![tactic(auto)]

mod batches;
pub mod laws;
mod outgoing;

pub use batches::{Batch, is_changed, next_if, next_xid, round_batch};
pub use outgoing::{Outgoing, Text};
