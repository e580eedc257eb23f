//! The checker of plans: whether a plan is certified, and otherwise the first reason why not.
#![tactic(auto)]

mod checking;
mod evidence_room;
mod prefixes;
mod rewriting;
mod room;
pub mod tables;

pub use check_reasons::{Reason, Verdict};
pub use checking::{check, end_reason};
pub use evidence_room::EvidenceRoom;
pub use room::{CheckRoom, RoomFault, UpdateRoom};
