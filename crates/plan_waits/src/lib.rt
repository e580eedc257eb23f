//! The member `waits` of plans: the rounds before which packets are waited for.
#![tactic(auto)]

mod fault;
mod read;
mod write;

pub use fault::WaitsFault;
pub use read::read_waits;
pub use write::write_plan_with_waits;
