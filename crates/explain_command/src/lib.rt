//! The command `explain`: shows a run in which an unsafe plan breaks the policy, with its promise.
#![tactic(auto)]

mod command;
mod explaining;
pub mod laws;
mod reasons;
mod verdict;

pub use crate::command::explain;
