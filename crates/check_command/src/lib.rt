//! The command `check`: says whether a plan of an update is certified, with its promise.
#![tactic(auto)]

mod accepted_line;
mod command;
pub mod laws;
mod verdict;

pub use crate::command::check;
