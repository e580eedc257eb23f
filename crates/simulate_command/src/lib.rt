//! The command `simulate`: drives a run of a certified plan to its end and records it, with its promise.
#![tactic(auto)]

mod command;
pub mod laws;
mod names;
mod simulation;
mod traffic;
mod verdict;
mod words;

pub use crate::command::simulate;
pub use crate::names::SimulateNames;
pub use crate::words::simulate_names;
