//! The command `certify`: evidence for the rounds of a plan, whatever evidence it has, with its promise.
#![tactic(auto)]

mod cause_lines;
mod certifying;
mod command;
pub mod laws;

pub use crate::command::certify;
