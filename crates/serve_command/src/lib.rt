//! The command `serve`: the core of a controller that takes the lines of its input one after the other, and answers each with a
//! block, with its promise.
#![tactic(auto)]

mod answers;
mod beside;
mod command;
mod fault;
mod greeting;
mod input;
mod lines;
mod served_update;

pub use crate::beside::SourceBeside;
pub use crate::command::serve;
