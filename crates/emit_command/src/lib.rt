//! The command `emit`: writes the OpenFlow 1.0 messages that carry a plan out, one a line, with its promise.
#![tactic(auto)]

mod command;
pub mod laws;
mod lines;

pub use crate::command::{emit, emit_reply};
pub use crate::lines::emit_lines;
