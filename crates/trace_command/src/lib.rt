//! The command `trace`: follows one packet through a configuration and says by which rule it goes on at each stop, with its promise.
#![tactic(auto)]

mod command;
mod files;
pub mod laws;
mod lines;
mod names;
mod replying;
mod spelling;

pub use crate::command::trace;
pub use crate::names::{EntryName, TraceNames, trace_names};
