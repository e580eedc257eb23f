//! The command `replay`: carries out a recorded schedule on the run machine and writes where each packet went, with its promise.
#![tactic(auto)]

mod command;
mod files;
pub mod laws;
mod names;
mod readings;
mod replaying;

pub use crate::command::replay;
pub use crate::files::{ReplayFiles, read_replay_files};
pub use crate::names::{ReplayNames, replay_names};
pub use crate::readings::schedule_fault;
pub use crate::replaying::not_a_run_reply;
