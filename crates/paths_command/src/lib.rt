//! The command `paths`: writes where every class of a configuration goes, with its promise.
#![tactic(auto)]

mod command;
pub mod laws;
mod lines;
mod listing;
mod marks;

pub use crate::command::paths;
