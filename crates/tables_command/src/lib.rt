//! The command `tables`: carries out a recorded schedule, which may turn rounds back, and writes the rules that the switches then
//! have, with its promise.
#![tactic(auto)]

mod command;
mod files;
pub mod laws;
mod listing;
mod readings;
mod replying;

pub use crate::command::tables;
pub use crate::files::TablesFiles;
