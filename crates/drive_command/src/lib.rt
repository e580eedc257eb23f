//! The command `drive`: gives a driver of a certified plan the inputs of a file, and writes what it sent, which sessions failed,
//! its log and how far the update is, with its promise.
#![tactic(auto)]

mod command;
mod driving;
pub mod laws;
mod names;
mod readings;
mod report;
mod verdict;

pub use crate::command::drive;
pub use crate::names::{DriveNames, drive_names};
