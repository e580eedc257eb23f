//! The tables that switches have, read from their flow statistics (OpenFlow 1.0).
#![tactic(auto)]

mod adding;
mod entries;
mod fault;
mod fields;
mod index;
pub mod laws;
mod lines;
mod messages;
mod profile;
mod read;

pub use fault::{StatsFault, StatsField};
pub use read::read_replies;
