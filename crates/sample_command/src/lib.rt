//! The command `sample`: plans and checks a large update of its own making, and says so in one line, with its promise.
#![tactic(auto)]

mod command;
pub mod laws;
mod planning;
mod summary;
mod words;

pub use crate::command::sample;
pub use crate::words::ring_size;
pub use ring_sample::RingSize;
