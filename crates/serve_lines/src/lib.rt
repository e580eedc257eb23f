//! The lines that a controller's core is given one at a time, and the block of text that answers each of them.
#![tactic(auto)]

mod blocks;
mod fault;
pub mod laws;
mod line;
mod open_line;
mod read;

pub use blocks::{LineOutcome, block_text};
pub use fault::LineFault;
pub use line::ServeLine;
pub use open_line::OpenLine;
pub use read::read_line;
