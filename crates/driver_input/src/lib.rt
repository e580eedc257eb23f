//! What happens at a driver of switch sessions, as a file tells it: starts of rounds, and pieces of bytes from switches.
#![tactic(auto)]

mod fault;
mod inputs;
mod lines;
mod read;

pub use fault::InputFault;
pub use inputs::{Input, InputLine, Inputs, Piece};
pub use read::read_input;
