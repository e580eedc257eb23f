//! The rounds that take an update back.
#![tactic(auto)]

mod inverses;
pub mod laws;

pub use inverses::inverse_rounds;
