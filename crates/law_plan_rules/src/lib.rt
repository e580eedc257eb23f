//! Rules that changes of a plan may write: those whose numbers a plan file and a message have room for.
#![tactic(auto)]

pub mod laws;
