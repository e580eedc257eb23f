//! The two waits of a two-phase plan.
#![tactic(auto)]

pub mod laws;
