//! Packing of updates of destination trees: it is never stuck, and takes few rounds.
#![tactic(auto)]

pub mod laws;
