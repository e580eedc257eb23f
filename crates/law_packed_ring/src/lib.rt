//! The packing of the sample's ring, whose rounds are counted.
#![tactic(auto)]

pub mod laws;
