//! The promise of `drive` over a source that tells, with what holds of the network on the wire: the driver of `drive` does there what
//! the one does that can turn back.
#![tactic(auto)]

pub mod laws;
