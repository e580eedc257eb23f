//! Runs of an update that is carried out, taken back, and carried out again, with packets on their way.
#![tactic(auto)]

pub mod laws;
