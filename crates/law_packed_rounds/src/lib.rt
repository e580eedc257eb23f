//! Rounds that are filled: each holds every change that can still stand in it.
#![tactic(auto)]

pub mod laws;
