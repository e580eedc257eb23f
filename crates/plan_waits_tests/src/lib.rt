//! Tests of the waits of plans.
#![tactic(auto)]

#[cfg(test)]
mod waits_tests;
