//! Spans of rounds between which no packet is waited for, and runs that wait only where they must.
#![tactic(auto)]

pub mod laws;
