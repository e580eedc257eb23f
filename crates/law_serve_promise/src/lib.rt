//! The promise of `serve` over a source that tells: what its blocks say, from line to line, of an update that may be turned back at
//! any moment.
#![tactic(auto)]

pub mod laws;
