//! The messages of OpenFlow 1.0 that carry out rounds, and what each switch gets of them.
#![tactic(auto)]

mod changed;
pub mod laws;

pub use changed::changed_switches;
