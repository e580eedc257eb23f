//! The classes of a round of a two-phase plan: whether each has its certificate.
#![tactic(auto)]

mod keeping;
mod labels;
mod straying;
mod two_phase;

pub use two_phase::TwoPhaseRoom;
