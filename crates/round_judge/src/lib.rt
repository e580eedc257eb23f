//! What is found for the classes in a round of an ordered plan: whether the evidence in force keeps each safe, new evidence
//! where it doesn't, or that no evidence does.
#![tactic(auto)]

mod goal;
mod judging;
mod picking;
mod rooms;
mod unsafe_class;

pub use goal::Goal;
pub use judging::{FoundEvidence, RoundVerdict, TriedRound, judge_all, judge_in_order};
pub use picking::put_picks;
pub use rooms::watch_rooms;
pub use unsafe_class::UnsafeClass;
