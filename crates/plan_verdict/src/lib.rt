//! The verdict on a plan of an update: it is certified, or the first reason why it isn't.
#![tactic(auto)]

mod refusal;
mod verdict;

pub use refusal::refusal_reply;
pub use verdict::{PlanVerdict, plan_verdict};
