//! What the mixed walks of the classes in a round show: which of them can't break their duties there.
#![tactic(auto)]

mod gates;
mod judge;
mod keeping;
mod looking;
mod members;
mod seen;
mod stepping;
mod survey;

pub use keeping::keep_vlans;
pub use survey::survey_round;
