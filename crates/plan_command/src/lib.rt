//! The command `plan`: writes a certified plan of an update, or says why there is none, with its promise.
#![tactic(auto)]

mod command;
mod ends;
pub mod laws;
mod no_plan_lines;
mod planning;

pub use crate::command::plan;
pub use crate::ends::{EndsVerdict, break_reply, judge_ends};
pub use crate::no_plan_lines::tried_line;
pub use crate::planning::no_plan_reply;
