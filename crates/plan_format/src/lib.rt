//! The reader of plan files.
#![tactic(auto)]

mod changes;
mod evidence;
mod fault;
mod full_picks;
mod labels;
mod lists;
mod picks;
mod read;
mod rules;

pub use changes::{ChangeKind, PlanRules, Spelling};
pub use fault::PlanFault;
pub use read::read_plan;
pub use rules::{PlanRule, RuleWords, TestWord};
