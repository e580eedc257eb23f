//! The text of plans: the one spelling, in format 2; and that of tables, whose rules are spelled as in a plan.
#![tactic(auto)]

mod write;
mod write_changes;
mod write_evidence;
mod write_lists;
mod write_tables;
mod write_used;

pub use write::{rounds_text, write_plan};
pub use write_tables::tables_text;
