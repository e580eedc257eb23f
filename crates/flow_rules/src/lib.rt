//! Patterns, rules, flow tables and lookup, after OpenFlow 1.0.0, sections 3.1 to 3.4.
#![tactic(auto)]

mod configs;
mod deletes;
pub mod laws;
mod order;
mod overlaps;
mod replaces;
mod rules;
mod searches;
mod tables;
mod tuple_space;

pub use configs::Config;
pub use order::key_order;
pub use rules::{Action, Key, Pattern, Rewrite, Rule, VlanTest, admits_port, admits_vlan};
pub use tables::Table;
pub use tuple_space::TupleSpace;
