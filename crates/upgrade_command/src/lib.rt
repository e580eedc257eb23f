//! The command `upgrade`: writes a plan in format 2, with its promise.
#![tactic(auto)]

mod command;
pub mod laws;

pub use crate::command::{plan_reply, upgrade};
