//! The command `pack`: writes a certified plan of an update with few rounds, or says why there is none, with its promise.
#![tactic(auto)]

mod command;
pub mod laws;
mod names;
mod packing;
mod phasing;
mod replies;

pub use crate::command::pack;
pub use crate::names::{PackKind, PackNames, pack_names};
