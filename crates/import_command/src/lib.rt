//! The command `import`: makes a configuration from the flow statistics that switches answered, with its promise.
#![tactic(auto)]

mod command;
pub mod laws;
mod names;
mod readings;

pub use crate::command::import;
pub use crate::names::{ImportNames, import_names};
