//! The command `config`: says whether the paths of a configuration are good, with its promise.
#![tactic(auto)]

mod command;
mod files;
pub mod laws;
mod lines;
mod names;
mod verdict;

pub use crate::command::config;
pub use crate::files::{ConfigFiles, read_config_files};
pub use crate::names::{ConfigNames, config_names};
pub use crate::verdict::prefixes_of;
