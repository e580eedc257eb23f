//! Configurations as files of JSON, which list the rules of all switches: the reader, and the writer.
#![tactic(auto)]

mod fault;
mod read;
mod rules;
mod write;

pub use fault::ConfigFault;
pub use read::{over_capacity, read_config};
pub use write::config_text;
