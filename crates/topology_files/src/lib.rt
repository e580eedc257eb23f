//! The reader of topology files.
#![tactic(auto)]

mod fault;
mod read;
mod small;

pub use fault::NetFault;
pub use read::read_net;
pub use small::is_name;
