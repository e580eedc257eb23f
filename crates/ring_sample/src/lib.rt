//! The ring of the sample: the texts of its files, and the update that they mean, read by the program's own readers.
#![tactic(auto)]

mod configuration;
mod policy;
mod size;
mod topology_text;
mod update;
mod values;

pub use crate::size::RingSize;
pub use crate::update::ring_update;
