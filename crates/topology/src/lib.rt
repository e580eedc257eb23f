//! A network of switches with its links, host ports, declared VLANs and tag range.
#![tactic(auto)]

pub mod laws;
mod net;
mod ports;
mod references;
mod switches;
mod vlan_ids;

pub use net::{End, Link, Net};
pub use references::reference_parts;
pub use vlan_ids::is_vlan_id;
