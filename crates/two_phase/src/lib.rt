//! The two-phase plan, and what it is worth.
#![tactic(auto)]

mod bands;
mod blocks;
mod by_depth;
mod copies;
mod deep_rules;
mod labels;
pub mod laws;
mod layers;
mod needs;
mod planning;
mod ranks;
mod rounds;
mod switch_rules;
mod vlan_tags;

pub use by_depth::two_phase_by_depth;
pub use needs::need;
pub use planning::{TwoFault, two_phase};
