//! Driven runs: at each step a pilot names one of the events that may happen, and it is made.
#![tactic(auto)]

mod agenda;
mod counted;
mod driving;
mod flag_tree;
pub mod laws;
mod offers;
mod pilot;
mod safe_driving;

pub use driving::{Driven, drive};
use net_base::Place;
pub use pilot::Pilot;
pub use safe_driving::drive_safely;

/// A packet that is still to come: the place where it enters, which is a host port with a declared VLAN, and its IPv4
/// destination address.
#[derive(Clone, Copy, Debug, PartialEq, Eq)]
pub struct Entry {
    pub place: Place,
    pub dst: u32,
}

/// How a driven run ended.
#[derive(Clone, Copy, Debug, PartialEq, Eq)]
pub enum Ending {
    /// The last round is settled, all entries were made and no packet is under way.
    Finished,
    /// As many events as the budget were made, and more might be.
    OutOfBudget,
    /// No event may happen, though the run isn't over.
    Blocked,
}
