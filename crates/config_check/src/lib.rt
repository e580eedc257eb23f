//! Classes with their duties, and their paths against these.
#![tactic(auto)]

mod breaking;
mod checking;
mod classed;
mod ends;
pub mod laws;
mod met;
mod waypoints;

pub use breaking::how_broken;
pub use checking::check_config;
pub use classed::Classed;
pub use ends::{EndBreak, first_end_break};
pub use met::MetPath;
use net_base::SwitchId;

/// How a path breaks its duties: it visits a switch again, is dropped there and must arrive, or misses a waypoint.
#[derive(Clone, Copy)]
pub enum How {
    Loop(SwitchId),
    Dropped(SwitchId),
    Missed(SwitchId),
}

/// A class whose path isn't good, and how.
#[derive(Clone, Copy)]
pub struct Breaks {
    pub class: u32,
    pub how: How,
}
