//! Events with the lines in which they stand.

use net_base::ListOf;
use update_model::Event;

/// An event of a schedule.
#[derive(Clone, Copy, PartialEq, Eq)]
pub struct ScheduleLine {
    /// The number of its line, from 1; 4294967295 for every line from there on.
    pub line: u32,
    pub event: Event,
}

/// A recorded run: the events in order, each with the number of its line.
pub type Schedule = ListOf<ScheduleLine>;
