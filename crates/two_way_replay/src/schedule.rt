//! Steps of an update that may be turned back, with the lines in which they stand.

use net_base::ListOf;
use update_model::Event;

/// What a line of a schedule says of an update that may be turned back.
#[derive(Clone, Copy, PartialEq, Eq)]
pub enum TwoWayStep {
    /// An event, as in a run that is never turned back. `Settle` settles the running round the way that it goes.
    Event(Event),
    /// The change of this number in the running round, from 0, is taken back at its switch.
    Undo(usize),
    /// The running round is turned; where none runs, the round that was settled last begins to be taken back.
    Back,
}

/// A step of a schedule.
#[derive(Clone, Copy, PartialEq, Eq)]
pub struct TwoWayLine {
    /// The number of its line, from 1; 4294967295 for every line from there on.
    pub line: u32,
    pub step: TwoWayStep,
}

/// A recorded run: the steps in order, each with the number of its line.
pub type TwoWaySchedule = ListOf<TwoWayLine>;
