//! Recorded runs of an update that may be turned back: their schedules, and their replay.
#![tactic(auto)]

mod earlier;
pub mod laws;
mod read;
mod replaying;
mod schedule;
mod step_lines;
mod travellers;
mod world;

pub use read::read_two_way_schedule;
pub use replaying::replay_two_way;
pub use schedule::{TwoWayLine, TwoWaySchedule, TwoWayStep};
pub use world::TwoWayWorld;
