//! Recorded runs: schedules of events and their text, their replay, and the traces of the packets.
#![tactic(auto)]

mod event_lines;
mod event_texts;
mod fault;
mod read;
mod running;
mod schedule;
mod traces;

pub use event_lines::read_event;
pub use event_texts::{add_line, events_text, runs_have_lines, schedule_text, switch_text};
pub use fault::ScheduleFault;
pub use read::read_schedule;
pub use running::{ReplayFault, replay};
pub use schedule::{Schedule, ScheduleLine};
pub use traces::{phase_line, record_text, traces_text};
