//! The reader of a schedule.
ghost use Rattle.std.specs.Prelude.{◌≡◌, ◌==◌, Ok, MatchResult, []};
ghost use Rattle.net_base.specs.Reading.{Gives, Fails, in_turn};
ghost use Rattle.schedule_replay.specs.declared.fault.ScheduleFault.TheVariants.{Memory};
ghost use Rattle.net_base.specs.Lines.{lines_of};
ghost use Rattle.schedule_replay.specs.Schedules as schedules;

use crate::event_lines::read_event;
use crate::fault::ScheduleFault;
use crate::schedule::{Schedule, ScheduleLine};
use net_base::{is_comment, place_of};
use std::alloc::Global;
use topology::Net;

const MAX_EVENTS: usize = 4_000_000;

/// Reads a line, which may be a comment.
#[tactic(auto, unfolding(crate::specs::Schedules::event_at))]
fn read_line(
    net: &Net,
    schedule: &mut Schedule,
    number: u32,
    line: &[u8],
) -> Result<(), ScheduleFault>
    ensures { let read = schedules.line_at net.now number schedule.old line.now in
        MatchResult result (λ _. read ≡ Ok schedule.new) (λ e. Fails Memory e read) }
{
    if is_comment(line) {
        return Ok(());
    }
    let event = read_event(net, line).ok_or(ScheduleFault::BadLine(number))?;
    if schedule.list().len() >= MAX_EVENTS {
        return Err(ScheduleFault::TooMany);
    }
    schedule.add(ScheduleLine {
        line: number,
        event,
    })?;
    Ok(())
}

/// The events of a schedule, each with the number of its line, from 1: `start`, `settle`, `change N`,
/// `enter SWITCH:PORT VLAN ADDRESS`, `hop N` or `lose N`. Lines end with byte 0a, which the last may lack; a line that is
/// empty or begins with `#` is a comment. The first line that isn't one of these is the refusal, or the 4,000,001st event
/// where it comes earlier. Whether an event is enabled is a matter of the run. The cost is that of one pass over the bytes.
pub fn read_schedule(alloc: Global, net: &Net, bytes: &[u8]) -> Result<Schedule, ScheduleFault>
    ensures { Gives Memory (λ s. s) result (schedules.schedule_in net.now bytes.now) }
{
    let mut schedule = Schedule::of(Vec::new(alloc));
    for (i, line) in bytes.split(|b| *b == b'\n').enumerate() {
        read_line(net, &mut schedule, place_of(i + 1), line)?;
    }
    Ok(schedule)
}
