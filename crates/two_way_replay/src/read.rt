//! The reader of a schedule of an update that may be turned back.
ghost use Rattle.std.specs.Prelude.{◌≡◌, ◌==◌, Ok, MatchResult, []};
ghost use Rattle.net_base.specs.Reading.{Gives, Fails, in_turn};
ghost use Rattle.net_base.specs.Lines.{lines_of};
ghost use Rattle.schedule_replay.specs.declared.fault.ScheduleFault.TheVariants.{Memory};
ghost use Rattle.two_way_replay.specs.TwoWaySchedules as schedules;

use crate::schedule::{TwoWayLine, TwoWaySchedule};
use crate::step_lines::read_step;
use net_base::{is_comment, place_of};
use schedule_replay::ScheduleFault;
use std::alloc::Global;
use topology::Net;

const MAX_STEPS: usize = 4_000_000;

/// Reads a line, which may be a comment.
#[tactic(auto, unfolding(crate::specs::TwoWaySchedules::two_way_step_at))]
fn read_line(
    net: &Net,
    schedule: &mut TwoWaySchedule,
    number: u32,
    line: &[u8],
) -> Result<(), ScheduleFault>
    ensures { let read = schedules.two_way_line_at net.now number schedule.old line.now in
        MatchResult result (λ _. read ≡ Ok schedule.new) (λ e. Fails Memory e read) }
{
    if is_comment(line) {
        return Ok(());
    }
    let step = read_step(net, line).ok_or(ScheduleFault::BadLine(number))?;
    if schedule.list().len() >= MAX_STEPS {
        return Err(ScheduleFault::TooMany);
    }
    schedule.add(TwoWayLine { line: number, step })?;
    Ok(())
}

/// The steps of a schedule, each with the number of its line, from 1. Its lines are those of a schedule of a run that is never
/// turned back, and besides `back` and `undo N`; the refusals are the same. The cost is that of one pass over the bytes.
pub fn read_two_way_schedule(
    alloc: Global,
    net: &Net,
    bytes: &[u8],
) -> Result<TwoWaySchedule, ScheduleFault>
    ensures { Gives Memory (λ s. s) result (schedules.two_way_schedule_in net.now bytes.now) }
{
    let mut schedule = TwoWaySchedule::of(Vec::new(alloc));
    for (i, line) in bytes.split(|b| *b == b'\n').enumerate() {
        read_line(net, &mut schedule, place_of(i + 1), line)?;
    }
    Ok(schedule)
}
