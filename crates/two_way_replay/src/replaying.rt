//! Carrying out a schedule of an update that may be turned back.
ghost use Rattle.std.specs.Prelude.{[], ◌≡◌, ◌<◌, ◌^◌, suc, OnOk, IfErr};
ghost use Rattle.two_way_replay.specs.CourseWorlds.{IsReplayedTo, StopsCourse, TakesOrStops};

use crate::schedule::{TwoWayLine, TwoWaySchedule};
use crate::world::TwoWayWorld;
use net_base::Memory;
use schedule_replay::ReplayFault;

/// Makes the step of a line. After a refusal the world is as before.
fn step_line(world: &mut TwoWayWorld<'_>, line: &TwoWayLine) -> Result<(), ReplayFault>
    requires { suc world.old.course.state.settles < 2 ^ 64 }
    ensures { TakesOrStops world.old world.new line.now result }
{
    if !world.enabled(&line.step) {
        return Err(ReplayFault::NotEnabled(line.line));
    }
    match world.step(line.step) {
        Ok(()) => Ok(()),
        Err(Memory) => Err(ReplayFault::Memory),
    }
}

/// Makes the steps of a schedule, one after the other, as far as each is enabled, in a world in which no round was settled yet.
/// After a refusal the world is that after the steps before.
pub fn replay_two_way(
    world: &mut TwoWayWorld<'_>,
    schedule: &TwoWaySchedule,
) -> Result<(), ReplayFault>
    requires { world.old.course.state.settles ≡ 0 }
    // All steps happened.
    ensures ok { OnOk result (IsReplayedTo world.old world.new schedule.now schedule.now []) }
    // The steps before the refusal happened.
    ensures err { IfErr result (λ fault. StopsCourse world.old world.new schedule.now fault) }
{
    for line in schedule.list() {
        step_line(world, line)?;
    }
    Ok(())
}
