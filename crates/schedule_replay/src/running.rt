//! Carrying out a schedule.
ghost use Rattle.std.specs.Prelude.{[], OnOk, IfErr};
ghost use Rattle.schedule_replay.specs.Replays.{IsCarriedOut, StopsBy, StepsOrStops};

use crate::schedule::{Schedule, ScheduleLine};
use update_model::{StepFault, World};

/// Why a schedule wasn't carried out whole.
#[derive(Clone, Copy, Debug, PartialEq, Eq)]
pub enum ReplayFault {
    /// The event in the line of this number isn't enabled, the first such.
    NotEnabled(u32),
    /// Memory was wanting.
    Memory,
}

/// Makes the event of a line. After a refusal the world is as before.
fn step_line(world: &mut World, line: &ScheduleLine) -> Result<(), ReplayFault>
    ensures { StepsOrStops world.old world.new line.now result }
{
    if !world.enabled(&line.event) {
        return Err(ReplayFault::NotEnabled(line.line));
    }
    match world.step(line.event) {
        Ok(()) => Ok(()),
        Err(StepFault::Memory) => Err(ReplayFault::Memory),
        Err(StepFault::NotEnabled) => unreachable!(),
    }
}

/// Makes the events of a schedule, one after the other, as far as each is enabled. After a refusal the world is that after
/// the events before, and can go on from there.
pub fn replay(world: &mut World, schedule: &Schedule) -> Result<(), ReplayFault>
    // All events happened.
    ensures ok { OnOk result (IsCarriedOut world.old world.new schedule.now schedule.now []) }
    // The events before the refusal happened.
    ensures err { IfErr result (λ fault. StopsBy world.old world.new schedule.now fault) }
{
    for line in schedule.list() {
        step_line(world, line)?;
    }
    Ok(())
}
