//! Schedules of updates that may be turned back, fetched and read.
ghost use Rattle.std.specs.Prelude.{◌≡◌, ◌≤◌, IfOk, IfErr, OnOk, Ok, Some, Option};
ghost use Rattle.two_way_replay.specs.TwoWaySchedules.{two_way_schedule_in};
ghost use Rattle.command_base.specs.declared.kinds.FileKind.TheVariants as «kind»;
ghost use Rattle.command_base.specs.Dialogues.{FileRead, file_read, Gives, IsWhole};
ghost use Rattle.command_base.specs.Replies.{IsBad, EndsEarly};
ghost use Rattle.replay_command.specs.Replayed.{schedule_words};
ghost use Rattle.tables_command.specs.Tabled.{reading_two_way};

use command_base::{Exit, FileKind, bad_reply, fetch_file};
use file_access::Source;
use replay_command::schedule_fault;
use schedule_replay::ScheduleFault;
use std::alloc::Global;
use topology::Net;
use two_way_replay::{TwoWaySchedule, read_two_way_schedule};

/// The schedule that the bytes mean.
fn schedule_of(alloc: Global, net: &Net, bytes: &[u8]) -> Result<TwoWaySchedule, Exit>
    ensures ok { IfOk result (λ s. two_way_schedule_in net.now bytes.now ≡ Ok s) }
    ensures bad { IfErr result
        (λ e. IsBad FileKind.Schedule schedule_words (two_way_schedule_in net.now bytes.now) e) }
{
    match read_two_way_schedule(alloc, net, bytes) {
        Ok(schedule) => Ok(schedule),
        Err(ScheduleFault::Memory) => Err(Exit::Memory),
        Err(fault) => Err(Exit::Says(bad_reply(alloc, FileKind::Schedule, schedule_fault(fault))?)),
    }
}

/// Fetches and reads a schedule of the network.
///
/// # Errors
///
/// `ReadFault` where the source failed or doesn't hold the file; `Says` the line on a bad file; `Memory`.
pub(crate) fn read_two_way_file<S: Source>(
    alloc: Global,
    source: &mut S,
    net: &Net,
    name: &str,
) -> Result<TwoWaySchedule, Exit>
    ensures gives { IfOk result (λ v. (last : Option FileRead)
        → Gives (S.held source.old) last (reading_two_way net.now name.now) v
        (Some (file_read FileKind.Schedule name.now))) }
    ensures whole { OnOk result
        (IsWhole (Some (file_read FileKind.Schedule name.now)) (S.selected source.new)
        (S.taken source.new)) }
    ensures stops { IfErr result (λ e. (last : Option FileRead)
        → EndsEarly (S.held source.old) last (reading_two_way net.now name.now)
        (S.faults source.old) (S.faults source.new) e (S.selected source.new)
        (S.taken source.new)) }
    ensures held { S.held source.new ≡ S.held source.old }
    ensures later { S.faults source.old ≤ S.faults source.new }
{
    let bytes = fetch_file(alloc, source, FileKind::Schedule, name)?;
    schedule_of(alloc, net, &bytes)
}
