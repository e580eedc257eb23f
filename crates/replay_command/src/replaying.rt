//! What is said of a schedule.
ghost use Rattle.std.specs.Prelude.{◌≡◌, IfOk};
ghost use Rattle.flow_rules.specs.Tables.{rules_of_all};
ghost use Rattle.path_walk.specs.UserConfigs.{IsUserConfig};
ghost use Rattle.certificates.specs.Valid.{IsValidPlan};
ghost use Rattle.command_base.specs.Replies.{answer_of};
ghost use Rattle.replay_command.specs.Replayed.{meaning_of, IsReplayAnswer, not_a_run_line};

use crate::files::ReplayFiles;
use command_base::{Reply, Status};
use net_base::Memory;
use schedule_replay::{ReplayFault, replay, traces_text};
use std::alloc::Global;
use update_model::World;

/// The reply that names the line of a file in which something stands that can't happen.
pub fn not_a_run_reply(alloc: Global, line: u32) -> Result<Reply, Memory>
    ensures { IfOk result
        (λ r. answer_of r ≡ record { status = Status.NotARun; text = not_a_run_line line }) }
{
    Ok(Reply {
        status: Status::NotARun,
        text: format!(in alloc; "not a run: line {line}\n")?.into_bytes(),
    })
}

/// Carries out the events of the schedule, from the old tables on: the traces at the end, or the line of the first event that
/// isn't enabled.
pub fn replay_reply(alloc: Global, files: &ReplayFiles) -> Result<Reply, Memory>
    requires user { IsUserConfig files.now.net (rules_of_all files.now.old) }
    requires valid { IsValidPlan files.now.net files.now.plan }
    ensures { IfOk result (λ r. IsReplayAnswer (meaning_of files.now) (answer_of r)) }
{
    let mut world = World::begin(alloc, &files.net, &files.old, &files.plan.rounds)?;
    match replay(&mut world, &files.schedule) {
        Ok(()) => Ok(Reply {
            status: Status::Done,
            text: traces_text(alloc, &files.net, &world)?,
        }),
        Err(ReplayFault::NotEnabled(line)) => not_a_run_reply(alloc, line),
        Err(ReplayFault::Memory) => Err(Memory),
    }
}
