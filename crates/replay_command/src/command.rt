//! The command that carries out a recorded schedule.
ghost use Rattle.std.specs.Prelude.{◌≡◌, ◌≤◌, IfOk, IfErr};
ghost use Rattle.flow_rules.specs.Tables.{rules_of_all};
ghost use Rattle.path_walk.specs.UserConfigs.{IsUserConfig};
ghost use Rattle.certificates.specs.Valid.{IsValidPlan};
ghost use Rattle.command_base.specs.Replies.{answer_of, Meets};
ghost use Rattle.replay_command.specs.Names.{names_seen};
ghost use Rattle.replay_command.specs.Replayed.{meaning_of, replay_dialogue, IsReplayAnswer};

use crate::files::{ReplayFiles, read_replay_files};
use crate::names::ReplayNames;
use crate::replaying::replay_reply;
use command_base::{Exit, Reply};
use file_access::Source;
use std::alloc::Global;

/// What is said of a schedule, as the end of the command.
fn say_replayed(alloc: Global, files: &ReplayFiles) -> Result<Reply, Exit>
    requires user { IsUserConfig files.now.net (rules_of_all files.now.old) }
    requires valid { IsValidPlan files.now.net files.now.plan }
    ensures said { IfOk result (λ r. IsReplayAnswer (meaning_of files.now) (answer_of r)) }
    ensures stops { IfErr result (λ e. e ≡ Exit.Memory) }
{
    Ok(replay_reply(alloc, files)?)
}

/// Carries out a recorded schedule: writes where each packet went, or the line of the first event that can't happen.
pub fn replay<S: Source>(
    alloc: Global,
    source: &mut S,
    names: &ReplayNames<'_>,
) -> Result<Reply, Exit>
    ensures meets { Meets IsReplayAnswer (S.held source.old)
        (replay_dialogue (names_seen names.now)) (S.faults source.old) (S.faults source.new) result
        (S.selected source.new) (S.taken source.new) }
    ensures held { S.held source.new ≡ S.held source.old }
    ensures later { S.faults source.old ≤ S.faults source.new }
{
    let files = read_replay_files(alloc, source, names)?;
    let reply = say_replayed(alloc, &files);
    drop(files);
    reply
}
