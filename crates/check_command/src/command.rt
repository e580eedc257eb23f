//! The command that checks a plan.
ghost use Rattle.std.specs.Prelude.{◌≡◌, ◌≤◌, IfOk, IfErr};
ghost use Rattle.flow_rules.specs.Tables.{rules_of_all};
ghost use Rattle.path_walk.specs.UserConfigs.{IsUserConfig};
ghost use Rattle.certificates.specs.Valid.{IsValidPlan};
ghost use Rattle.command_base.specs.Replies.{answer_of, Meets};
ghost use Rattle.check_base.specs.Names.{names_seen};
ghost use Rattle.check_base.specs.Checks.{check_dialogue, check_meaning_of};
ghost use Rattle.check_command.specs.Checks.{IsCheckAnswer};

use crate::verdict::verdict_reply;
use check_base::{CheckFiles, CheckNames, read_check_files};
use command_base::{Exit, Reply};
use file_access::Source;
use std::alloc::Global;

/// The verdict on a plan as the end of the command.
fn say_verdict(alloc: Global, files: &CheckFiles) -> Result<Reply, Exit>
    requires old { IsUserConfig files.now.update.net (rules_of_all files.now.update.old) }
    requires new { IsUserConfig files.now.update.net (rules_of_all files.now.update.new) }
    requires valid { IsValidPlan files.now.update.net files.now.plan }
    ensures said { IfOk result
        (λ r. IsCheckAnswer (check_meaning_of files.now) (answer_of r)) }
    ensures stops { IfErr result (λ e. e ≡ Exit.Memory) }
{
    Ok(verdict_reply(alloc, &files.update, &files.plan)?)
}

/// Says whether the plan of an update is certified.
pub fn check<S: Source>(
    alloc: Global,
    source: &mut S,
    names: &CheckNames<'_>,
) -> Result<Reply, Exit>
    ensures meets { Meets IsCheckAnswer (S.held source.old) (check_dialogue (names_seen names.now))
        (S.faults source.old) (S.faults source.new) result (S.selected source.new)
        (S.taken source.new) }
    ensures held { S.held source.new ≡ S.held source.old }
    ensures later { S.faults source.old ≤ S.faults source.new }
{
    let files = read_check_files(alloc, source, names)?;
    let reply = say_verdict(alloc, &files);
    drop(files);
    reply
}
