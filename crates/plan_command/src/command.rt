//! The command that plans an update.
ghost use Rattle.std.specs.Prelude.{◌≡◌, ◌≤◌, IfOk, IfErr};
ghost use Rattle.flow_rules.specs.Tables.{rules_of_all};
ghost use Rattle.path_walk.specs.UserConfigs.{IsUserConfig};
ghost use Rattle.command_base.specs.Names.{names_seen};
ghost use Rattle.command_base.specs.Readings.{reading_update};
ghost use Rattle.command_base.specs.Replies.{answer_of, Meets};
ghost use Rattle.command_base.specs.Updates.{meaning_of};
ghost use Rattle.plan_command.specs.Planned.{IsPlanned};

use crate::planning::new_plan;
use command_base::{Exit, Reply, UpdateFiles, UpdateNames, read_update};
use file_access::Source;
use std::alloc::Global;

/// What is said of an update as the end of the command.
fn say_plan(alloc: Global, files: &UpdateFiles) -> Result<Reply, Exit>
    requires old { IsUserConfig files.now.net (rules_of_all files.now.old) }
    requires new { IsUserConfig files.now.net (rules_of_all files.now.new) }
    ensures said { IfOk result (λ r. IsPlanned (meaning_of files.now) (answer_of r)) }
    ensures stops { IfErr result (λ e. e ≡ Exit.Memory) }
{
    Ok(new_plan(alloc, files)?)
}

/// Plans an update. The reply is Done and the plan's text, Refused and the first break of an end, too few tags or too small a
/// table with the rounds that were tried, or a bad file's line.
///
/// # Errors
///
/// The early end of a reading, or want of memory.
pub fn plan<S: Source>(
    alloc: Global,
    source: &mut S,
    names: &UpdateNames<'_>,
) -> Result<Reply, Exit>
    ensures meets { Meets IsPlanned (S.held source.old) (reading_update (names_seen names.now))
        (S.faults source.old) (S.faults source.new) result (S.selected source.new)
        (S.taken source.new) }
    ensures held { S.held source.new ≡ S.held source.old }
    ensures later { S.faults source.old ≤ S.faults source.new }
{
    let files = read_update(alloc, source, names)?;
    let reply = say_plan(alloc, &files);
    drop(files);
    reply
}
