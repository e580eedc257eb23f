//! The command that explains a plan.
ghost use Rattle.std.specs.Prelude.{◌≡◌, ◌≤◌, IfOk, IfErr};
ghost use Rattle.flow_rules.specs.Tables.{rules_of_all};
ghost use Rattle.path_walk.specs.UserConfigs.{IsUserConfig};
ghost use Rattle.certificates.specs.Valid.{IsValidPlan};
ghost use Rattle.command_base.specs.Replies.{answer_of, Meets};
ghost use Rattle.check_base.specs.Names.{names_seen};
ghost use Rattle.check_base.specs.Checks.{check_dialogue, check_meaning_of};
ghost use Rattle.explain_command.specs.Explained.{IsExplainAnswer};

use crate::verdict::explain_verdict;
use check_base::{CheckFiles, CheckNames, read_check_files};
use command_base::{Exit, Reply};
use file_access::Source;
use std::alloc::Global;

/// What is said of a plan that is explained, as the end of the command.
fn say_explained(alloc: Global, files: &CheckFiles) -> Result<Reply, Exit>
    requires old { IsUserConfig files.now.update.net (rules_of_all files.now.update.old) }
    requires new { IsUserConfig files.now.update.net (rules_of_all files.now.update.new) }
    requires valid { IsValidPlan files.now.update.net files.now.plan }
    ensures said { IfOk result
        (λ r. IsExplainAnswer (check_meaning_of files.now) (answer_of r)) }
    ensures stops { IfErr result (λ e. e ≡ Exit.Memory) }
{
    Ok(explain_verdict(alloc, &files.update, &files.plan)?)
}

/// Writes the schedule of a run of an ordered plan in which a packet breaks the policy, or says that there is none; or why the
/// plan's mixed walks can't be looked at.
pub fn explain<S: Source>(
    alloc: Global,
    source: &mut S,
    names: &CheckNames<'_>,
) -> Result<Reply, Exit>
    ensures meets { Meets IsExplainAnswer (S.held source.old)
        (check_dialogue (names_seen names.now))
        (S.faults source.old) (S.faults source.new) result (S.selected source.new)
        (S.taken source.new) }
    ensures held { S.held source.new ≡ S.held source.old }
    ensures later { S.faults source.old ≤ S.faults source.new }
{
    let files = read_check_files(alloc, source, names)?;
    let reply = say_explained(alloc, &files);
    drop(files);
    reply
}
