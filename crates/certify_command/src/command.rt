//! The command that makes evidence for rounds.
ghost use Rattle.std.specs.Prelude.{◌≡◌, ◌≤◌, IfOk, IfErr};
ghost use Rattle.flow_rules.specs.Tables.{rules_of_all};
ghost use Rattle.path_walk.specs.UserConfigs.{IsUserConfig};
ghost use Rattle.certificates.specs.Valid.{IsValidPlan};
ghost use Rattle.command_base.specs.Replies.{answer_of, Meets};
ghost use Rattle.check_base.specs.Names.{names_seen};
ghost use Rattle.check_base.specs.Checks.{check_dialogue, check_meaning_of};
ghost use Rattle.certify_command.specs.Answers.{IsCertifyAnswer};

use crate::certifying::rounds_reply;
use check_base::{CheckFiles, CheckNames, read_check_files};
use command_base::{Exit, Reply};
use file_access::Source;
use std::alloc::Global;

/// What is said of the rounds as the end of the command.
fn say_rounds(alloc: Global, files: CheckFiles) -> Result<Reply, Exit>
    requires old { IsUserConfig files.update.net (rules_of_all files.update.old) }
    requires new { IsUserConfig files.update.net (rules_of_all files.update.new) }
    requires valid { IsValidPlan files.update.net files.plan }
    ensures said { IfOk result
        (λ r. IsCertifyAnswer (check_meaning_of files) (answer_of r)) }
    ensures stops { IfErr result (λ e. e ≡ Exit.Memory) }
{
    let CheckFiles { update, plan } = files;
    let reply = rounds_reply(alloc, &update, plan);
    drop(update);
    Ok(reply?)
}

/// Makes evidence that certifies the rounds of the plan of an update, whatever evidence that has, and writes the plan with it; or
/// says why none certifies them.
pub fn certify<S: Source>(
    alloc: Global,
    source: &mut S,
    names: &CheckNames<'_>,
) -> Result<Reply, Exit>
    ensures meets { Meets IsCertifyAnswer (S.held source.old)
        (check_dialogue (names_seen names.now))
        (S.faults source.old) (S.faults source.new) result (S.selected source.new)
        (S.taken source.new) }
    ensures held { S.held source.new ≡ S.held source.old }
    ensures later { S.faults source.old ≤ S.faults source.new }
{
    let files = read_check_files(alloc, source, names)?;
    say_rounds(alloc, files)
}
