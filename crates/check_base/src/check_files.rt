//! An update with its plan, fetched and read.
ghost use Rattle.std.specs.Prelude.{◌≡◌, ◌≤◌, IfOk, IfErr, OnOk, Some, Option};
ghost use Rattle.flow_rules.specs.Tables.{rules_of_all};
ghost use Rattle.path_walk.specs.UserConfigs.{IsUserConfig};
ghost use Rattle.certificates.specs.Valid.{IsValidPlan};
ghost use Rattle.command_base.specs.declared.kinds.FileKind.TheVariants as «kind»;
ghost use Rattle.command_base.specs.Dialogues.{FileRead, file_read, Gives, IsWhole};
ghost use Rattle.command_base.specs.Replies.{EndsEarly};
ghost use Rattle.check_base.specs.Checks.{check_dialogue, check_meaning_of};
ghost use Rattle.check_base.specs.Names.{names_seen};

use crate::names::CheckNames;
use certificates::Plan;
use command_base::{Exit, FileKind, UpdateFiles, read_plan_file, read_update};
use file_access::Source;
use std::alloc::Global;

/// An update and a plan of it.
#[derive(Drop)]
pub struct CheckFiles {
    pub update: UpdateFiles,
    pub plan: Plan,
}

/// Fetches and reads the files of an update, and its plan, which is valid.
///
/// # Errors
///
/// `ReadFault` where the source failed or doesn't hold a file; `Says` the line on a bad file; `Memory`.
pub fn read_check_files<S: Source>(
    alloc: Global,
    source: &mut S,
    names: &CheckNames<'_>,
) -> Result<CheckFiles, Exit>
    ensures gives { IfOk result (λ v. (last : Option FileRead)
        → Gives (S.held source.old) last (check_dialogue (names_seen names.now))
        (check_meaning_of v) (Some (file_read FileKind.Plan names.now.plan.now))) }
    ensures old_user { IfOk result (λ v. IsUserConfig v.update.net (rules_of_all v.update.old)) }
    ensures new_user { IfOk result (λ v. IsUserConfig v.update.net (rules_of_all v.update.new)) }
    ensures valid { IfOk result (λ v. IsValidPlan v.update.net v.plan) }
    ensures whole { OnOk result
        (IsWhole (Some (file_read FileKind.Plan names.now.plan.now)) (S.selected source.new)
        (S.taken source.new)) }
    ensures stops { IfErr result (λ e. (last : Option FileRead)
        → EndsEarly (S.held source.old) last (check_dialogue (names_seen names.now))
        (S.faults source.old) (S.faults source.new) e (S.selected source.new)
        (S.taken source.new)) }
    ensures held { S.held source.new ≡ S.held source.old }
    ensures later { S.faults source.old ≤ S.faults source.new }
{
    let update = read_update(alloc, source, &names.update)?;
    match read_plan_file(alloc, source, &update.net, names.plan) {
        Ok(plan) => Ok(CheckFiles { update, plan }),
        Err(exit) => {
            drop(update);
            Err(exit)
        }
    }
}
