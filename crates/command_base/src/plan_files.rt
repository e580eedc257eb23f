//! A topology and a plan of it.
ghost use Rattle.std.specs.Prelude.{◌≡◌, ◌≤◌, IfOk, IfErr, OnOk, Some, Option};
ghost use Rattle.certificates.specs.Valid.{IsValidPlan};
ghost use Rattle.command_base.specs.declared.kinds.FileKind.{FileKind};
ghost use Rattle.command_base.specs.Names.{plan_names_seen};
ghost use Rattle.command_base.specs.Updates.{plan_meaning_of};
ghost use Rattle.command_base.specs.Dialogues.{FileRead, file_read, Gives, IsWhole};
ghost use Rattle.command_base.specs.Readings.{reading_plan_files};
ghost use Rattle.command_base.specs.Replies.{EndsEarly};

use crate::exit::Exit;
use crate::kinds::FileKind;
use crate::names::PlanNames;
use crate::readings::{read_plan_file, read_topology};
use certificates::Plan;
use file_access::Source;
use std::alloc::Global;
use topology::Net;

/// A network and a plan of it.
#[derive(Drop)]
pub struct PlanFiles {
    pub net: Net,
    pub plan: Plan,
}

/// Fetches and reads a topology and a plan of it, which is valid.
///
/// # Errors
///
/// `ReadFault` where the source failed or doesn't hold a file; `Says` the line on a bad file; `Memory`.
pub fn read_plan_files<S: Source>(
    alloc: Global,
    source: &mut S,
    names: &PlanNames<'_>,
) -> Result<PlanFiles, Exit>
    ensures gives { IfOk result (λ v. (last : Option FileRead)
        → Gives (S.held source.old) last (reading_plan_files (plan_names_seen names.now))
        (plan_meaning_of v) (Some (file_read FileKind.Plan names.now.plan.now))) }
    ensures valid { IfOk result (λ v. IsValidPlan v.net v.plan) }
    ensures whole { OnOk result
        (IsWhole (Some (file_read FileKind.Plan names.now.plan.now)) (S.selected source.new)
        (S.taken source.new)) }
    ensures stops { IfErr result (λ e. (last : Option FileRead)
        → EndsEarly (S.held source.old) last (reading_plan_files (plan_names_seen names.now))
        (S.faults source.old) (S.faults source.new) e (S.selected source.new)
        (S.taken source.new)) }
    ensures held { S.held source.new ≡ S.held source.old }
    ensures later { S.faults source.old ≤ S.faults source.new }
{
    let net = read_topology(alloc, source, names.topology)?;
    match read_plan_file(alloc, source, &net, names.plan) {
        Ok(plan) => Ok(PlanFiles { net, plan }),
        Err(exit) => {
            drop(net);
            Err(exit)
        }
    }
}
