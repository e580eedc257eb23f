//! The verdict on a plan: certified, or the first reason why it isn't.
ghost use Rattle.std.specs.Prelude.{IfOk, IfErr};
ghost use Rattle.flow_rules.specs.Tables.{rules_of_all};
ghost use Rattle.path_walk.specs.UserConfigs.{IsUserConfig};
ghost use Rattle.dest_classes.specs.Numbered.{IsCauseOf};
ghost use Rattle.certificates.specs.Valid.{IsValidPlan};
ghost use Rattle.certificates.specs.Certified.{classes_for};
ghost use Rattle.certificates.specs.Updates.{task_for};
ghost use Rattle.plan_checker.specs.Fits.{FitsPlan};
ghost use Rattle.command_base.specs.Updates.{meaning_of};
ghost use Rattle.plan_verdict.specs.Verdicts.{IsVerdictOn};

use certificates::Plan;
use check_base::class_of;
use command_base::UpdateFiles;
use dest_classes::{Class, ClassFault};
use plan_checker::{CheckRoom, Reason, Verdict};
use std::alloc::Global;

/// The verdict on a plan: it is certified, with the room of its check, which has its classes; or it isn't, for this first reason,
/// with the class that the reason names, if it names one.
#[derive(Drop)]
pub enum PlanVerdict {
    Certified(CheckRoom),
    Refused(Reason, Option<Class>),
}

/// The verdict on the plan, in a room for its check.
fn verdict_in(files: &UpdateFiles, plan: &Plan, mut room: CheckRoom) -> PlanVerdict
    requires old { IsUserConfig files.now.net (rules_of_all files.now.old) }
    requires new { IsUserConfig files.now.net (rules_of_all files.now.new) }
    requires valid { IsValidPlan files.now.net plan.now }
    requires fits { FitsPlan (task_for (meaning_of files.now) plan.now) plan.now.evidence room }
    ensures { IsVerdictOn (task_for (meaning_of files.now) plan.now) plan.now.evidence result }
{
    let verdict = plan_checker::check(
        &files.net,
        &files.old,
        &files.new,
        &files.demands,
        plan,
        &mut room,
    );
    match verdict {
        Verdict::Accepted => PlanVerdict::Certified(room),
        Verdict::Refused(reason) => {
            let class = class_of(room.classes(), reason);
            drop(room);
            PlanVerdict::Refused(reason, class)
        }
    }
}

/// The verdict on the plan of an update: whether it is certified, and so every run of it consistent, or the first reason why not.
///
/// # Errors
///
/// `TooManyClasses` with their number where there are more than 8192; `Memory`.
pub fn plan_verdict(
    alloc: Global,
    files: &UpdateFiles,
    plan: &Plan,
) -> Result<PlanVerdict, ClassFault>
    requires old { IsUserConfig files.now.net (rules_of_all files.now.old) }
    requires new { IsUserConfig files.now.net (rules_of_all files.now.new) }
    requires valid { IsValidPlan files.now.net plan.now }
    ensures verdict { IfOk result
        (IsVerdictOn (task_for (meaning_of files.now) plan.now) plan.now.evidence) }
    ensures none { IfErr result
        (IsCauseOf (classes_for (task_for (meaning_of files.now) plan.now))) }
{
    let room = CheckRoom::make(
        alloc,
        &files.net,
        &files.old,
        &files.new,
        &files.demands,
        plan,
    )?;
    Ok(verdict_in(files, plan, room))
}
