//! The reply on a plan that isn't certified.
ghost use Rattle.std.specs.Prelude.{◌≤◌, IfOk, IfNone, IfSome};
ghost use Rattle.flow_rules.specs.Tables.{rules_of_all};
ghost use Rattle.path_walk.specs.UserConfigs.{IsUserConfig};
ghost use Rattle.dest_classes.specs.Classes.{class_count};
ghost use Rattle.certificates.specs.Valid.{IsValidPlan};
ghost use Rattle.certificates.specs.Certified.{IsCertified, classes_for};
ghost use Rattle.certificates.specs.Updates.{task_for};
ghost use Rattle.command_base.specs.Judgements.{most_classes};
ghost use Rattle.command_base.specs.Replies.{answer_of};
ghost use Rattle.command_base.specs.Updates.{meaning_of};
ghost use Rattle.plan_verdict.specs.Verdicts.{IsPlanRefusal};

use crate::verdict::{PlanVerdict, plan_verdict};
use certificates::Plan;
use check_base::refused_reply;
use command_base::{Reply, UpdateFiles, no_classes_reply};
use net_base::Memory;
use std::alloc::Global;

/// The reply where the plan of an update isn't certified: on too many classes, or on the first reason why not. There is none where
/// the plan is certified.
pub fn refusal_reply(
    alloc: Global,
    files: &UpdateFiles,
    plan: &Plan,
) -> Result<Option<Reply>, Memory>
    requires old { IsUserConfig files.now.net (rules_of_all files.now.old) }
    requires new { IsUserConfig files.now.net (rules_of_all files.now.new) }
    requires valid { IsValidPlan files.now.net plan.now }
    ensures certified { IfOk result (λ refusal. IfNone refusal
        (IsCertified (task_for (meaning_of files.now) plan.now) plan.now.evidence)) }
    ensures few { IfOk result (λ refusal. IfNone refusal
        (class_count (classes_for (task_for (meaning_of files.now) plan.now)) ≤ most_classes)) }
    ensures refused { IfOk result (λ refusal. IfSome refusal (λ r.
        IsPlanRefusal (task_for (meaning_of files.now) plan.now) plan.now.evidence
        (answer_of r))) }
{
    match plan_verdict(alloc, files, plan) {
        Ok(PlanVerdict::Certified(room)) => {
            drop(room);
            Ok(None)
        }
        Ok(PlanVerdict::Refused(reason, class)) => {
            Ok(Some(refused_reply(alloc, &files.net, class, reason)?))
        }
        Err(fault) => Ok(Some(no_classes_reply(alloc, fault)?)),
    }
}
