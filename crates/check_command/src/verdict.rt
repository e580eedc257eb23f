//! The verdict on a plan: too many classes, certified, or the first reason why it isn't.
ghost use Rattle.std.specs.Prelude.{◌≡◌, ◌≤◌, IfOk, length};
ghost use Rattle.flow_rules.specs.Tables.{rules_of_all};
ghost use Rattle.path_walk.specs.UserConfigs.{IsUserConfig};
ghost use Rattle.dest_classes.specs.Classes.{class_count};
ghost use Rattle.certificates.specs.Valid.{IsValidPlan};
ghost use Rattle.certificates.specs.Certified.{classes_for};
ghost use Rattle.plan_checker.specs.Fits.{Fits};
ghost use Rattle.certificates.specs.Updates.{task_for};
ghost use Rattle.command_base.specs.Updates.{meaning_of};
ghost use Rattle.command_base.specs.Replies.{answer_of};
ghost use Rattle.check_command.specs.AcceptedLine as lines;
ghost use Rattle.check_command.specs.Checks.{IsPlanVerdict};

use crate::accepted_line::accepted_line;
use certificates::Plan;
use check_base::refused_reply;
use command_base::{Reply, Status, UpdateFiles, no_classes_reply};
use net_base::Memory;
use plan_verdict::{PlanVerdict, plan_verdict};
use std::alloc::Global;

fn accepted_reply(alloc: Global, plan: &Plan, classes: u32) -> Result<Reply, Memory>
    ensures { IfOk result
        (λ r. answer_of r
        ≡ record {
          status = Status.Done;
          text = lines.accepted_line plan.now.evidence
              (length plan.now.rounds) classes;
        }) }
{
    Ok(Reply {
        status: Status::Done,
        text: accepted_line(alloc, &plan.evidence, plan.rounds.count(), classes)?,
    })
}

/// What is said of the plan of an update: too many classes, certified, or the first reason why it isn't.
pub(crate) fn verdict_reply(
    alloc: Global,
    files: &UpdateFiles,
    plan: &Plan,
) -> Result<Reply, Memory>
    requires old { IsUserConfig files.now.net (rules_of_all files.now.old) }
    requires new { IsUserConfig files.now.net (rules_of_all files.now.new) }
    requires valid { IsValidPlan files.now.net plan.now }
    ensures { IfOk result
        (λ r. IsPlanVerdict (task_for (meaning_of files.now) plan.now) plan.now.evidence
        (answer_of r)) }
{
    match plan_verdict(alloc, files, plan) {
        Ok(PlanVerdict::Certified(room)) => {
            let reply = accepted_reply(alloc, plan, room.classes().count());
            drop(room);
            reply
        }
        Ok(PlanVerdict::Refused(reason, class)) => {
            refused_reply(alloc, &files.net, class, reason)
        }
        Err(fault) => no_classes_reply(alloc, fault),
    }
}
