//! What is said of the plan that is explained: too many classes, why its mixed walks aren't looked at, a run that breaks the duties of a
//! class, or that there is none.
ghost use Rattle.certificates.specs.Updates.{rollout, task_for};
ghost use Rattle.std.specs.Prelude.{IfOk};
ghost use Rattle.flow_rules.specs.Tables.{rules_of_all};
ghost use Rattle.path_walk.specs.UserConfigs.{IsUserConfig};
ghost use Rattle.certificates.specs.Valid.{IsValidPlan};
ghost use Rattle.update_model.specs.Mixtures.{AreGoodRounds, AreClearRounds};
ghost use Rattle.plan_checker.specs.Fits.{Fits};
ghost use Rattle.plan_checker.specs.Checking.{EndsAreGood};
ghost use Rattle.command_base.specs.Updates.{meaning_of};
ghost use Rattle.command_base.specs.Replies.{answer_of};
ghost use Rattle.explain_command.specs.Explained.{IsExplainAnswer};

use crate::explaining::explanation;
use crate::reasons::round_reason;
use certificates::{Evidence, Plan};
use check_base::{class_of, refused_reply};
use check_reasons::Case;
use command_base::{Reply, Status, UpdateFiles, no_classes_reply};
use net_base::Memory;
use plan_checker::{UpdateRoom, end_reason};
use std::alloc::Global;

/// What is said of a plan whose configurations and rounds are good.
fn judge_walks(
    alloc: Global,
    files: &UpdateFiles,
    plan: &Plan,
    room: &UpdateRoom,
) -> Result<Reply, Memory>
    requires old { IsUserConfig files.now.net (rules_of_all files.now.old) }
    requires valid { IsValidPlan files.now.net plan.now }
    requires fits { Fits (task_for (meaning_of files.now) plan.now) room.now }
    requires ends { EndsAreGood (task_for (meaning_of files.now) plan.now) }
    requires good { AreGoodRounds (rollout (task_for (meaning_of files.now) plan.now)) }
    requires clear { AreClearRounds (rollout (task_for (meaning_of files.now) plan.now)) }
    ensures { IfOk result
        (λ r. IsExplainAnswer (record { update = meaning_of files.now; plan = plan.now })
        (answer_of r)) }
{
    match &plan.evidence {
        Evidence::Ordered(_) => Ok(Reply {
            status: Status::Done,
            text: explanation(alloc, files, plan, room)?,
        }),
        Evidence::TwoPhase(_) => Ok(Reply {
            status: Status::Refused,
            text: b"no run: two-phase plan\n".to_vec(alloc)?,
        }),
    }
}

/// What is said of a plan whose configurations are good.
fn judge_rounds(
    alloc: Global,
    files: &UpdateFiles,
    plan: &Plan,
    room: &UpdateRoom,
) -> Result<Reply, Memory>
    requires old { IsUserConfig files.now.net (rules_of_all files.now.old) }
    requires valid { IsValidPlan files.now.net plan.now }
    requires fits { Fits (task_for (meaning_of files.now) plan.now) room.now }
    requires ends { EndsAreGood (task_for (meaning_of files.now) plan.now) }
    ensures { IfOk result
        (λ r. IsExplainAnswer (record { update = meaning_of files.now; plan = plan.now })
        (answer_of r)) }
{
    match round_reason(alloc, files, plan)? {
        Some(reason) => refused_reply(alloc, &files.net, None, reason),
        None => judge_walks(alloc, files, plan, room),
    }
}

/// What is said of the plan, in a room for its check.
fn judge_plan(
    alloc: Global,
    files: &UpdateFiles,
    plan: &Plan,
    room: &mut UpdateRoom,
) -> Result<Reply, Memory>
    requires old { IsUserConfig files.now.net (rules_of_all files.now.old) }
    requires new { IsUserConfig files.now.net (rules_of_all files.now.new) }
    requires valid { IsValidPlan files.now.net plan.now }
    requires fits { Fits (task_for (meaning_of files.now) plan.now) room.old }
    ensures { IfOk result
        (λ r. IsExplainAnswer (record { update = meaning_of files.now; plan = plan.now })
        (answer_of r)) }
{
    let case = Case {
        net: &files.net,
        old: &files.old,
        new: &files.new,
        demands: &files.demands,
        plan,
    };
    match end_reason(&case, room) {
        Some(reason) => {
            let class = class_of(&room.classed.map, reason);
            refused_reply(alloc, &files.net, class, reason)
        }
        None => judge_rounds(alloc, files, plan, room),
    }
}

/// What is said of the plan of an update that is explained: too many classes, why its mixed walks aren't looked at, a run that
/// breaks the duties of a class, or that there is none.
pub fn explain_verdict(alloc: Global, files: &UpdateFiles, plan: &Plan) -> Result<Reply, Memory>
    requires old { IsUserConfig files.now.net (rules_of_all files.now.old) }
    requires new { IsUserConfig files.now.net (rules_of_all files.now.new) }
    requires valid { IsValidPlan files.now.net plan.now }
    ensures { IfOk result
        (λ r. IsExplainAnswer (record { update = meaning_of files.now; plan = plan.now })
        (answer_of r)) }
{
    match UpdateRoom::make(
        alloc,
        &files.net,
        &files.old,
        &files.new,
        &files.demands,
        plan,
    ) {
        Ok(mut room) => {
            let reply = judge_plan(alloc, files, plan, &mut room);
            drop(room);
            reply
        }
        Err(fault) => no_classes_reply(alloc, fault),
    }
}
