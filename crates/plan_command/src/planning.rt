//! What is said of an update that is to be planned.
ghost use Rattle.std.specs.Prelude.{IfOk};
ghost use Rattle.flow_rules.specs.Tables.{rules_of_all};
ghost use Rattle.path_walk.specs.UserConfigs.{IsUserConfig};
ghost use Rattle.certificates.specs.Certified.{IsCertified, classes_for};
ghost use Rattle.certificates.specs.Trees.{IsTreeUpdate};
ghost use Rattle.certificates.specs.Updates.{task_for};
ghost use Rattle.certificates.specs.Valid.{IsValidPlan};
ghost use Rattle.table_difference.specs.SameClasses.{HasSameClasses};
ghost use Rattle.table_difference.specs.Tried.{AreTried};
ghost use Rattle.round_planner.specs.Ends.{AreStuck};
ghost use Rattle.round_planner.specs.Updates.{update_classes, update_target, bare_task};
ghost use Rattle.two_phase.specs.Plans.{IsTwoCause};
ghost use Rattle.command_base.specs.Updates.{meaning_of};
ghost use Rattle.command_base.specs.Replies.{answer_of};
ghost use Rattle.upgrade_command.specs.Texts.{SaysPlan};
ghost use Rattle.plan_command.specs.Ends.{BothEndsAreGood, AreEndsOf};
ghost use Rattle.plan_command.specs.Planned.{SaysPlanOf, IsNewPlan, SaysOrdered, SaysNoPhases, SaysSearched, IsPlanned};

use crate::ends::{EndsVerdict, break_reply, judge_ends};
use crate::no_plan_lines::{too_few_lines, too_small_lines};
use certificates::Plan;
use certificates::laws::certified_consistent;
use command_base::{Reply, Status, UpdateFiles, no_classes_reply};
use config_check::Classed;
use net_base::Memory;
use round_planner::{Ordered, order};
use std::alloc::Global;
use two_phase::{TwoFault, two_phase};
use update_model::Rounds;
use upgrade_command::plan_reply;

/// The reply by a new plan.
fn new_plan_reply(alloc: Global, files: &UpdateFiles, plan: &Plan) -> Result<Reply, Memory>
    requires old { IsUserConfig files.now.net (rules_of_all files.now.old) }
    requires new { IsUserConfig files.now.net (rules_of_all files.now.new) }
    requires valid { IsValidPlan files.now.net plan.now }
    requires is_new { IsNewPlan (meaning_of files.now) plan.now }
    requires certified { IsCertified (task_for (meaning_of files.now) plan.now) plan.now.evidence }
    requires classes { HasSameClasses (classes_for (task_for (meaning_of files.now) plan.now))
        (update_classes (meaning_of files.now)) }
    ensures new { IfOk result (λ r. SaysPlanOf IsNewPlan (meaning_of files.now) (answer_of r)) }
    ensures says { IfOk result (λ r. SaysPlan files.now.net plan.now (answer_of r)) }
{
    certified_consistent(&files.net, &files.old, &files.new, &files.demands, plan);
    plan_reply(alloc, &files.net, plan)
}

/// The reply where there are no two phases, after the rounds that were tried: on too few tags, or on the first switch that is too
/// small.
pub fn no_plan_reply(
    alloc: Global,
    files: &UpdateFiles,
    tried: &Rounds,
    fault: TwoFault,
) -> Result<Reply, Memory>
    requires { IsTwoCause files.now.net (rules_of_all files.now.old) (rules_of_all files.now.new)
        fault }
    ensures { IfOk result (λ r. SaysNoPhases (meaning_of files.now) tried.now (answer_of r)) }
{
    match fault {
        TwoFault::TooFewTags { need, has } => Ok(Reply {
            status: Status::TooFewTags,
            text: too_few_lines(alloc, &files.net, need, has, tried)?,
        }),
        TwoFault::TooSmall {
            switch,
            need,
            capacity,
        } => Ok(Reply {
            status: Status::TooSmall,
            text: too_small_lines(alloc, &files.net, switch, need, capacity, tried)?,
        }),
        TwoFault::Memory => Err(Memory),
    }
}

/// The reply by two phases, after a search that was stuck.
fn two_phase_reply(alloc: Global, files: &UpdateFiles, tried: &Rounds) -> Result<Reply, Memory>
    requires old { IsUserConfig files.now.net (rules_of_all files.now.old) }
    requires new { IsUserConfig files.now.net (rules_of_all files.now.new) }
    requires good { BothEndsAreGood (meaning_of files.now) }
    requires stuck { AreStuck (update_target (meaning_of files.now)) (rules_of_all files.now.old)
        tried.now }
    requires tried { AreTried files.now.net tried.now }
    ensures { IfOk result (λ r. SaysSearched (meaning_of files.now) (answer_of r)) }
{
    match two_phase(alloc, &files.net, &files.old, &files.new, tried) {
        Ok(plan) => new_plan_reply(alloc, files, &plan),
        Err(fault) => no_plan_reply(alloc, files, tried, fault),
    }
}

/// The reply by an ordered plan, or by two phases where the search is stuck.
fn search_reply(alloc: Global, files: &UpdateFiles, ends: &Classed) -> Result<Reply, Memory>
    requires old { IsUserConfig files.now.net (rules_of_all files.now.old) }
    requires new { IsUserConfig files.now.net (rules_of_all files.now.new) }
    requires ends { AreEndsOf (meaning_of files.now) ends.now }
    ensures searched { IfOk result (λ r. SaysSearched (meaning_of files.now) (answer_of r)) }
    ensures tree { IsTreeUpdate (bare_task (meaning_of files.now))
        → IfOk result (λ r. SaysOrdered (meaning_of files.now) (answer_of r)) }
{
    match order(
        alloc,
        &files.net,
        &files.old,
        &files.new,
        &ends.duties,
        &ends.map,
    )? {
        Ordered::Rounds(plan) => new_plan_reply(alloc, files, &plan),
        Ordered::Stuck(tried) => two_phase_reply(alloc, files, &tried),
    }
}

/// What is said of an update: too many classes, an end that isn't good, a new plan, or why there is none.
pub(crate) fn new_plan(alloc: Global, files: &UpdateFiles) -> Result<Reply, Memory>
    requires old { IsUserConfig files.now.net (rules_of_all files.now.old) }
    requires new { IsUserConfig files.now.net (rules_of_all files.now.new) }
    ensures { IfOk result (λ r. IsPlanned (meaning_of files.now) (answer_of r)) }
{
    match judge_ends(alloc, files) {
        Ok(EndsVerdict::Good(ends)) => {
            let reply = search_reply(alloc, files, &ends);
            drop(ends);
            reply
        }
        Ok(EndsVerdict::Broken(end, class)) => break_reply(alloc, files, end, class),
        Err(fault) => no_classes_reply(alloc, fault),
    }
}
