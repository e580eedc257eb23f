//! The plan of an update of destination trees, and its check.
ghost use Rattle.std.specs.Prelude.{◌≡◌, ◌≤◌, IfOk, length};
ghost use Rattle.flow_rules.specs.Tables.{rules_of_all};
ghost use Rattle.path_walk.specs.UserConfigs.{IsUserConfig};
ghost use Rattle.dest_classes.specs.Classes.{class_count};
ghost use Rattle.update_model.specs.Remaining.{remaining_changes};
ghost use Rattle.certificates.specs.Certified.{IsCertified, classes_for};
ghost use Rattle.certificates.specs.Trees.{IsTreeUpdate};
ghost use Rattle.certificates.specs.Valid.{IsValidPlan};
ghost use Rattle.config_check.specs.Classed.{AreClassed};
ghost use Rattle.table_difference.specs.SameClasses.{HasSameClasses};
ghost use Rattle.round_planner.specs.Ends.{IsPlanOf};
ghost use Rattle.command_base.specs.Judgements.{most_classes};
ghost use Rattle.certificates.specs.Updates.{task_for};
ghost use Rattle.command_base.specs.Updates.{meaning_of};
ghost use Rattle.round_planner.specs.Updates.{update_classes, update_count, update_target, bare_task};

use certificates::Plan;
use command_base::UpdateFiles;
use config_check::Classed;
use dest_classes::ClassFault;
use net_base::Memory;
use plan_verdict::{PlanVerdict, plan_verdict};
use round_planner::{Ordered, order, update_prefixes};
use std::alloc::Global;

/// The classes of an update that hasn't too many.
fn few_classes(alloc: Global, files: &UpdateFiles) -> Result<Classed, Memory>
    requires few { update_count (meaning_of files.now) ≤ most_classes }
    ensures { IfOk result (AreClassed (update_classes (meaning_of files.now)) files.now.demands) }
{
    let prefixes = update_prefixes(&files.old, &files.new, &files.demands)?;
    match Classed::make(alloc, &files.net, &files.demands, &prefixes) {
        Ok(classed) => Ok(classed),
        Err(ClassFault::Memory) => Err(Memory),
        Err(ClassFault::TooManyClasses(_)) => unreachable!(),
    }
}

/// The ordered plan of an update of destination trees, whose search is never stuck, over its classes.
fn searched_plan(alloc: Global, files: &UpdateFiles, classed: &Classed) -> Result<Plan, Memory>
    requires old { IsUserConfig files.now.net (rules_of_all files.now.old) }
    requires new { IsUserConfig files.now.net (rules_of_all files.now.new) }
    requires tree { IsTreeUpdate (bare_task (meaning_of files.now)) }
    requires classed { AreClassed (update_classes (meaning_of files.now)) files.now.demands
        classed.now }
    ensures searched { IfOk result
        (IsPlanOf (update_target (meaning_of files.now)) (rules_of_all files.now.old)) }
    ensures valid { IfOk result (IsValidPlan files.now.net) }
    ensures certified { IfOk result
        (λ p. IsCertified (task_for (meaning_of files.now) p) p.evidence) }
    ensures classes { IfOk result (λ p. HasSameClasses
        (classes_for (task_for (meaning_of files.now) p)) (update_classes (meaning_of files.now))) }
    ensures count { IfOk result (λ p. length p.rounds
        ≡ length (remaining_changes (rules_of_all files.now.old) (rules_of_all files.now.new))) }
{
    match order(
        alloc,
        &files.net,
        &files.old,
        &files.new,
        &classed.duties,
        &classed.map,
    )? {
        Ordered::Rounds(plan) => Ok(plan),
        Ordered::Stuck(_) => unreachable!(),
    }
}

/// The ordered plan of an update of destination trees, of which a search is never stuck.
pub fn tree_plan(alloc: Global, files: &UpdateFiles) -> Result<Plan, Memory>
    requires old { IsUserConfig files.now.net (rules_of_all files.now.old) }
    requires new { IsUserConfig files.now.net (rules_of_all files.now.new) }
    requires tree { IsTreeUpdate (bare_task (meaning_of files.now)) }
    requires few { update_count (meaning_of files.now) ≤ most_classes }
    ensures searched { IfOk result
        (IsPlanOf (update_target (meaning_of files.now)) (rules_of_all files.now.old)) }
    ensures valid { IfOk result (IsValidPlan files.now.net) }
    ensures certified { IfOk result
        (λ p. IsCertified (task_for (meaning_of files.now) p) p.evidence) }
    ensures classes { IfOk result (λ p. HasSameClasses
        (classes_for (task_for (meaning_of files.now) p)) (update_classes (meaning_of files.now))) }
    ensures count { IfOk result (λ p. length p.rounds
        ≡ length (remaining_changes (rules_of_all files.now.old) (rules_of_all files.now.new))) }
{
    let classed = few_classes(alloc, files)?;
    let plan = searched_plan(alloc, files, &classed);
    drop(classed);
    plan
}

/// Checks a certified plan, and counts the classes over which it was checked.
pub fn checked_classes(alloc: Global, files: &UpdateFiles, plan: &Plan) -> Result<u32, Memory>
    requires old { IsUserConfig files.now.net (rules_of_all files.now.old) }
    requires new { IsUserConfig files.now.net (rules_of_all files.now.new) }
    requires valid { IsValidPlan files.now.net plan.now }
    requires few { class_count (classes_for (task_for (meaning_of files.now) plan.now))
        ≤ most_classes }
    requires certified { IsCertified (task_for (meaning_of files.now) plan.now) plan.now.evidence }
    ensures { IfOk result (λ n. n
        ≡ class_count (classes_for (task_for (meaning_of files.now) plan.now))) }
{
    match plan_verdict(alloc, files, plan) {
        Ok(PlanVerdict::Certified(room)) => {
            let classes = room.classes().count();
            drop(room);
            Ok(classes)
        }
        Ok(PlanVerdict::Refused(_, _)) => unreachable!(),
        Err(ClassFault::TooManyClasses(_)) => unreachable!(),
        Err(ClassFault::Memory) => Err(Memory),
    }
}
