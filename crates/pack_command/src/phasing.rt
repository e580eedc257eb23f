//! The plan of two phases, and which of two plans is written.
ghost use Rattle.std.specs.Prelude.{◌≡◌, [], length, IfOk, IfErr};
ghost use Rattle.flow_rules.specs.Tables.{rules_of_all};
ghost use Rattle.path_walk.specs.UserConfigs.{IsUserConfig};
ghost use Rattle.certificates.specs.Certified.{IsCertified, classes_for};
ghost use Rattle.certificates.specs.Updates.{task_for};
ghost use Rattle.certificates.specs.Valid.{IsValidPlan};
ghost use Rattle.table_difference.specs.SameClasses.{HasSameClasses};
ghost use Rattle.table_difference.specs.Tried.{AreTried};
ghost use Rattle.round_planner.specs.Updates.{update_classes};
ghost use Rattle.two_phase.specs.Laws.{FitsTwoPhase};
ghost use Rattle.two_phase.specs.Plans.{IsTwoCause};
ghost use Rattle.command_base.specs.Updates.{meaning_of};
ghost use Rattle.command_base.specs.Replies.{answer_of};
ghost use Rattle.plan_command.specs.Ends.{BothEndsAreGood};
ghost use Rattle.plan_command.specs.Planned.{SaysPlanOf};
ghost use Rattle.pack_command.specs.declared.names.PackKind.TheVariants as pack_kind;
ghost use Rattle.pack_command.specs.Chosen.{AreTriedFor, HasNoOrderedPlan, HasOrderedPlan, IsOrderedPlan, IsPackPlan, phased_plan, phased_count};
ghost use Rattle.pack_command.specs.Packed.{SaysChosen, SaysNoOrdered};

use crate::names::PackKind;
use certificates::Plan;
use certificates::laws::certified_consistent;
use command_base::{Reply, Status, UpdateFiles};
use net_base::Memory;
use plan_command::{no_plan_reply, tried_line};
use std::alloc::Global;
use two_phase::laws::depth_rounds_count;
use two_phase::{TwoFault, two_phase_by_depth};
use update_model::Rounds;
use upgrade_command::plan_reply;

/// A plan of two phases has no fewer rounds.
const FEWEST_PHASED: usize = 6;

/// Two phases are preferred where an ordered plan has more rounds than so many times theirs: they fill tables and change every
/// switch.
const MOST_TIMES: usize = 2;

/// The plan of two phases with the rounds that were tried, or why there is none.
fn phase_plan(alloc: Global, files: &UpdateFiles, tried: &Rounds) -> Result<Plan, TwoFault>
    requires old { IsUserConfig files.now.net (rules_of_all files.now.old) }
    requires new { IsUserConfig files.now.net (rules_of_all files.now.new) }
    requires good { BothEndsAreGood (meaning_of files.now) }
    requires tried { AreTried files.now.net tried.now }
    ensures plan { IfOk result (λ p. p ≡ phased_plan (meaning_of files.now) tried.now) }
    ensures count { IfOk result (λ p. length p.rounds ≡ phased_count (meaning_of files.now)) }
    ensures fits { IfOk result (λ _.
        FitsTwoPhase files.now.net (rules_of_all files.now.old) (rules_of_all files.now.new)) }
    ensures valid { IfOk result (IsValidPlan files.now.net) }
    ensures certified { IfOk result (λ p.
        IsCertified (task_for (meaning_of files.now) p) p.evidence) }
    ensures classes { IfOk result (λ p.
        HasSameClasses (classes_for (task_for (meaning_of files.now) p))
        (update_classes (meaning_of files.now))) }
    ensures cause { IfErr result
        (IsTwoCause files.now.net (rules_of_all files.now.old) (rules_of_all files.now.new)) }
{
    depth_rounds_count();
    two_phase_by_depth(alloc, &files.net, &files.old, &files.new, tried)
}

/// The reply by this plan.
fn chosen_reply(alloc: Global, files: &UpdateFiles, plan: &Plan) -> Result<Reply, Memory>
    requires old { IsUserConfig files.now.net (rules_of_all files.now.old) }
    requires new { IsUserConfig files.now.net (rules_of_all files.now.new) }
    requires valid { IsValidPlan files.now.net plan.now }
    requires certified { IsCertified (task_for (meaning_of files.now) plan.now) plan.now.evidence }
    requires classes { HasSameClasses (classes_for (task_for (meaning_of files.now) plan.now))
        (update_classes (meaning_of files.now)) }
    ensures { IfOk result
        (λ r. SaysPlanOf (λ v p. p ≡ plan.now) (meaning_of files.now) (answer_of r)) }
{
    certified_consistent(&files.net, &files.old, &files.new, &files.demands, plan);
    plan_reply(alloc, &files.net, plan)
}

/// The reply by two phases with the rounds that were tried, where no ordered plan may be written.
fn phased_reply(
    alloc: Global,
    files: &UpdateFiles,
    tried: &Rounds,
    kind: PackKind,
) -> Result<Reply, Memory>
    requires old { IsUserConfig files.now.net (rules_of_all files.now.old) }
    requires new { IsUserConfig files.now.net (rules_of_all files.now.new) }
    requires good { BothEndsAreGood (meaning_of files.now) }
    requires tried { AreTried files.now.net tried.now }
    requires are_tried { AreTriedFor kind (meaning_of files.now) tried.now }
    ensures { IfOk result (λ r. SaysChosen kind (meaning_of files.now) (answer_of r)) }
{
    match phase_plan(alloc, files, tried) {
        Ok(plan) => chosen_reply(alloc, files, &plan),
        Err(fault) => no_plan_reply(alloc, files, tried, fault),
    }
}

/// The reply where there is an ordered plan, and two phases alone may be written.
pub(crate) fn two_phase_reply(alloc: Global, files: &UpdateFiles) -> Result<Reply, Memory>
    requires old { IsUserConfig files.now.net (rules_of_all files.now.old) }
    requires new { IsUserConfig files.now.net (rules_of_all files.now.new) }
    requires good { BothEndsAreGood (meaning_of files.now) }
    requires ordered { HasOrderedPlan (meaning_of files.now) }
    ensures { IfOk result
        (λ r. SaysChosen pack_kind.TwoPhase (meaning_of files.now) (answer_of r)) }
{
    let none = Rounds::make(alloc)?;
    let reply = phased_reply(alloc, files, &none, PackKind::TwoPhase);
    drop(none);
    reply
}

/// The reply by an ordered plan, or by that of two phases where the other has more than twice as many rounds.
fn shorter_reply(
    alloc: Global,
    files: &UpdateFiles,
    plan: &Plan,
    phased: &Plan,
) -> Result<Reply, Memory>
    requires old { IsUserConfig files.now.net (rules_of_all files.now.old) }
    requires new { IsUserConfig files.now.net (rules_of_all files.now.new) }
    requires ordered { IsOrderedPlan (meaning_of files.now) plan.now }
    requires valid { IsValidPlan files.now.net plan.now }
    requires certified { IsCertified (task_for (meaning_of files.now) plan.now) plan.now.evidence }
    requires classes { HasSameClasses (classes_for (task_for (meaning_of files.now) plan.now))
        (update_classes (meaning_of files.now)) }
    requires phased { phased.now ≡ phased_plan (meaning_of files.now) [] }
    requires count { length phased.now.rounds ≡ phased_count (meaning_of files.now) }
    requires fits { FitsTwoPhase files.now.net (rules_of_all files.now.old)
        (rules_of_all files.now.new) }
    requires other_valid { IsValidPlan files.now.net phased.now }
    requires other_certified { IsCertified (task_for (meaning_of files.now) phased.now)
        phased.now.evidence }
    requires other_classes { HasSameClasses
        (classes_for (task_for (meaning_of files.now) phased.now))
        (update_classes (meaning_of files.now)) }
    ensures { IfOk result
        (λ r. SaysPlanOf (IsPackPlan pack_kind.Any) (meaning_of files.now) (answer_of r)) }
{
    if plan.rounds.count() <= MOST_TIMES * phased.rounds.count() {
        chosen_reply(alloc, files, plan)
    } else {
        chosen_reply(alloc, files, phased)
    }
}

/// The reply by an ordered plan where two phases don't fit.
fn unphased_reply(
    alloc: Global,
    files: &UpdateFiles,
    plan: &Plan,
    fault: TwoFault,
) -> Result<Reply, Memory>
    requires old { IsUserConfig files.now.net (rules_of_all files.now.old) }
    requires new { IsUserConfig files.now.net (rules_of_all files.now.new) }
    requires ordered { IsOrderedPlan (meaning_of files.now) plan.now }
    requires valid { IsValidPlan files.now.net plan.now }
    requires certified { IsCertified (task_for (meaning_of files.now) plan.now) plan.now.evidence }
    requires classes { HasSameClasses (classes_for (task_for (meaning_of files.now) plan.now))
        (update_classes (meaning_of files.now)) }
    requires cause { IsTwoCause files.now.net (rules_of_all files.now.old)
        (rules_of_all files.now.new) fault }
    ensures { IfOk result
        (λ r. SaysPlanOf (IsPackPlan pack_kind.Any) (meaning_of files.now) (answer_of r)) }
{
    match fault {
        TwoFault::TooFewTags { .. } => chosen_reply(alloc, files, plan),
        TwoFault::TooSmall { .. } => chosen_reply(alloc, files, plan),
        TwoFault::Memory => Err(Memory),
    }
}

/// The reply where there is an ordered plan, and any may be written.
fn any_reply(alloc: Global, files: &UpdateFiles, plan: &Plan) -> Result<Reply, Memory>
    requires old { IsUserConfig files.now.net (rules_of_all files.now.old) }
    requires new { IsUserConfig files.now.net (rules_of_all files.now.new) }
    requires good { BothEndsAreGood (meaning_of files.now) }
    requires ordered { IsOrderedPlan (meaning_of files.now) plan.now }
    requires valid { IsValidPlan files.now.net plan.now }
    requires certified { IsCertified (task_for (meaning_of files.now) plan.now) plan.now.evidence }
    requires classes { HasSameClasses (classes_for (task_for (meaning_of files.now) plan.now))
        (update_classes (meaning_of files.now)) }
    ensures { IfOk result
        (λ r. SaysPlanOf (IsPackPlan pack_kind.Any) (meaning_of files.now) (answer_of r)) }
{
    if plan.rounds.count() <= MOST_TIMES * FEWEST_PHASED {
        return chosen_reply(alloc, files, plan);
    }
    let none = Rounds::make(alloc)?;
    let phased = phase_plan(alloc, files, &none);
    drop(none);
    match phased {
        Ok(phased) => shorter_reply(alloc, files, plan, &phased),
        Err(fault) => unphased_reply(alloc, files, plan, fault),
    }
}

/// The reply where there is an ordered plan.
pub(crate) fn ordered_reply(
    alloc: Global,
    files: &UpdateFiles,
    plan: &Plan,
    kind: PackKind,
) -> Result<Reply, Memory>
    requires old { IsUserConfig files.now.net (rules_of_all files.now.old) }
    requires new { IsUserConfig files.now.net (rules_of_all files.now.new) }
    requires good { BothEndsAreGood (meaning_of files.now) }
    requires ordered { IsOrderedPlan (meaning_of files.now) plan.now }
    requires valid { IsValidPlan files.now.net plan.now }
    requires certified { IsCertified (task_for (meaning_of files.now) plan.now) plan.now.evidence }
    requires classes { HasSameClasses (classes_for (task_for (meaning_of files.now) plan.now))
        (update_classes (meaning_of files.now)) }
    ensures { IfOk result (λ r. SaysChosen kind (meaning_of files.now) (answer_of r)) }
{
    match kind {
        PackKind::Any => any_reply(alloc, files, plan),
        PackKind::Ordered => chosen_reply(alloc, files, plan),
        PackKind::TwoPhase => two_phase_reply(alloc, files),
    }
}

/// The reply where there is no ordered plan, and no other may be written.
fn no_ordered_reply(alloc: Global, files: &UpdateFiles, tried: &Rounds) -> Result<Reply, Memory>
    requires none { HasNoOrderedPlan (meaning_of files.now) tried.now }
    ensures { IfOk result (λ r. SaysNoOrdered (meaning_of files.now) (answer_of r)) }
{
    let mut text = b"no ordered plan\n".to_vec(alloc)?;
    text.extend_from_slice(&tried_line(alloc, &files.net, tried)?)?;
    Ok(Reply {
        status: Status::Refused,
        text,
    })
}

/// The reply where packing and the search end stuck, the search after the rounds that were tried.
pub(crate) fn stuck_reply(
    alloc: Global,
    files: &UpdateFiles,
    tried: &Rounds,
    kind: PackKind,
) -> Result<Reply, Memory>
    requires old { IsUserConfig files.now.net (rules_of_all files.now.old) }
    requires new { IsUserConfig files.now.net (rules_of_all files.now.new) }
    requires good { BothEndsAreGood (meaning_of files.now) }
    requires none { HasNoOrderedPlan (meaning_of files.now) tried.now }
    requires tried { AreTried files.now.net tried.now }
    ensures { IfOk result (λ r. SaysChosen kind (meaning_of files.now) (answer_of r)) }
{
    match kind {
        PackKind::Ordered => no_ordered_reply(alloc, files, tried),
        PackKind::Any | PackKind::TwoPhase => phased_reply(alloc, files, tried, kind),
    }
}
