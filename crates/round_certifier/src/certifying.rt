//! Rounds, one after the other, and the evidence for them.
ghost use Rattle.std.specs.Prelude.{◌≡◌, suc, ◌<◌, true, false, length, IfOk, IfErr, IfSome, IfNone, OnOk};
ghost use Rattle.certificates.specs.Updates.{rollout};
ghost use Rattle.certificates.specs.Certified.{IsCertified, is_two_phase};
ghost use Rattle.certificates.specs.Valid.{IsValidPlan};
ghost use Rattle.certificates.specs.declared.Evidence.TheVariants.{Ordered};
ghost use Rattle.certificates.specs.declared.OrderedEvidence.{OrderedEvidence as EvidenceOf};
ghost use Rattle.plan_checker.specs.Checking.{EndsAreGood, EndsAtNew};
ghost use Rattle.plan_checker.specs.Fits.{Fits};
ghost use Rattle.round_tables.specs.PreparedTables.{HasTableRoom, StandsBefore};
ghost use Rattle.round_judge.specs.Evidence.{IsSearchEvidence};
ghost use Rattle.round_certifier.specs.Refusals.{IsFirstRefusal, OfRefusal};
ghost use Rattle.round_certifier.specs.Standing.{IsCertifiedTo, target_for};

use crate::evidence::RoundEvidence;
use crate::refusal::{CertifyFault, Refusal};
use certificates::{Evidence, OrderedEvidence, Plan};
use check_reasons::Case;
use class_watch::all_classes;
use net_base::Memory;
use plan_checker::tables::{apply_round, load_round, start, wrong_end};
use plan_checker::{UpdateRoom, end_reason};
use round_judge::{Goal, RoundVerdict, put_picks};
use round_tables::PreparedTables;
use std::alloc::Global;

/// Makes the evidence of round k, from 0, and its changes. The result is the first cause why there is none, if there is one.
fn certify_round(
    alloc: Global,
    case: &Case,
    goal: &Goal,
    k: usize,
    tables: &mut PreparedTables,
    so_far: &mut RoundEvidence,
) -> Result<Option<Refusal>, Memory>
    requires within { k < length case.now.task.rounds }
    requires ordered { is_two_phase case.now.evidence ≡ false }
    requires goal { goal.now ≡ target_for case.now.task }
    requires ends { EndsAreGood case.now.task }
    requires room { HasTableRoom (rollout case.now.task) tables.old }
    requires tables { StandsBefore (rollout case.now.task) k tables.old }
    requires so_far { IsCertifiedTo case.now k so_far.old.store so_far.old.watch.came.items
        so_far.old.looked }
    ensures none { IfOk result (λ refusal. IfNone refusal
        (IsCertifiedTo case.now (suc k) so_far.new.store so_far.new.watch.came.items
        so_far.new.looked)) }
    ensures tables { IfOk result (λ refusal. IfNone refusal
        (StandsBefore (rollout case.now.task) (suc k) tables.new)) }
    ensures some { IfOk result (λ refusal. IfSome refusal (IsFirstRefusal case.now)) }
    ensures room { HasTableRoom (rollout case.now.task) tables.new }
{
    case.keeps_rules();
    if let Some(reason) = load_round(case, k, tables) {
        return Ok(Some(Refusal::Checked(reason)));
    }
    let round = k as u32 + 1;
    match so_far.judge(alloc, case, goal, k, tables.mixes())? {
        RoundVerdict::Unsafe(failing) => Ok(Some(Refusal::NoEvidence {
            round,
            class: failing.number,
        })),
        RoundVerdict::Safe(found) => {
            put_picks(alloc, &mut so_far.store, round, found)?;
            apply_round(case, k, tables);
            Ok(None)
        }
    }
}

/// Makes the evidence of all rounds, where both ends are good. The result is the first cause why there is none, if there is one.
fn certify_all(
    alloc: Global,
    case: &Case,
    goal: &Goal,
    tables: &mut PreparedTables,
    so_far: &mut RoundEvidence,
) -> Result<Option<Refusal>, Memory>
    requires ordered { is_two_phase case.now.evidence ≡ false }
    requires goal { goal.now ≡ target_for case.now.task }
    requires ends { EndsAreGood case.now.task }
    requires room { HasTableRoom (rollout case.now.task) tables.old }
    requires so_far { IsCertifiedTo case.now 0 so_far.old.store so_far.old.watch.came.items
        so_far.old.looked }
    ensures none { IfOk result (λ refusal. IfNone refusal
        (IsCertifiedTo case.now (length case.now.task.rounds) so_far.new.store
        so_far.new.watch.came.items so_far.new.looked)) }
    ensures end { IfOk result (λ refusal. IfNone refusal (EndsAtNew case.now.task)) }
    ensures some { IfOk result (λ refusal. IfSome refusal (IsFirstRefusal case.now)) }
    ensures room { HasTableRoom (rollout case.now.task) tables.new }
{
    case.keeps_rules();
    start(case, tables);
    for k in 0..case.plan.rounds.count() {
        if let Some(refusal) = certify_round(alloc, case, goal, k, tables, so_far)? {
            return Ok(Some(refusal));
        }
    }
    match wrong_end(case, tables) {
        Some(reason) => Ok(Some(Refusal::Checked(reason))),
        None => Ok(None),
    }
}

/// As `certify`, for an ordered plan whose ends are known to be good: they aren't looked at.
pub fn certify_rounds(
    alloc: Global,
    case: &Case,
    room: &mut UpdateRoom,
) -> Result<OrderedEvidence, CertifyFault>
    requires fits { Fits case.now.task room.old }
    requires ordered { is_two_phase case.now.evidence ≡ false }
    requires ends { EndsAreGood case.now.task }
    ensures evidence { IfOk result
        (IsSearchEvidence (target_for case.now.task) (rollout case.now.task)) }
    ensures certified { IfOk result (λ e. IsCertified case.now.task (Ordered e)) }
    ensures valid { IfOk result (λ e. IsValidPlan case.now.task.update.net
        (record { rounds = case.now.task.rounds; evidence = Ordered e })) }
    ensures refused { IfErr result (OfRefusal (IsFirstRefusal case.now)) }
    ensures fits { Fits case.now.task room.new }
{
    case.keeps_rules();
    case.net.keeps_rules();
    let list = all_classes(alloc, &room.classed.map)?;
    let mut so_far = RoundEvidence::make(alloc, &room.classed.map)?;
    let goal = Goal {
        net: case.net,
        new: case.new,
        duties: &room.classed.duties,
        classes: &room.classed.map,
        list,
    };
    let refusal = certify_all(alloc, case, &goal, &mut room.tables, &mut so_far);
    let evidence = so_far.into_evidence();
    match refusal? {
        Some(refusal) => Err(CertifyFault::Refused(refusal)),
        None => Ok(evidence),
    }
}

/// Whether the plan is a two-phase plan.
fn is_two_phase(plan: &Plan) -> bool
    ensures { result ≡ is_two_phase plan.now.evidence }
{
    match plan.evidence {
        Evidence::Ordered(_) => false,
        Evidence::TwoPhase(_) => true,
    }
}

/// Evidence that makes the rounds of a plan a certified ordered plan: heights and least before sets, a new pick exactly where the
/// one in force fails, each numbering, set and use once, in order of first use. Of the plan's own evidence only the kind counts. It
/// is refused with the first cause why no evidence certifies the rounds, which for a two-phase plan is its kind. The room was made
/// for these values, and can be used again.
///
/// Each round looks at each atom in the prefix of each of its changes and at each class whose address one of them covers, and takes
/// a walk for each class that a change covers at a switch that the last walk of the class came to; the first round takes one for
/// each class.
pub fn certify(
    alloc: Global,
    case: &Case,
    room: &mut UpdateRoom,
) -> Result<OrderedEvidence, CertifyFault>
    requires { Fits case.now.task room.old }
    ensures evidence { IfOk result
        (IsSearchEvidence (target_for case.now.task) (rollout case.now.task)) }
    ensures certified { IfOk result (λ e. IsCertified case.now.task (Ordered e)) }
    ensures valid { IfOk result (λ e. IsValidPlan case.now.task.update.net
        (record { rounds = case.now.task.rounds; evidence = Ordered e })) }
    ensures refused { IfErr result (OfRefusal (IsFirstRefusal case.now)) }
    ensures ordered { OnOk result (is_two_phase case.now.evidence ≡ false) }

    // No evidence certifies the rounds that are refused.
    ensures none { IfErr result (OfRefusal (λ _. is_two_phase case.now.evidence ≡ false
        → (e : EvidenceOf) → ¬ IsCertified case.now.task (Ordered e))) }
    ensures fits { Fits case.now.task room.new }
{
    case.keeps_rules();
    if let Some(reason) = end_reason(case, room) {
        return Err(CertifyFault::Refused(Refusal::Checked(reason)));
    }
    if is_two_phase(case.plan) {
        return Err(CertifyFault::Refused(Refusal::TwoPhasePlan));
    }
    certify_rounds(alloc, case, room)
}

/// The rounds of the plan, with this evidence in place of its own.
pub fn with_evidence(plan: Plan, evidence: OrderedEvidence) -> Plan
    ensures { result ≡ record { rounds = plan.rounds; evidence = Ordered evidence } }
{
    let Plan {
        rounds,
        evidence: own,
    } = plan;
    drop(own);
    Plan {
        rounds,
        evidence: Evidence::Ordered(evidence),
    }
}
