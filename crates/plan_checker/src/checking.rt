//! Whether a plan is certified, and otherwise the first reason why not.
ghost use Rattle.std.specs.Prelude.{◌≡◌, ◌↔◌, suc, ◌<◌, ◌≤◌, length, IfSome, IfNone};
ghost use Rattle.flow_rules.specs.Tables.{rules_of_all};
ghost use Rattle.path_walk.specs.UserConfigs.{IsUserConfig};
ghost use Rattle.certificates.specs.Certified.{IsCertified, is_two_phase};
ghost use Rattle.certificates.specs.Consistent.{IsConsistent};
ghost use Rattle.certificates.specs.Laws.{task_of, update_of};
ghost use Rattle.certificates.specs.Valid.{IsValidPlan};
ghost use Rattle.plan_checker.specs.Checking.{EndsAreGood, IsReadyToCheck, IfRefused};
ghost use Rattle.plan_checker.specs.Fits.{Fits, FitsPlan};
ghost use Rattle.check_reasons.specs.Ranks.{stage_of};
ghost use Rattle.check_reasons.specs.Passed.{RoundsPass};
ghost use Rattle.check_reasons.specs.Reasons.{IsFirstReason};

use crate::tables::{self, apply_round, load_round, wrong_end};
use crate::{CheckRoom, UpdateRoom};
use certificates::Plan;
use certificates::laws::certified_consistent;
use check_reasons::{Case, Reason, Verdict};
use config_check::first_end_break;
use demands::Demands;
use flow_rules::Config;
use topology::Net;

/// The first reason of the two configurations, if there is one: a class without a good path in the old one, or else in the
/// new one. The room was made for these values, and can be used again.
pub fn end_reason(case: &Case, room: &mut UpdateRoom) -> Option<Reason>
    requires { Fits case.now.task room.old }
    ensures none { IfNone result (EndsAreGood case.now.task) }
    ensures some { IfSome result (IsFirstReason case.now.task case.now.evidence) }
    ensures fails { IfSome result (λ _. ¬ EndsAreGood case.now.task) }
    ensures place { IfSome result (λ r. stage_of r ≤ 1) }
    ensures fits { Fits case.now.task room.new }
{
    case.keeps_rules();
    let first = first_end_break(
        case.net,
        case.old,
        case.new,
        &room.classed.duties,
        &room.classed.map,
        &mut room.path,
    );
    if let Some(end) = first {
        return Some(Reason::of_end(end));
    }
    None
}

/// The first reason of round k, from 0, if there is one.
fn round_reason(case: &Case, k: usize, room: &mut CheckRoom) -> Option<Reason>
    requires within { k < length case.now.task.rounds }
    requires ready { IsReadyToCheck case.now k room.old }
    requires ends { EndsAreGood case.now.task }
    requires before { RoundsPass case.now.task case.now.evidence k }
    ensures none { IfNone result (RoundsPass case.now.task case.now.evidence (suc k)
        × IsReadyToCheck case.now (suc k) room.new) }
    ensures some { IfSome result (IsFirstReason case.now.task case.now.evidence) }
    ensures fits { FitsPlan case.now.task case.now.evidence room.new }
{
    case.keeps_rules();
    if let Some(reason) = load_round(case, k, &mut room.update.tables) {
        return Some(reason);
    }
    let mixes = room.update.tables.mixes();
    if let Some(reason) = room
        .evidence
        .judge_round(case, &room.update.classed, mixes, k)
    {
        return Some(reason);
    }
    apply_round(case, k, &mut room.update.tables);
    None
}

/// Readies the rooms for the first round.
fn start(case: &Case, room: &mut CheckRoom)
    requires { FitsPlan case.now.task case.now.evidence room.old }
    ensures { IsReadyToCheck case.now 0 room.new }
{
    tables::start(case, &mut room.update.tables);
    room.evidence.start(case, &room.update.classed);
}

/// The first reason of the rounds, if there is one.
fn rounds_reason(case: &Case, room: &mut CheckRoom) -> Option<Reason>
    requires fits { FitsPlan case.now.task case.now.evidence room.old }
    requires ends { EndsAreGood case.now.task }
    ensures none { IfNone result
        (RoundsPass case.now.task case.now.evidence (length case.now.task.rounds)
        × IsReadyToCheck case.now (length case.now.task.rounds) room.new) }
    ensures some { IfSome result (IsFirstReason case.now.task case.now.evidence) }
    ensures fits { FitsPlan case.now.task case.now.evidence room.new }
{
    start(case, room);
    for k in 0..case.plan.rounds.count() {
        if let Some(reason) = round_reason(case, k, room) {
            return Some(reason);
        }
    }
    None
}

/// The first reason of the case, if there is one.
fn first_reason(case: &Case, room: &mut CheckRoom) -> Option<Reason>
    requires { FitsPlan case.now.task case.now.evidence room.old }
    ensures none { IfNone result (IsCertified case.now.task case.now.evidence) }
    ensures some { IfSome result (IsFirstReason case.now.task case.now.evidence) }
    ensures fits { FitsPlan case.now.task case.now.evidence room.new }
{
    case.keeps_rules();
    if let Some(reason) = end_reason(case, &mut room.update) {
        return Some(reason);
    }
    if let Some(reason) = rounds_reason(case, room) {
        return Some(reason);
    }
    wrong_end(case, &room.update.tables)
}

/// Checks a plan that leads from an old to a new configuration under demands: whether it is certified, and so every
/// run of it consistent, or the first reason why it isn't. The room was made for these values, and can be used again.
pub fn check(
    net: &Net,
    old: &Config,
    new: &Config,
    demands: &Demands,
    plan: &Plan,
    room: &mut CheckRoom,
) -> Verdict
    requires old { IsUserConfig net.now (rules_of_all old.now) }
    requires new { IsUserConfig net.now (rules_of_all new.now) }
    requires plan { IsValidPlan net.now plan.now }
    requires room { FitsPlan (task_of net.now old.now new.now demands.now plan.now)
        plan.now.evidence room.old }
    ensures accepted { (result ≡ Verdict.Accepted)
        ↔ IsCertified (task_of net.now old.now new.now demands.now plan.now) plan.now.evidence }
    ensures consistent { result ≡ Verdict.Accepted
        → IsConsistent (update_of net.now old.now new.now demands.now) plan.now.rounds
        (is_two_phase plan.now.evidence) }
    ensures refused { IfRefused result
        (IsFirstReason (task_of net.now old.now new.now demands.now plan.now) plan.now.evidence) }
    ensures fits { FitsPlan (task_of net.now old.now new.now demands.now plan.now)
        plan.now.evidence room.new }
{
    certified_consistent(net, old, new, demands, plan);
    let case = Case {
        net,
        old,
        new,
        demands,
        plan,
    };
    match first_reason(&case, room) {
        Some(reason) => Verdict::Refused(reason),
        None => Verdict::Accepted,
    }
}
