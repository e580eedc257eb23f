//! The changes of a round that set or strip a tag.
ghost use Rattle.std.specs.Prelude.{◌≡◌, ◌↔◌, ◌⊎◌, Some, ◌≤◌, List, [], ◌∷◌, ◌++◌, IsTrue, IfNone, IfSome};
ghost use Rattle.update_model.specs.declared.Change.{Change as ChangeOf};
ghost use Rattle.certificates.specs.Certified.{KeepsVlan};
ghost use Rattle.check_reasons.specs.Passed.{RoundKeepsVlans};
ghost use Rattle.plan_checker.specs.Rewrites.{IsFirstRewrite, IsRewriteFound, IsOrdered};

use certificates::Evidence;
use check_reasons::Case;
use flow_rules::{Action, Rewrite};
use net_base::SwitchId;
use update_model::Change;

/// Whether an action neither sets nor strips a tag.
fn keeps_vlan(action: Action) -> bool
    ensures { IsTrue result ↔ KeepsVlan action }
{
    match action {
        Action::Discard => true,
        Action::Out(_, rewrite) => matches!(rewrite, Rewrite::Keep),
    }
}

/// The lesser of two switches, where there is one already.
fn lower_switch(best: Option<SwitchId>, switch: SwitchId) -> SwitchId
    ensures one { (result ≡ switch) ⊎ (best ≡ Some result) }
    ensures given { result.0 ≤ switch.0 }
    ensures so_far { IfSome best (λ other. result.0 ≤ other.0) }
{
    match best {
        Some(other) if other.0 < switch.0 => other,
        _ => switch,
    }
}

/// The first switch at which a change sets or strips, with one more change.
fn with_rewrite(best: Option<SwitchId>, change: &Change) -> Option<SwitchId>
    ensures { (round : List ChangeOf) → IsRewriteFound round best
        → IsRewriteFound (round ++ change.now ∷ []) result }
{
    if keeps_vlan(change.rule().action) {
        return best;
    }
    Some(lower_switch(best, change.switch()))
}

/// The first switch at which a change sets or strips.
fn first_rewrite(round: &[Change]) -> Option<SwitchId>
    ensures { IsRewriteFound round.now result }
{
    let mut best = None;
    for change in round {
        best = with_rewrite(best, change);
    }
    best
}

/// The first switch at which a change of a round of an ordered plan sets or strips.
pub(crate) fn rewrite_of(case: &Case, round: &[Change]) -> Option<SwitchId>
    ensures none { IfNone result (RoundKeepsVlans case.now.evidence round.now) }
    ensures some { IfSome result (λ s. IsOrdered case.now.evidence × IsFirstRewrite round.now s) }
{
    match case.plan.evidence {
        Evidence::Ordered(_) => first_rewrite(round),
        Evidence::TwoPhase(_) => None,
    }
}
