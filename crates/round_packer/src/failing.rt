//! Why a change can't stand beside others, and how long that is known.
ghost use Rattle.std.specs.Prelude.{◌≡◌, ◌<◌, length, IfSome};
ghost use Rattle.net_base.specs.Members.{IsIn};
ghost use Rattle.round_packer.specs.Kept.{change_eq, unmet_failures};

use class_watch::meets_any;
use dest_classes::Class;
use net_base::SwitchSet;
use update_model::Change;

/// A change that can't stand beside others, a class that no evidence keeps safe then, and the switches that the mixed walks of
/// the class come to.
#[derive(Clone, Copy)]
pub(crate) struct Failure {
    pub(crate) change: Change,
    pub(crate) class: Class,
    pub(crate) visited: SwitchSet,
}

/// The changes that remain, and those of them whose failure is known, in the same order.
#[derive(Clone, Copy)]
pub(crate) struct RemainingChanges<'a> {
    pub(crate) changes: &'a [Change],
    pub(crate) failed: &'a [Failure],
}

/// Whether two changes are the same.
fn is_same(one: &Change, other: &Change) -> bool
    ensures { result ≡ change_eq one.now other.now }
{
    match (one, other) {
        (Change::Insert(switch, rule), Change::Insert(there, then)) => {
            switch.0 == there.0 && rule.is_same(then)
        }
        (Change::Delete(switch, rule), Change::Delete(there, then)) => {
            switch.0 == there.0 && rule.is_same(then)
        }
        (Change::Replace(switch, rule), Change::Replace(there, then)) => {
            switch.0 == there.0 && rule.is_same(then)
        }
        _ => false,
    }
}

/// The failure at a place, if it is one of this change.
pub(crate) fn known(failed: &[Failure], place: usize, change: &Change) -> Option<Failure>
    ensures there { IfSome result (λ f. (place < length failed.now) × IsIn f failed.now) }
    ensures change { IfSome result (λ f. f.change ≡ change.now) }
{
    match failed.get(place) {
        Some(failure) if is_same(&failure.change, change) => Some(*failure),
        _ => None,
    }
}

/// Forgets the failures whose class a change of a round covers at a switch that its mixed walks come to. The others stand after
/// the round: the walks are then the same, and so is what keeps the class safe.
pub(crate) fn forget_met(failures: &mut Vec<Failure>, round: &[Change])
    ensures { failures.new.items ≡ unmet_failures round.now failures.old.items }
{
    failures.retain(|failure| !meets_any(round, failure.class, failure.visited));
}
