//! A round is filled, change by change.
ghost use Rattle.std.specs.Prelude.{◌≡◌, List, IfOk, IfSome, OnOk};
ghost use Rattle.std.specs.List.{AllByRecursion};
ghost use Rattle.flow_rules.specs.declared.rules.Rule.{Rule};
ghost use Rattle.update_model.specs.declared.Change.{Change as ChangeOf};
ghost use Rattle.round_packer.specs.Filling.{IsFilling, IsFilledBy, IsPlain, IsTried, HasFailed};

use crate::failing::{Failure, RemainingChanges, known};
use crate::judging::{TriedChange, failure_beside};
use class_watch::{ClassWatch, LookedAtoms};
use net_base::Memory;
use round_judge::Goal;
use round_tables::PreparedTables;
use std::alloc::Global;
use update_model::Change;

/// Takes a change if it can stand in the round beside those that are taken. Otherwise the result is its failure, where that is
/// by a class.
fn try_change(
    alloc: Global,
    goal: &Goal,
    trial: &mut PreparedTables,
    watch: &mut ClassWatch,
    looked: &mut LookedAtoms,
    change: &Change,
) -> Result<Option<Failure>, Memory>
    requires plain { IsPlain goal.now.net change.now }
    requires filling { (tables : List (List Rule)) × (round : List ChangeOf)
        × IsFilling goal.now tables round trial.old watch.old.came.items looked.old }
    ensures tried { OnOk result ((tables : List (List Rule)) (round : List ChangeOf)
        → IsFilling goal.now tables round trial.old watch.old.came.items looked.old
        → IsTried goal.now tables round change.now trial.new watch.new.came.items looked.new) }
    ensures failed { IfOk result (λ failure. (tables : List (List Rule)) (round : List ChangeOf)
        → IsFilling goal.now tables round trial.old watch.old.came.items looked.old
        → IfSome failure (HasFailed goal.now tables round)) }
{
    if !trial.take(alloc, goal.net, change)? {
        return Ok(None);
    }
    goal.look_at_touched(looked, change);
    let tried = TriedChange {
        alloc,
        change,
        mixes: trial.mixes(),
    };
    match failure_beside(goal, watch, &tried, looked)? {
        Some(failure) => {
            trial.leave(goal.net, change);
            Ok(Some(failure))
        }
        None => Ok(None),
    }
}

/// Takes each of the changes, in order, that can stand in the round beside those that are taken before. One whose failure is
/// known is passed over. The result lists the failures by a class, in order.
pub(crate) fn fill(
    alloc: Global,
    goal: &Goal,
    trial: &mut PreparedTables,
    watch: &mut ClassWatch,
    looked: &mut LookedAtoms,
    left: &RemainingChanges,
) -> Result<Vec<Failure>, Memory>
    requires plain { AllByRecursion (IsPlain goal.now.net) left.now.changes.now }
    requires filling { (tables : List (List Rule)) × (round : List ChangeOf)
        × IsFilling goal.now tables round trial.old watch.old.came.items looked.old
        × AllByRecursion (HasFailed goal.now tables round) left.now.failed.now }
    ensures filled { OnOk result ((tables : List (List Rule)) (round : List ChangeOf)
        → IsFilling goal.now tables round trial.old watch.old.came.items looked.old
        → AllByRecursion (HasFailed goal.now tables round) left.now.failed.now
        → IsFilledBy goal.now tables round left.now.changes.now trial.new watch.new.came.items
        looked.new) }
    ensures failed { IfOk result (λ failures. (tables : List (List Rule)) (round : List ChangeOf)
        → IsFilling goal.now tables round trial.old watch.old.came.items looked.old
        → AllByRecursion (HasFailed goal.now tables round) left.now.failed.now
        → AllByRecursion (HasFailed goal.now tables trial.new.round) failures.items) }
{
    let mut failures = Vec::new(alloc);
    let mut place = 0;
    for change in left.changes {
        if let Some(failure) = known(left.failed, place, change) {
            place += 1;
            failures.push(failure)?;
            continue;
        }
        if let Some(failure) = try_change(alloc, goal, trial, watch, looked, change)? {
            failures.push(failure)?;
        }
    }
    Ok(failures)
}
