//! The changes that remain, each with why it failed.
ghost use Rattle.std.specs.Prelude.{◌≡◌, ◌↔◌, ◌<◌, ◌++◌, ◌∷◌, List, length, map, vec_len, IsTrue, IsSomeAnd, IfOk};
ghost use Rattle.std.specs.Prelude.{None};
ghost use Rattle.std.specs.List.{AllByRecursion};
ghost use Rattle.flow_rules.specs.declared.rules.Rule.{Rule};
ghost use Rattle.update_model.specs.Changes.{switch_of, tables_after_change};
ghost use Rattle.table_difference.specs.Targets.{Target};
ghost use Rattle.round_planner.specs.Failures.{IsTouched, HasStanding, IsOfUsers, AreOfUsers};
ghost use Rattle.round_planner.specs.declared.left.RemainingChange.{RemainingChange as LeftOf};

use crate::failing::Failure;
use net_base::Memory;
use std::alloc::Global;
use update_model::Change;

/// A change that remains, and why it failed when it was last tried, as long as that stands.
#[derive(Drop)]
pub(crate) struct RemainingChange {
    pub(crate) change: Change,
    pub(crate) failure: Option<Failure>,
}

impl RemainingChange {
    /// Whether a change that was made touches what the failure rests on.
    fn is_touched(&self, made: &Change) -> bool
        ensures { IsTrue result ↔ IsSomeAnd self.now.failure
            (λ f. IsTouched (switch_of self.now.change) made.now f) }
    {
        match &self.failure {
            Some(failure) => failure.is_touched(self.change.switch(), made),
            None => false,
        }
    }

    /// Forgets why the change failed, if a change that was made touches that.
    fn forget(&mut self, made: &Change)
        ensures change { self.new.change ≡ self.old.change }
        ensures stands { (to : Target) (tables : List (List Rule)) → IsOfUsers tables self.old
            → (switch_of made.now).0 < length tables
            → HasStanding to tables self.old
            → HasStanding to (tables_after_change made.now tables) self.new }
    {
        if self.is_touched(made) {
            self.failure = None;
        }
    }
}

/// The changes, of which none has been tried.
pub(crate) fn untried(alloc: Global, changes: &[Change]) -> Result<Vec<RemainingChange>, Memory>
    ensures changes { IfOk result (λ left.
        map (λ (l : LeftOf). l.change) left.items ≡ changes.now) }
    ensures untried { IfOk result (λ left.
        AllByRecursion (λ (l : LeftOf). l.failure ≡ None) left.items) }
{
    let mut left = Vec::new(alloc);
    for change in changes {
        left.push(RemainingChange {
            change: *change,
            failure: None,
        })?;
    }
    Ok(left)
}

/// Forgets each failure that a change touches which was made.
fn forget_touched(left: &mut [RemainingChange], made: &Change)
    ensures changes { map (λ (l : LeftOf). l.change) left.new
        ≡ map (λ (l : LeftOf). l.change) left.old }
    ensures stands { (to : Target) (tables : List (List Rule)) → AreOfUsers tables left.old
        → (switch_of made.now).0 < length tables
        → AllByRecursion (HasStanding to tables) left.old
        → AllByRecursion (HasStanding to (tables_after_change made.now tables)) left.new }
{
    for one in left.iter_mut() {
        one.forget(made);
    }
}

/// Takes out the change at a place, which was made, and forgets each failure that it touches.
pub(crate) fn take_out(left: &mut Vec<RemainingChange>, place: usize)
    requires place { place < vec_len left.old }
    ensures changes { (front back : List LeftOf) (one : LeftOf)
        → left.old.items ≡ front ++ one ∷ back → length front ≡ place
        → map (λ (l : LeftOf). l.change) left.new.items
        ≡ map (λ (l : LeftOf). l.change) (front ++ back) }
    ensures stands { (front back : List LeftOf) (one : LeftOf)
        → left.old.items ≡ front ++ one ∷ back → length front ≡ place
        → (to : Target) (tables : List (List Rule)) → AreOfUsers tables left.old.items
        → AllByRecursion (HasStanding to tables) left.old.items
        → AllByRecursion (HasStanding to (tables_after_change one.change tables)) left.new.items }
{
    let made = left.remove(place);
    forget_touched(left, &made.change);
}
