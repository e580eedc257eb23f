//! How the packing of an update of destination trees ends. Each law is a function that does nothing: its contract is the law.
ghost use Rattle.std.specs.Prelude.{ℕ, ◌+◌, ◌≤◌, List, length};
ghost use Rattle.certificates.specs.Updates.{Task};
ghost use Rattle.update_model.specs.declared.Change.{Change};
ghost use Rattle.law_packed_rounds.specs.Packing.{PacksOrdered, PacksStuck};
ghost use Rattle.law_packed_trees.specs.TreeUpdates.{IsUserTreeUpdate, task_target};
ghost use Rattle.law_packed_trees.specs.Bounds.{AreBounds};

/// The packing of an update of destination trees isn't stuck.
pub fn trees_are_never_stuck()
    ensures { (t : Task) → IsUserTreeUpdate t → (rounds : List (List Change))
        → ¬ PacksStuck (task_target t) t.update.old rounds }
{}

/// The packing of an update of destination trees takes few rounds: as many at most as a class's new path that leaves has places
/// at which the lookup differs between the old and the new tables; one more where some class's new path is dropped and the
/// lookup differs at its entry; and one more where some rule with another action in the new tables is picked by the lookup at
/// no place of a class's new path.
pub fn trees_take_few_rounds()
    ensures { (t : Task) → IsUserTreeUpdate t → (rounds : List (List Change))
        → PacksOrdered (task_target t) t.update.old rounds
        → (most dropped unmet : ℕ) → AreBounds t t.update.old most dropped unmet
        → length rounds ≤ most + dropped + unmet }
{}
