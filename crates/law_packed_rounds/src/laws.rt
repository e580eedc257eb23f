//! What holds of packed rounds. Each law is a function that does nothing: its contract is the law.
ghost use Rattle.std.specs.Prelude.{◌≡◌, ◌≢◌, ◌↔◌, ◌≤◌, List, [], ◌∷◌, ◌++◌, length};
ghost use Rattle.std.specs.List.{AllByRecursion};
ghost use Rattle.net_base.specs.Members.{IsIn};
ghost use Rattle.flow_rules.specs.Tables.{IsTable};
ghost use Rattle.flow_rules.specs.declared.rules.Rule.{Rule};
ghost use Rattle.update_model.specs.Remaining.{remaining_changes};
ghost use Rattle.update_model.specs.declared.Change.{Change};
ghost use Rattle.table_difference.specs.Targets.{Target};
ghost use Rattle.law_packed_rounds.specs.Packing.{CanStand, IsPackedRound, PacksOrdered, PacksStuck, tables_past};

/// There is one packed round at most, and packing has one end at most.
pub fn packing_ends_once()
    ensures round { (to : Target) (tables : List (List Rule)) (one other : List Change)
        → IsPackedRound to tables one → IsPackedRound to tables other → one ≡ other }
    ensures ordered { (to : Target) (old : List (List Rule)) (one other : List (List Change))
        → PacksOrdered to old one → PacksOrdered to old other → one ≡ other }
    ensures stuck { (to : Target) (old : List (List Rule)) (one other : List (List Change))
        → PacksStuck to old one → PacksStuck to old other → one ≡ other }
    ensures either { (to : Target) (old : List (List Rule)) (one other : List (List Change))
        → PacksOrdered to old one → ¬ PacksStuck to old other }
{}

/// No change that a packed round leaves could have stood in it besides.
pub fn rounds_are_full()
    ensures { (to : Target) (tables : List (List Rule)) (round : List Change)
        → IsPackedRound to tables round → (c : Change) → IsIn c (remaining_changes tables to.new)
        → ¬ IsIn c round → ¬ CanStand to tables (round ++ c ∷ []) }
{}

/// Where packing is stuck no change that remains can be a round alone.
pub fn stuck_means_stuck()
    ensures { (to : Target) (old : List (List Rule)) (rounds : List (List Change))
        → PacksStuck to old rounds → (c : Change)
        → IsIn c (remaining_changes (tables_past rounds old) to.new)
        → ¬ CanStand to (tables_past rounds old) (c ∷ []) }
{}

/// There is one packed round exactly where all changes that lead from the old to the new tables, of which there are some,
/// can be one round.
pub fn one_round_where_one_is_enough()
    ensures enough { (to : Target) (old : List (List Rule)) → remaining_changes old to.new ≢ []
        → AllByRecursion IsTable old → AllByRecursion IsTable to.new
        → CanStand to old (remaining_changes old to.new)
        → PacksOrdered to old (remaining_changes old to.new ∷ []) }
    ensures needed { (to : Target) (old : List (List Rule)) (round : List Change)
        → AllByRecursion IsTable old → AllByRecursion IsTable to.new
        → PacksOrdered to old (round ∷ []) → CanStand to old (remaining_changes old to.new) }
{}

/// Packing takes at most as many rounds as changes lead from the old to the new tables, each of which it makes once.
pub fn never_more_rounds_than_changes()
    ensures { (to : Target) (old : List (List Rule)) (rounds : List (List Change))
        → AllByRecursion IsTable old → AllByRecursion IsTable to.new
        → PacksOrdered to old rounds → length rounds ≤ length (remaining_changes old to.new) }
{}
