//! Why making the changes that remain comes to an end. The law is a function that does nothing: its contract is the law.
ghost use Rattle.std.specs.Prelude.{◌≡◌, ◌+◌, suc, List, length};
ghost use Rattle.std.specs.List.{AllByRecursion};
ghost use Rattle.net_base.specs.Members.{IsIn};
ghost use Rattle.flow_rules.specs.Tables.{IsTable};
ghost use Rattle.flow_rules.specs.declared.rules.Rule.{Rule};
ghost use Rattle.update_model.specs.Changes.{Applies, tables_after, tables_after_change};
ghost use Rattle.update_model.specs.Remaining.{remaining_changes, AreRemaining};
ghost use Rattle.update_model.specs.declared.Change.{Change};

/// Each change that remains applies, and after it one fewer remains. So no more changes can be made than remain at first,
/// in whatever order they are taken, and a search among them has an end.
pub fn one_fewer_remains()
    ensures fewer { (now new : List (List Rule)) → AllByRecursion IsTable now
        → AllByRecursion IsTable new → (c : Change) → IsIn c (remaining_changes now new)
        → Applies now c × (length (remaining_changes now new)
        ≡ suc (length (remaining_changes (tables_after_change c now) new))) }
    ensures ends { (now new : List (List Rule)) → AllByRecursion IsTable now
        → AllByRecursion IsTable new → (changes : List Change) → AreRemaining now new changes
        → length (remaining_changes now new) ≡ length changes + length
        (remaining_changes (tables_after changes now) new) }
{}
