//! What remains after a change. The law is a function that does nothing: its contract is the law.
ghost use Rattle.std.specs.Prelude.{◌≡◌, ◌++◌, ◌∷◌, List};
ghost use Rattle.std.specs.List.{AllByRecursion};
ghost use Rattle.flow_rules.specs.Tables.{IsTable};
ghost use Rattle.flow_rules.specs.declared.rules.Rule.{Rule};
ghost use Rattle.update_model.specs.Changes.{tables_after_change};
ghost use Rattle.update_model.specs.Remaining.{remaining_changes};
ghost use Rattle.update_model.specs.declared.Change.{Change};

/// After one of the changes that remain has been made the others remain, in the same order. So a list of them need not be
/// found anew after each change.
pub fn others_remain()
    ensures { (now new : List (List Rule)) → AllByRecursion IsTable now → AllByRecursion IsTable new
        → (front back : List Change) (c : Change)
        → remaining_changes now new ≡ front ++ c ∷ back
        → remaining_changes (tables_after_change c now) new ≡ front
        ++ back }
{}
