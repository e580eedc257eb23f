//! What clear tables are for. The law is a function that does nothing: its contract is the law.
ghost use Rattle.std.specs.Prelude.{◌≡◌, List};
ghost use Rattle.net_base.specs.Members.{IsSameSet};
ghost use Rattle.flow_rules.specs.Patterns.{Header};
ghost use Rattle.flow_rules.specs.Tables.{IsClear, lookup};
ghost use Rattle.flow_rules.specs.declared.rules.Rule.{Rule};

/// In a clear table a lookup depends on the set of the rules alone: two lists of the same rules, in whatever order, give
/// the same action for every packet.
pub fn lookup_by_set()
    ensures { (rules others : List Rule) → IsClear rules → IsSameSet rules others
        → (header : Header) → lookup header rules ≡ lookup header others }
{}
