//! Rules in key order.
ghost use Rattle.std.specs.Prelude.{◌≡◌, IsPermutation, vec_capacity};
ghost use Rattle.flow_rules.specs.Tables.{IsTable};
ghost use Rattle.table_difference.specs.KeyOrder.{AreInKeyOrder, AreAscending};

use flow_rules::{Rule, key_order};

/// Sorts rules by their keys, in place. It takes time n log n.
pub fn sort_by_key(rules: &mut Vec<Rule>)
    ensures permutation { IsPermutation rules.old.items rules.new.items }
    ensures order { AreInKeyOrder rules.new.items }
    ensures ascending { IsTable rules.old.items → AreAscending rules.new.items }
    ensures room { vec_capacity rules.new ≡ vec_capacity rules.old }
{
    rules.sort_unstable_by(|a, b| key_order(&a.key, &b.key));
}
