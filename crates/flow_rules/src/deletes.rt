//! Many rules of a table, taken out in one pass.
ghost use Rattle.std.specs.Prelude.{◌≡◌, filter, not, IsPermutation, vec_capacity};
ghost use Rattle.std.specs.List.{list_any};
ghost use Rattle.flow_rules.specs.Order.{AreByKey};
ghost use Rattle.flow_rules.specs.Patterns.{key_eq};

use crate::order::key_order;
use crate::rules::{Key, Rule};

/// Sorts rules by their keys, in place.
pub(crate) fn sort_by_key(rules: &mut [Rule])
    ensures permutation { IsPermutation rules.old rules.new }
    ensures order { AreByKey rules.new }
{
    rules.sort_unstable_by(|a, b| key_order(&a.key, &b.key));
}

/// Whether one of the rules, which stand in key order, has the key.
fn has_key_sorted(rules: &[Rule], key: &Key) -> bool
    requires { AreByKey rules.now }
    ensures { result ≡ list_any (λ r. key_eq r.key key.now) rules.now }
{
    rules
        .binary_search_by(|rule| key_order(&rule.key, key))
        .is_ok()
}

/// Takes out the rules with the keys of others, which it sorts.
pub fn delete_keys(rules: &mut Vec<Rule>, others: &mut [Rule])
    ensures items { rules.new.items
        ≡ filter (λ q. not (list_any (λ r. key_eq r.key q.key) others.old)) rules.old.items }
    ensures capacity { vec_capacity rules.new ≡ vec_capacity rules.old }
{
    sort_by_key(others);
    rules.retain(|rule| !has_key_sorted(others, &rule.key));
}
