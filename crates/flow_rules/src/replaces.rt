//! Many rules of a table, replaced in one pass.
ghost use Rattle.std.specs.Prelude.{◌≡◌, map, vec_len, vec_capacity};
ghost use Rattle.flow_rules.specs.Order.{AreByKey};
ghost use Rattle.flow_rules.specs.Replaced.{in_place_of, replaced_in_turn};
ghost use Rattle.flow_rules.specs.Tables.{IsTable};

use crate::deletes::sort_by_key;
use crate::order::key_order;
use crate::rules::Rule;

/// What others, which stand in key order, put in the place of a rule: the one with its key, or the rule itself where there is
/// none.
fn in_place_of(others: &[Rule], rule: &Rule) -> Rule
    requires order { AreByKey others.now }
    requires distinct { IsTable others.now }
    ensures { result ≡ in_place_of others.now rule.now }
{
    match others.binary_search_by(|other| key_order(&other.key, &rule.key)) {
        Ok(i) => others[i],
        Err(_) => *rule,
    }
}

/// Puts others, which stand in key order, in the place of the rules with their keys.
fn replace_sorted(rules: &mut Vec<Rule>, others: &[Rule])
    requires order { AreByKey others.now }
    requires distinct { IsTable others.now }
    ensures items { rules.new.items ≡ map (in_place_of others.now) rules.old.items }
    ensures len { vec_len rules.new ≡ vec_len rules.old }
    ensures capacity { vec_capacity rules.new ≡ vec_capacity rules.old }
{
    for i in 0..rules.len() {
        rules[i] = in_place_of(others, &rules[i]);
    }
}

/// Puts others, which it sorts, in the place of the rules with their keys.
pub fn replace_keys(rules: &mut Vec<Rule>, others: &mut [Rule])
    requires { IsTable others.old }
    ensures items { rules.new.items ≡ replaced_in_turn others.old rules.old.items }
    ensures len { vec_len rules.new ≡ vec_len rules.old }
    ensures capacity { vec_capacity rules.new ≡ vec_capacity rules.old }
{
    sort_by_key(others);
    replace_sorted(rules, others);
}
