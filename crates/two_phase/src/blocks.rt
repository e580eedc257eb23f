//! Rules in key order, and the block of those of one priority.
ghost use Rattle.std.specs.Prelude.{◌≡◌, ◌==◌, filter, List};
ghost use Rattle.flow_rules.specs.Tables.{IsTable};
ghost use Rattle.flow_rules.specs.declared.rules.Rule.{Rule};
ghost use Rattle.two_phase.specs.TwoPhasePlan.{in_key_order};

use flow_rules::Rule;
use table_difference::sort_by_key;

/// Sorts rules of distinct keys into key order.
pub(crate) fn put_in_key_order(rules: &mut Vec<Rule>)
    requires { IsTable rules.old.items }
    ensures { rules.new.items ≡ in_key_order rules.old.items }
{
    sort_by_key(rules);
}

/// The rules of one priority among rules in key order, where they stand together. It takes time by the logarithm of the
/// number of rules.
pub(crate) fn of_priority(rules: &[Rule], priority: usize) -> &[Rule]
    ensures { (all : List Rule) → IsTable all → rules.now ≡ in_key_order all → result.now
        ≡ in_key_order (filter (λ r. r.key.priority == priority) all) }
{
    let end = rules.partition_point(|rule| priority <= usize::from(rule.key.priority));
    let from = &rules[..end];
    let start = from.partition_point(|rule| priority < usize::from(rule.key.priority));
    &from[start..]
}
