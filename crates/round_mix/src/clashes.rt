//! Two rules that clash.
ghost use Rattle.std.specs.Prelude.{◌+◌, ◌≤◌, ◌<◌, length, map, ℕ, MatchOption};
ghost use Rattle.flow_rules.specs.Frees.{IsFree, IsFirstAfter};
ghost use Rattle.round_mix.specs.Marks.{rules_of};
ghost use Rattle.flow_rules.specs.Overlaps.{IsClashAt, IsLeastClash};

use crate::MarkedRule;

/// The first rule after position i with which the rule there clashes.
fn clash_after(rules: &[MarkedRule], i: usize) -> Option<usize>
    requires { i < length rules.now }
    ensures { MatchOption result (IsFree (rules_of rules.now) i)
        (λ j. IsFirstAfter (rules_of rules.now) i j) }
{
    for j in i + 1..rules.len() {
        if rules[i].rule.clashes(&rules[j].rule) {
            return Some(j);
        }
    }
    None
}

/// The least two positions of rules that clash. It compares each two rules.
pub fn least_clash(rules: &[MarkedRule]) -> Option<(usize, usize)>
    ensures { MatchOption result ((i : ℕ) → IsFree (rules_of rules.now) i)
        (λ pair. IsLeastClash (rules_of rules.now) pair.0 pair.1) }
{
    for i in 0..rules.len() {
        if let Some(j) = clash_after(rules, i) {
            return Some((i, j));
        }
    }
    None
}
