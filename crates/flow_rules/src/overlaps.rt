//! The search for two rules that clash.
ghost use Rattle.std.specs.Prelude.{◌<◌, length, ℕ, MatchOption};
ghost use Rattle.flow_rules.specs.Frees.{IsFree, IsFirstAfter};
ghost use Rattle.flow_rules.specs.Overlaps.{IsLeastClash};

use crate::rules::Rule;

/// The first rule after position i with which the rule there clashes.
fn clash_after(rules: &[Rule], i: usize) -> Option<usize>
    requires { i < length rules.now }
    ensures { MatchOption result (IsFree rules.now i) (λ j. IsFirstAfter rules.now i j) }
{
    for j in i + 1..rules.len() {
        if rules[i].clashes(&rules[j]) {
            return Some(j);
        }
    }
    None
}

/// The least two positions of rules that clash.
pub fn least_clash(rules: &[Rule]) -> Option<(usize, usize)>
    ensures { MatchOption result ((i : ℕ) → IsFree rules.now i)
        (λ pair. IsLeastClash rules.now pair.0 pair.1) }
{
    for i in 0..rules.len() {
        if let Some(j) = clash_after(rules, i) {
            return Some((i, j));
        }
    }
    None
}
