//! Whether no two marked rules clash.
ghost use Rattle.std.specs.Prelude.{◌≡◌, ◌↔◌, IsTrue, IsPermutation, vec_capacity};
ghost use Rattle.round_mix.specs.Apart.{AreApart, is_apart};
ghost use Rattle.round_mix.specs.Order.{AreInKeyOrder};

use crate::MarkedRule;
use crate::kinds::are_apart_by_kind;
use crate::sorting::sort_by_key;

/// Whether the second of two neighbours in key order tests the same as the first, if it has the same priority, and they
/// don't clash.
fn is_apart(a: &MarkedRule, b: &MarkedRule) -> bool
    ensures { result ≡ is_apart a.now b.now }
{
    let one = &a.rule.key;
    let two = &b.rule.key;
    (one.priority != two.priority || one.pattern.is_alike(&two.pattern)) && !one.clashes(two)
}

/// Whether no two of rules in key order clash, as far as their neighbours tell: those of one priority all test the same
/// beside the address, and no two neighbours clash.
fn are_apart(rules: &[MarkedRule]) -> bool
    requires { AreInKeyOrder rules.now }
    ensures { IsTrue result → AreApart rules.now }
{
    rules.is_sorted_by(|a, b| is_apart(a, b))
}

/// Sorts marked rules by their keys, and says whether their neighbours tell that no two of them clash.
fn are_apart_by_key(marks: &mut Vec<MarkedRule>) -> bool
    ensures permutation { IsPermutation marks.old.items marks.new.items }
    ensures order { AreInKeyOrder marks.new.items }
    ensures apart { IsTrue result → AreApart marks.new.items }
    ensures room { vec_capacity marks.new ≡ vec_capacity marks.old }
{
    sort_by_key(marks);
    are_apart(marks)
}

/// Sorts marked rules by their keys, and says whether no two of them clash. Where rules of one priority test different things
/// beside the address, they are swept by kinds.
pub fn sort_apart(marks: &mut Vec<MarkedRule>) -> bool
    ensures permutation { IsPermutation marks.old.items marks.new.items }
    ensures order { AreInKeyOrder marks.new.items }
    ensures apart { IsTrue result ↔ AreApart marks.new.items }
    ensures room { vec_capacity marks.new ≡ vec_capacity marks.old }
{
    if are_apart_by_key(marks) {
        return true;
    }
    let is_apart = are_apart_by_kind(marks);
    sort_by_key(marks);
    is_apart
}
