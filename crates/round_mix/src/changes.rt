//! Which changes of one table are good.
ghost use Rattle.std.specs.Prelude.{◌≡◌, ◌↔◌, ◌≤◌, IsTrue, MatchOption, length, take, vec_capacity};
ghost use Rattle.std.specs.List.{list_any};
ghost use Rattle.flow_rules.specs.Patterns.{key_eq};
ghost use Rattle.update_model.specs.Changes.{rule_of};
ghost use Rattle.round_mix.specs.Faults.{IsGoodAfter, IsFirstBad};
ghost use Rattle.round_mix.specs.Marks.{all_rules};
ghost use Rattle.round_mix.specs.Prepared.{AreGood};

use crate::MarkedRule;
use crate::leading::leading_good;
use flow_rules::{Key, Table};
use update_model::Change;

/// Whether one of the changes names the key.
fn names_key(changes: &[Change], key: &Key) -> bool
    ensures { result ≡ list_any (λ c. key_eq (rule_of c).key key.now) changes.now }
{
    changes.iter().any(|change| change.rule().key.is_same(key))
}

/// Whether a change applies and names a key that none of those before it names.
fn is_good_after(table: &Table, before: &[Change], change: &Change) -> bool
    ensures { IsTrue result ↔ IsGoodAfter table.now.rules before.now change.now }
{
    let key = change.rule().key;
    change.applies_to(table) && !names_key(before, &key)
}

/// The position of the first change that isn't good, if so many of the first ones are.
fn first_bad_from(table: &Table, changes: &[Change], from: usize) -> Option<usize>
    requires within { from ≤ length changes.now }
    requires good { AreGood table.now.rules (take from changes.now) }
    ensures { MatchOption result (AreGood table.now.rules changes.now)
        (λ i. IsFirstBad table.now.rules changes.now i) }
{
    for i in from..changes.len() {
        if !is_good_after(table, &changes[..i], &changes[i]) {
            return Some(i);
        }
    }
    None
}

/// From so many changes on their keys are looked up. Fewer are compared with each rule, which is faster.
pub const MANY_CHANGES: usize = 16;

/// How many of the first changes are good at least; none where there are few.
fn surely_good(table: &Table, changes: &[Change], marks: &mut Vec<MarkedRule>) -> usize
    requires { length (all_rules table.now.rules changes.now) ≤ vec_capacity marks.old }
    ensures within { result ≤ length changes.now }
    ensures good { AreGood table.now.rules (take result changes.now) }
    ensures room { vec_capacity marks.old ≤ vec_capacity marks.new }
{
    if changes.len() < MANY_CHANGES {
        return 0;
    }
    leading_good(table, changes, marks)
}

/// The position of the first change that isn't good. What the list of marked rules holds is lost.
pub fn first_bad(table: &Table, changes: &[Change], marks: &mut Vec<MarkedRule>) -> Option<usize>
    requires { length (all_rules table.now.rules changes.now) ≤ vec_capacity marks.old }
    ensures found { MatchOption result (AreGood table.now.rules changes.now)
        (λ i. IsFirstBad table.now.rules changes.now i) }
    ensures room { vec_capacity marks.old ≤ vec_capacity marks.new }
{
    let from = surely_good(table, changes, marks);
    first_bad_from(table, changes, from)
}
