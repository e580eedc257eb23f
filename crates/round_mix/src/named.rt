//! Many changes of one switch: each marks the rule that it names, which is looked up among the sorted ones.
ghost use Rattle.std.specs.Prelude.{◌≡◌, ◌<◌, ◌≤◌, [], true, false, None, IsTrue, IfNone, IfSome, length, vec_capacity};
ghost use Rattle.std.specs.List.{AllByRecursion};
ghost use Rattle.net_base.specs.Members.{IsDistinct};
ghost use Rattle.flow_rules.specs.Tables.{keys_of};
ghost use Rattle.round_mix.specs.Marks.{all_rules, rules_of};
ghost use Rattle.round_mix.specs.Named.{names, IsPlaceOf, IsMarkedBy, IsUnnamed, AreMarked};
ghost use Rattle.round_mix.specs.Prepared.{IsFalling, IsPrepared};

use crate::apart::sort_apart;
use crate::marking::{fill, mark_by};
use crate::priorities::{end_of, first_of};
use crate::{Mark, MarkedRule};
use flow_rules::{Rule, Table, key_order};
use update_model::Change;

/// Whether a change names a rule: by its key, and a delete by its action too.
fn names(change: &Change, rule: &Rule) -> bool
    ensures { result ≡ names change.now rule.now }
{
    match change {
        Change::Insert(_, named) => named.key.is_same(&rule.key),
        Change::Delete(_, named) => named.is_same(rule),
        Change::Replace(_, named) => named.key.is_same(&rule.key),
    }
}

/// Where the rule stands among sorted ones that a change names, if it is sure.
fn place_of(marks: &[MarkedRule], change: &Change) -> Option<usize>
    ensures { IfSome result (IsPlaceOf change.now marks.now) }
{
    let key = change.rule().key;
    let Ok(i) = marks.binary_search_by(|marked| key_order(&marked.rule.key, &key)) else {
        return None;
    };
    let found = marks[i];
    let is_sure = matches!(found.mark, Mark::Sure);
    if is_sure && names(change, &found.rule) {
        Some(i)
    } else {
        None
    }
}

/// Whether a marked rule is sure and named by a change.
fn is_named(marked: &MarkedRule, change: &Change) -> bool
    ensures sure { IsTrue result → marked.now.mark ≡ Mark.Sure }
    ensures named { IsTrue result → names change.now marked.now.rule ≡ true }
    ensures both { result ≡ false → marked.now.mark ≡ Mark.Sure
        → names change.now marked.now.rule ≡ false }
{
    matches!(marked.mark, Mark::Sure) && names(change, &marked.rule)
}

/// Where the rule stands that a change names, if it is sure, among those in descending priority: by a look at each of its
/// priority.
fn seek(marks: &[MarkedRule], change: &Change) -> Option<usize>
    requires { IsFalling marks.now }
    ensures found { IfSome result (IsPlaceOf change.now marks.now) }
    ensures none { IfNone result (IsUnnamed change.now marks.now) }
{
    let priority = change.rule().key.priority;
    let from = first_of(marks, priority);
    let to = end_of(marks, priority);
    for i in from..to {
        if is_named(&marks[i], change) {
            return Some(i);
        }
    }
    None
}

/// Marks the rule at a position, if there is one, by the change that names it.
fn mark_at(marks: &mut Vec<MarkedRule>, place: Option<usize>, change: &Change) -> bool
    requires { IfSome place (IsPlaceOf change.now marks.old.items) }
    ensures marked { IsTrue result → IsMarkedBy change.now marks.old.items marks.new.items }
    ensures no { result ≡ false → marks.new.items ≡ marks.old.items }
    ensures none { result ≡ false → place ≡ None }
    ensures room { vec_capacity marks.new ≡ vec_capacity marks.old }
{
    let Some(i) = place else {
        return false;
    };
    marks[i].mark = mark_by(change);
    true
}

/// Marks the rule that a change names, if it stands among the sorted ones and is sure.
fn put_mark(marks: &mut Vec<MarkedRule>, change: &Change) -> bool
    ensures marked { IsTrue result → IsMarkedBy change.now marks.old.items marks.new.items }
    ensures room { vec_capacity marks.new ≡ vec_capacity marks.old }
{
    let place = place_of(marks, change);
    mark_at(marks, place, change)
}

/// Marks the rule that a change names, if it stands among those in descending priority and is sure.
pub fn mark_named(marks: &mut Vec<MarkedRule>, change: &Change) -> bool
    requires { IsFalling marks.old.items }
    ensures marked { IsTrue result → IsMarkedBy change.now marks.old.items marks.new.items }
    ensures no { result ≡ false → marks.new.items ≡ marks.old.items }
    ensures none { result ≡ false → IsUnnamed change.now marks.old.items }
    ensures room { vec_capacity marks.new ≡ vec_capacity marks.old }
{
    let place = seek(marks, change);
    mark_at(marks, place, change)
}

/// Marks sorted rules, all of them sure before, by changes. It stops at a change that names none of them, or one that an
/// earlier change names.
pub fn put_marks(marks: &mut Vec<MarkedRule>, changes: &[Change]) -> bool
    requires sure { AllByRecursion (λ m. m.mark ≡ Mark.Sure) marks.old.items }
    requires distinct { IsDistinct (keys_of (rules_of marks.old.items)) }
    ensures marked { IsTrue result → AreMarked (rules_of marks.old.items) changes.now
        marks.new.items }
    ensures room { vec_capacity marks.new ≡ vec_capacity marks.old }
{
    for change in changes {
        if !put_mark(marks, change) {
            return false;
        }
    }
    true
}

/// How many of the first changes name, one after the other, a rule among the sorted ones that no earlier one names. It marks these.
pub fn count_marked(marks: &mut Vec<MarkedRule>, changes: &[Change]) -> usize
    ensures within { result ≤ length changes.now }
    ensures room { vec_capacity marks.new ≡ vec_capacity marks.old }
{
    for i in 0..changes.len() {
        if !put_mark(marks, &changes[i]) {
            return i;
        }
    }
    changes.len()
}

/// Prepares a table and changes by looking up each change's key among the sorted rules, in time n log n. It answers false where the changes aren't good or some mixture isn't clear, without a reason.
pub fn mix_by_key(table: &Table, changes: &[Change], marks: &mut Vec<MarkedRule>) -> bool
    requires { length (all_rules table.now.rules changes.now) ≤ vec_capacity marks.old }
    ensures prepared { IsTrue result → IsPrepared table.now.rules changes.now marks.new.items }
    ensures room { vec_capacity marks.old ≤ vec_capacity marks.new }
{
    let none = &changes[..0];
    fill(none, changes, table.rules(), marks);
    if !sort_apart(marks) {
        return false;
    }
    put_marks(marks, changes)
}
