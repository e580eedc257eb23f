//! Changes over what is prepared, one by one: without memory, and without sorting.
ghost use Rattle.std.specs.Prelude.{◌≡◌, ◌<◌, ◌≤◌, true, false, cond, not, vec_len, vec_capacity};
ghost use Rattle.flow_rules.specs.Patterns.{key_eq};
ghost use Rattle.round_mix.specs.Named.{with_mark};
ghost use Rattle.round_mix.specs.Prepared.{IsFalling};
ghost use Rattle.round_mix.specs.Tried.{settled_mark, put_in, marked_where, settled_where, marks_without, given_up, kept_marks, clashes_with, IsTriedNext, IsRefusedNext};

use crate::named::mark_named;
use crate::priorities::{end_of, first_of, of_priority};
use crate::{Mark, MarkedRule};
use flow_rules::{Key, Rule};
use update_model::Change;

impl MarkedRule {
    /// Gives the rule another mark, if it has the key.
    fn mark_where(&mut self, key: &Key, mark: Mark)
        ensures { self.new ≡ cond (key_eq key.now self.old.rule.key) (with_mark self.old.rule mark)
            self.old }
    {
        if key.is_same(&self.rule.key) {
            self.mark = mark;
        }
    }

    /// Makes the change that the mark tells of.
    fn settle(&mut self)
        ensures { self.new ≡ settled_mark self.old }
    {
        if let Mark::Replaced(action) = self.mark {
            self.rule.action = action;
        }
        self.mark = Mark::Sure;
    }

    /// Makes the change that the mark tells of, if it has the key.
    fn settle_where(&mut self, key: &Key)
        ensures { self.new ≡ cond (key_eq key.now self.old.rule.key) (settled_mark self.old)
            self.old }
    {
        if key.is_same(&self.rule.key) {
            self.settle();
        }
    }
}

/// Gives the rule of a key another mark, by a look at each.
fn mark_among(marks: &mut [MarkedRule], key: &Key, mark: Mark)
    ensures { marks.new ≡ marked_where key.now mark marks.old }
{
    for marked in marks.iter_mut() {
        marked.mark_where(key, mark);
    }
}

/// Gives the rule of a key another mark, among those in descending priority.
fn mark_key(marks: &mut [MarkedRule], key: &Key, mark: Mark)
    requires { IsFalling marks.old }
    ensures { marks.new ≡ marked_where key.now mark marks.old }
{
    let from = first_of(marks, key.priority);
    let to = end_of(marks, key.priority);
    mark_among(&mut marks[from..to], key, mark);
}

/// Makes the change that the mark of the rule of a key tells of, by a look at each.
fn settle_among(marks: &mut [MarkedRule], key: &Key)
    ensures { marks.new ≡ settled_where key.now marks.old }
{
    for marked in marks.iter_mut() {
        marked.settle_where(key);
    }
}

/// Makes the change that the mark of the rule of a key tells of, among those in descending priority.
fn settle_key(marks: &mut [MarkedRule], key: &Key)
    requires { IsFalling marks.old }
    ensures { marks.new ≡ settled_where key.now marks.old }
{
    let from = first_of(marks, key.priority);
    let to = end_of(marks, key.priority);
    settle_among(&mut marks[from..to], key);
}

/// Takes out the rule of a key, by a look at each of its priority among those in descending priority.
fn take_out(marks: &mut Vec<MarkedRule>, key: &Key)
    requires { IsFalling marks.old.items }
    ensures items { marks.new.items ≡ marks_without key.now marks.old.items }
    ensures room { vec_capacity marks.new ≡ vec_capacity marks.old }
{
    let from = first_of(marks, key.priority);
    let to = end_of(marks, key.priority);
    for place in (from..to).rev() {
        if marks[place].rule.key.is_same(key) {
            let _ = marks.remove(place);
        }
    }
}

/// Whether a rule clashes with one of marked ones, by a look at each.
fn clashes_among(marks: &[MarkedRule], rule: &Rule) -> bool
    ensures { result ≡ clashes_with rule.now.key marks.now }
{
    marks
        .iter()
        .any(|marked| marked.rule.key.clashes(&rule.key))
}

/// Whether a rule clashes with one of marked ones in descending priority.
fn has_clash(marks: &[MarkedRule], rule: &Rule) -> bool
    requires { IsFalling marks.now }
    ensures { result ≡ clashes_with rule.now.key marks.now }
{
    clashes_among(of_priority(marks, rule.key.priority), rule)
}

/// Puts a marked rule among others in descending priority.
fn put_in(marks: &mut Vec<MarkedRule>, marked: MarkedRule)
    requires falling { IsFalling marks.old.items }
    requires room { vec_len marks.old < vec_capacity marks.old }
    ensures items { marks.new.items ≡ put_in marked marks.old.items }
    ensures room { vec_capacity marks.old ≤ vec_capacity marks.new }
{
    let place = end_of(marks, marked.rule.key.priority);
    let _ = marks.insert(place, marked);
}

/// Puts a rule that may stand among marked ones in descending priority, unless it clashes with one of them.
fn put_free(marks: &mut Vec<MarkedRule>, rule: &Rule) -> bool
    requires falling { IsFalling marks.old.items }
    requires room { vec_len marks.old < vec_capacity marks.old }
    ensures yes { result ≡ true → marks.new.items
        ≡ put_in (with_mark rule.now Mark.Possible) marks.old.items }
    ensures no { result ≡ false → marks.new.items ≡ marks.old.items }
    ensures is { result ≡ not (clashes_with rule.now.key marks.old.items) }
    ensures room { vec_capacity marks.old ≤ vec_capacity marks.new }
{
    if has_clash(marks, rule) {
        return false;
    }
    let marked = MarkedRule {
        rule: *rule,
        mark: Mark::Possible,
    };
    put_in(marks, marked);
    true
}

/// Marks the rule that a change more names, if it is sure, or puts the one that it inserts, unless that clashes with another.
pub fn try_next(marks: &mut Vec<MarkedRule>, change: &Change) -> bool
    requires falling { IsFalling marks.old.items }
    requires room { vec_len marks.old < vec_capacity marks.old }
    ensures yes { result ≡ true → IsTriedNext change.now marks.old.items marks.new.items }
    ensures no { result ≡ false → marks.new.items ≡ marks.old.items }
    ensures never { result ≡ false → IsRefusedNext change.now marks.old.items }
    ensures room { vec_capacity marks.old ≤ vec_capacity marks.new }
{
    match change {
        Change::Insert(_, rule) => put_free(marks, rule),
        Change::Delete(_, _) => mark_named(marks, change),
        Change::Replace(_, _) => mark_named(marks, change),
    }
}

/// Takes back what was marked or put for a change.
pub fn take_back(marks: &mut Vec<MarkedRule>, change: &Change)
    requires { IsFalling marks.old.items }
    ensures items { marks.new.items ≡ given_up change.now marks.old.items }
    ensures room { vec_capacity marks.new ≡ vec_capacity marks.old }
{
    match change {
        Change::Insert(_, rule) => take_out(marks, &rule.key),
        Change::Delete(_, rule) => mark_key(marks, &rule.key, Mark::Sure),
        Change::Replace(_, rule) => mark_key(marks, &rule.key, Mark::Sure),
    }
}

/// Makes a change for which was marked or put what it names.
pub fn make(marks: &mut Vec<MarkedRule>, change: &Change)
    requires { IsFalling marks.old.items }
    ensures items { marks.new.items ≡ kept_marks change.now marks.old.items }
    ensures room { vec_capacity marks.new ≡ vec_capacity marks.old }
{
    match change {
        Change::Delete(_, rule) => take_out(marks, &rule.key),
        Change::Insert(_, rule) => settle_key(marks, &rule.key),
        Change::Replace(_, rule) => settle_key(marks, &rule.key),
    }
}
