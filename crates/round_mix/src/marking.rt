//! The rules of a switch, marked by the changes of a round.
ghost use Rattle.std.specs.Prelude.{◌≡◌, ◌+◌, ◌≤◌, ◌++◌, length, map, vec_len, vec_capacity};
ghost use Rattle.std.specs.Option.{option_map_or};
ghost use Rattle.round_mix.specs.Marks.{mark_by, change_of, marked_rule, inserted_rules, all_rules};

use crate::{Mark, MarkedRule};
use flow_rules::Rule;
use update_model::Change;

/// The mark of the rule that a change names.
pub fn mark_by(change: &Change) -> Mark
    ensures { result ≡ mark_by change.now }
{
    match *change {
        Change::Insert(_, _) | Change::Delete(_, _) => Mark::Possible,
        Change::Replace(_, rule) => Mark::Replaced(rule.action),
    }
}

/// The change that names the key of a rule, where one does.
fn change_of(changes: &[Change], rule: &Rule) -> Option<Change>
    ensures { result ≡ change_of changes.now rule.now }
{
    changes
        .iter()
        .copied()
        .find(|change| change.rule().key.is_same(&rule.key))
}

/// The mark of a rule: it is sure where no change names its key.
fn mark_of(changes: &[Change], rule: &Rule) -> Mark
    ensures { result ≡ option_map_or mark_by (change_of changes.now rule.now) Mark.Sure }
{
    match change_of(changes, rule) {
        None => Mark::Sure,
        Some(change) => mark_by(&change),
    }
}

/// A rule with its mark.
fn mark(changes: &[Change], rule: &Rule) -> MarkedRule
    ensures { result ≡ marked_rule changes.now rule.now }
{
    MarkedRule {
        rule: *rule,
        mark: mark_of(changes, rule),
    }
}

/// Puts the rules of the table, marked.
fn put_table(changes: &[Change], rules: &[Rule], marks: &mut Vec<MarkedRule>)
    requires { vec_len marks.old + length rules.now ≤ vec_capacity marks.old }
    ensures items { marks.new.items ≡ marks.old.items ++ map (marked_rule changes.now) rules.now }
    ensures room { vec_capacity marks.old ≤ vec_capacity marks.new }
{
    for rule in rules {
        marks.push_reserved(mark(changes, rule));
    }
}

/// Puts the rules that changes insert, marked by the others.
fn put_inserted(naming: &[Change], changes: &[Change], marks: &mut Vec<MarkedRule>)
    requires { vec_len marks.old + length (inserted_rules changes.now) ≤ vec_capacity marks.old }
    ensures items { marks.new.items
        ≡ marks.old.items ++ map (marked_rule naming.now) (inserted_rules changes.now) }
    ensures room { vec_capacity marks.old ≤ vec_capacity marks.new }
{
    for change in changes {
        if let Change::Insert(_, rule) = change {
            marks.push_reserved(mark(naming, rule));
        }
    }
}

/// Replaces the list by the rules of the table and those that the changes insert, marked by the first changes.
pub fn fill(naming: &[Change], changes: &[Change], rules: &[Rule], marks: &mut Vec<MarkedRule>)
    requires { length (all_rules rules.now changes.now) ≤ vec_capacity marks.old }
    ensures items { marks.new.items
        ≡ map (marked_rule naming.now) (all_rules rules.now changes.now) }
    ensures room { vec_capacity marks.old ≤ vec_capacity marks.new }
{
    marks.clear();
    put_table(naming, rules, marks);
    put_inserted(naming, changes, marks);
}
