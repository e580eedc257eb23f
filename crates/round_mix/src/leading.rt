//! How many of a table's changes are good, for many changes: their keys are looked up among the sorted rules.
ghost use Rattle.std.specs.Prelude.{◌≡◌, ◌≤◌, ◌<◌, IsTrue, length, take, vec_capacity};
ghost use Rattle.round_mix.specs.Marks.{all_rules};
ghost use Rattle.round_mix.specs.Prepared.{AreGood};
ghost use Rattle.round_mix.specs.Sorted.{AreSorted};

use crate::MarkedRule;
use crate::marking::fill;
use crate::named::{count_marked, put_marks};
use crate::sorting::{are_rising, sort_by_key};
use flow_rules::Table;
use update_model::Change;

/// Replaces the list by the rules of a table and those that changes insert, sorted by their keys.
fn fill_sorted(table: &Table, changes: &[Change], marks: &mut Vec<MarkedRule>)
    requires { length (all_rules table.now.rules changes.now) ≤ vec_capacity marks.old }
    ensures sorted { AreSorted table.now.rules changes.now marks.new.items }
    ensures room { vec_capacity marks.old ≤ vec_capacity marks.new }
{
    let none = &changes[..0];
    fill(none, changes, table.rules(), marks);
    sort_by_key(marks);
}

/// Whether changes are good, as far as a look-up of their keys tells.
fn are_good(table: &Table, changes: &[Change], marks: &mut Vec<MarkedRule>) -> bool
    requires { length (all_rules table.now.rules changes.now) ≤ vec_capacity marks.old }
    ensures good { IsTrue result → AreGood table.now.rules changes.now }
    ensures room { vec_capacity marks.old ≤ vec_capacity marks.new }
{
    fill_sorted(table, changes, marks);
    are_rising(marks) && put_marks(marks, changes)
}

/// How many of the first changes are good at least, as far as a look-up of keys tells. It halves the changes among which
/// the first bad one is.
fn good_below(table: &Table, changes: &[Change], below: usize, marks: &mut Vec<MarkedRule>) -> usize
    requires within { below ≤ length changes.now }
    requires room { length (all_rules table.now.rules changes.now) ≤ vec_capacity marks.old }
    ensures within { result ≤ length changes.now }
    ensures good { AreGood table.now.rules (take result changes.now) }
    ensures room { vec_capacity marks.old ≤ vec_capacity marks.new }
{
    let mut good = 0;
    let mut bad = below;
    'halving: while good + 1 < bad {
        let middle = good + (bad - good) / 2;
        if are_good(table, &changes[..middle], marks) {
            good = middle;
        } else {
            bad = middle;
        }
    }
    good
}

/// How many of the first changes are good at least: as many as there are, where all are good, and otherwise mostly all before
/// the first bad one. It takes n log n where the first bad change names what an earlier one names, or what isn't there, and
/// log n times as long where it inserts what stands in the table.
pub fn leading_good(table: &Table, changes: &[Change], marks: &mut Vec<MarkedRule>) -> usize
    requires { length (all_rules table.now.rules changes.now) ≤ vec_capacity marks.old }
    ensures within { result ≤ length changes.now }
    ensures good { AreGood table.now.rules (take result changes.now) }
    ensures room { vec_capacity marks.old ≤ vec_capacity marks.new }
{
    fill_sorted(table, changes, marks);
    let count = count_marked(marks, changes);
    if are_good(table, &changes[..count], marks) {
        return count;
    }
    good_below(table, changes, count, marks)
}
