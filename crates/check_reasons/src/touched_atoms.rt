//! Which atoms of addresses the changes of a round touch, so that a class whose address none of them covers is known without
//! comparing it with each.
ghost use Rattle.std.specs.Prelude.{◌≡◌, ℕ, ◌<◌, ◌≤◌, true, length, All};
ghost use Rattle.net_base.specs.Members.{IsIn};
ghost use Rattle.dest_classes.specs.Classes.{class_count};
ghost use Rattle.dest_classes.specs.Atoms.{IsAmong};
ghost use Rattle.update_model.specs.Changes.{round_after, rule_of};
ghost use Rattle.certificates.specs.Certified.{classes_for};
ghost use Rattle.check_reasons.specs.AtomMarks.{is_marked, AreTouched};

use crate::Case;
use dest_classes::{AtomRange, ClassMap};
use net_base::Memory;
use std::alloc::Global;
use std::marker::Model;
use update_model::Change;

/// The most atoms of a class map that has a class.
const MOST_ATOMS: usize = 8192;

/// A mark for each atom of a class map, by the atom's number from 0: whether a change of a round touches it, that is,
/// whether the change's prefix holds its addresses.
#[derive(Drop)]
pub struct TouchedAtoms {
    marks: Vec<bool>,
}

impl Model for TouchedAtoms {
    ghost use Rattle.std.specs.Prelude.{◌≡◌, length, List, Bool};

    ghost Value = { List Bool };

    ghost view = { λ t. t.marks.items };

    ghost invariant = { λ t. length t.marks.items ≡ 8192 };
}

/// Marks the atoms of a range.
fn mark_range(marks: &mut [bool], range: AtomRange)
    requires order { range.from ≤ range.to }
    requires within { range.to ≤ length marks.old }
    ensures count { length marks.new ≡ length marks.old }
    ensures among { (i : ℕ) → IsAmong range i → is_marked marks.new i ≡ true }
    ensures others { (i : ℕ) → ¬ IsAmong range i → is_marked marks.new i ≡ is_marked marks.old i }
{
    marks[range.from as usize..range.to as usize].fill(true);
}

/// Marks the atoms that lie in the prefix of a change, and no others.
fn mark_all(marks: &mut [bool], classes: &ClassMap, changes: &[Change])
    requires some { 0 < class_count classes.now }
    requires room { 8192 ≤ length marks.old }
    requires known { All (λ c. IsIn (rule_of c).key.pattern.dst classes.now.prefixes) changes.now }
    ensures touched { AreTouched classes.now changes.now marks.new }
    ensures count { length marks.new ≡ length marks.old }
{
    marks[..classes.atoms() as usize].fill(false);
    for change in changes {
        mark_range(marks, classes.touched(change.rule().key.pattern.dst));
    }
}

impl TouchedAtoms {
    /// Room for the marks of the atoms of any class map, none of them set: 8192 bytes.
    pub fn make(alloc: Global) -> Result<TouchedAtoms, Memory> {
        Ok(TouchedAtoms {
            marks: vec![in alloc; false; MOST_ATOMS]?,
        })
    }

    /// Marks the atoms that the changes of round k, from 0, touch, and no others. It takes time linear in the number of atoms
    /// in the prefix of each change, and in the number of all atoms.
    pub fn mark(&mut self, case: &Case, classes: &ClassMap, k: usize)
        requires classes { classes.now ≡ classes_for case.now.task }
        requires round { k < length case.now.task.rounds }
        ensures { AreTouched classes.now (round_after k case.now.task.rounds) self.new }
    {
        if classes.count() == 0 {
            return;
        }
        mark_all(&mut self.marks, classes, case.plan.rounds.round(k));
    }

    /// Whether the atom with this number is marked.
    pub fn has(&self, atom: u32) -> bool
        ensures { result ≡ is_marked self.now atom }
    {
        let atom = atom as usize;
        atom < self.marks.len() && self.marks[atom]
    }
}
