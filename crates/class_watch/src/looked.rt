//! The atoms of a class map whose classes are looked at.
ghost use Rattle.std.specs.Prelude.{◌≡◌, ◌⊎◌, ℕ, ◌+◌, ◌%◌, ◌<◌, ◌≤◌, ◌∷◌, [], true, false, Some, length, replicate, slice_get, IfOk, IfSome, IfNone};
ghost use Rattle.net_base.specs.Blocks.{in_block};
ghost use Rattle.net_base.specs.Members.{IsIn};
ghost use Rattle.dest_classes.specs.Classes.{ClassList, class_count, atom_count};
ghost use Rattle.dest_classes.specs.declared.Class.{Class as ClassOf};
ghost use Rattle.certificates.specs.declared.OrderedPick.{OrderedPick};
ghost use Rattle.check_reasons.specs.AtomMarks.{is_marked, AreTouched};
ghost use Rattle.class_watch.specs.Classes.{AreClasses};
ghost use Rattle.class_watch.specs.Looked.{IsNext, AreNext, IsNextNumber};

use certificates::OrderedPick;
use check_reasons::TouchedAtoms;
use dest_classes::{Class, ClassMap};
use net_base::{Memory, Prefix};
use std::alloc::Global;
use std::marker::Model;
use update_model::Change;

/// Of each atom of a class map, by its number from 0, whether its classes are looked at, and the first such atom from it on; how
/// many atoms there are where there is none.
#[derive(Drop)]
pub struct LookedAtoms {
    marks: Vec<bool>,
    next: Vec<u32>,
}

impl Model for LookedAtoms {
    ghost use Rattle.std.specs.Prelude.{List, Bool};
    ghost use Rattle.class_watch.specs.Looked.{AreNext};

    ghost Value = { List Bool };

    ghost view = { λ l. l.marks.items };

    ghost invariant = { λ l. AreNext l.marks.items l.next.items };
}

/// How many atoms a map has, where it has a class; otherwise 1.
fn atoms_of(classes: &ClassMap) -> usize
    ensures count { 0 < class_count classes.now → result ≡ atom_count classes.now }
    ensures some { 0 < result }
    ensures few { result ≤ 8192 }
{
    if classes.count() == 0 {
        return 1;
    }
    classes.atoms() as usize
}

/// Marks the atoms that are touched, and no others.
fn mark_touched(marks: &mut Vec<bool>, touched: &TouchedAtoms)
    requires few { length marks.old.items ≤ 8192 }
    ensures count { length marks.new.items ≡ length marks.old.items }
    ensures each { (atom : ℕ) → atom < length marks.new.items
        → is_marked marks.new.items atom ≡ is_marked touched.now atom }
{
    for atom in 0..marks.len() {
        marks[atom] = touched.has(atom as u32);
    }
}

/// Marks the atoms of the classes of picks, besides those that are marked.
fn mark_picked(marks: &mut Vec<bool>, picks: &[OrderedPick])
    requires some { 0 < length marks.old.items }
    ensures count { length marks.new.items ≡ length marks.old.items }
    ensures kept { (atom : ℕ) → is_marked marks.old.items atom ≡ true
        → is_marked marks.new.items atom ≡ true }
    ensures picked { (pick : OrderedPick) → IsIn pick picks.now
        → is_marked marks.new.items (pick.class % length marks.new.items) ≡ true }
    ensures only { (atom : ℕ) → is_marked marks.new.items atom ≡ true
        → (is_marked marks.old.items atom ≡ true)
        ⊎ ((pick : OrderedPick) × IsIn pick picks.now
        × (pick.class % length marks.new.items ≡ atom)) }
{
    for pick in picks {
        let atom = pick.class as usize % marks.len();
        marks[atom] = true;
    }
}

/// Whether the prefix has the first address of the class in this place, if there is one.
fn covers_at(prefix: Prefix, classes: &[Class], place: usize) -> bool
    ensures { (class : ClassOf) → slice_get classes.now place ≡ Some class
        → result ≡ in_block prefix class.first }
{
    place < classes.len() && prefix.has(classes[place].first)
}

/// Marks the atoms whose addresses a prefix has, and no others, where these are the classes of the map.
fn mark_covered(marks: &mut Vec<bool>, classes: &[Class], prefix: Prefix)
    ensures count { length marks.new.items ≡ length marks.old.items }
    ensures each { (atom : ℕ) (class : ClassOf) → atom < length marks.new.items
        → slice_get classes.now atom ≡ Some class
        → is_marked marks.new.items atom ≡ in_block prefix class.first }
{
    for atom in 0..marks.len() {
        marks[atom] = covers_at(prefix, classes, atom);
    }
}

/// The first marked atom from this one on, where this is the first one after it.
fn first_from(marks: &[bool], atom: usize, after: u32) -> u32
    requires atom { atom < length marks.now }
    requires few { length marks.now ≤ 8192 }
    requires within { after ≤ length marks.now }
    requires after { IsNext marks.now (atom + 1) after }
    ensures within { result ≤ length marks.now }
    ensures next { IsNext marks.now atom result }
{
    if marks[atom] { atom as u32 } else { after }
}

/// Notes for each atom the first marked one from it on.
fn link(next: &mut Vec<u32>, marks: &[bool])
    requires some { 0 < length marks.now }
    requires few { length marks.now ≤ 8192 }
    requires count { length next.old.items ≡ length marks.now }
    ensures { AreNext marks.now next.new.items }
{
    let mut first = marks.len() as u32;
    for atom in (0..marks.len()).rev() {
        first = first_from(marks, atom, first);
        next[atom] = first;
    }
}

impl LookedAtoms {
    /// No atom of a map is looked at. 5 bytes for each of them.
    pub fn make(alloc: Global, classes: &ClassMap) -> Result<LookedAtoms, Memory>
        ensures { IfOk result (λ looked. 0 < class_count classes.now
            → length looked ≡ atom_count classes.now) }
    {
        let atoms = atoms_of(classes);
        let marks = vec![in alloc; false; atoms]?;
        let mut next = vec![in alloc; 0; atoms]?;
        link(&mut next, &marks);
        Ok(LookedAtoms { marks, next })
    }

    /// Looks at all atoms.
    pub fn look_at_all(&mut self)
        ensures { self.new ≡ replicate (length self.old) true }
    {
        self.marks.fill(true);
        link(&mut self.next, &self.marks);
    }

    /// Looks at the atoms that are touched and those of the classes of picks, and at no others. It takes time linear in the
    /// picks and in the atoms.
    pub fn look_at(&mut self, touched: &TouchedAtoms, picks: &[OrderedPick])
        ensures count { length self.new ≡ length self.old }
        ensures touched { (atom : ℕ) → atom < length self.new → is_marked touched.now atom ≡ true
            → is_marked self.new atom ≡ true }
        ensures picked { (pick : OrderedPick) → IsIn pick picks.now
            → is_marked self.new (pick.class % length self.new) ≡ true }
        ensures only { (atom : ℕ) → atom < length self.new → is_marked self.new atom ≡ true
            → (is_marked touched.now atom ≡ true)
            ⊎ ((pick : OrderedPick) × IsIn pick picks.now × (pick.class % length self.new ≡ atom)) }
    {
        mark_touched(&mut self.marks, touched);
        mark_picked(&mut self.marks, picks);
        link(&mut self.next, &self.marks);
    }

    /// Looks at the atoms that a change touches, and at no others, where these are the classes of the map. It takes time
    /// linear in the atoms.
    pub fn look_at_touched(&mut self, classes: &[Class], change: &Change)
        ensures count { length self.new ≡ length self.old }
        ensures touched { (map : ClassList) → AreClasses map classes.now
            → (0 < class_count map → length self.old ≡ atom_count map)
            → AreTouched map (change.now ∷ []) self.new }
    {
        mark_covered(&mut self.marks, classes, change.rule().key.pattern.dst);
        link(&mut self.next, &self.marks);
    }

    /// The atom of the class with a number.
    pub fn atom_of(&self, number: u32) -> u32
        ensures { result ≡ number % length self.now }
    {
        number % self.marks.len() as u32
    }

    /// The first class number from this one on whose atom is looked at, if there is one.
    fn first_number(&self, number: u32) -> Option<usize>
        ensures some { IfSome result (IsNextNumber self.now number) }
        ensures none { IfNone result ((n : ℕ) → is_marked self.now (n % length self.now) ≡ false) }
    {
        let number = number as usize;
        let atoms = self.next.len();
        let atom = number % atoms;
        let row = number - atom;
        let in_row = self.next[atom] as usize;
        if in_row < atoms {
            return Some(row + in_row);
        }
        let first = self.next[0] as usize;
        if first < atoms {
            return Some(row + atoms + first);
        }
        None
    }

    /// The first class number from this one on whose atom is looked at, where it lies below `end`; otherwise `end`.
    pub fn next_number(&self, number: u32, end: u32) -> u32
        requires { number ≤ end }
        ensures from { number ≤ result }
        ensures within { result ≤ end }
        ensures passed { (n : ℕ) → number ≤ n → n < result
            → is_marked self.now (n % length self.now) ≡ false }
        ensures looked { result < end → is_marked self.now (result % length self.now) ≡ true }
    {
        match self.first_number(number) {
            None => end,
            Some(first) => {
                if first < end as usize {
                    first as u32
                } else {
                    end
                }
            }
        }
    }
}
