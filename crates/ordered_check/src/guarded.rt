//! The class whose positions of chains were found guarded last: classes that differ in the address often have its walks, its
//! duties and its use.
ghost use Rattle.std.specs.Prelude.{◌≡◌, ◌<◌, true};
ghost use Rattle.certificates.specs.Updates.{Task};
ghost use Rattle.certificates.specs.Certified.{classes_for};
ghost use Rattle.certificates.specs.declared.OrderedEvidence.{OrderedEvidence};
ghost use Rattle.dest_classes.specs.Classes.{IsClass, class_count};
ghost use Rattle.dest_classes.specs.declared.Class.{Class};
ghost use Rattle.ordered_check.specs.Guarded.{IsGuarded, HoldsGuarded};

use crate::cases::OrderedCase;
use acyclic_numbering::Edge;
use mixed_walks::WalkRoom;
use net_base::{MAX_SWITCHES, Memory, SwitchId};
use std::alloc::Global;
use std::marker::Model;

/// A class by its number, with the switch where its packets enter and the number of the use that it was judged by.
#[derive(Clone, Copy)]
pub(crate) struct GuardedClass {
    pub(crate) number: u32,
    pub(crate) start: SwitchId,
    pub(crate) shared: u32,
}

/// A class whose positions are guarded, if any, with the steps of its walks and the switches where a packet may leave on them.
#[derive(Drop)]
pub(crate) struct GuardedWalks {
    last: Option<GuardedClass>,
    steps: Vec<Edge>,
    leaving: Vec<SwitchId>,
}

impl Model for GuardedWalks {
    ghost use Rattle.ordered_check.specs.Guarded.{GuardedState};

    ghost Value = { GuardedState };

    ghost view = { λ g. record { last = g.last; steps = g.steps.items; leaving = g.leaving.items } };
}

impl GuardedClass {
    /// Whether its packets enter at the switch of the other's, and it is judged by the same use.
    fn is_judged_like(self, other: GuardedClass) -> bool
        ensures start { result ≡ true → self.start ≡ other.start }
        ensures shared { result ≡ true → self.shared ≡ other.shared }
    {
        self.start.0 == other.start.0 && self.shared == other.shared
    }
}

impl GuardedWalks {
    /// No class, with room for the walks of any: 128 kilobytes.
    pub(crate) fn make(alloc: Global) -> Result<GuardedWalks, Memory> {
        Ok(GuardedWalks {
            last: None,
            steps: Vec::with_capacity(alloc, 16384)?,
            leaving: Vec::with_capacity(alloc, MAX_SWITCHES as usize)?,
        })
    }

    /// Forgets the class.
    pub(crate) fn forget(&mut self)
        ensures { (t : Task) (e : OrderedEvidence) → HoldsGuarded t e self.new }
    {
        self.last = None;
    }

    /// Whether the walks that were walked last have the same steps and leave at the same switches, noted in the same order.
    fn has_walks(&self, walk: &WalkRoom) -> bool
        ensures steps { result ≡ true → self.now.steps ≡ walk.now.steps }
        ensures leaving { result ≡ true → self.now.leaving ≡ walk.now.leaving }
    {
        walk.has_noted(self.steps.as_slice(), self.leaving.as_slice())
    }

    /// Whether the positions of a class are known to be guarded where its walks are those that were walked last: the class that
    /// was found guarded has the same start, use, duties and walks.
    pub(crate) fn knows(&self, of: &OrderedCase, class: GuardedClass, walk: &WalkRoom) -> bool
        requires number { class.number < class_count (classes_for of.now.task) }
        requires kept { HoldsGuarded of.now.task of.now.evidence self.now }
        ensures { result ≡ true → (c : Class) → IsClass (classes_for of.now.task) class.number c
            → IsGuarded of.now.task of.now.evidence class c walk.now.steps walk.now.leaving }
    {
        let Some(last) = self.last else {
            return false;
        };
        if !last.is_judged_like(class) {
            return false;
        }
        let duties = of.class_duties();
        duties.are_shared(last.number, class.number) && self.has_walks(walk)
    }

    /// Keeps a class whose positions are guarded, where its walks are those that were walked last.
    pub(crate) fn keep(&mut self, class: GuardedClass, walk: &WalkRoom)
        ensures { (t : Task) (e : OrderedEvidence) (c : Class)
            → IsClass (classes_for t) class.number c
            → IsGuarded t e class c walk.now.steps walk.now.leaving → HoldsGuarded t e self.new }
    {
        self.last = None;
        self.steps.clear();
        self.leaving.clear();
        let steps = self.steps.extend_from_slice(walk.steps());
        let leaving = self.leaving.extend_from_slice(walk.leaving());
        if steps.is_ok() && leaving.is_ok() {
            self.last = Some(class);
        }
    }
}
