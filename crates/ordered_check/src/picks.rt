//! The picks of an ordered plan that are in force.
ghost use Rattle.std.specs.Prelude.{◌≡◌, ℕ, ◌-◌, ◌≤◌, ◌<◌, length, take, drop, replicate, slice_get, slice_set, Some, None, IfOk};
ghost use Rattle.certificates.specs.Valid.{IsChain, IsPickBefore};
ghost use Rattle.ordered_check.specs.Picks.{PicksStand};

use certificates::OrderedPick;
use net_base::Memory;
use std::alloc::Global;
use std::marker::Model;

/// For each class the pick in force. Picks are taken up in order, each once, as the rounds go on.
#[derive(Drop)]
pub(crate) struct PicksInForce {
    next: usize,
    of_class: Vec<Option<OrderedPick>>,
}

impl Model for PicksInForce {
    ghost use Rattle.ordered_check.specs.Picks.{PicksState};

    ghost Value = { PicksState };

    ghost view = { λ p. record { next = p.next; of_class = p.of_class.items } };
}

/// Notes a pick for its class, where there is such a class.
fn note(of_class: &mut [Option<OrderedPick>], pick: OrderedPick)
    ensures { of_class.new ≡ slice_set of_class.old pick.class (Some pick) }
{
    let class = pick.class as usize;
    if class < of_class.len() {
        of_class[class] = Some(pick);
    }
}

impl PicksInForce {
    /// No picks, with room for so many classes.
    pub(crate) fn make(alloc: Global, classes: u32) -> Result<PicksInForce, Memory>
        ensures { IfOk result (λ p. length p.of_class ≡ classes) }
    {
        Ok(PicksInForce {
            next: 0,
            of_class: vec![in alloc; None; classes as usize]?,
        })
    }

    /// No picks again.
    pub(crate) fn start(&mut self)
        ensures next { self.new.next ≡ 0 }
        ensures none { self.new.of_class ≡ replicate (length self.old.of_class) None }
    {
        self.next = 0;
        self.of_class.fill(None);
    }

    /// Takes up the picks that begin up to the round with this number, after those of the rounds before it.
    pub(crate) fn advance(&mut self, picks: &[OrderedPick], round: u32)
        requires ascending { IsChain IsPickBefore picks.now }
        requires stands { (before : ℕ) × (before ≤ round) × PicksStand picks.now before self.old }
        ensures stands { PicksStand picks.now round self.new }
        ensures classes { length self.new.of_class ≡ length self.old.of_class }
        ensures further { self.old.next ≤ self.new.next }
    {
        'taking: while self.next < picks.len() && picks[self.next].round <= round {
            note(&mut self.of_class, picks[self.next]);
            self.next += 1;
        }
    }

    /// How many picks were taken up.
    pub(crate) fn taken(&self) -> usize
        ensures { result ≡ self.now.next }
    {
        self.next
    }

    /// The picks that were taken up after the first so many.
    pub(crate) fn taken_since<'a>(
        &self,
        picks: &'a [OrderedPick],
        before: usize,
    ) -> &'a [OrderedPick]
        requires before { before ≤ self.now.next }
        requires within { self.now.next ≤ length picks.now }
        ensures { result.now ≡ take (self.now.next - before) (drop before picks.now) }
    {
        &picks[before..self.next]
    }

    /// The pick in force for a class, if a pick of the class has begun.
    pub(crate) fn of(&self, class: u32) -> Option<OrderedPick>
        requires { class < length self.now.of_class }
        ensures { slice_get self.now.of_class class ≡ Some result }
    {
        self.of_class[class as usize]
    }
}
