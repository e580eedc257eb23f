//! Which changes of a round are still to be made, with their number.
ghost use Rattle.std.specs.Prelude.{◌≡◌, [], true, false, Some, slice_get, slice_set, replicate, IfOk, OnErr, IsTrue, ◌↔◌};
ghost use Rattle.std.specs.List.{AllByRecursion};

use net_base::Memory;
use std::alloc::Global;
use std::marker::Model;

/// For each change of a round whether it is pending, and how many are.
#[derive(Drop)]
pub(crate) struct Pending {
    flags: Vec<bool>,
    count: usize,
}

impl Model for Pending {
    ghost use Rattle.std.specs.Prelude.{List, Bool, ◌≡◌, count_by};

    ghost Value = { List Bool };

    ghost view = { λ p. p.flags.items };

    ghost invariant = { λ p. p.count ≡ count_by (λ on. on) p.flags.items };
}

impl Pending {
    /// No changes.
    pub(crate) fn none(alloc: Global) -> Pending
        ensures { result ≡ [] }
    {
        Pending {
            flags: Vec::new(alloc),
            count: 0,
        }
    }

    /// A round of so many changes begins. After a refusal all is as before.
    pub(crate) fn begin(&mut self, count: usize) -> Result<(), Memory>
        ensures ok { IfOk result (λ _. self.new ≡ replicate count true) }
        ensures err { OnErr result (self.new ≡ self.old) }
    {
        let flags = vec![in *self.flags.allocator(); true; count]?;
        self.flags = flags;
        self.count = count;
        Ok(())
    }

    /// For each change whether it is pending.
    pub(crate) fn flags(&self) -> &[bool]
        ensures { result.now ≡ self.now }
    {
        &self.flags
    }

    /// Whether change i is pending.
    pub(crate) fn has(&self, i: usize) -> bool
        ensures { IsTrue result ↔ slice_get self.now i ≡ Some true }
    {
        match self.flags.get(i) {
            Some(on) => *on,
            None => false,
        }
    }

    /// Whether every change is made.
    pub(crate) fn is_over(&self) -> bool
        ensures { IsTrue result ↔ AllByRecursion (λ on. on ≡ false) self.now }
    {
        self.count == 0
    }

    /// Change i is made.
    pub(crate) fn make(&mut self, i: usize)
        requires { slice_get self.old i ≡ Some true }
        ensures { self.new ≡ slice_set self.old i false }
    {
        self.count -= 1;
        self.flags[i] = false;
    }
}
