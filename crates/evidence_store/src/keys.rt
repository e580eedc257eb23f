//! The members of lists in which each stands once, as they are looked up.
ghost use Rattle.std.specs.Prelude.{◌≡◌, [], length, IfOk, MatchBool};
ghost use Rattle.waypoint_evidence.specs.Befores.{marked_from};
ghost use Rattle.evidence_store.specs.Numbers.{IsFound, IsAdded};
ghost use Rattle.net_base.specs.Switches.{most_switches};

use acyclic_numbering::Numbering;
use certificates::{Shared, SharedKey};
use indexmap::IndexSet;
use net_base::Memory;
use std::alloc::Global;
use std::marker::Model;
use waypoint_evidence::Before;

/// Numberings, each once, in the order of first use.
#[derive(Drop)]
pub(crate) struct NumberingKeys {
    keys: IndexSet<Vec<u16>>,
}

impl Model for NumberingKeys {
    ghost use Rattle.std.specs.Prelude.{List, ℕ, map};

    ghost Value = { List (List ℕ) };

    ghost view = { λ s. map (λ key. key.items) s.keys.keys };
}

impl NumberingKeys {
    /// No numberings.
    fn make(alloc: Global) -> NumberingKeys
        ensures { result ≡ [] }
    {
        NumberingKeys {
            keys: IndexSet::new(alloc),
        }
    }

    /// The number of the numbering, and whether it is new. It is added where it isn't there.
    pub(crate) fn number(
        &mut self,
        alloc: Global,
        numbering: &Numbering,
    ) -> Result<(usize, bool), Memory>
        ensures { IfOk result
            (λ n. MatchBool n.1 (IsAdded self.old numbering.now n.0 self.new)
            (IsFound self.old numbering.now n.0 self.new)) }
    {
        let key = Vec::from_slice(alloc, numbering.list())?;
        Ok(self.keys.insert_full(key)?)
    }
}

/// Before sets by their members, each once, in the order of first use.
#[derive(Drop)]
pub(crate) struct BeforeKeys {
    keys: IndexSet<Vec<u32>>,
}

impl Model for BeforeKeys {
    ghost use Rattle.std.specs.Prelude.{List, ℕ, map};

    ghost Value = { List (List ℕ) };

    ghost view = { λ s. map (λ key. key.items) s.keys.keys };
}

/// The numbers of the marked places.
fn marked(alloc: Global, marks: &[bool]) -> Result<Vec<u32>, Memory>
    requires { length marks.now ≡ most_switches }
    ensures { IfOk result (λ members. members.items ≡ marked_from 0 marks.now) }
{
    let mut members = Vec::new(alloc);
    for (switch, is_member) in marks.iter().enumerate() {
        if *is_member {
            members.push(switch as u32)?;
        }
    }
    Ok(members)
}

/// The members of a before set, ascending.
fn members(alloc: Global, before: &Before) -> Result<Vec<u32>, Memory>
    ensures { IfOk result (λ members. members.items ≡ before.now) }
{
    marked(alloc, &before.marks())
}

impl BeforeKeys {
    /// No before sets.
    fn make(alloc: Global) -> BeforeKeys
        ensures { result ≡ [] }
    {
        BeforeKeys {
            keys: IndexSet::new(alloc),
        }
    }

    /// The number of the before set, and whether it is new. It is added where it isn't there.
    pub(crate) fn number(&mut self, alloc: Global, before: &Before) -> Result<(usize, bool), Memory>
        ensures { IfOk result
            (λ n. MatchBool n.1 (IsAdded self.old before.now n.0 self.new)
            (IsFound self.old before.now n.0 self.new)) }
    {
        let key = members(alloc, before)?;
        Ok(self.keys.insert_full(key)?)
    }
}

/// Uses, each once, in the order of first use.
#[derive(Drop)]
pub(crate) struct UseKeys {
    keys: IndexSet<SharedKey>,
}

impl Model for UseKeys {
    ghost use Rattle.std.specs.Prelude.{List, map};
    ghost use Rattle.certificates.specs.declared.Shared.{Shared};
    ghost use Rattle.certificates.specs.SharedKeys.{shared_of};

    ghost Value = { List Shared };

    ghost view = { λ s. map shared_of s.keys.keys };
}

impl UseKeys {
    /// No uses.
    fn make(alloc: Global) -> UseKeys
        ensures { result ≡ [] }
    {
        UseKeys {
            keys: IndexSet::new(alloc),
        }
    }

    /// The number of the use, and whether it is new. It is added where it isn't there.
    pub(crate) fn number(&mut self, alloc: Global, shared: &Shared) -> Result<(usize, bool), Memory>
        ensures { IfOk result
            (λ n. MatchBool n.1 (IsAdded self.old shared.now n.0 self.new)
            (IsFound self.old shared.now n.0 self.new)) }
    {
        let key = SharedKey::of(alloc, shared)?;
        Ok(self.keys.insert_full(key)?)
    }
}

/// The keys of numberings, before sets and uses.
#[derive(Drop)]
pub(crate) struct Keys {
    pub(crate) numberings: NumberingKeys,
    pub(crate) befores: BeforeKeys,
    pub(crate) uses: UseKeys,
}

impl Keys {
    /// No keys.
    pub(crate) fn make(alloc: Global) -> Keys
        ensures numberings { result.numberings ≡ [] }
        ensures befores { result.befores ≡ [] }
        ensures uses { result.uses ≡ [] }
    {
        Keys {
            numberings: NumberingKeys::make(alloc),
            befores: BeforeKeys::make(alloc),
            uses: UseKeys::make(alloc),
        }
    }
}
