//! Sets of demands, and each of them once, as they are looked up.
ghost use Rattle.std.specs.Prelude.{◌≡◌, ◌≢◌, ◌<◌, ◌++◌, ◌∷◌, ◌&&◌, ◌==◌, ℕ, [], true, false, slice_get, Some, IfOk, if◌then◌else◌};
ghost use Rattle.std.specs.Int.{bit_at};
ghost use Rattle.demands.specs.Sets.{is_in};

use indexmap::IndexSet;
use net_base::Memory;
use std::alloc::Global;
use std::marker::Model;

/// A set of demands of a policy, which has at most 512, by their numbers from 0: a bit for each.
#[derive(Clone, Copy, PartialEq, Eq, Hash)]
pub(crate) struct DemandSet {
    words: [u64; 8],
}

/// Sets of demands, each once, in the order in which they were put.
#[derive(Drop)]
pub(crate) struct DemandSets {
    sets: IndexSet<DemandSet>,
}

impl Model for DemandSets {
    ghost use Rattle.std.specs.Prelude.{List, ℕ, map};

    ghost Value = { List (List ℕ) };

    ghost view = { λ s. map (λ set. set.words) s.sets.keys };
}

/// The word with one of its bits set.
fn with_bit(word: u64, n: usize) -> u64
    requires { n < 64 }
    ensures there { bit_at result n ≡ 1 }
    ensures others { (i : ℕ) → i ≢ n → bit_at result i ≡ bit_at word i }
{
    word | (1 << n)
}

impl DemandSet {
    /// No demand.
    pub(crate) fn none() -> DemandSet
        ensures { (i : ℕ) → is_in result.words i ≡ false }
    {
        DemandSet { words: [0; 8] }
    }

    /// Puts a demand.
    pub(crate) fn put(&mut self, n: usize)
        requires { n < 512 }
        ensures there { is_in self.new.words n ≡ true }
        ensures others { (i : ℕ) → i ≢ n → is_in self.new.words i ≡ is_in self.old.words i }
    {
        self.words[n / 64] = with_bit(self.words[n / 64], n % 64);
    }

    /// The demands that are in both.
    pub(crate) fn and(self, other: DemandSet) -> DemandSet
        ensures { (i : ℕ) → i < 512 → is_in result.words i
            ≡ (is_in self.words i && is_in other.words i) }
    {
        let mut words = self.words;
        for n in 0..8 {
            words[n] = self.words[n] & other.words[n];
        }
        DemandSet { words }
    }
}

impl DemandSets {
    /// No sets.
    pub(crate) fn make(alloc: Global) -> DemandSets
        ensures { result ≡ [] }
    {
        DemandSets {
            sets: IndexSet::new(alloc),
        }
    }

    /// The number of the set, and whether it is new. It is added where it isn't there.
    pub(crate) fn number(&mut self, set: DemandSet) -> Result<(usize, bool), Memory>
        ensures sets { IfOk result (λ n. self.new
            ≡ (if n.1 then self.old ++ set.words ∷ [] else self.old)) }
        ensures stands { IfOk result (λ n. slice_get self.new n.0 ≡ Some set.words) }
    {
        Ok(self.sets.insert_full(set)?)
    }
}
