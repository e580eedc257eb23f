//! Atoms of a list of prefixes, and the atom of an address.
ghost use Rattle.std.specs.Prelude.{◌≡◌, ℕ, ◌+◌, ◌*◌, ◌^◌, ◌<◌, ◌≤◌, ◌↔◌, ◌∷◌, ◌++◌, nat_lt, length, filter, flat_map, slice_index, List, IfOk, OnOk, IfSome, IfNone};
ghost use Rattle.net_base.specs.Blocks.{Block, block_size, IsSameClass};
ghost use Rattle.dest_classes.specs.Classes.{boundaries, block_ends};
ghost use Rattle.dest_classes.specs.Atoms.{IsAtomOf};

use crate::Atoms;
use net_base::{Memory, Prefix};
use std::alloc::Global;

/// The number after the last address of a prefix, at most 2^32.
pub(crate) fn end_of(prefix: &Prefix) -> u64
    ensures { result ≡ prefix.now.base + block_size prefix.now }
{
    u64::from(prefix.base) + (1u64 << (32 - prefix.len))
}

/// The address after the last one of a prefix, where it is below 2^32.
fn address_after(prefix: &Prefix) -> Option<u32>
    ensures some { IfSome result (λ a. (a ≡ prefix.now.base + block_size prefix.now)
        × (a < 2 ^ 32)) }
    ensures none { IfNone result (2 ^ 32 ≤ prefix.now.base + block_size prefix.now) }
{
    let after = end_of(prefix);
    if after <= u64::from(u32::MAX) {
        Some(after as u32)
    } else {
        None
    }
}

/// Adds the boundaries that a prefix makes.
fn add_ends(ends: &mut Vec<u32>, prefix: &Prefix) -> Result<(), Memory>
    ensures { OnOk result (ends.new.items
        ≡ ends.old.items ++ filter (λ a. nat_lt a (2 ^ 32)) (block_ends prefix.now)) }
{
    ends.push(prefix.base)?;
    if let Some(after) = address_after(prefix) {
        ends.push(after)?;
    }
    Ok(())
}

/// The boundaries of the prefixes in the order of the list, with repetitions, and 0 before them.
fn all_ends(alloc: Global, prefixes: &[Prefix]) -> Result<Vec<u32>, Memory>
    ensures { IfOk result (λ v. v.items
        ≡ 0 ∷ filter (λ a. nat_lt a (2 ^ 32)) (flat_map block_ends prefixes.now)) }
{
    let mut ends = Vec::new(alloc);
    ends.push(0)?;
    for prefix in prefixes {
        add_ends(&mut ends, prefix)?;
    }
    Ok(ends)
}

impl Atoms {
    /// The atoms of a list of prefixes. Boundaries are 0, each prefix's first address, and the address after each
    /// prefix's last one where it is below 2^32. It takes time n log n.
    pub fn of_prefixes(alloc: Global, prefixes: &[Prefix]) -> Result<Atoms, Memory>
        ensures { IfOk result (λ a. a ≡ boundaries prefixes.now) }
    {
        let mut firsts = all_ends(alloc, prefixes)?;
        firsts.sort_unstable();
        firsts.dedup();
        Ok(Atoms { firsts })
    }

    /// How many atoms there are, at least one.
    pub fn count(&self) -> usize
        ensures count { result ≡ length self.now }
        ensures some { 0 < result }
        ensures few { result ≤ 2 ^ 32 }
    {
        self.firsts.len()
    }

    /// The first address of atom `i`, from 0.
    pub fn first(&self, i: usize) -> u32
        requires { i < length self.now }
        ensures { result ≡ slice_index self.now i }
    {
        self.firsts[i]
    }

    /// The position of the atom that has the address: of the greatest first address that isn't above it. It takes
    /// time log n.
    pub fn index_of(&self, addr: u32) -> usize
        ensures atom { IsAtomOf self.now result addr }
        ensures next { result + 1 < length self.now → addr < slice_index self.now (result + 1) }
        // Where these are the atoms of prefixes, none of them tells the address apart from the atom's first one.
        ensures class { (blocks : List Block) → self.now ≡ boundaries blocks
            → IsSameClass blocks (slice_index self.now result) addr }
    {
        self.firsts.partition_point(|first| *first <= addr) - 1
    }

    /// How many atoms begin before an address, which may be 2^32. It takes time log n.
    pub(crate) fn begun_before(&self, addr: u64) -> usize
        ensures within { result ≤ length self.now }
        ensures each { (i : ℕ) → i < length self.now → (i < result)
            ↔ (slice_index self.now i < addr) }
    {
        self.firsts
            .partition_point(|first| u64::from(*first) < addr)
    }

    /// The same atoms again.
    pub(crate) fn copy(&self) -> Result<Atoms, Memory>
        ensures { IfOk result (λ a. a ≡ self.now) }
    {
        let alloc = *self.firsts.allocator();
        let firsts = Vec::from_slice(alloc, self.firsts.as_slice())?;
        Ok(Atoms { firsts })
    }
}
