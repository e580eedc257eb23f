//! Chains of waypoints, and their order.
ghost use Rattle.std.specs.Prelude.{◌≡◌, ◌<◌, ◌≤◌, ◌==◌, ◌∷◌, ◌≢◌, [], length, slice_get, slice_index_or, IfOk, OnOk};
ghost use Rattle.std.specs.List.{list_any};
ghost use Rattle.demands.specs.Duties.{first_of_each, chain_lt, with_chain};
ghost use Rattle.demands.specs.Chains.{leading_count};

use crate::Chain;
use net_base::{Memory, SwitchId};
use std::alloc::Global;

/// Whether the switch stands in the list.
fn stands_in(switches: &[SwitchId], switch: SwitchId) -> bool
    ensures { result ≡ list_any (λ s. s.0 == switch.0) switches.now }
{
    switches.iter().any(|s| s.0 == switch.0)
}

/// The switches, each where it stands first.
fn each_once(alloc: Global, switches: &[SwitchId]) -> Result<Vec<SwitchId>, Memory>
    ensures { IfOk result (λ v. v.items ≡ first_of_each switches.now) }
{
    let mut kept = Vec::new(alloc);
    for switch in switches {
        if !stands_in(&kept, *switch) {
            kept.push(*switch)?;
        }
    }
    Ok(kept)
}

/// Whether the first differing switch is lower in the first list, or the second list goes on from it.
fn comes_before(a: &[SwitchId], b: &[SwitchId]) -> bool
    ensures { result ≡ chain_lt a.now b.now }
{
    if b.is_empty() {
        return false;
    }
    if a.is_empty() {
        return true;
    }
    if a[0].0 != b[0].0 {
        return a[0].0 < b[0].0;
    }
    comes_before(&a[1..], &b[1..])
}

impl Chain {
    /// The chain of a list of waypoints: each switch where it stands first.
    pub(crate) fn of_switches(alloc: Global, switches: &[SwitchId]) -> Result<Chain, Memory>
        ensures { IfOk result (λ c. c ≡ first_of_each switches.now) }
    {
        let switches = each_once(alloc, switches)?;
        Ok(Chain { switches })
    }

    /// The switches of the chain.
    pub(crate) fn list(&self) -> &[SwitchId]
        ensures { result.now ≡ self.now }
    {
        self.switches.as_slice()
    }

    fn is_empty(&self) -> bool
        ensures { result ≡ (length self.now == 0) }
    {
        self.switches.is_empty()
    }

    /// Whether it comes before another chain in their order.
    fn is_before(&self, other: &Chain) -> bool
        ensures { result ≡ chain_lt self.now other.now }
    {
        comes_before(self.list(), other.list())
    }
}

/// How many chains at the front come before this one.
fn count_before(chains: &[Chain], chain: &Chain) -> usize
    ensures { result ≡ leading_count chain.now chains.now }
{
    for (i, other) in chains.iter().enumerate() {
        if !other.is_before(chain) {
            return i;
        }
    }
    chains.len()
}

/// Puts a chain into an ascending list, once; an empty one is left out.
pub(crate) fn put_chain(chains: &mut Vec<Chain>, chain: Chain) -> Result<(), Memory>
    ensures { OnOk result (chains.new.items ≡ with_chain chain chains.old.items) }
{
    if chain.is_empty() {
        return Ok(());
    }
    let place = count_before(chains, &chain);
    if place < chains.len() && !chain.is_before(&chains[place]) {
        return Ok(());
    }
    chains.insert(place, chain)?;
    Ok(())
}
