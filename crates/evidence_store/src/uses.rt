//! One use more of a numbering and before sets: what stands there is found, and what doesn't is added.
ghost use Rattle.std.specs.Prelude.{◌≡◌, ◌<◌, ◌^◌, length, IfOk, OnOk};
ghost use Rattle.evidence_store.specs.Keys.{AreKeysOf};
ghost use Rattle.evidence_store.specs.Numbers.{IsNumbered, AreNumbered, IsWithUse};

use crate::keys::{BeforeKeys, Keys, NumberingKeys, UseKeys};
use acyclic_numbering::Numbering;
use certificates::{Befores, IndexList, Numberings, OrderedEvidence, Shared, Uses};
use net_base::Memory;
use std::alloc::Global;
use waypoint_evidence::Before;

/// The number of a numbering. The keys are those of the numberings so far, of which there are few enough for a number more.
fn add_numbering(
    alloc: Global,
    keys: &mut NumberingKeys,
    numberings: &mut Numberings,
    numbering: Numbering,
) -> Result<u32, Memory>
    requires keys { keys.old ≡ numberings.old }
    requires few { length numberings.old < 2 ^ 32 }
    ensures number { IfOk result (λ n. IsNumbered numberings.old numbering n numberings.new) }
    ensures keys { OnOk result (keys.new ≡ numberings.new) }
{
    let (number, is_new) = keys.number(alloc, &numbering)?;
    if is_new {
        numberings.add(numbering)?;
    }
    Ok(number as u32)
}

/// The number of a before set. The keys are those of the before sets so far.
fn add_before(
    alloc: Global,
    keys: &mut BeforeKeys,
    befores: &mut Befores,
    before: &Before,
) -> Result<usize, Memory>
    requires { keys.old ≡ befores.old }
    ensures number { IfOk result (λ n. IsNumbered befores.old before.now n befores.new) }
    ensures keys { OnOk result (keys.new ≡ befores.new) }
{
    let (number, is_new) = keys.number(alloc, before)?;
    if is_new {
        befores.add(before.copy())?;
    }
    Ok(number)
}

/// The numbers of before sets, in order. The keys are those of the before sets so far.
fn add_befores(
    alloc: Global,
    keys: &mut BeforeKeys,
    befores: &mut Befores,
    sets: &[Before],
) -> Result<IndexList, Memory>
    requires { keys.old ≡ befores.old }
    ensures numbers { IfOk result
        (λ numbers. AreNumbered befores.old sets.now numbers befores.new) }
    ensures keys { OnOk result (keys.new ≡ befores.new) }
{
    let mut numbers = IndexList::make(alloc)?;
    for set in sets {
        let number = add_before(alloc, keys, befores, set)?;
        numbers.add(number as u64)?;
    }
    Ok(numbers)
}

/// The number of a use. The keys are those of the uses so far, of which there are few enough for a number more.
fn add_shared(
    alloc: Global,
    keys: &mut UseKeys,
    uses: &mut Uses,
    shared: Shared,
) -> Result<u32, Memory>
    requires keys { keys.old ≡ uses.old }
    requires few { length uses.old < 2 ^ 32 }
    ensures number { IfOk result (λ n. IsNumbered uses.old shared n uses.new) }
    ensures keys { OnOk result (keys.new ≡ uses.new) }
{
    let (number, is_new) = keys.number(alloc, &shared)?;
    if is_new {
        uses.add(shared)?;
    }
    Ok(number as u32)
}

/// The number of the use of a numbering and before sets. The keys are those of the evidence so far.
pub(crate) fn add_use(
    alloc: Global,
    keys: &mut Keys,
    evidence: &mut OrderedEvidence,
    numbering: Numbering,
    befores: &Befores,
) -> Result<u32, Memory>
    requires keys { AreKeysOf keys.old evidence.old }
    requires few_numberings { length evidence.old.numberings < 2 ^ 32 }
    requires few_uses { length evidence.old.uses < 2 ^ 32 }
    ensures number { IfOk result
        (λ n. IsWithUse evidence.old numbering befores.now n evidence.new) }
    ensures keys { OnOk result (AreKeysOf keys.new evidence.new) }
{
    let shared = Shared {
        numbering: add_numbering(
            alloc,
            &mut keys.numberings,
            &mut evidence.numberings,
            numbering,
        )?,
        befores: add_befores(
            alloc,
            &mut keys.befores,
            &mut evidence.befores,
            befores.list(),
        )?,
    };
    add_shared(alloc, &mut keys.uses, &mut evidence.uses, shared)
}
