//! The evidence of an ordered plan while it is made: what keeps a class safe in a round, and the store of it, where equal
//! numberings, before sets and uses stand once.
#![tactic(auto)]

ghost use Rattle.std.specs.Prelude.{◌≡◌, ◌≢◌, ℕ, ◌<◌, ◌≤◌, ◌^◌, length, replicate, None, IfOk, OnOk, IfSome, IfNone};
ghost use Rattle.std.specs.List.{AllByRecursion};
ghost use Rattle.net_base.specs.Members.{IsIn};
ghost use Rattle.certificates.specs.Ordered.{IsPickInForce};
ghost use Rattle.certificates.specs.Valid.{IsPickBefore};
ghost use Rattle.certificates.specs.declared.OrderedPick.{OrderedPick};
ghost use Rattle.evidence_store.specs.Keys.{AreKeysOf};
ghost use Rattle.evidence_store.specs.Numbers.{IsPicked};
ghost use Rattle.evidence_store.specs.Stored.{IsStored, IsWithPick, no_evidence};

mod class_evidence;
mod keys;
mod last_sets;
mod least;
mod safe;
mod uses;

use crate::keys::Keys;
use crate::uses::add_use;
use acyclic_numbering::Numbering;
use certificates::{Befores, Numberings, OrderedEvidence, OrderedPick, OrderedPicks, Uses};
pub use class_evidence::{ClassEvidence, NamedEvidence, evidence_by_last, keeps_safe};
pub use last_sets::LastSets;
use net_base::Memory;
use std::alloc::Global;
use std::marker::Model;

/// The evidence of an ordered plan so far. Equal numberings, equal before sets and equal uses stand once, in the order of
/// first use by the picks, and are found by their hashes.
#[derive(Drop)]
pub struct EvidenceStore {
    alloc: Global,
    keys: Keys,
    evidence: OrderedEvidence,
    in_force: Vec<Option<u32>>,
}

impl Model for EvidenceStore {
    ghost use Rattle.std.specs.Prelude.{ℕ, length};
    ghost use Rattle.certificates.specs.declared.OrderedEvidence.{OrderedEvidence};
    ghost use Rattle.evidence_store.specs.State.{StoreState};

    ghost Value = { StoreState };

    ghost view = { λ s. record { evidence = s.evidence; classes = length s.in_force.items } };

    ghost use Rattle.evidence_store.specs.Kept.{IsStoreKept};

    ghost invariant = { IsStoreKept };
}

/// Evidence of no picks.
fn no_evidence(alloc: Global) -> Result<OrderedEvidence, Memory>
    ensures { IfOk result (λ evidence. evidence ≡ no_evidence) }
{
    let picks = OrderedPicks::make(alloc)?;
    let befores = Befores::make(alloc)?;
    let numberings = Numberings::make(alloc)?;
    let uses = Uses::make(alloc)?;
    Ok(OrderedEvidence {
        numberings,
        befores,
        uses,
        picks,
    })
}

/// For each class that no use is in force.
fn no_uses(alloc: Global, classes: u32) -> Result<Vec<Option<u32>>, Memory>
    ensures { IfOk result (λ uses. uses.items ≡ replicate classes None) }
{
    Ok(vec![in alloc; None; classes as usize]?)
}

/// The class that a pick is for, and the round from which on it is in force.
#[derive(Clone, Copy)]
struct PickPlace {
    round: u32,
    class: u32,
}

/// Adds a pick of a numbering and before sets behind all others. The result is the number of its use. The keys are those of the
/// evidence so far.
fn add_pick_of(
    alloc: Global,
    keys: &mut Keys,
    evidence: &mut OrderedEvidence,
    at: PickPlace,
    numbering: Numbering,
    befores: &Befores,
) -> Result<u32, Memory>
    requires keys { AreKeysOf keys.old evidence.old }
    requires few_numberings { length evidence.old.numberings < 2 ^ 32 }
    requires few_uses { length evidence.old.uses < 2 ^ 32 }
    ensures pick { IfOk result
        (λ shared. IsPicked evidence.old numbering befores.now
        (record { round = at.round; class = at.class; shared = shared }) evidence.new) }
    ensures keys { OnOk result (AreKeysOf keys.new evidence.new) }
{
    let shared = add_use(alloc, keys, evidence, numbering, befores)?;
    evidence.picks.add(OrderedPick {
        round: at.round,
        class: at.class,
        shared,
    })?;
    Ok(shared)
}

/// `add_pick_of`, which also takes the before sets.
fn add_pick(
    alloc: Global,
    keys: &mut Keys,
    evidence: &mut OrderedEvidence,
    at: PickPlace,
    numbering: Numbering,
    befores: Befores,
) -> Result<u32, Memory>
    requires keys { AreKeysOf keys.old evidence.old }
    requires few_numberings { length evidence.old.numberings < 2 ^ 32 }
    requires few_uses { length evidence.old.uses < 2 ^ 32 }
    ensures pick { IfOk result
        (λ shared. IsPicked evidence.old numbering befores
        (record { round = at.round; class = at.class; shared = shared }) evidence.new) }
    ensures keys { OnOk result (AreKeysOf keys.new evidence.new) }
{
    add_pick_of(alloc, keys, evidence, at, numbering, &befores)
}

impl EvidenceStore {
    /// Evidence of no picks, of so many classes, at most 8192.
    pub fn make(alloc: Global, classes: u32) -> Result<EvidenceStore, Memory>
        requires { classes ≤ 8192 }
        ensures { IfOk result (λ s. s ≡ record { evidence = no_evidence; classes = classes }) }
    {
        let in_force = no_uses(alloc, classes)?;
        let evidence = no_evidence(alloc)?;
        Ok(EvidenceStore {
            alloc,
            keys: Keys::make(alloc),
            evidence,
            in_force,
        })
    }

    /// Does nothing: its contract says what every store keeps.
    pub fn keeps_once(&self)
        ensures { IsStored self.now.evidence }
    {
        let _ = &self.evidence;
    }

    /// The evidence so far.
    pub fn evidence(&self) -> &OrderedEvidence
        ensures { result.now ≡ self.now.evidence }
    {
        &self.evidence
    }

    /// The use of the last pick of a class, if there is a pick of it.
    pub fn in_force(&self, class: u32) -> Option<u32>
        requires { class < self.now.classes }
        ensures none { IfNone result
            ((pick : OrderedPick) → IsIn pick self.now.evidence.picks → pick.class ≢ class) }
        ensures some { IfSome result
            (λ use_. (round : ℕ) → AllByRecursion (λ p. p.round ≤ round) self.now.evidence.picks
            → (pick : OrderedPick) × IsPickInForce self.now.evidence.picks round class pick
            × (pick.shared ≡ use_)) }
    {
        self.in_force[class as usize]
    }

    /// The store with one pick more, of a round and a class, behind all others, by what it means. A refusal loses the store.
    /// Up to the last round of a plan there are too few picks for their numbers to pass 32 bits.
    pub fn add(
        self,
        round: u32,
        class: u32,
        numbering: Numbering,
        befores: Befores,
    ) -> Result<EvidenceStore, Memory>
        requires class { class < self.classes }
        requires few_rounds { round ≤ 4200 }
        requires behind { AllByRecursion
            (λ p. IsPickBefore p (record { round = round; class = class; shared = 0 }))
            self.evidence.picks }
        ensures pick { IfOk result
            (λ s. IsWithPick self.evidence round class numbering befores s.evidence) }
        ensures classes { IfOk result (λ s. s.classes ≡ self.classes) }
    {
        let mut store = self;
        let added = add_pick(
            store.alloc,
            &mut store.keys,
            &mut store.evidence,
            PickPlace { round, class },
            numbering,
            befores,
        );
        match added {
            Ok(shared) => {
                store.in_force[class as usize] = Some(shared);
                Ok(store)
            }
            Err(memory) => {
                drop(store.keys);
                drop(store.evidence);
                Err(memory)
            }
        }
    }

    /// The evidence.
    pub fn into_evidence(self) -> OrderedEvidence
        ensures { result ≡ self.evidence }
    {
        self.evidence
    }
}
