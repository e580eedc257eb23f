//! Plans with their evidence, and the laws that make the evidence worth something.
#![tactic(auto)]

pub mod laws;
mod shared_key;
mod validity;

use acyclic_numbering::Numbering;
use net_base::{ListOf, Vlan};
pub use shared_key::SharedKey;
use update_model::Rounds;
pub use validity::valid;
use waypoint_evidence::Before;

/// Numbers of before sets.
pub type IndexList = ListOf<u64>;

/// A use: a numbering and before sets, by their indices in the lists of the plan's evidence. Several picks may share it.
#[derive(Drop)]
pub struct Shared {
    /// The index of the numbering, from 0 and below the length of the list of numberings.
    pub numbering: u32,
    /// The indices of the before sets, each from 0 and below the length of the list of before sets: one for each position
    /// of the class's chains, chain by chain and in each chain by position.
    pub befores: IndexList,
}

/// The evidence that a class has from a round on, until its next pick. In force for a round and a class is the pick of the
/// class with the greatest round number that isn't above the round.
#[derive(Clone, Copy)]
pub struct OrderedPick {
    /// The first round for which it is in force. Rounds count from 1.
    pub round: u32,
    /// The number of the class, from 0 and at most 8191.
    pub class: u32,
    /// The index of its use, from 0 and below the length of the list of uses.
    pub shared: u32,
}

/// The label table that is used from a round on, for all classes, until the next pick. In force for a round is the pick
/// with the greatest round number that isn't above the round.
#[derive(Clone, Copy)]
pub struct LabelPick {
    /// The first round for which it is in force. Rounds count from 1.
    pub round: u32,
    /// The index of the label table, from 0 and below the length of the list of label tables.
    pub labels: u32,
}

/// What a VLAN says of a packet: its version, and the VLAN that its user gave it.
#[derive(Clone, Copy, PartialEq, Eq)]
pub struct Label {
    pub vlan: Vlan,
    pub new: bool,
    pub user: Vlan,
}

/// Numberings of an ordered plan.
pub type Numberings = ListOf<Numbering>;

/// Before sets of an ordered plan.
pub type Befores = ListOf<Before>;

/// Shared evidence of an ordered plan.
pub type Uses = ListOf<Shared>;

/// Picks of an ordered plan.
pub type OrderedPicks = ListOf<OrderedPick>;

/// A label table.
pub type Labels = ListOf<Label>;

/// Label tables of a two-phase plan.
pub type LabelTables = ListOf<Labels>;

/// Picks of a two-phase plan.
pub type LabelPicks = ListOf<LabelPick>;

/// The evidence of an ordered plan.
#[derive(Drop)]
pub struct OrderedEvidence {
    pub numberings: Numberings,
    pub befores: Befores,
    pub uses: Uses,
    pub picks: OrderedPicks,
}

/// The evidence of a two-phase plan.
#[derive(Drop)]
pub struct TwoPhaseEvidence {
    pub labels: LabelTables,
    pub picks: LabelPicks,
    pub tried: Rounds,
}

/// Why a plan is consistent.
#[derive(Drop)]
pub enum Evidence {
    Ordered(OrderedEvidence),
    TwoPhase(TwoPhaseEvidence),
}

/// Rounds of changes, and their evidence.
#[derive(Drop)]
pub struct Plan {
    pub rounds: Rounds,
    pub evidence: Evidence,
}
