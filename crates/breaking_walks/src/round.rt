//! A round of an update, prepared.
ghost use Rattle.std.specs.Prelude.{◌≡◌, ◌↔◌, ◌+◌, ◌<◌, [], IfOk};
ghost use Rattle.net_base.specs.Members.{IsIn};
ghost use Rattle.topology.specs.Networks.{switch_count};
ghost use Rattle.path_walk.specs.declared.Outcome.{Outcome as OutcomeOf};
ghost use Rattle.update_model.specs.Mixtures.{IsPossible};
ghost use Rattle.breaking_walks.specs.Rounds.{round_rollout, SwitchesArePrepared};

use flow_rules::Config;
use net_base::{Memory, Place};
use round_mix::{Mixed, Outcomes};
use std::alloc::Global;
use topology::Net;
use update_model::Rounds;

/// A round of an update, by its number from 0: the network, the tables before the update, all its rounds, and each switch as it
/// is prepared for this one.
#[derive(Clone, Copy)]
pub struct PreparedRound<'a> {
    pub net: &'a Net,
    pub old: &'a Config,
    pub rounds: &'a Rounds,
    pub number: usize,
    pub mixes: &'a [Mixed],
}

/// Room for the outcomes of a place over so many prepared rules.
fn outcomes_for(alloc: Global, rules: usize) -> Result<Outcomes, Memory>
    ensures { IfOk result (λ out. out ≡ record { list = []; spare = rules + 1 }) }
{
    let entries = rules.checked_add(1).ok_or(Memory)?;
    Outcomes::with_room(alloc, entries)
}

/// The outcomes of a place for an address over all tables that its switch may have while a round is carried out. It looks at
/// each rule and change of the switch at most once.
pub(crate) fn possible(
    alloc: Global,
    round: PreparedRound<'_>,
    place: Place,
    dst: u32,
) -> Result<Outcomes, Memory>
    requires prepared { SwitchesArePrepared round }
    requires within { place.switch.0 < switch_count round.net.now }
    ensures { IfOk result
        (λ out. (found : OutcomeOf) → IsIn found out.list
        ↔ IsPossible (round_rollout round.entry) round.entry.number dst place found) }
{
    let mixed = &round.mixes[place.switch.0 as usize];
    let mut out = outcomes_for(alloc, mixed.most_entries() as usize)?;
    mixed.possible(round.net, place, dst, &mut out);
    Ok(out)
}
