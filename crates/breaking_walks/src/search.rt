//! A search among the mixed walks of a round.
ghost use Rattle.std.specs.Prelude.{◌≡◌, ◌↔◌, ◌<◌, length, IsTrue, IfOk, OnOk, IfSome, IfNone};
ghost use Rattle.net_base.specs.Members.{IsIn};
ghost use Rattle.topology.specs.Networks.{switch_count};
ghost use Rattle.path_walk.specs.declared.Outcome.TheVariants.{Discard as Discarded};
ghost use Rattle.breaking_walks.specs.Rounds.{round_rollout, SwitchesArePrepared};
ghost use Rattle.breaking_walks.specs.Searches.{IsFound, IsNoneFound};
ghost use Rattle.breaking_walks.specs.Trails.{met_after, HasLeave, IsAimedAt, ArePut};

use crate::round::{PreparedRound, possible};
use crate::trail::{Node, Trail};
use dest_classes::Class;
use net_base::{ListOf, Memory, Place, SwitchId};
use path_walk::Outcome;
use std::alloc::Global;

/// What a mixed walk is to do: meet a chain; come where a packet may leave with the chain unmet; or come where one may be
/// discarded.
#[derive(Clone, Copy, Debug, PartialEq, Eq)]
pub(crate) enum Aim {
    Meet,
    LeaveUnmet,
    Drop,
}

/// How many switches of the chain are met at this switch, where so many are met before it.
fn met_after(chain: &[SwitchId], met: usize, switch: SwitchId) -> usize
    ensures { result ≡ met_after chain.now met switch }
{
    match chain.get(met) {
        Some(next) if *next == switch => met + 1,
        _ => met,
    }
}

/// Whether a packet may leave by one of these outcomes.
fn has_leave(found: &[Outcome]) -> bool
    ensures { IsTrue result ↔ HasLeave found.now }
{
    for outcome in found {
        if let Outcome::Leave(_, _) = *outcome {
            return true;
        }
    }
    false
}

/// Whether a packet may be discarded by one of these outcomes.
fn has_discard(found: &[Outcome]) -> bool
    ensures { IsTrue result ↔ IsIn Discarded found.now }
{
    for outcome in found {
        if let Outcome::Discard = *outcome {
            return true;
        }
    }
    false
}

/// Whether a place is looked for, with so many switches of the chain met there, and with these outcomes.
fn is_aimed_at(aim: Aim, chain: &[SwitchId], met: usize, found: &[Outcome]) -> bool
    ensures { IsTrue result ↔ IsAimedAt aim chain.now met found.now }
{
    match aim {
        Aim::Meet => met == chain.len(),
        Aim::LeaveUnmet => met < chain.len() && has_leave(found),
        Aim::Drop => has_discard(found),
    }
}

/// Puts the nodes after the node with this number, by its outcomes.
pub(crate) fn put_next(
    trail: &mut Trail,
    chain: &[SwitchId],
    node: Node,
    number: usize,
    found: &[Outcome],
) -> Result<(), Memory>
    requires { number < length trail.old }
    ensures { OnOk result (ArePut trail.old chain.now node number found.now trail.new) }
{
    for outcome in found {
        if let Outcome::Go(place) = *outcome {
            let met = met_after(chain, node.met, place.switch);
            trail.put(Node { place, met }, number)?;
        }
    }
    Ok(())
}

/// The places after the entry of a mixed walk of the round that does so, if there is one. Each place is looked at once for
/// each number of switches of the chain that may be met there.
pub(crate) fn find(
    alloc: Global,
    round: PreparedRound<'_>,
    class: Class,
    chain: &[SwitchId],
    aim: Aim,
) -> Result<Option<ListOf<Place>>, Memory>
    requires prepared { SwitchesArePrepared round }
    requires entry { class.entry.switch.0 < switch_count round.net.now }
    ensures some { IfOk result
        (λ found. IfSome found
        (λ rest. IsFound (round_rollout round.entry) round.entry.number class.first class.entry
        chain.now aim rest)) }
    ensures none { IfOk result
        (λ found. IfNone found
        (IsNoneFound (round_rollout round.entry) round.entry.number class.first class.entry
        chain.now aim)) }
{
    round.net.keeps_rules();
    let met = met_after(chain, 0, class.entry.switch);
    let place = class.entry;
    let mut trail = Trail::start(alloc, Node { place, met })?;
    let mut next = 0;
    'searching: while next < trail.count() {
        let (node, _) = trail.at(next);
        let outcomes = possible(alloc, round, node.place, class.first)?;
        let found = outcomes.list();
        if is_aimed_at(aim, chain, node.met, found) {
            let rest = trail.way_to(alloc, next)?;
            return Ok(Some(rest));
        }
        put_next(&mut trail, chain, node, next, found)?;
        next += 1;
    }
    Ok(None)
}
