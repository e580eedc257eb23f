//! Numbers that fall along each step of walks: where there are some, no switch stands twice on one.
ghost use Rattle.std.specs.Prelude.{◌≡◌, ◌↔◌, ◌<◌, ℕ, List, IsTrue, true, length, slice_index, IfOk, OnOk};
ghost use Rattle.topology.specs.Networks.{switch_count};
ghost use Rattle.acyclic_numbering.specs.Heights.{IsEdge, IsLower, Falls};
ghost use Rattle.breaking_walks.specs.Rounds.{round_rollout, SwitchesArePrepared};
ghost use Rattle.breaking_walks.specs.Surveys.{AreAdded, NeverRepeats};

use crate::round::{PreparedRound, possible};
use crate::search::put_next;
use crate::trail::{Node, Trail};
use acyclic_numbering::Edge;
use dest_classes::Class;
use net_base::{Memory, SwitchId};
use path_walk::Outcome;
use std::alloc::Global;

/// Adds the steps from a switch by the outcomes of a place there.
fn add_edges(edges: &mut Vec<Edge>, from: SwitchId, found: &[Outcome]) -> Result<(), Memory>
    ensures { OnOk result (AreAdded edges.old.items from found.now edges.new.items) }
{
    for outcome in found {
        if let Outcome::Go(place) = *outcome {
            edges.push(Edge {
                from,
                to: place.switch,
            })?;
        }
    }
    Ok(())
}

/// The number of a switch; 0 where it has none.
fn number_at(numbers: &[u32], switch: SwitchId) -> u32
    ensures { result ≡ slice_index numbers.now switch.0 }
{
    match numbers.get(switch.0 as usize) {
        Some(number) => *number,
        None => 0,
    }
}

/// Raises the number of the switch that a step leaves above that of the one to which it leads.
fn raise(numbers: &mut Vec<u32>, edge: &Edge)
    ensures { length numbers.new.items ≡ length numbers.old.items }
{
    let least = number_at(numbers, edge.to).saturating_add(1);
    if let Some(number) = numbers.get_mut(edge.from.0 as usize) {
        *number = least.max(*number);
    }
}

/// Raises the number of each switch above those to which its steps lead, the last steps first.
fn raise_from_last(numbers: &mut Vec<u32>, edges: &[Edge])
    ensures { length numbers.new.items ≡ length numbers.old.items }
{
    for edge in edges.iter().rev() {
        raise(numbers, edge);
    }
}

/// Raises the number of each switch above those to which its steps lead, the first steps first.
fn raise_from_first(numbers: &mut Vec<u32>, edges: &[Edge])
    ensures { length numbers.new.items ≡ length numbers.old.items }
{
    for edge in edges {
        raise(numbers, edge);
    }
}

/// Whether the numbers fall along a step.
fn is_falling(numbers: &[u32], edge: &Edge) -> bool
    ensures { IsTrue result ↔ IsLower numbers.now edge.now.from edge.now.to }
{
    number_at(numbers, edge.to) < number_at(numbers, edge.from)
}

/// Whether the numbers fall along each step.
fn are_falling(numbers: &[u32], edges: &[Edge]) -> bool
    ensures { IsTrue result ↔ Falls (IsEdge edges.now) numbers.now }
{
    for edge in edges {
        if !is_falling(numbers, edge) {
            return false;
        }
    }
    true
}

/// Whether there are numbers for so many switches that fall along each step, so that the steps have no cycle: they are raised
/// along each step twice, as often as there are switches at most. Once is enough where the steps stand in the order of a walk,
/// or of walks that one after the other lead into those before.
pub fn have_falling(alloc: Global, switches: u32, edges: &[Edge]) -> Result<bool, Memory>
    ensures { IfOk result
        (λ found. found ≡ true → (numbers : List ℕ) × Falls (IsEdge edges.now) numbers) }
{
    let mut numbers = vec![in alloc; 0; switches as usize]?;
    for _ in 0..switches {
        raise_from_last(&mut numbers, edges);
        raise_from_first(&mut numbers, edges);
        if are_falling(&numbers, edges) {
            return Ok(true);
        }
    }
    Ok(false)
}

/// Whether there are numbers that fall along each step of the mixed walks of a class, so that no switch stands twice on one.
/// There may be none although no switch does. It looks once at each place of the walks.
pub(crate) fn are_walks_falling(
    alloc: Global,
    round: PreparedRound<'_>,
    class: Class,
) -> Result<bool, Memory>
    requires prepared { SwitchesArePrepared round }
    requires entry { class.entry.switch.0 < switch_count round.net.now }
    ensures { IfOk result
        (λ falls. falls ≡ true
        → NeverRepeats (round_rollout round.entry) round.entry.number class.first class.entry) }
{
    round.net.keeps_rules();
    let place = class.entry;
    let mut trail = Trail::start(alloc, Node { place, met: 0 })?;
    let mut edges = Vec::new(alloc);
    let mut next = 0;
    'looking: while next < trail.count() {
        let (node, _) = trail.at(next);
        let outcomes = possible(alloc, round, node.place, class.first)?;
        let found = outcomes.list();
        add_edges(&mut edges, node.place.switch, found)?;
        put_next(&mut trail, &[], node, next, found)?;
        next += 1;
    }
    have_falling(alloc, round.net.switches(), &edges)
}
