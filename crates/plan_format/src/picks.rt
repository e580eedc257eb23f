//! The picks of an ordered plan of format 2, and the evidence that they name.
ghost use Rattle.std.specs.Prelude.{◌≡◌, ◌≤◌, ◌&&◌, [], Ok, true, map, nat_le, option_map, IfOk, IfErr, MatchResult};
ghost use Rattle.flat_json.specs.Trees.{data_of};
ghost use Rattle.std.specs.Option.{option_and_then};
ghost use Rattle.net_base.specs.Reading.{Gives, Fails, in_turn};
ghost use Rattle.flat_json.specs.JsonTree.{list_in};
ghost use Rattle.plan_format.specs.declared.fault.PlanFault.TheVariants.{Memory};
ghost use Rattle.plan_format.specs.Evidence as plan;

use crate::evidence::read_shared;
use crate::fault::PlanFault;
use crate::lists::{Counts, ItemPlace, is_index, is_round, three_numbers};
use certificates::{OrderedPick, OrderedPicks, Uses};
use flat_json::{Node, Tree};
use net_base::{Field, place_of};
use std::alloc::Global;

const MAX_CLASS: u64 = 8191;

/// Picks, and the evidence that they name by its number.
#[derive(Drop)]
pub(crate) struct PickTable {
    pub uses: Uses,
    pub picks: OrderedPicks,
}

impl PickTable {
    /// No picks.
    pub fn empty(alloc: Global) -> Result<PickTable, PlanFault>
        ensures ok { IfOk result (λ t. t ≡ record { uses = []; picks = [] }) }
        ensures err { IfErr result (λ e. e ≡ Memory) }
    {
        Ok(PickTable {
            uses: Uses::make(alloc)?,
            picks: OrderedPicks::make(alloc)?,
        })
    }
}

/// A whole number, and what comes second.
fn number_and_list<'t>(tree: &'t Tree<'_>, item: &Node) -> Option<(u64, &'t Node)>
    ensures { option_map (λ p. (p.0, data_of tree.now p.1.now)) result
        ≡ option_and_then plan.number_and_list (list_in (data_of tree.now item.now)) }
{
    match tree.list_in(item)? {
        [number, list] => Some((tree.whole(number)?, list)),
        _ => None,
    }
}

/// Reads one more use.
#[tactic(auto, unfolding(crate::specs::Evidence::use_at))]
fn read_use(
    alloc: Global,
    counts: Counts,
    uses: &mut Uses,
    place: u32,
    tree: &Tree<'_>,
    item: &Node,
) -> Result<(), PlanFault>
    ensures { MatchResult result
        (λ _. plan.use_at counts.numberings counts.befores place uses.old
        (data_of tree.now item.now) ≡ Ok uses.new)
        (λ e. Fails Memory e
        (plan.use_at counts.numberings counts.befores place uses.old
        (data_of tree.now item.now))) }
{
    let (numbering, list) = number_and_list(tree, item).ok_or(PlanFault::Shape(
        Field::Uses,
        place,
    ))?;
    let at = ItemPlace {
        field: Field::Uses,
        place,
    };
    let shared = read_shared(alloc, at, counts, numbering, tree, list)?;
    uses.add(shared)?;
    Ok(())
}

/// Reads the member `uses`.
#[tactic(auto, using(crate::proofs::TurnLaws::turns), unfolding(crate::specs::Evidence::uses_in))]
fn read_uses(alloc: Global, counts: Counts, tree: &Tree<'_>, top: &Node) -> Result<Uses, PlanFault>
    ensures { Gives Memory (λ u. u) result
        (plan.uses_in counts.numberings counts.befores (data_of tree.now top.now)) }
{
    let items = tree
        .list_at(top, "uses")
        .ok_or(PlanFault::Shape(Field::Uses, 0))?;
    let mut uses = Uses::make(alloc)?;
    for (i, item) in items.iter().enumerate() {
        read_use(alloc, counts, &mut uses, place_of(i), tree, item)?;
    }
    Ok(uses)
}

/// Whether one pick comes before another, by round and then by class.
fn is_before(p: OrderedPick, q: OrderedPick) -> bool
    ensures { result ≡ plan.pick_before p q }
{
    p.round < q.round || (p.round == q.round && p.class < q.class)
}

/// Whether the last of the picks, if there is one, comes before this one.
fn comes_next(picks: &[OrderedPick], pick: OrderedPick) -> bool
    ensures { result ≡ plan.follows plan.pick_before picks.now pick }
{
    match picks.last() {
        None => true,
        Some(last) => is_before(*last, pick),
    }
}

/// Adds a pick, which comes after the last.
#[tactic(auto, unfolding(crate::specs::Evidence::picks_with))]
pub(crate) fn add_pick(
    picks: &mut OrderedPicks,
    place: u32,
    pick: OrderedPick,
) -> Result<(), PlanFault>
    ensures { MatchResult result
        (λ _. plan.picks_with place picks.old pick ≡ Ok picks.new)
        (λ e. Fails Memory e (plan.picks_with place picks.old pick)) }
{
    if !comes_next(picks.list(), pick) {
        return Err(PlanFault::BadIndex(place));
    }
    picks.add(pick)?;
    Ok(())
}

/// Whether they are the number of a round, from 1, and that of a class.
pub(crate) fn is_round_and_class(rounds: usize, round: u64, class: u64) -> bool
    ensures value { result ≡ (plan.is_round rounds round && nat_le class 8191) }
    ensures round { result ≡ true → round ≤ rounds }
    ensures class { result ≡ true → class ≤ 8191 }
{
    is_round(rounds, round) && class <= MAX_CLASS
}

/// A list of three whole numbers.
fn list_of_three(tree: &Tree<'_>, item: &Node) -> Option<(u64, u64, u64)>
    ensures { result ≡ option_and_then plan.list_of_three (list_in (data_of tree.now item.now)) }
{
    match tree.list_in(item)? {
        [a, b, c] => three_numbers(tree, a, b, c),
        _ => None,
    }
}

/// Reads one more pick: a round, a class, and the number of its evidence.
#[tactic(auto, unfolding(crate::specs::Evidence::pick_at))]
fn read_pick(
    rounds: usize,
    uses: usize,
    picks: &mut OrderedPicks,
    place: u32,
    tree: &Tree<'_>,
    item: &Node,
) -> Result<(), PlanFault>
    requires { rounds ≤ 4200 }
    ensures { MatchResult result
        (λ _. plan.pick_at rounds uses place picks.old (data_of tree.now item.now) ≡ Ok picks.new)
        (λ e. Fails Memory e
        (plan.pick_at rounds uses place picks.old (data_of tree.now item.now))) }
{
    let (round, class, shared) = list_of_three(tree, item).ok_or(PlanFault::Shape(
        Field::Picks,
        place,
    ))?;
    if !is_round_and_class(rounds, round, class) {
        return Err(PlanFault::BadIndex(place));
    }
    if !is_index(uses, shared) {
        return Err(PlanFault::BadIndex(place));
    }
    let pick = OrderedPick {
        round: round as u32,
        class: class as u32,
        shared: shared as u32,
    };
    add_pick(picks, place, pick)
}

/// Reads the member `picks`.
#[tactic(auto, using(crate::proofs::TurnLaws::turns), unfolding(crate::specs::Evidence::picks_in))]
fn read_picks(
    alloc: Global,
    rounds: usize,
    uses: usize,
    tree: &Tree<'_>,
    top: &Node,
) -> Result<OrderedPicks, PlanFault>
    requires { rounds ≤ 4200 }
    ensures { Gives Memory (λ p. p) result (plan.picks_in rounds uses (data_of tree.now top.now)) }
{
    let items = tree
        .list_at(top, "picks")
        .ok_or(PlanFault::Shape(Field::Picks, 0))?;
    let mut picks = OrderedPicks::make(alloc)?;
    for (i, item) in items.iter().enumerate() {
        read_pick(rounds, uses, &mut picks, place_of(i), tree, item)?;
    }
    Ok(picks)
}

/// Reads the members `uses` and `picks`.
#[tactic(auto, unfolding(crate::specs::Evidence::uses_and_picks_in))]
pub(crate) fn read_uses_and_picks(
    alloc: Global,
    counts: Counts,
    tree: &Tree<'_>,
    top: &Node,
) -> Result<PickTable, PlanFault>
    requires { counts.rounds ≤ 4200 }
    ensures { Gives Memory (λ t. t) result
        (plan.uses_and_picks_in counts.rounds counts.numberings counts.befores
        (data_of tree.now top.now)) }
{
    let uses = read_uses(alloc, counts, tree, top)?;
    let picks = read_picks(alloc, counts.rounds, uses.list().len(), tree, top)?;
    Ok(PickTable { uses, picks })
}
