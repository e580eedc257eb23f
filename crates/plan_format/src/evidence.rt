//! The numberings and the before sets of a plan, and the evidence that names them.
ghost use Rattle.std.specs.Prelude.{◌≡◌, ◌≤◌, [], Ok, true, map, nat_lt, MatchResult};
ghost use Rattle.flat_json.specs.Trees.{data_of};
ghost use Rattle.net_base.specs.Reading.{Gives, Fails, in_turn};
ghost use Rattle.plan_format.specs.declared.fault.PlanFault.TheVariants.{Memory};
ghost use Rattle.plan_format.specs.Evidence as plan;
ghost use Rattle.net_base.specs.Switches.{most_switches};

use crate::fault::PlanFault;
use crate::lists::{Counts, ItemPlace, are_below, ascends, is_index, read_numbers};
use acyclic_numbering::Numbering;
use certificates::{Befores, IndexList, Numberings, Shared};
use flat_json::{Node, Tree};
use net_base::{Field, SwitchId, place_of};
use std::alloc::Global;
use topology::Net;
use waypoint_evidence::Before;

const MAX_HEIGHT: u64 = 65535;

/// Reads one more number of a numbering.
#[tactic(auto, unfolding(crate::specs::Evidence::height_at))]
fn read_height(
    place: u32,
    numbering: &mut Numbering,
    tree: &Tree<'_>,
    item: &Node,
) -> Result<(), PlanFault>
    ensures { MatchResult result
        (λ _. plan.height_at place numbering.old (data_of tree.now item.now) ≡ Ok numbering.new)
        (λ e. Fails Memory e (plan.height_at place numbering.old (data_of tree.now item.now))) }
{
    let number = tree
        .whole(item)
        .ok_or(PlanFault::Shape(Field::Numberings, place))?;
    if number > MAX_HEIGHT {
        return Err(PlanFault::Shape(Field::Numberings, place));
    }
    numbering.add(number as u16)?;
    Ok(())
}

/// Reads a number for each switch.
#[tactic(auto, using(crate::proofs::TurnLaws::turns), unfolding(crate::specs::Evidence::numbering_in))]
fn read_numbering(
    alloc: Global,
    net: &Net,
    place: u32,
    tree: &Tree<'_>,
    item: &Node,
) -> Result<Numbering, PlanFault>
    ensures { Gives Memory (λ n. n) result
        (plan.numbering_in net.now place (data_of tree.now item.now)) }
{
    let items = tree
        .list_in(item)
        .ok_or(PlanFault::Shape(Field::Numberings, place))?;
    if items.len() != net.switches() as usize {
        return Err(PlanFault::Shape(Field::Numberings, place));
    }
    let mut numbering = Numbering::make(alloc)?;
    for height in items {
        read_height(place, &mut numbering, tree, height)?;
    }
    Ok(numbering)
}

/// Reads one more numbering.
#[tactic(auto, unfolding(crate::specs::Evidence::numbering_at))]
fn read_next_numbering(
    alloc: Global,
    net: &Net,
    numberings: &mut Numberings,
    place: u32,
    tree: &Tree<'_>,
    item: &Node,
) -> Result<(), PlanFault>
    ensures { MatchResult result
        (λ _. plan.numbering_at net.now place numberings.old (data_of tree.now item.now)
        ≡ Ok numberings.new)
        (λ e. Fails Memory e
        (plan.numbering_at net.now place numberings.old (data_of tree.now item.now))) }
{
    let numbering = read_numbering(alloc, net, place, tree, item)?;
    numberings.add(numbering)?;
    Ok(())
}

/// Reads the member `numberings`.
#[tactic(auto, using(crate::proofs::TurnLaws::turns), unfolding(crate::specs::Evidence::numberings_in))]
pub(crate) fn read_numberings(
    alloc: Global,
    net: &Net,
    tree: &Tree<'_>,
    top: &Node,
) -> Result<Numberings, PlanFault>
    ensures { Gives Memory (λ n. n) result (plan.numberings_in net.now (data_of tree.now top.now)) }
{
    let items = tree
        .list_at(top, "numberings")
        .ok_or(PlanFault::Shape(Field::Numberings, 0))?;
    let mut numberings = Numberings::make(alloc)?;
    for (i, item) in items.iter().enumerate() {
        read_next_numbering(alloc, net, &mut numberings, place_of(i), tree, item)?;
    }
    Ok(numberings)
}

fn set_of(switches: &[u64]) -> Before
    requires few { plan.all_below most_switches switches.now ≡ true }
    requires ascending { plan.ascends nat_lt switches.now ≡ true }
    ensures { result ≡ switches.now }
{
    let mut set = Before::none();
    for switch in switches {
        set.put(SwitchId(*switch as u32));
    }
    set
}

/// The set of these switches.
fn before_of(numbers: &IndexList) -> Before
    requires few { plan.all_below most_switches numbers.now ≡ true }
    requires ascending { plan.ascends nat_lt numbers.now ≡ true }
    ensures { result ≡ numbers.now }
{
    set_of(numbers.list())
}

/// Reads one more before set.
#[tactic(auto, unfolding(crate::specs::Evidence::before_at))]
fn read_before(
    alloc: Global,
    net: &Net,
    befores: &mut Befores,
    place: u32,
    tree: &Tree<'_>,
    item: &Node,
) -> Result<(), PlanFault>
    ensures { MatchResult result
        (λ _. plan.before_at net.now place befores.old (data_of tree.now item.now) ≡ Ok befores.new)
        (λ e. Fails Memory e
        (plan.before_at net.now place befores.old (data_of tree.now item.now))) }
{
    let numbers = read_numbers(alloc, Field::Befores, place, tree, item)?;
    if !are_below(&numbers, net.switches() as usize) {
        return Err(PlanFault::BadIndex(place));
    }
    if !ascends(&numbers) {
        return Err(PlanFault::BadIndex(place));
    }
    befores.add(before_of(&numbers))?;
    Ok(())
}

/// Reads the member `befores`.
#[tactic(auto, using(crate::proofs::TurnLaws::turns), unfolding(crate::specs::Evidence::befores_in))]
pub(crate) fn read_befores(
    alloc: Global,
    net: &Net,
    tree: &Tree<'_>,
    top: &Node,
) -> Result<Befores, PlanFault>
    ensures { Gives Memory (λ b. b) result (plan.befores_in net.now (data_of tree.now top.now)) }
{
    let items = tree
        .list_at(top, "befores")
        .ok_or(PlanFault::Shape(Field::Befores, 0))?;
    let mut befores = Befores::make(alloc)?;
    for (i, item) in items.iter().enumerate() {
        read_before(alloc, net, &mut befores, place_of(i), tree, item)?;
    }
    Ok(befores)
}

/// Reads the numbers of before sets, beside the number of a numbering.
#[tactic(auto, unfolding(crate::specs::Evidence::shared_in))]
pub(crate) fn read_shared(
    alloc: Global,
    at: ItemPlace,
    counts: Counts,
    numbering: u64,
    tree: &Tree<'_>,
    item: &Node,
) -> Result<Shared, PlanFault>
    ensures { Gives Memory (λ s. s) result
        (plan.shared_in at.field at.place counts.numberings counts.befores numbering
        (data_of tree.now item.now)) }
{
    let numbers = read_numbers(alloc, at.field, at.place, tree, item)?;
    if !is_index(counts.numberings, numbering) {
        return Err(PlanFault::BadIndex(at.place));
    }
    if !are_below(&numbers, counts.befores) {
        return Err(PlanFault::BadIndex(at.place));
    }
    Ok(Shared {
        numbering: numbering as u32,
        befores: numbers,
    })
}
