//! The picks of an ordered plan of format 1, which carry their evidence.
ghost use Rattle.std.specs.Prelude.{◌≡◌, ◌≤◌, ◌<◌, [], Ok, length, IfErr, not, map, option_map, IfOk, OnOk, MatchResult};
ghost use Rattle.flat_json.specs.Trees.{data_of};
ghost use Rattle.std.specs.Option.{option_and_then};
ghost use Rattle.net_base.specs.Reading.{Gives, Fails, in_turn};
ghost use Rattle.flat_json.specs.JsonTree.{list_in};
ghost use Rattle.plan_format.specs.declared.fault.PlanFault.TheVariants.{Memory};
ghost use Rattle.plan_format.specs.Evidence as plan;
ghost use Rattle.plan_format.specs.Evidence.{shared_eq};
ghost use Rattle.plan_format.specs.FewPicks.{HasFew};
ghost use Rattle.std.specs.List.{list_any};

use crate::evidence::read_shared;
use crate::fault::PlanFault;
use crate::lists::{Counts, ItemPlace, three_numbers};
use crate::picks::{PickTable, add_pick, is_round_and_class};
use certificates::{IndexList, OrderedPick, OrderedPicks, Shared, SharedKey, Uses};
use flat_json::{Node, Tree};
use indexmap::IndexSet;
use net_base::{Field, place_of};
use std::alloc::Global;
use std::marker::Model;

/// The evidence of picks, each once, in the order of first use.
#[derive(Drop)]
struct SharedKeys {
    alloc: Global,
    keys: IndexSet<SharedKey>,
}

impl Model for SharedKeys {
    ghost use Rattle.std.specs.Prelude.{List, map};
    ghost use Rattle.certificates.specs.declared.Shared.{Shared};
    ghost use Rattle.plan_format.specs.Evidence.{shared_eq};
    ghost use Rattle.certificates.specs.SharedKeys.{shared_of};
    ghost use Rattle.std.specs.List.{list_any};

    ghost Value = { List Shared };

    ghost view = { λ s. map shared_of s.keys.keys };
}

impl SharedKeys {
    fn empty(alloc: Global) -> SharedKeys
        ensures { result ≡ [] }
    {
        SharedKeys {
            alloc,
            keys: IndexSet::new(alloc),
        }
    }

    /// The number of the evidence, and whether it is new. It is added where it isn't there.
    fn number(&mut self, shared: &Shared) -> Result<(usize, bool), PlanFault>
        ensures number { IfOk result (λ n. n.0 ≡ plan.number_of_shared self.old shared.now) }
        ensures new { IfOk result (λ n. n.1 ≡ not (list_any (shared_eq shared.now) self.old)) }
        ensures keys { OnOk result (self.new ≡ plan.with_shared self.old shared.now) }
        ensures err { IfErr result (λ e. e ≡ Memory) }
    {
        let key = SharedKey::of(self.alloc, shared)?;
        let (number, new) = self.keys.insert_full(key)?;
        Ok((number, new))
    }
}

/// The number of the evidence, which is added where it isn't there. The keys are those of the evidence so far.
fn add_shared(keys: &mut SharedKeys, uses: &mut Uses, shared: Shared) -> Result<usize, PlanFault>
    requires { keys.old ≡ uses.old }
    ensures number { IfOk result (λ n. n ≡ plan.number_of_shared uses.old shared) }
    ensures uses { OnOk result (uses.new ≡ plan.with_shared uses.old shared) }
    ensures keys { OnOk result (keys.new ≡ uses.new) }
    ensures err { IfErr result (λ e. e ≡ Memory) }
{
    let (number, new) = keys.number(&shared)?;
    if new {
        uses.add(shared)?;
    }
    Ok(number)
}

/// Adds a pick, by its round, class and evidence.
#[tactic(auto, unfolding(crate::specs::Evidence::full_picks_with))]
fn add_full_pick(
    keys: &mut SharedKeys,
    table: &mut PickTable,
    place: u32,
    round: u32,
    class: u32,
    shared: Shared,
) -> Result<(), PlanFault>
    requires round { round ≤ 4200 }
    requires class { class ≤ 8191 }
    requires keys { keys.old ≡ table.old.uses }
    requires few { HasFew table.old }
    ensures value { MatchResult result
        (λ _. plan.full_picks_with place table.old round class shared ≡ Ok table.new)
        (λ e. Fails Memory e (plan.full_picks_with place table.old round class shared)) }
    ensures keys { OnOk result (keys.new ≡ table.new.uses) }
    ensures few { OnOk result (HasFew table.new) }
{
    let number = add_shared(keys, &mut table.uses, shared)?;
    let pick = OrderedPick {
        round,
        class,
        shared: number as u32,
    };
    add_pick(&mut table.picks, place, pick)
}

/// Three whole numbers, and what comes fourth.
fn numbers_and_list<'t>(tree: &'t Tree<'_>, item: &Node) -> Option<((u64, u64, u64), &'t Node)>
    ensures { option_map (λ p. (p.0, data_of tree.now p.1.now)) result
        ≡ option_and_then plan.numbers_and_list (list_in (data_of tree.now item.now)) }
{
    match tree.list_in(item)? {
        [a, b, c, list] => Some((three_numbers(tree, a, b, c)?, list)),
        _ => None,
    }
}

/// Reads one more pick: a round, a class, and its evidence.
#[tactic(auto, unfolding(crate::specs::Evidence::full_pick_at))]
fn read_full_pick(
    counts: Counts,
    keys: &mut SharedKeys,
    table: &mut PickTable,
    place: u32,
    tree: &Tree<'_>,
    item: &Node,
) -> Result<(), PlanFault>
    requires rounds { counts.rounds ≤ 4200 }
    requires keys { keys.old ≡ table.old.uses }
    requires few { HasFew table.old }
    ensures value { MatchResult result
        (λ _. plan.full_pick_at counts.rounds counts.numberings counts.befores place table.old
        (data_of tree.now item.now) ≡ Ok table.new)
        (λ e. Fails Memory e
        (plan.full_pick_at counts.rounds counts.numberings counts.befores place table.old
        (data_of tree.now item.now))) }
    ensures keys { OnOk result (keys.new ≡ table.new.uses) }
    ensures few { OnOk result (HasFew table.new) }
{
    let ((round, class, numbering), list) = numbers_and_list(tree, item).ok_or(PlanFault::Shape(
        Field::Picks,
        place,
    ))?;
    let at = ItemPlace {
        field: Field::Picks,
        place,
    };
    let shared = read_shared(keys.alloc, at, counts, numbering, tree, list)?;
    if !is_round_and_class(counts.rounds, round, class) {
        return Err(PlanFault::BadIndex(place));
    }
    add_full_pick(keys, table, place, round as u32, class as u32, shared)
}

/// Reads the member `picks` of format 1.
#[tactic(auto, using(crate::proofs::TurnLaws::turns), unfolding(crate::specs::Evidence::full_picks_in))]
pub(crate) fn read_full_picks(
    alloc: Global,
    counts: Counts,
    tree: &Tree<'_>,
    top: &Node,
) -> Result<PickTable, PlanFault>
    requires { counts.rounds ≤ 4200 }
    ensures { Gives Memory (λ t. t) result
        (plan.full_picks_in counts.rounds counts.numberings counts.befores
        (data_of tree.now top.now)) }
{
    let items = tree
        .list_at(top, "picks")
        .ok_or(PlanFault::Shape(Field::Picks, 0))?;
    let mut keys = SharedKeys::empty(alloc);
    let mut table = PickTable::empty(alloc)?;
    for (i, item) in items.iter().enumerate() {
        read_full_pick(counts, &mut keys, &mut table, place_of(i), tree, item)?;
    }
    Ok(table)
}
