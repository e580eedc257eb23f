//! Label tables, and the picks of a two-phase plan.
ghost use Rattle.std.specs.Prelude.{◌≡◌, ◌≤◌, [], Ok, map, MatchResult};
ghost use Rattle.flat_json.specs.Trees.{data_of};
ghost use Rattle.std.specs.Option.{option_and_then};
ghost use Rattle.net_base.specs.Reading.{Gives, Fails, in_turn};
ghost use Rattle.flat_json.specs.JsonTree.{list_in};
ghost use Rattle.plan_format.specs.declared.fault.PlanFault.TheVariants.{Memory};
ghost use Rattle.plan_format.specs.Evidence as plan;
ghost use Rattle.plan_format.specs.Evidence.{round_before};

use crate::fault::PlanFault;
use crate::lists::{is_index, is_round};
use crate::rules::is_text;
use certificates::{Label, LabelPick, LabelPicks, LabelTables, Labels};
use flat_json::{Node, Tree};
use net_base::{Field, Vlan, place_of};
use std::alloc::Global;
use topology::is_vlan_id;

/// The text `untagged`, or the id of a VLAN that may be.
fn vlan_in(tree: &Tree<'_>, item: &Node) -> Option<Vlan>
    ensures { result ≡ plan.vlan_in (data_of tree.now item.now) }
{
    if is_text(tree, item, "untagged") {
        return Some(Vlan::Untagged);
    }
    match tree.whole(item) {
        Some(id) if is_vlan_id(id) => Some(Vlan::Id(id as u16)),
        _ => None,
    }
}

/// The text `old` or `new`: whether it is new.
fn version_in(tree: &Tree<'_>, item: &Node) -> Option<bool>
    ensures { result ≡ plan.version_in (data_of tree.now item.now) }
{
    if is_text(tree, item, "old") {
        return Some(false);
    }
    if is_text(tree, item, "new") {
        return Some(true);
    }
    None
}

/// A VLAN, a version, and the VLAN of its user.
fn label_in(tree: &Tree<'_>, item: &Node) -> Option<Label>
    ensures { result ≡ option_and_then plan.label_in (list_in (data_of tree.now item.now)) }
{
    match tree.list_in(item)? {
        [vlan, version, user] => Some(Label {
            vlan: vlan_in(tree, vlan)?,
            new: version_in(tree, version)?,
            user: vlan_in(tree, user)?,
        }),
        _ => None,
    }
}

/// Reads one more label of a table.
#[tactic(auto, unfolding(crate::specs::Evidence::label_at))]
fn read_label(
    place: u32,
    labels: &mut Labels,
    tree: &Tree<'_>,
    item: &Node,
) -> Result<(), PlanFault>
    ensures { MatchResult result
        (λ _. plan.label_at place labels.old (data_of tree.now item.now) ≡ Ok labels.new)
        (λ e. Fails Memory e (plan.label_at place labels.old (data_of tree.now item.now))) }
{
    let label = label_in(tree, item).ok_or(PlanFault::Shape(Field::Labels, place))?;
    labels.add(label)?;
    Ok(())
}

#[tactic(auto, using(crate::proofs::TurnLaws::turns))]
fn read_each_label(
    alloc: Global,
    place: u32,
    tree: &Tree<'_>,
    items: &[Node],
) -> Result<Labels, PlanFault>
    ensures { Gives Memory (λ l. l) result
        (in_turn (λ i. plan.label_at place) 0 [] (map (data_of tree.now) items.now)) }
{
    let mut labels = Labels::make(alloc)?;
    for item in items {
        read_label(place, &mut labels, tree, item)?;
    }
    Ok(labels)
}

/// Whether one VLAN comes before another: untagged, then by the ids.
fn is_vlan_before(a: Vlan, b: Vlan) -> bool
    ensures { result ≡ plan.vlan_before a b }
{
    match (a, b) {
        (Vlan::Untagged, Vlan::Id(_)) => true,
        (Vlan::Id(m), Vlan::Id(n)) => m < n,
        _ => false,
    }
}

/// Whether one label comes before another, by its VLAN.
fn is_before(a: Label, b: Label) -> bool
    ensures { result ≡ plan.label_before a b }
{
    is_vlan_before(a.vlan, b.vlan)
}

fn are_ascending(labels: &[Label]) -> bool
    ensures { result ≡ plan.ascends plan.label_before labels.now }
{
    for k in 1..labels.len() {
        if !is_before(labels[k - 1], labels[k]) {
            return false;
        }
    }
    true
}

/// Whether each label comes before the next.
fn ascends(labels: &Labels) -> bool
    ensures { result ≡ plan.ascends plan.label_before labels.now }
{
    are_ascending(labels.list())
}

/// Reads a label table.
#[tactic(auto, unfolding(crate::specs::Evidence::table_in))]
fn read_table(alloc: Global, place: u32, tree: &Tree<'_>, item: &Node) -> Result<Labels, PlanFault>
    ensures { Gives Memory (λ l. l) result (plan.table_in place (data_of tree.now item.now)) }
{
    let items = tree
        .list_in(item)
        .ok_or(PlanFault::Shape(Field::Labels, place))?;
    let labels = read_each_label(alloc, place, tree, items)?;
    if !ascends(&labels) {
        return Err(PlanFault::BadIndex(place));
    }
    Ok(labels)
}

/// Reads one more label table.
#[tactic(auto, unfolding(crate::specs::Evidence::table_at))]
fn read_next_table(
    alloc: Global,
    tables: &mut LabelTables,
    place: u32,
    tree: &Tree<'_>,
    item: &Node,
) -> Result<(), PlanFault>
    ensures { MatchResult result
        (λ _. plan.table_at place tables.old (data_of tree.now item.now) ≡ Ok tables.new)
        (λ e. Fails Memory e (plan.table_at place tables.old (data_of tree.now item.now))) }
{
    let labels = read_table(alloc, place, tree, item)?;
    tables.add(labels)?;
    Ok(())
}

/// Reads the member `labels`.
#[tactic(auto, using(crate::proofs::TurnLaws::turns), unfolding(crate::specs::Evidence::labels_in))]
pub(crate) fn read_labels(
    alloc: Global,
    tree: &Tree<'_>,
    top: &Node,
) -> Result<LabelTables, PlanFault>
    ensures { Gives Memory (λ t. t) result (plan.labels_in (data_of tree.now top.now)) }
{
    let items = tree
        .list_at(top, "labels")
        .ok_or(PlanFault::Shape(Field::Labels, 0))?;
    let mut tables = LabelTables::make(alloc)?;
    for (i, item) in items.iter().enumerate() {
        read_next_table(alloc, &mut tables, place_of(i), tree, item)?;
    }
    Ok(tables)
}

/// Whether the last of the picks, if there is one, comes before this one.
fn comes_next(picks: &[LabelPick], pick: LabelPick) -> bool
    ensures { result ≡ plan.follows round_before picks.now pick }
{
    match picks.last() {
        None => true,
        Some(last) => last.round < pick.round,
    }
}

/// Adds a pick, which comes after the last.
#[tactic(auto, unfolding(crate::specs::Evidence::label_picks_with))]
fn add_pick(picks: &mut LabelPicks, place: u32, pick: LabelPick) -> Result<(), PlanFault>
    ensures { MatchResult result
        (λ _. plan.label_picks_with place picks.old pick ≡ Ok picks.new)
        (λ e. Fails Memory e (plan.label_picks_with place picks.old pick)) }
{
    if !comes_next(picks.list(), pick) {
        return Err(PlanFault::BadIndex(place));
    }
    picks.add(pick)?;
    Ok(())
}

/// A list of two whole numbers.
fn list_of_two(tree: &Tree<'_>, item: &Node) -> Option<(u64, u64)>
    ensures { result ≡ option_and_then plan.list_of_two (list_in (data_of tree.now item.now)) }
{
    match tree.list_in(item)? {
        [a, b] => Some((tree.whole(a)?, tree.whole(b)?)),
        _ => None,
    }
}

/// Reads one more pick: a round, and the number of its label table.
#[tactic(auto, unfolding(crate::specs::Evidence::label_pick_at))]
fn read_label_pick(
    rounds: usize,
    tables: usize,
    picks: &mut LabelPicks,
    place: u32,
    tree: &Tree<'_>,
    item: &Node,
) -> Result<(), PlanFault>
    requires { rounds ≤ 4200 }
    ensures { MatchResult result
        (λ _. plan.label_pick_at rounds tables place picks.old (data_of tree.now item.now)
        ≡ Ok picks.new)
        (λ e. Fails Memory e
        (plan.label_pick_at rounds tables place picks.old (data_of tree.now item.now))) }
{
    let (round, labels) = list_of_two(tree, item).ok_or(PlanFault::Shape(Field::Picks, place))?;
    if !is_round(rounds, round) {
        return Err(PlanFault::BadIndex(place));
    }
    if !is_index(tables, labels) {
        return Err(PlanFault::BadIndex(place));
    }
    let pick = LabelPick {
        round: round as u32,
        labels: labels as u32,
    };
    add_pick(picks, place, pick)
}

/// Reads the member `picks` of a two-phase plan.
#[tactic(auto, using(crate::proofs::TurnLaws::turns), unfolding(crate::specs::Evidence::label_picks_in))]
pub(crate) fn read_label_picks(
    alloc: Global,
    rounds: usize,
    tables: usize,
    tree: &Tree<'_>,
    top: &Node,
) -> Result<LabelPicks, PlanFault>
    requires { rounds ≤ 4200 }
    ensures { Gives Memory (λ p. p) result
        (plan.label_picks_in rounds tables (data_of tree.now top.now)) }
{
    let items = tree
        .list_at(top, "picks")
        .ok_or(PlanFault::Shape(Field::Picks, 0))?;
    let mut picks = LabelPicks::make(alloc)?;
    for (i, item) in items.iter().enumerate() {
        read_label_pick(rounds, tables, &mut picks, place_of(i), tree, item)?;
    }
    Ok(picks)
}
