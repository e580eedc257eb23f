//! The label tables of the two-phase plan, and their picks.
ghost use Rattle.std.specs.Prelude.{◌≡◌, ◌≤◌, ◌++◌, ◌∷◌, [], IfOk, OnOk, flat_map, length, map, true};
ghost use Rattle.tag_allocator.specs.Tags.{tags_of, available_tags};
ghost use Rattle.two_phase.specs.TwoPhasePlan.{label, label_picks, label_table, label_tables, vlan_number};
ghost use Rattle.net_base.specs.declared.ids.Vlan.TheVariants as vlan;

use certificates::{Label, LabelPick, LabelPicks, LabelTables, Labels};
use net_base::{Memory, Vlan};
use std::alloc::Global;
use tag_allocator::TagMap;
use topology::Net;

/// The place of a VLAN in a label table: untagged first, then the ids.
fn vlan_place(vlan: Vlan) -> u32
    ensures { result ≡ vlan_number vlan }
{
    match vlan {
        Vlan::Untagged => 0,
        Vlan::Id(id) => u32::from(id) + 1,
    }
}

/// Adds the labels of a declared VLAN and of its tag.
fn add_labels(list: &mut Vec<Label>, user: Vlan, tag: u16, version: bool) -> Result<(), Memory>
    ensures { OnOk result
        (list.new.items ≡ list.old.items
        ++ (label user version user ∷ label (vlan.Id tag) true user ∷ [])) }
{
    list.push(Label {
        vlan: user,
        new: version,
        user,
    })?;
    list.push(Label {
        vlan: Vlan::Id(tag),
        new: true,
        user,
    })?;
    Ok(())
}

/// The labels of all declared VLANs and their tags, in the order of the file.
fn list_labels(alloc: Global, net: &Net, tags: &TagMap, version: bool) -> Result<Vec<Label>, Memory>
    requires tags { tags.now ≡ map (λ t. t.tag) (tags_of net.now) }
    requires enough { length net.now.vlans ≤ length (available_tags net.now) }
    ensures { IfOk result
        (λ list. list.items
        ≡ flat_map (λ v. label v.user version v.user ∷ label (vlan.Id v.tag) true v.user ∷ [])
        (tags_of net.now)) }
{
    net.keeps_rules();
    let mut list = Vec::new(alloc);
    for (i, user) in net.vlans().iter().enumerate() {
        add_labels(&mut list, *user, tags.tag(i as u32), version)?;
    }
    Ok(list)
}

/// A label table with these labels.
fn table_with(alloc: Global, list: &[Label]) -> Result<Labels, Memory>
    ensures { IfOk result (λ labels. labels ≡ list.now) }
{
    let mut labels = Labels::make(alloc)?;
    for label in list {
        labels.add(*label)?;
    }
    Ok(labels)
}

/// A label table: the declared VLANs have this version, their tags the new one.
fn make_labels(alloc: Global, net: &Net, tags: &TagMap, version: bool) -> Result<Labels, Memory>
    requires tags { tags.now ≡ map (λ t. t.tag) (tags_of net.now) }
    requires enough { length net.now.vlans ≤ length (available_tags net.now) }
    ensures { IfOk result (λ labels. labels ≡ label_table net.now version) }
{
    net.keeps_rules();
    let mut list = list_labels(alloc, net, tags, version)?;
    list.sort_unstable_by_key(|label| vlan_place(label.vlan));
    table_with(alloc, &list)
}

/// Adds the label table of a version.
// What owns the label tables lets them go at each of its ends, which makes its proof long. So this borrows them.
fn add_label_table(
    tables: &mut LabelTables,
    alloc: Global,
    net: &Net,
    tags: &TagMap,
    version: bool,
) -> Result<(), Memory>
    requires tags { tags.now ≡ map (λ t. t.tag) (tags_of net.now) }
    requires enough { length net.now.vlans ≤ length (available_tags net.now) }
    ensures { OnOk result (tables.new ≡ tables.old ++ label_table net.now version ∷ []) }
{
    tables.add(make_labels(alloc, net, tags, version)?)?;
    Ok(())
}

/// The label tables: the declared VLANs stand for the old version in the first and for the new one in the second.
pub(crate) fn make_label_tables(
    alloc: Global,
    net: &Net,
    tags: &TagMap,
) -> Result<LabelTables, Memory>
    requires tags { tags.now ≡ map (λ t. t.tag) (tags_of net.now) }
    requires enough { length net.now.vlans ≤ length (available_tags net.now) }
    ensures { IfOk result (λ tables. tables ≡ label_tables net.now) }
{
    let mut tables = LabelTables::make(alloc)?;
    add_label_table(&mut tables, alloc, net, tags, false)?;
    add_label_table(&mut tables, alloc, net, tags, true)?;
    Ok(tables)
}

/// The picks of the label tables: the first from round 1, the second from the round of the exchange, which comes after one
/// round for the tagged rules and one for each layer of ingress rules.
pub(crate) fn make_label_picks(alloc: Global, layers: usize) -> Result<LabelPicks, Memory>
    requires { layers ≤ 2049 }
    ensures { IfOk result (λ picks. picks ≡ label_picks layers) }
{
    let mut picks = LabelPicks::make(alloc)?;
    picks.add(LabelPick {
        round: 1,
        labels: 0,
    })?;
    picks.add(LabelPick {
        round: layers as u32 + 2,
        labels: 1,
    })?;
    Ok(picks)
}
