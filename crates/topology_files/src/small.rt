//! Names, capacities, VLANs and tag ranges as a topology spells them.
ghost use Rattle.std.specs.Prelude.{◌≡◌, ◌≤◌, Some, map, option_map, IfSome, true};
ghost use Rattle.std.specs.List.{list_all};
ghost use Rattle.std.specs.Option.{option_and_then};
ghost use Rattle.flat_json.specs.Trees.{data_of};
ghost use Rattle.flat_json.specs.JsonTree.{list_at};
ghost use Rattle.topology.specs.Networks as networks;
ghost use Rattle.topology.specs.Networks.{IsVlan, IsVlanId};
ghost use Rattle.topology_files.specs.Topology as topology;

use flat_json::{Node, Tree};
use net_base::Vlan;
use topology::is_vlan_id;

/// The most table entries of a switch.
const MAX_CAPACITY: u64 = 8192;

/// Whether it is an ASCII letter, a digit, `-` or `_`.
fn is_name_byte(b: u8) -> bool
    ensures { result ≡ networks.is_name_byte b }
{
    b.is_ascii_digit() || b.is_ascii_uppercase() || b.is_ascii_lowercase() || b == b'-' || b == b'_'
}

/// Whether the text has such bytes alone.
fn has_name_bytes(name: &str) -> bool
    ensures { result ≡ list_all networks.is_name_byte name.now }
{
    name.as_bytes().iter().all(|b| is_name_byte(*b))
}

/// Whether the text is of the form that names of switches have: 1 to 32 ASCII letters, digits, `-` and `_`.
pub fn is_name(name: &str) -> bool
    ensures { result ≡ networks.is_name name.now }
{
    1 <= name.len() && name.len() <= 32 && has_name_bytes(name)
}

/// Whether it is a capacity that a switch may have: 1 to 8192.
pub(crate) fn is_capacity(capacity: u64) -> bool
    ensures value { result ≡ networks.is_capacity capacity }
    ensures small { result ≡ true → capacity ≤ 8192 }
{
    1 <= capacity && capacity <= MAX_CAPACITY
}

/// The text `untagged`, or a whole number.
pub(crate) fn vlan_id(tree: &Tree<'_>, item: &Node) -> Option<Option<u64>>
    ensures { result ≡ topology.vlan_id (data_of tree.now item.now) }
{
    match tree.as_str(item) {
        Some(text) if text == "untagged" => Some(None),
        _ => tree.whole(item).map(Some),
    }
}

/// Untagged, or the id where a VLAN may have it.
pub(crate) fn vlan_with(id: Option<u64>) -> Option<Vlan>
    ensures value { result ≡ topology.vlan_with id }
    ensures form { IfSome result IsVlan }
{
    match id {
        None => Some(Vlan::Untagged),
        Some(id) if is_vlan_id(id) => Some(Vlan::Id(id as u16)),
        Some(_) => None,
    }
}

/// No ids, or a first and a last one.
fn range_of(tree: &Tree<'_>, items: &[Node]) -> Option<Option<(u64, u64)>>
    ensures { option_map (option_map (λ t. record { first = t.0; last = t.1 })) result
        ≡ topology.range_of (map (data_of tree.now) items.now) }
{
    match items {
        [] => Some(None),
        [a, b] => tree.whole(a).zip(tree.whole(b)).map(Some),
        _ => None,
    }
}

/// The ids of a member that is a list of none or two.
pub(crate) fn range_at(tree: &Tree<'_>, node: &Node, name: &str) -> Option<Option<(u64, u64)>>
    ensures { option_map (option_map (λ t. record { first = t.0; last = t.1 })) result
        ≡ option_and_then topology.range_of (list_at name.now (data_of tree.now node.now)) }
{
    range_of(tree, tree.list_at(node, name)?)
}

/// Whether each id is one that a VLAN may have, and they stand in order.
pub(crate) fn is_range(first: u64, last: u64) -> bool
    ensures value { result ≡ topology.is_range (Some (record { first = first; last = last })) }
    ensures meaning { result ≡ true → IsVlanId first × IsVlanId last × (first ≤ last) }
{
    is_vlan_id(first) && is_vlan_id(last) && first <= last
}
