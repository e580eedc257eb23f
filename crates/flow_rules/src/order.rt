//! The order of keys.
ghost use Rattle.std.specs.Prelude.{◌≡◌};
ghost use Rattle.flow_rules.specs.Order.{port_rank, vlan_rank, key_cmp};

use crate::rules::{Key, VlanTest};
use net_base::Port;
use std::cmp::Ordering;

/// Any port first, and then the ports by their numbers.
pub(crate) fn rank_of_port(port: Option<Port>) -> u32
    ensures { result ≡ port_rank port }
{
    match port {
        None => 0,
        Some(port) => 1 + u32::from(port.0),
    }
}

/// Any VLAN first, then untagged, and then the ids.
pub(crate) fn rank_of_vlan(test: VlanTest) -> u32
    ensures { result ≡ vlan_rank test }
{
    match test {
        VlanTest::Any => 0,
        VlanTest::Untagged => 1,
        VlanTest::Id(id) => 2 + u32::from(id),
    }
}

/// The key order: the greater priority first, then any ingress port before the ports, any VLAN before untagged before the
/// ids, and the prefixes by their first address and then their length. No two keys tie.
pub fn key_order(a: &Key, b: &Key) -> Ordering
    ensures { result ≡ key_cmp a.now b.now }
{
    let one = &a.pattern;
    let two = &b.pattern;
    let from = &one.dst;
    let to = &two.dst;
    b.priority
        .cmp(&a.priority)
        .then(rank_of_port(one.in_port).cmp(&rank_of_port(two.in_port)))
        .then(rank_of_vlan(one.vlan).cmp(&rank_of_vlan(two.vlan)))
        .then(from.base.cmp(&to.base))
        .then(from.len.cmp(&to.len))
}
