//! The reader of a topology.
ghost use Rattle.std.specs.Prelude.{◌≡◌, ◌<◌, ◌≤◌, ◌++◌, ◌∷◌, [], Ok, None, length, map, option_map, count_by, true, false, IfOk, IfSome, OnOk, MatchResult};
ghost use Rattle.std.specs.List.{list_any};
ghost use Rattle.std.specs.Option.{option_and_then};
ghost use Rattle.flat_json.specs.Trees.{data_of, top_of};
ghost use Rattle.net_base.specs.Reading.{Gives, Fails, in_turn};
ghost use Rattle.flat_json.specs.JsonTree.{list_in};
ghost use Rattle.topology_files.specs.declared.fault.NetFault.TheVariants.{Memory};
ghost use Rattle.topology.specs.Networks as networks;
ghost use Rattle.topology.specs.Networks.{switch_named, used_ports, stop_eq, vlan_eq, is_on, IsVlan, IsVlanId};
ghost use Rattle.topology.specs.Growth.{no_network};
ghost use Rattle.topology.specs.Ends.{IsPort};
ghost use Rattle.topology_files.specs.Beside.{beside_list};
ghost use Rattle.topology_files.specs.Topology as topology;
ghost use Rattle.net_base.specs.Switches.{most_switches};

use crate::fault::NetFault;
use crate::small::{is_capacity, is_name, is_range, range_at, vlan_id, vlan_with};
use flat_json::{Node, Tree, parse_tree};
use json::Scratch;
use net_base::{Field, MAX_PORT, MAX_SWITCHES, Port, Stop, Vlan, place_of};
use std::alloc::Global;
use topology::{Net, reference_parts};

/// The most used ports of a switch.
const MAX_PORTS: usize = 64;

/// The most declared VLANs.
const MAX_VLANS: usize = 64;

/// Reads the name of one switch.
#[tactic(auto, unfolding(crate::specs::Topology::name_at))]
fn read_name<'t>(net: &Net, place: u32, tree: &Tree<'t>, item: &Node) -> Result<&'t str, NetFault>
    ensures value { Gives Memory (λ s. s.now) result
        (topology.name_at place net.now (data_of tree.now item.now)) }
    ensures form { IfOk result (λ s. networks.is_name s.now ≡ true) }
    ensures new { IfOk result (λ s. switch_named net.now.names s.now ≡ None) }
{
    if !tree.is_object(item) {
        return Err(NetFault::Shape(Field::Switches, place));
    }
    let name = tree
        .text_at(item, "name")
        .ok_or(NetFault::Shape(Field::Name, place))?;
    if !is_name(name) {
        return Err(NetFault::BadName(place));
    }
    if net.find(name).is_some() {
        return Err(NetFault::DoubleName(place));
    }
    Ok(name)
}

/// Reads the name and the capacity of one switch.
#[tactic(auto, unfolding(crate::specs::Topology::named_at))]
fn read_named<'t>(
    net: &Net,
    place: u32,
    tree: &Tree<'t>,
    item: &Node,
) -> Result<(&'t str, u32), NetFault>
    ensures value { Gives Memory (λ s. (s.0.now, s.1)) result
        (topology.named_at place net.now (data_of tree.now item.now)) }
    ensures room { OnOk result (length net.now.names < most_switches) }
    ensures form { IfOk result (λ s. networks.is_name s.0.now ≡ true) }
    ensures new { IfOk result (λ s. switch_named net.now.names s.0.now ≡ None) }
    ensures capacity { IfOk result (λ s. networks.is_capacity s.1 ≡ true) }
{
    if net.switches() >= MAX_SWITCHES {
        return Err(NetFault::TooMany(Field::Switches, place));
    }
    let name = read_name(net, place, tree, item)?;
    let capacity = tree
        .whole_at(item, "capacity")
        .ok_or(NetFault::Shape(Field::Capacity, place))?;
    if !is_capacity(capacity) {
        return Err(NetFault::BadCapacity(place));
    }
    Ok((name, capacity as u32))
}

/// Reads one switch.
#[tactic(auto, unfolding(crate::specs::Topology::switch_at))]
fn read_switch(
    alloc: Global,
    net: &mut Net,
    place: u32,
    tree: &Tree<'_>,
    item: &Node,
) -> Result<(), NetFault>
    ensures value { MatchResult result
        (λ _. topology.switch_at place net.old (data_of tree.now item.now) ≡ Ok net.new)
        (λ e. Fails Memory e (topology.switch_at place net.old (data_of tree.now item.now))) }
    ensures hosts { OnOk result (net.new.hosts ≡ net.old.hosts) }
{
    let (name, capacity) = read_named(net, place, tree, item)?;
    net.add_switch(alloc, name, capacity)?;
    Ok(())
}

/// Reads the switches in their order.
fn read_each_switch(
    alloc: Global,
    net: &mut Net,
    tree: &Tree<'_>,
    items: &[Node],
) -> Result<(), NetFault>
    ensures value { MatchResult result
        (λ _. in_turn topology.switch_at 0 net.old (map (data_of tree.now) items.now) ≡ Ok net.new)
        (λ e. Fails Memory e (in_turn topology.switch_at 0 net.old
        (map (data_of tree.now) items.now))) }
    ensures hosts { OnOk result (net.new.hosts ≡ net.old.hosts) }
{
    for (i, item) in items.iter().enumerate() {
        read_switch(alloc, net, place_of(i), tree, item)?;
    }
    Ok(())
}

/// Reads the member `switches`.
#[tactic(auto, unfolding(crate::specs::Topology::switches_in))]
fn read_switches(alloc: Global, net: &mut Net, tree: &Tree<'_>, top: &Node) -> Result<(), NetFault>
    ensures value { MatchResult result
        (λ _. topology.switches_in net.old (data_of tree.now top.now) ≡ Ok net.new)
        (λ e. Fails Memory e (topology.switches_in net.old (data_of tree.now top.now))) }
    ensures hosts { OnOk result (net.new.hosts ≡ net.old.hosts) }
{
    let items = tree
        .list_at(top, "switches")
        .ok_or(NetFault::Shape(Field::Switches, 0))?;
    read_each_switch(alloc, net, tree, items)
}

/// Reads a port reference.
#[tactic(auto, unfolding(crate::specs::Topology::reference))]
fn read_reference(net: &Net, field: Field, place: u32, text: &str) -> Result<Stop, NetFault>
    ensures value { Gives Memory (λ s. s) result (topology.reference net.now field place text.now) }
    ensures port { IfOk result (λ s. IsPort net.now s) }
{
    let (name, number) = reference_parts(text).ok_or(NetFault::Shape(field, place))?;
    let switch = net.find(name).ok_or(NetFault::UnknownSwitch(place))?;
    if !(1..=MAX_PORT).contains(&number) {
        return Err(NetFault::BadPort(place));
    }
    Ok(Stop {
        switch,
        port: Port(number as u16),
    })
}

/// Whether a port is used, or is the one beside it.
fn is_taken(net: &Net, beside: Option<Stop>, stop: Stop) -> bool
    ensures { result ≡ list_any (stop_eq stop) (used_ports net.now ++ beside_list beside) }
{
    net.is_used(stop.switch, stop.port) || beside == Some(stop)
}

/// How many ports of the switch are used, with the one beside them.
fn count_taken(net: &Net, beside: Option<Stop>, stop: Stop) -> usize
    ensures { result ≡ count_by (is_on stop.switch) (used_ports net.now ++ beside_list beside) }
{
    let more = match beside {
        Some(other) if other.switch == stop.switch => 1,
        _ => 0,
    };
    net.count_on(stop.switch) + more
}

/// Reads a reference to a port that isn't used.
#[tactic(auto, unfolding(crate::specs::Topology::free_port))]
fn read_free_port(
    net: &Net,
    beside: Option<Stop>,
    field: Field,
    place: u32,
    text: &str,
) -> Result<Stop, NetFault>
    ensures value { Gives Memory (λ s. s) result (topology.free_port net.now field place
        (used_ports net.now ++ beside_list beside) text.now) }
    ensures port { IfOk result (λ s. IsPort net.now s) }
    ensures free { IfOk result
        (λ s. list_any (stop_eq s) (used_ports net.now ++ beside_list beside) ≡ false) }
    ensures room { IfOk result
        (λ s. count_by (is_on s.switch) (used_ports net.now ++ beside_list beside) < 64) }
{
    let stop = read_reference(net, field, place, text)?;
    if is_taken(net, beside, stop) {
        return Err(NetFault::PortTwice(place));
    }
    if count_taken(net, beside, stop) >= MAX_PORTS {
        return Err(NetFault::TooMany(field, place));
    }
    Ok(stop)
}

/// The texts of a list of two.
fn texts_of<'t>(tree: &Tree<'t>, items: &[Node]) -> Option<(&'t str, &'t str)>
    ensures { option_map (λ p. (p.0.now, p.1.now)) result
        ≡ topology.two_texts (map (data_of tree.now) items.now) }
{
    match items {
        [a, b] => tree.as_str(a).zip(tree.as_str(b)),
        _ => None,
    }
}

/// Two texts.
fn two_texts<'t>(tree: &Tree<'t>, value: &Node) -> Option<(&'t str, &'t str)>
    ensures { option_map (λ p. (p.0.now, p.1.now)) result
        ≡ option_and_then topology.two_texts (list_in (data_of tree.now value.now)) }
{
    texts_of(tree, tree.list_in(value)?)
}

/// Reads the ports of one link.
#[tactic(auto, unfolding(crate::specs::Topology::linked_at))]
fn read_linked(
    net: &Net,
    place: u32,
    tree: &Tree<'_>,
    item: &Node,
) -> Result<(Stop, Stop), NetFault>
    ensures value { Gives Memory (λ p. p) result
        (topology.linked_at place net.now (data_of tree.now item.now)) }
    ensures ports { IfOk result (λ p. IsPort net.now p.0 × IsPort net.now p.1) }
    ensures first_free { IfOk result (λ p. list_any (stop_eq p.0) (used_ports net.now) ≡ false) }
    ensures second_free { IfOk result
        (λ p. list_any (stop_eq p.1) (used_ports net.now ++ p.0 ∷ []) ≡ false) }
    ensures first_room { IfOk result (λ p. count_by (is_on p.0.switch) (used_ports net.now) < 64) }
    ensures second_room { IfOk result
        (λ p. count_by (is_on p.1.switch) (used_ports net.now ++ p.0 ∷ []) < 64) }
{
    let (first, second) = two_texts(tree, item).ok_or(NetFault::Shape(Field::Links, place))?;
    let a = read_free_port(net, None, Field::Links, place, first)?;
    let b = read_free_port(net, Some(a), Field::Links, place, second)?;
    Ok((a, b))
}

/// Reads one link.
#[tactic(auto, unfolding(crate::specs::Topology::link_at))]
fn read_link(net: &mut Net, place: u32, tree: &Tree<'_>, item: &Node) -> Result<(), NetFault>
    requires { net.old.hosts ≡ [] }
    ensures value { MatchResult result
        (λ _. topology.link_at place net.old (data_of tree.now item.now) ≡ Ok net.new)
        (λ e. Fails Memory e (topology.link_at place net.old (data_of tree.now item.now))) }
    ensures hosts { OnOk result (net.new.hosts ≡ []) }
{
    let (a, b) = read_linked(net, place, tree, item)?;
    net.add_link(a, b)?;
    Ok(())
}

/// Reads the links in their order.
fn read_each_link(net: &mut Net, tree: &Tree<'_>, items: &[Node]) -> Result<(), NetFault>
    requires { net.old.hosts ≡ [] }
    ensures { MatchResult result (λ _. in_turn topology.link_at 0 net.old
        (map (data_of tree.now) items.now) ≡ Ok net.new)
        (λ e. Fails Memory e (in_turn topology.link_at 0 net.old
        (map (data_of tree.now) items.now))) }
{
    for (i, item) in items.iter().enumerate() {
        read_link(net, place_of(i), tree, item)?;
    }
    Ok(())
}

/// Reads the member `links`.
#[tactic(auto, unfolding(crate::specs::Topology::links_in))]
fn read_links(net: &mut Net, tree: &Tree<'_>, top: &Node) -> Result<(), NetFault>
    requires { net.old.hosts ≡ [] }
    ensures { MatchResult result (λ _. topology.links_in net.old (data_of tree.now top.now)
        ≡ Ok net.new) (λ e. Fails Memory e (topology.links_in net.old (data_of tree.now top.now))) }
{
    let items = tree
        .list_at(top, "links")
        .ok_or(NetFault::Shape(Field::Links, 0))?;
    read_each_link(net, tree, items)
}

/// Reads the port of one host.
#[tactic(auto, unfolding(crate::specs::Topology::host_port_at))]
fn read_host_port(net: &Net, place: u32, tree: &Tree<'_>, item: &Node) -> Result<Stop, NetFault>
    ensures value { Gives Memory (λ s. s) result
        (topology.host_port_at place net.now (data_of tree.now item.now)) }
    ensures port { IfOk result (λ s. IsPort net.now s) }
    ensures free { IfOk result (λ s. list_any (stop_eq s) (used_ports net.now) ≡ false) }
    ensures room { IfOk result (λ s. count_by (is_on s.switch) (used_ports net.now) < 64) }
{
    let text = tree
        .as_str(item)
        .ok_or(NetFault::Shape(Field::Hosts, place))?;
    read_free_port(net, None, Field::Hosts, place, text)
}

/// Reads one host port.
#[tactic(auto, unfolding(crate::specs::Topology::host_at))]
fn read_host(net: &mut Net, place: u32, tree: &Tree<'_>, item: &Node) -> Result<(), NetFault>
    ensures { MatchResult result (λ _. topology.host_at place net.old (data_of tree.now item.now)
        ≡ Ok net.new) (λ e. Fails Memory e
        (topology.host_at place net.old (data_of tree.now item.now))) }
{
    let stop = read_host_port(net, place, tree, item)?;
    net.add_host(stop)?;
    Ok(())
}

/// Reads the host ports in their order.
fn read_each_host(net: &mut Net, tree: &Tree<'_>, items: &[Node]) -> Result<(), NetFault>
    ensures { MatchResult result (λ _. in_turn topology.host_at 0 net.old
        (map (data_of tree.now) items.now) ≡ Ok net.new)
        (λ e. Fails Memory e (in_turn topology.host_at 0 net.old
        (map (data_of tree.now) items.now))) }
{
    for (i, item) in items.iter().enumerate() {
        read_host(net, place_of(i), tree, item)?;
    }
    Ok(())
}

/// Reads the member `hosts`.
#[tactic(auto, unfolding(crate::specs::Topology::hosts_in))]
fn read_hosts(net: &mut Net, tree: &Tree<'_>, top: &Node) -> Result<(), NetFault>
    ensures { MatchResult result (λ _. topology.hosts_in net.old (data_of tree.now top.now)
        ≡ Ok net.new) (λ e. Fails Memory e (topology.hosts_in net.old (data_of tree.now top.now))) }
{
    let items = tree
        .list_at(top, "hosts")
        .ok_or(NetFault::Shape(Field::Hosts, 0))?;
    read_each_host(net, tree, items)
}

/// Reads a VLAN that isn't declared yet.
#[tactic(auto, unfolding(crate::specs::Topology::new_vlan_at))]
fn read_new_vlan(net: &Net, place: u32, tree: &Tree<'_>, item: &Node) -> Result<Vlan, NetFault>
    ensures value { Gives Memory (λ v. v) result
        (topology.new_vlan_at place net.now (data_of tree.now item.now)) }
    ensures room { OnOk result (length net.now.vlans < 64) }
    ensures form { IfOk result IsVlan }
    ensures new { IfOk result (λ v. list_any (vlan_eq v) net.now.vlans ≡ false) }
{
    if net.vlans().len() >= MAX_VLANS {
        return Err(NetFault::TooMany(Field::Vlans, place));
    }
    let id = vlan_id(tree, item).ok_or(NetFault::Shape(Field::Vlans, place))?;
    let vlan = vlan_with(id).ok_or(NetFault::BadVlan(place))?;
    if net.is_declared(vlan) {
        return Err(NetFault::VlanTwice(place));
    }
    Ok(vlan)
}

/// Reads one declared VLAN.
#[tactic(auto, unfolding(crate::specs::Topology::vlan_at))]
fn read_vlan(net: &mut Net, place: u32, tree: &Tree<'_>, item: &Node) -> Result<(), NetFault>
    ensures { MatchResult result (λ _. topology.vlan_at place net.old (data_of tree.now item.now)
        ≡ Ok net.new) (λ e. Fails Memory e
        (topology.vlan_at place net.old (data_of tree.now item.now))) }
{
    let vlan = read_new_vlan(net, place, tree, item)?;
    net.add_vlan(vlan)?;
    Ok(())
}

/// Reads the declared VLANs in their order.
fn read_each_vlan(net: &mut Net, tree: &Tree<'_>, items: &[Node]) -> Result<(), NetFault>
    ensures { MatchResult result (λ _. in_turn topology.vlan_at 0 net.old
        (map (data_of tree.now) items.now) ≡ Ok net.new)
        (λ e. Fails Memory e (in_turn topology.vlan_at 0 net.old
        (map (data_of tree.now) items.now))) }
{
    for (i, item) in items.iter().enumerate() {
        read_vlan(net, place_of(i), tree, item)?;
    }
    Ok(())
}

/// Reads the member `vlans`.
#[tactic(auto, unfolding(crate::specs::Topology::vlans_in))]
fn read_vlans(net: &mut Net, tree: &Tree<'_>, top: &Node) -> Result<(), NetFault>
    ensures { MatchResult result (λ _. topology.vlans_in net.old (data_of tree.now top.now)
        ≡ Ok net.new) (λ e. Fails Memory e (topology.vlans_in net.old (data_of tree.now top.now))) }
{
    let items = tree
        .list_at(top, "vlans")
        .ok_or(NetFault::Shape(Field::Vlans, 0))?;
    read_each_vlan(net, tree, items)
}

/// Reads a tag range, as the member `tags` has it.
#[tactic(auto, unfolding(crate::specs::Topology::range_in))]
fn read_range(tree: &Tree<'_>, top: &Node) -> Result<Option<(u16, u16)>, NetFault>
    ensures value { Gives Memory (option_map (λ t. record { first = t.0; last = t.1 })) result
        (topology.range_in (data_of tree.now top.now)) }
    ensures meaning { IfOk result (λ range. IfSome range
        (λ t. IsVlanId t.0 × IsVlanId t.1 × (t.0 ≤ t.1))) }
{
    let range = range_at(tree, top, "tags").ok_or(NetFault::Shape(Field::Tags, 0))?;
    match range {
        None => Ok(None),
        Some((first, last)) => {
            if !is_range(first, last) {
                return Err(NetFault::BadTags);
            }
            Ok(Some((first as u16, last as u16)))
        }
    }
}

/// Reads the member `tags`.
#[tactic(auto, unfolding(crate::specs::Topology::tags_in))]
fn read_tags(net: &mut Net, tree: &Tree<'_>, top: &Node) -> Result<(), NetFault>
    ensures { MatchResult result (λ _. topology.tags_in net.old (data_of tree.now top.now)
        ≡ Ok net.new) (λ e. Fails Memory e (topology.tags_in net.old (data_of tree.now top.now))) }
{
    let range = read_range(tree, top)?;
    net.set_tags(range);
    Ok(())
}

/// Reads the member `format`: whether the network is wide.
#[tactic(auto, unfolding(crate::specs::Topology::format_in))]
fn read_format(tree: &Tree<'_>, member: Option<&Node>) -> Result<bool, NetFault>
    ensures { Gives Memory (λ b. b) result
        (topology.format_in (option_map (λ v. data_of tree.now v.now) member.entry)) }
{
    match member {
        None => Ok(false),
        Some(value) => {
            let number = tree.whole(value).ok_or(NetFault::Shape(Field::Format, 0))?;
            if number != 1 && number != 2 {
                return Err(NetFault::BadFormat);
            }
            Ok(number == 2)
        }
    }
}

/// Refuses the first name: the rules of this version test no further fields.
#[tactic(auto, unfolding(crate::specs::Topology::no_names))]
fn read_no_names(tree: &Tree<'_>, items: &[Node]) -> Result<(), NetFault>
    ensures { Gives Memory (λ _. tt) result (topology.no_names (map (data_of tree.now) items.now)) }
{
    match items {
        [] => Ok(()),
        [first, ..] => match tree.as_str(first) {
            None => Err(NetFault::Shape(Field::Fields, 0)),
            Some(_) => Err(NetFault::BadField(0)),
        },
    }
}

/// Reads the member `fields` of a wide network.
#[tactic(auto, unfolding(crate::specs::Topology::names_in))]
fn read_names(tree: &Tree<'_>, member: Option<&Node>) -> Result<(), NetFault>
    ensures { Gives Memory (λ _. tt) result
        (topology.names_in (option_map (λ v. data_of tree.now v.now) member.entry)) }
{
    match member {
        None => Ok(()),
        Some(value) => {
            let items = tree
                .list_in(value)
                .ok_or(NetFault::Shape(Field::Fields, 0))?;
            read_no_names(tree, items)
        }
    }
}

/// Reads the member `fields`, which a narrow network passes over.
#[tactic(auto, unfolding(crate::specs::Topology::fields_in))]
fn read_fields(net: &Net, tree: &Tree<'_>, top: &Node) -> Result<(), NetFault>
    ensures { Gives Memory (λ _. net.now) result
        (topology.fields_in net.now (data_of tree.now top.now)) }
{
    if net.is_wide() {
        read_names(tree, tree.get(top, "fields"))
    } else {
        Ok(())
    }
}

/// Reads the switches and their ports into an empty network.
#[tactic(auto, unfolding(crate::specs::Topology::ports_in))]
fn read_ports(alloc: Global, net: &mut Net, tree: &Tree<'_>, top: &Node) -> Result<(), NetFault>
    requires { net.old ≡ no_network net.old.wide }
    ensures { MatchResult result
        (λ _. topology.ports_in net.old.wide (data_of tree.now top.now) ≡ Ok net.new)
        (λ e. Fails Memory e (topology.ports_in net.old.wide (data_of tree.now top.now))) }
{
    read_switches(alloc, net, tree, top)?;
    read_links(net, tree, top)?;
    read_hosts(net, tree, top)
}

/// Reads the members behind `format` in their order into an empty network.
#[tactic(auto, unfolding(crate::specs::Topology::parts_in))]
fn read_parts(alloc: Global, net: &mut Net, tree: &Tree<'_>, top: &Node) -> Result<(), NetFault>
    requires { net.old ≡ no_network net.old.wide }
    ensures { MatchResult result
        (λ _. topology.parts_in net.old.wide (data_of tree.now top.now) ≡ Ok net.new)
        (λ e. Fails Memory e (topology.parts_in net.old.wide (data_of tree.now top.now))) }
{
    read_ports(alloc, net, tree, top)?;
    read_vlans(net, tree, top)?;
    read_tags(net, tree, top)?;
    read_fields(net, tree, top)
}

/// Reads the members behind `format` of a wide network or a narrow one.
fn read_net_of(alloc: Global, wide: bool, tree: &Tree<'_>, top: &Node) -> Result<Net, NetFault>
    ensures { Gives Memory (λ n. n) result (topology.parts_in wide (data_of tree.now top.now)) }
{
    let mut net = Net::empty(alloc, wide);
    match read_parts(alloc, &mut net, tree, top) {
        Ok(()) => Ok(net),
        Err(fault) => {
            drop(net);
            Err(fault)
        }
    }
}

/// Reads the network of a tree.
#[tactic(auto, unfolding(crate::specs::Topology::members_in))]
fn read_top(alloc: Global, tree: &Tree<'_>, top: &Node) -> Result<Net, NetFault>
    ensures { Gives Memory (λ n. n) result (topology.members_in (data_of tree.now top.now)) }
{
    if !tree.is_object(top) {
        return Err(NetFault::Shape(Field::Top, 0));
    }
    let wide = read_format(tree, tree.get(top, "format"))?;
    read_net_of(alloc, wide, tree, top)
}

/// Reads the network that the bytes describe, with room for their texts.
#[tactic(auto, unfolding(crate::specs::Topology::network_in))]
fn read_bytes(alloc: Global, bytes: &[u8], scratch: &mut Scratch) -> Result<Net, NetFault>
    ensures { Gives Memory (λ n. n) result (topology.network_in bytes.now) }
{
    let tree = parse_tree(alloc, bytes, scratch)?;
    let read = read_top(alloc, &tree, tree.top());
    drop(tree);
    read
}

/// The network that the bytes describe, or the first refusal of the table of members. The cost is that of the text, and
/// for each port that is named that of look-ups in hash tables. Each declared VLAN is compared with those before it.
pub fn read_net(alloc: Global, bytes: &[u8]) -> Result<Net, NetFault>
    ensures { Gives Memory (λ n. n) result (topology.network_in bytes.now) }
{
    let mut scratch = Scratch::new(alloc);
    let read = read_bytes(alloc, bytes, &mut scratch);
    drop(scratch);
    read
}
