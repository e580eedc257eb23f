//! The reader of a policy.
ghost use Rattle.std.specs.Prelude.{◌≡◌, Ok, [], map, option_map, IfOk, MatchResult};
ghost use Rattle.flat_json.specs.Trees.{data_of};
ghost use Rattle.net_base.specs.Reading.{Gives, Fails, in_turn};
ghost use Rattle.demands.specs.declared.fault.DemandFault.TheVariants.{Memory};
ghost use Rattle.demands.specs.Policy as policy;
ghost use Rattle.demands.specs.Ranges.{AreDemands};

use crate::fault::DemandFault;
use crate::hosts::Hosts;
use crate::{Cover, Demand, Demands};
use flat_json::{Node, Tree, parse_tree};
use flow_rules::VlanTest;
use json::Scratch;
use net_base::{Field, MAX_PORT, Port, Prefix, Stop, SwitchId, place_of, read_prefix};
use std::alloc::Global;
use topology::{Net, is_vlan_id, reference_parts};

/// The greatest number of demands of a policy.
const MAX_DEMANDS: usize = 512;

/// The greatest number of port references of a demand, in a wide network.
const MAX_SOURCES: usize = 1024;

/// The greatest number of waypoints of a demand.
const MAX_WAYPOINTS: usize = 16;

/// A VLAN test as it is spelled.
#[derive(Clone, Copy)]
enum TestWord {
    Any,
    Untagged,
    Number(u64),
}

/// The host port with this number.
fn host_with(net: &Net, switch: SwitchId, number: u64) -> Option<Stop>
    ensures { result ≡ policy.host_with net.now switch.0 number }
{
    if number > MAX_PORT {
        return None;
    }
    let stop = Stop {
        switch,
        port: Port(number as u16),
    };
    if net.is_host(stop) { Some(stop) } else { None }
}

/// Reads a port reference to a host port.
#[tactic(auto, unfolding(crate::specs::Policy::host_in))]
fn read_host(net: &Net, place: u32, text: &str) -> Result<Stop, DemandFault>
    ensures { Gives Memory (λ s. s) result (policy.host_in net.now place text.now) }
{
    let (name, number) = reference_parts(text).ok_or(DemandFault::Shape(Field::From, place))?;
    let switch = net.find(name).ok_or(DemandFault::UnknownSwitch(place))?;
    host_with(net, switch, number).ok_or(DemandFault::NotHost(place))
}

/// Reads `any` or a host port.
#[tactic(auto, unfolding(crate::specs::Policy::source_in))]
fn read_source(
    alloc: Global,
    net: &Net,
    place: u32,
    text: &str,
) -> Result<Option<Hosts>, DemandFault>
    ensures { Gives Memory (λ o. o) result (policy.source_in net.now place text.now) }
{
    if text == "any" {
        return Ok(None);
    }
    let stop = read_host(net, place, text)?;
    let hosts = Hosts::one(alloc, stop)?;
    Ok(Some(hosts))
}

/// Reads one item of a list of port references.
#[tactic(auto, unfolding(crate::specs::Policy::source_at))]
fn read_listed(
    net: &Net,
    place: u32,
    hosts: &mut Hosts,
    tree: &Tree<'_>,
    item: &Node,
) -> Result<(), DemandFault>
    ensures { MatchResult result
        (λ _. policy.source_at net.now place hosts.old (data_of tree.now item.now) ≡ Ok hosts.new)
        (λ e. Fails Memory e (policy.source_at net.now place hosts.old
        (data_of tree.now item.now))) }
{
    let text = tree
        .as_str(item)
        .ok_or(DemandFault::Shape(Field::From, place))?;
    let stop = read_host(net, place, text)?;
    hosts.put(stop)?;
    Ok(())
}

/// Reads the items of a list of port references, one after the other.
fn read_each_listed(
    alloc: Global,
    net: &Net,
    place: u32,
    tree: &Tree<'_>,
    items: &[Node],
) -> Result<Hosts, DemandFault>
    ensures { Gives Memory (λ h. h) result
        (in_turn (λ i. policy.source_at net.now place) 0 [] (map (data_of tree.now) items.now)) }
{
    let mut hosts = Hosts::none(alloc);
    for item in items {
        read_listed(net, place, &mut hosts, tree, item)?;
    }
    Ok(hosts)
}

/// Reads a list of port references, which a wide network may have.
#[tactic(auto, unfolding(crate::specs::Policy::listed_in))]
fn read_list(
    alloc: Global,
    net: &Net,
    place: u32,
    tree: &Tree<'_>,
    value: &Node,
) -> Result<Hosts, DemandFault>
    ensures { Gives Memory (λ h. h) result
        (policy.listed_in net.now place (data_of tree.now value.now)) }
{
    if !net.is_wide() {
        return Err(DemandFault::Shape(Field::From, place));
    }
    let items = tree
        .list_in(value)
        .ok_or(DemandFault::Shape(Field::From, place))?;
    if items.is_empty() {
        return Err(DemandFault::Shape(Field::From, place));
    }
    if items.len() > MAX_SOURCES {
        return Err(DemandFault::TooMany(Field::From, place));
    }
    read_each_listed(alloc, net, place, tree, items)
}

/// Reads the member `from`.
#[tactic(auto, unfolding(crate::specs::Policy::from_in))]
fn read_from(
    alloc: Global,
    net: &Net,
    place: u32,
    tree: &Tree<'_>,
    member: Option<&Node>,
) -> Result<Option<Hosts>, DemandFault>
    ensures { Gives Memory (λ o. o) result
        (policy.from_in net.now place (option_map (λ v. data_of tree.now v.now) member.entry)) }
{
    match member {
        None => Ok(None),
        Some(value) => match tree.as_str(value) {
            Some(text) => read_source(alloc, net, place, text),
            None => {
                let hosts = read_list(alloc, net, place, tree, value)?;
                Ok(Some(hosts))
            }
        },
    }
}

/// The text `any` or `untagged`.
fn word_of_text(text: &str) -> Option<TestWord>
    ensures { result ≡ policy.word_of_text text.now }
{
    if text == "any" {
        return Some(TestWord::Any);
    }
    if text == "untagged" {
        return Some(TestWord::Untagged);
    }
    None
}

/// The text `any` or `untagged`, or a whole number.
fn test_word(tree: &Tree<'_>, value: &Node) -> Option<TestWord>
    ensures { result ≡ policy.test_word (data_of tree.now value.now) }
{
    match tree.as_str(value).and_then(word_of_text) {
        Some(word) => Some(word),
        None => tree.whole(value).map(TestWord::Number),
    }
}

/// The test, where a VLAN may have the number.
fn test_of(word: TestWord) -> Option<VlanTest>
    ensures { result ≡ policy.test_of word }
{
    match word {
        TestWord::Any => Some(VlanTest::Any),
        TestWord::Untagged => Some(VlanTest::Untagged),
        TestWord::Number(n) if is_vlan_id(n) => Some(VlanTest::Id(n as u16)),
        TestWord::Number(_) => None,
    }
}

/// Reads the member `vlan`.
#[tactic(auto, unfolding(crate::specs::Policy::test_in))]
fn read_test(place: u32, tree: &Tree<'_>, member: Option<&Node>) -> Result<VlanTest, DemandFault>
    ensures { Gives Memory (λ t. t) result
        (policy.test_in place (option_map (λ v. data_of tree.now v.now) member.entry)) }
{
    match member {
        None => Ok(VlanTest::Any),
        Some(value) => {
            let word = test_word(tree, value).ok_or(DemandFault::Shape(Field::Vlan, place))?;
            test_of(word).ok_or(DemandFault::BadVlan(place))
        }
    }
}

/// Reads one name of `through`.
#[tactic(auto, unfolding(crate::specs::Policy::waypoint_at))]
fn read_waypoint(
    net: &Net,
    place: u32,
    through: &mut Vec<SwitchId>,
    tree: &Tree<'_>,
    item: &Node,
) -> Result<(), DemandFault>
    ensures { MatchResult result
        (λ _. policy.waypoint_at net.now place through.old.items (data_of tree.now item.now)
        ≡ Ok through.new.items)
        (λ e. Fails Memory e (policy.waypoint_at net.now place through.old.items
        (data_of tree.now item.now))) }
{
    let name = tree
        .as_str(item)
        .ok_or(DemandFault::Shape(Field::Through, place))?;
    let switch = net.find(name).ok_or(DemandFault::UnknownSwitch(place))?;
    through.push(switch)?;
    Ok(())
}

/// Reads the names of `through`, one after the other.
fn read_each_waypoint(
    alloc: Global,
    net: &Net,
    place: u32,
    tree: &Tree<'_>,
    items: &[Node],
) -> Result<Vec<SwitchId>, DemandFault>
    ensures { Gives Memory (λ v. v.items) result
        (in_turn (λ i. policy.waypoint_at net.now place) 0 [] (map (data_of tree.now) items.now)) }
{
    let mut through = Vec::new(alloc);
    for item in items {
        read_waypoint(net, place, &mut through, tree, item)?;
    }
    Ok(through)
}

/// Reads a list of names of switches.
#[tactic(auto, unfolding(crate::specs::Policy::waypoints_in))]
fn read_waypoints(
    alloc: Global,
    net: &Net,
    place: u32,
    tree: &Tree<'_>,
    value: &Node,
) -> Result<Vec<SwitchId>, DemandFault>
    ensures { Gives Memory (λ v. v.items) result
        (policy.waypoints_in net.now place (data_of tree.now value.now)) }
{
    let items = tree
        .list_in(value)
        .ok_or(DemandFault::Shape(Field::Through, place))?;
    if items.len() > MAX_WAYPOINTS {
        return Err(DemandFault::TooMany(Field::Through, place));
    }
    read_each_waypoint(alloc, net, place, tree, items)
}

/// Reads the member `through`.
#[tactic(auto, unfolding(crate::specs::Policy::through_in))]
fn read_through(
    alloc: Global,
    net: &Net,
    place: u32,
    tree: &Tree<'_>,
    member: Option<&Node>,
) -> Result<Vec<SwitchId>, DemandFault>
    ensures { Gives Memory (λ v. v.items) result
        (policy.through_in net.now place (option_map (λ v. data_of tree.now v.now) member.entry)) }
{
    match member {
        None => Ok(Vec::new(alloc)),
        Some(value) => read_waypoints(alloc, net, place, tree, value),
    }
}

/// Reads the member `deliver`.
#[tactic(auto, unfolding(crate::specs::Policy::deliver_in))]
fn read_deliver(place: u32, tree: &Tree<'_>, member: Option<&Node>) -> Result<bool, DemandFault>
    ensures { Gives Memory (λ b. b) result
        (policy.deliver_in place (option_map (λ v. data_of tree.now v.now) member.entry)) }
{
    match member {
        None => Ok(false),
        Some(value) => tree
            .as_bool(value)
            .ok_or(DemandFault::Shape(Field::Deliver, place)),
    }
}

/// Refuses the members `to` and `deny` in a wide network, where they have a meaning: this version has no such demands yet. In a
/// narrow network they aren't named, and passed over.
#[tactic(auto, unfolding(crate::specs::Policy::unknown_in))]
fn refuse_unknown(net: &Net, place: u32, tree: &Tree<'_>, item: &Node) -> Result<(), DemandFault>
    ensures { Gives Memory (λ _. tt) result
        (policy.unknown_in net.now place (data_of tree.now item.now)) }
{
    if net.is_wide() && tree.get(item, "to").is_some() {
        return Err(DemandFault::Shape(Field::To, place));
    }
    if net.is_wide() && tree.get(item, "deny").is_some() {
        return Err(DemandFault::Shape(Field::Deny, place));
    }
    Ok(())
}

/// Reads the prefix of the destinations.
#[tactic(auto, unfolding(crate::specs::Policy::dst_in))]
fn read_dst(place: u32, tree: &Tree<'_>, item: &Node) -> Result<Prefix, DemandFault>
    ensures { Gives Memory (λ p. p) result (policy.dst_in place (data_of tree.now item.now)) }
{
    let text = tree
        .text_at(item, "dst")
        .ok_or(DemandFault::Shape(Field::Dst, place))?;
    read_prefix(text).ok().ok_or(DemandFault::BadPrefix(place))
}

/// Reads the packets that a demand speaks of.
#[tactic(auto, unfolding(crate::specs::Policy::cover_in))]
fn read_cover(
    alloc: Global,
    net: &Net,
    place: u32,
    tree: &Tree<'_>,
    item: &Node,
) -> Result<Cover, DemandFault>
    ensures { Gives Memory (λ c. c) result
        (policy.cover_in net.now place (data_of tree.now item.now)) }
{
    let from = read_from(alloc, net, place, tree, tree.get(item, "from"))?;
    let vlan = read_test(place, tree, tree.get(item, "vlan"))?;
    let dst = read_dst(place, tree, item)?;
    Ok(Cover { from, vlan, dst })
}

/// Reads one demand.
#[tactic(auto, unfolding(crate::specs::Policy::demand_in))]
fn read_demand(
    alloc: Global,
    net: &Net,
    place: u32,
    tree: &Tree<'_>,
    item: &Node,
) -> Result<Demand, DemandFault>
    ensures { Gives Memory (λ d. d) result
        (policy.demand_in net.now place (data_of tree.now item.now)) }
{
    let cover = read_cover(alloc, net, place, tree, item)?;
    let through = read_through(alloc, net, place, tree, tree.get(item, "through"))?;
    let deliver = read_deliver(place, tree, tree.get(item, "deliver"))?;
    refuse_unknown(net, place, tree, item)?;
    Ok(Demand {
        cover,
        through,
        deliver,
    })
}

/// Reads one item of `demands`.
#[tactic(auto, unfolding(crate::specs::Policy::demand_at))]
fn read_item(
    alloc: Global,
    net: &Net,
    place: u32,
    demands: &mut Demands,
    tree: &Tree<'_>,
    item: &Node,
) -> Result<(), DemandFault>
    ensures { MatchResult result
        (λ _. policy.demand_at net.now place demands.old (data_of tree.now item.now)
        ≡ Ok demands.new)
        (λ e. Fails Memory e (policy.demand_at net.now place demands.old
        (data_of tree.now item.now))) }
{
    if demands.count() >= MAX_DEMANDS {
        return Err(DemandFault::TooMany(Field::Demands, place));
    }
    if !tree.is_object(item) {
        return Err(DemandFault::Shape(Field::Demands, place));
    }
    let demand = read_demand(alloc, net, place, tree, item)?;
    demands.add(demand)?;
    Ok(())
}

/// Reads the items of `demands`, one after the other.
fn read_each_demand(
    alloc: Global,
    net: &Net,
    tree: &Tree<'_>,
    items: &[Node],
) -> Result<Demands, DemandFault>
    ensures { Gives Memory (λ d. d) result
        (in_turn (policy.demand_at net.now) 0 [] (map (data_of tree.now) items.now)) }
{
    let mut demands = Demands::empty(alloc);
    for (i, item) in items.iter().enumerate() {
        read_item(alloc, net, place_of(i), &mut demands, tree, item)?;
    }
    Ok(demands)
}

/// Reads the member `demands`.
#[tactic(auto, unfolding(crate::specs::Policy::members_in))]
fn read_members(
    alloc: Global,
    net: &Net,
    tree: &Tree<'_>,
    top: &Node,
) -> Result<Demands, DemandFault>
    ensures { Gives Memory (λ d. d) result (policy.members_in net.now (data_of tree.now top.now)) }
{
    if !tree.is_object(top) {
        return Err(DemandFault::Shape(Field::Top, 0));
    }
    let items = tree
        .list_at(top, "demands")
        .ok_or(DemandFault::Shape(Field::Demands, 0))?;
    read_each_demand(alloc, net, tree, items)
}

/// Reads the bytes of a policy.
#[tactic(auto, unfolding(crate::specs::Policy::demands_in))]
fn read_file(alloc: Global, net: &Net, bytes: &[u8]) -> Result<Demands, DemandFault>
    ensures { Gives Memory (λ d. d) result (policy.demands_in net.now bytes.now) }
{
    let mut scratch = Scratch::new(alloc);
    let tree = parse_tree(alloc, bytes, &mut scratch)?;
    read_members(alloc, net, &tree, tree.top())
}

/// The demands that the bytes describe, or the first refusal of the table of members. In a wide network a demand may name a list
/// of host ports. Lists in `through`, and the members `to` and `deny` of a wide network, aren't there yet, and are refused.
pub fn read_demands(alloc: Global, net: &Net, bytes: &[u8]) -> Result<Demands, DemandFault>
    ensures read { Gives Memory (λ d. d) result (policy.demands_in net.now bytes.now) }
    ensures in_range { IfOk result (λ d. AreDemands net.now d) }
{
    net.keeps_rules();
    read_file(alloc, net, bytes)
}
