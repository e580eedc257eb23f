//! The texts of the ring's configurations.
ghost use Rattle.std.specs.Prelude.{◌≡◌, ◌<◌, ◌≤◌, ◌++◌, ◌==◌, if◌then◌else◌, Ok, IfOk, OnOk, map, flat_map};
ghost use Rattle.serde_json.specs.Data.{object, no_members};
ghost use Rattle.serde_json.specs.View.{view, members_view};
ghost use Rattle.config_files.specs.Configuration.{configuration_in};
ghost use Rattle.ring_sample.specs.Ring.{numbers_below, destinations, ring_network, ring_tables};
ghost use Rattle.config_files.specs.RuleTrees.{list_tree};
ghost use Rattle.ring_sample.specs.RingTrees.{rule_tree, configuration_tree};

use crate::size::RingSize;
use crate::topology_text::HOST_PORT;
use crate::values::{name_value, prefix_value};
use flat_json::write_line;
use net_base::Memory;
use serde_json::{Map, Value, push, put};
use std::alloc::Global;

/// The number of destinations.
pub const DESTINATIONS: u32 = 4;

/// The priority of all rules.
const PRIORITY: u32 = 100;

/// The port by which packets to a destination go out of a switch.
fn out_port(port: u16, switch: u32, destination: u32) -> u16
    ensures { result ≡ (if switch == destination then 1 else port) }
{
    if switch == destination {
        HOST_PORT
    } else {
        port
    }
}

/// Puts the members of a rule where there are none.
fn put_rule(
    members: &mut Map<String, Value>,
    alloc: Global,
    port: u16,
    switch: u32,
    destination: u32,
) -> Result<(), Memory>
    requires none { members_view members.old.entries ≡ no_members }
    requires destination { destination < 4 }
    ensures { OnOk result
        (object (members_view members.new.entries) ≡ rule_tree port switch destination) }
{
    put(members, alloc, "switch", name_value(alloc, switch)?)?;
    put(members, alloc, "priority", Value::from(PRIORITY))?;
    put(members, alloc, "dst", prefix_value(alloc, destination)?)?;
    let out = out_port(port, switch, destination);
    put(members, alloc, "out", Value::from(out))?;
    Ok(())
}

/// The rule of a switch for a destination, which is at the switch of its number.
fn rule_value(alloc: Global, port: u16, switch: u32, destination: u32) -> Result<Value, Memory>
    requires { destination < 4 }
    ensures { IfOk result (λ v. view v ≡ rule_tree port switch destination) }
{
    let mut members = Map::new(alloc);
    put_rule(&mut members, alloc, port, switch, destination)?;
    Ok(Value::Object(members))
}

/// Adds the rules of a switch, by destination.
fn add_rules(alloc: Global, values: &mut Vec<Value>, port: u16, switch: u32) -> Result<(), Memory>
    ensures { OnOk result
        (map view values.new.items ≡ map view values.old.items
        ++ map (rule_tree port switch) destinations) }
{
    for j in 0..DESTINATIONS {
        push(values, rule_value(alloc, port, switch, j)?)?;
    }
    Ok(())
}

fn rules_value(alloc: Global, switches: u32, port: u16) -> Result<Value, Memory>
    ensures { IfOk result
        (λ v. view v
        ≡ list_tree (flat_map (λ i. map (rule_tree port i) destinations)
        (numbers_below switches))) }
{
    let mut values = Vec::new(alloc);
    for i in 0..switches {
        add_rules(alloc, &mut values, port, i)?;
    }
    Ok(Value::Array(values))
}

#[tactic(auto, unfolding(crate::specs::RingTrees::configuration_tree))]
fn configuration_value(alloc: Global, switches: u32, port: u16) -> Result<Value, Memory>
    ensures { IfOk result (λ v. view v ≡ configuration_tree switches port) }
{
    let rules = rules_value(alloc, switches, port)?;
    let mut members = Map::new(alloc);
    put(&mut members, alloc, "rules", rules)?;
    Ok(Value::Object(members))
}

/// The text of the configuration in which packets go out of the port, 2 or 3, up to the switch of their destination.
pub fn configuration_text(alloc: Global, size: RingSize, port: u16) -> Result<Vec<u8>, Memory>
    requires least { 2 ≤ port }
    requires most { port ≤ 3 }
    ensures { IfOk result
        (λ t. configuration_in (ring_network size.switches) t.items
        ≡ Ok (ring_tables size.switches port)) }
{
    write_line(alloc, &configuration_value(alloc, size.switches, port)?)
}
