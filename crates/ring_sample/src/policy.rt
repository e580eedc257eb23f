//! The text of the ring's policy.
ghost use Rattle.std.specs.Prelude.{◌≡◌, ◌<◌, ◌++◌, Ok, IfOk, OnOk, map, flat_map};
ghost use Rattle.serde_json.specs.Data.{object, no_members};
ghost use Rattle.serde_json.specs.View.{view, members_view};
ghost use Rattle.demands.specs.Policy.{demands_in};
ghost use Rattle.ring_sample.specs.Ring.{numbers_below, others, ring_network, ring_demands};
ghost use Rattle.config_files.specs.RuleTrees.{list_tree};
ghost use Rattle.ring_sample.specs.RingTrees.{demand_tree, policy_tree};

use crate::configuration::DESTINATIONS;
use crate::size::RingSize;
use crate::topology_text::HOST_PORT;
use crate::values::{port_value, prefix_value};
use flat_json::write_line;
use net_base::Memory;
use serde_json::{Map, Value, push, put};
use std::alloc::Global;

/// Puts the members of a demand where there are none.
fn put_demand(
    members: &mut Map<String, Value>,
    alloc: Global,
    switch: u32,
    destination: u32,
) -> Result<(), Memory>
    requires none { members_view members.old.entries ≡ no_members }
    requires destination { destination < 4 }
    ensures { OnOk result
        (object (members_view members.new.entries) ≡ demand_tree switch destination) }
{
    put(
        members,
        alloc,
        "from",
        port_value(alloc, switch, HOST_PORT)?,
    )?;
    put(members, alloc, "dst", prefix_value(alloc, destination)?)?;
    put(members, alloc, "deliver", Value::Bool(true))?;
    Ok(())
}

/// The demand that what enters at a switch arrives at a destination.
fn demand_value(alloc: Global, switch: u32, destination: u32) -> Result<Value, Memory>
    requires { destination < 4 }
    ensures { IfOk result (λ v. view v ≡ demand_tree switch destination) }
{
    let mut members = Map::new(alloc);
    put_demand(&mut members, alloc, switch, destination)?;
    Ok(Value::Object(members))
}

/// Adds the demands of a switch, to each destination but its own.
fn add_demands(alloc: Global, values: &mut Vec<Value>, switch: u32) -> Result<(), Memory>
    ensures { OnOk result
        (map view values.new.items ≡ map view values.old.items
        ++ map (demand_tree switch) (others switch)) }
{
    for j in 0..DESTINATIONS {
        if j != switch {
            push(values, demand_value(alloc, switch, j)?)?;
        }
    }
    Ok(())
}

fn demands_value(alloc: Global, switches: u32) -> Result<Value, Memory>
    ensures { IfOk result
        (λ v. view v
        ≡ list_tree (flat_map (λ i. map (demand_tree i) (others i)) (numbers_below switches))) }
{
    let mut values = Vec::new(alloc);
    for i in 0..switches {
        add_demands(alloc, &mut values, i)?;
    }
    Ok(Value::Array(values))
}

#[tactic(auto, unfolding(crate::specs::RingTrees::policy_tree))]
fn policy_value(alloc: Global, switches: u32) -> Result<Value, Memory>
    ensures { IfOk result (λ v. view v ≡ policy_tree switches) }
{
    let demands = demands_value(alloc, switches)?;
    let mut members = Map::new(alloc);
    put(&mut members, alloc, "demands", demands)?;
    Ok(Value::Object(members))
}

/// The text of the policy.
pub fn policy_text(alloc: Global, size: RingSize) -> Result<Vec<u8>, Memory>
    ensures { IfOk result
        (λ t. demands_in (ring_network size.switches) t.items ≡ Ok (ring_demands size.switches)) }
{
    write_line(alloc, &policy_value(alloc, size.switches)?)
}
