//! The text of the ring's topology.
ghost use Rattle.std.specs.Prelude.{◌≡◌, ◌<◌, [], ◌∷◌, Ok, IfOk, OnOk, map, codes};
ghost use Rattle.serde_json.specs.Data.{string, object, no_members};
ghost use Rattle.serde_json.specs.View.{view, members_view};
ghost use Rattle.topology_files.specs.Topology.{network_in};
ghost use Rattle.ring_sample.specs.Ring.{numbers_below, ring_network};
ghost use Rattle.config_files.specs.RuleTrees.{whole_tree, list_tree};
ghost use Rattle.ring_sample.specs.RingTrees.{switch_tree, link_tree, host_tree, topology_tree};

use crate::size::RingSize;
use crate::values::{name_value, port_value};
use flat_json::write_line;
use net_base::Memory;
use serde_json::{Map, Value, push, put};
use std::alloc::Global;

/// The number of table entries for which a switch has room.
const CAPACITY: u32 = 64;

/// The one tag.
const TAG: u32 = 3000;

/// The port of a host.
pub const HOST_PORT: u16 = 1;

/// The port that leads to the next switch.
pub const NEXT_PORT: u16 = 2;

/// The port that leads to the switch before.
pub const BACK_PORT: u16 = 3;

/// Puts the members of a switch where there are none.
fn put_switch(members: &mut Map<String, Value>, alloc: Global, switch: u32) -> Result<(), Memory>
    requires { members_view members.old.entries ≡ no_members }
    ensures { OnOk result (object (members_view members.new.entries) ≡ switch_tree switch) }
{
    put(members, alloc, "name", name_value(alloc, switch)?)?;
    put(members, alloc, "capacity", Value::from(CAPACITY))?;
    Ok(())
}

fn switch_value(alloc: Global, switch: u32) -> Result<Value, Memory>
    ensures { IfOk result (λ v. view v ≡ switch_tree switch) }
{
    let mut members = Map::new(alloc);
    put_switch(&mut members, alloc, switch)?;
    Ok(Value::Object(members))
}

fn switches_value(alloc: Global, switches: u32) -> Result<Value, Memory>
    ensures { IfOk result (λ v. view v ≡ list_tree (map switch_tree (numbers_below switches))) }
{
    let mut values = Vec::new(alloc);
    for i in 0..switches {
        push(&mut values, switch_value(alloc, i)?)?;
    }
    Ok(Value::Array(values))
}

/// Adds the ends of a link where there are none.
fn add_ends(ends: &mut Vec<Value>, alloc: Global, switches: u32, switch: u32) -> Result<(), Memory>
    requires none { ends.old.items ≡ [] }
    requires within { switch < switches }
    ensures { OnOk result (list_tree (map view ends.new.items) ≡ link_tree switches switch) }
{
    let next = (switch + 1) % switches;
    push(ends, port_value(alloc, switch, NEXT_PORT)?)?;
    push(ends, port_value(alloc, next, BACK_PORT)?)?;
    Ok(())
}

fn link_value(alloc: Global, switches: u32, switch: u32) -> Result<Value, Memory>
    requires { switch < switches }
    ensures { IfOk result (λ v. view v ≡ link_tree switches switch) }
{
    let mut ends = Vec::new(alloc);
    add_ends(&mut ends, alloc, switches, switch)?;
    Ok(Value::Array(ends))
}

fn links_value(alloc: Global, switches: u32) -> Result<Value, Memory>
    ensures { IfOk result
        (λ v. view v ≡ list_tree (map (link_tree switches) (numbers_below switches))) }
{
    let mut values = Vec::new(alloc);
    for i in 0..switches {
        push(&mut values, link_value(alloc, switches, i)?)?;
    }
    Ok(Value::Array(values))
}

fn hosts_value(alloc: Global, switches: u32) -> Result<Value, Memory>
    ensures { IfOk result (λ v. view v ≡ list_tree (map host_tree (numbers_below switches))) }
{
    let mut values = Vec::new(alloc);
    for i in 0..switches {
        push(&mut values, port_value(alloc, i, HOST_PORT)?)?;
    }
    Ok(Value::Array(values))
}

fn vlans_value(alloc: Global) -> Result<Value, Memory>
    ensures { IfOk result (λ v. view v ≡ list_tree (string (codes "untagged") ∷ [])) }
{
    let mut values = Vec::new(alloc);
    push(&mut values, Value::try_from_str(alloc, "untagged")?)?;
    Ok(Value::Array(values))
}

fn tags_value(alloc: Global) -> Result<Value, Memory>
    ensures { IfOk result (λ v. view v ≡ list_tree (whole_tree 3000 ∷ whole_tree 3000 ∷ [])) }
{
    let mut values = Vec::new(alloc);
    push(&mut values, Value::from(TAG))?;
    push(&mut values, Value::from(TAG))?;
    Ok(Value::Array(values))
}

/// Puts the members of the topology where there are none.
#[tactic(auto, unfolding(crate::specs::RingTrees::topology_tree))]
fn put_topology(
    members: &mut Map<String, Value>,
    alloc: Global,
    switches: u32,
) -> Result<(), Memory>
    requires { members_view members.old.entries ≡ no_members }
    ensures { OnOk result (object (members_view members.new.entries) ≡ topology_tree switches) }
{
    put(members, alloc, "switches", switches_value(alloc, switches)?)?;
    put(members, alloc, "links", links_value(alloc, switches)?)?;
    put(members, alloc, "hosts", hosts_value(alloc, switches)?)?;
    put(members, alloc, "vlans", vlans_value(alloc)?)?;
    put(members, alloc, "tags", tags_value(alloc)?)?;
    Ok(())
}

fn topology_value(alloc: Global, switches: u32) -> Result<Value, Memory>
    ensures { IfOk result (λ v. view v ≡ topology_tree switches) }
{
    let mut members = Map::new(alloc);
    put_topology(&mut members, alloc, switches)?;
    Ok(Value::Object(members))
}

/// The text of the topology.
pub fn topology_text(alloc: Global, size: RingSize) -> Result<Vec<u8>, Memory>
    ensures { IfOk result (λ t. network_in t.items ≡ Ok (ring_network size.switches)) }
{
    write_line(alloc, &topology_value(alloc, size.switches)?)
}
