//! The names of switches, ports and prefixes.
ghost use Rattle.std.specs.Prelude.{◌≡◌, ◌<◌, IfOk};
ghost use Rattle.serde_json.specs.View.{view};
ghost use Rattle.serde_json.specs.Data.{string};
ghost use Rattle.net_base.specs.Text.{prefix_text};
ghost use Rattle.ring_sample.specs.Ring.{ring_name, ring_prefix};
ghost use Rattle.ring_sample.specs.RingTrees.{port_text};

use net_base::{Memory, Prefix, prefix_string};
use serde_json::Value;
use std::alloc::Global;

/// The name of a switch.
#[tactic(auto, unfolding(crate::specs::Ring::ring_name))]
pub fn name_value(alloc: Global, switch: u32) -> Result<Value, Memory>
    ensures { IfOk result (λ v. view v ≡ string (ring_name switch)) }
{
    Ok(Value::String(format!(in alloc; "r{switch}")?))
}

/// A reference to a port.
#[tactic(auto, unfolding(crate::specs::Ring::ring_name, crate::specs::RingTrees::port_text))]
pub fn port_value(alloc: Global, switch: u32, port: u16) -> Result<Value, Memory>
    ensures { IfOk result (λ v. view v ≡ string (port_text switch port)) }
{
    Ok(Value::String(format!(in alloc; "r{switch}:{port}")?))
}

/// The prefix of a destination, 10.0.0.0/24 of the first.
pub fn prefix_value(alloc: Global, destination: u32) -> Result<Value, Memory>
    requires { destination < 4 }
    ensures { IfOk result (λ v. view v ≡ string (prefix_text (ring_prefix destination))) }
{
    let prefix = Prefix {
        base: 0x0a00_0000 + destination * 0x100,
        len: 24,
    };
    Ok(Value::String(prefix_string(alloc, prefix)?))
}
