//! The words of `trace`.
ghost use Rattle.std.specs.Prelude.{◌≡◌, map, string_bytes, option_map};
ghost use Rattle.net_base.specs.Text.{address_in};
ghost use Rattle.trace_command.specs.Names as spelled;

use crate::spelling::read_entry;
use net_base::{Port, Vlan, read_address};

/// A port that packets may come in by, by the name of its switch, and a VLAN.
#[derive(Clone, Copy)]
pub struct EntryName<'a> {
    pub switch: &'a str,
    pub port: Port,
    pub vlan: Vlan,
}

/// The names of the files of `trace`, the topology and the configuration, where a packet enters, and its address.
#[derive(Clone, Copy)]
pub struct TraceNames<'a> {
    pub topology: &'a str,
    pub config: &'a str,
    pub entry: EntryName<'a>,
    pub dst: u32,
}

/// The names with the entry and the address that the other words spell.
fn with_packet<'a>(
    topology: &'a str,
    config: &'a str,
    entry: &'a str,
    vlan: &str,
    address: &str,
) -> Option<TraceNames<'a>>
    ensures { option_map spelled.names_seen result
        ≡ spelled.with_packet topology.now config.now (spelled.entry_in entry.now vlan.now)
        (address_in address.now) }
{
    let entry = read_entry(entry, vlan)?;
    let dst = read_address(address)?;
    Some(TraceNames {
        topology,
        config,
        entry,
        dst,
    })
}

/// The names in the words after `trace`, which are TOPO CONFIG ENTRY VLAN ADDRESS; none in other words. ENTRY is `NAME:PORT`, a name
/// of the form that switches have and a port from 1 to 65279; VLAN is `untagged` or an id from 1 to 4094; ADDRESS is four decimals
/// from 0 to 255, joined by `.`.
pub fn trace_names(words: &[String]) -> Option<TraceNames<'_>>
    ensures { option_map spelled.names_seen result ≡ spelled.names_in (map string_bytes words.now) }
{
    match words {
        [topology, config, entry, vlan, address] => with_packet(
            topology.as_str(),
            config.as_str(),
            entry.as_str(),
            vlan.as_str(),
            address.as_str(),
        ),
        _ => None,
    }
}
