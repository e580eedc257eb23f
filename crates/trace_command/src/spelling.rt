//! Entries as words spell them.
ghost use Rattle.std.specs.Prelude.{◌≡◌, option_map};
ghost use Rattle.trace_command.specs.Names as spelled;

use crate::names::EntryName;
use net_base::{MAX_PORT, Port, cut_last, read_decimal};
use text_lines::read_vlan;
use topology_files::is_name;

/// Reads an entry: `NAME:PORT` and a VLAN.
#[tactic(auto, unfolding(crate::specs::Names::entry_in))]
pub fn read_entry<'a>(stop: &'a str, vlan: &str) -> Option<EntryName<'a>>
    ensures { option_map spelled.entry_seen result ≡ spelled.entry_in stop.now vlan.now }
{
    let (switch, number) = cut_last(stop, ':')?;
    let port = read_decimal(number, MAX_PORT)?;
    let vlan = read_vlan(vlan)?;
    if !is_name(switch) || port < 1 {
        return None;
    }
    Some(EntryName {
        switch,
        port: Port(port as u16),
        vlan,
    })
}
