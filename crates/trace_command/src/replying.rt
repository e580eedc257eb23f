//! What is said of a packet.
ghost use Rattle.std.specs.Prelude.{◌≡◌, ◌<◌, length, IfOk, IfSome, IfNone};
ghost use Rattle.topology.specs.Networks.{switch_count};
ghost use Rattle.flow_rules.specs.Tables.{rules_of_all};
ghost use Rattle.path_walk.specs.UserConfigs.{IsUserConfig};
ghost use Rattle.command_base.specs.Replies.{answer_of};
ghost use Rattle.trace_command.specs.Names.{entry_seen, names_seen};
ghost use Rattle.trace_command.specs.Traced.{meaning_of, place_named, NamesEntry, NamesNoEntry, IsPathText, IsTraceAnswer};

use crate::files::TraceFiles;
use crate::lines::{no_entry_line, trace_text};
use crate::names::{EntryName, TraceNames};
use command_base::{Reply, Status};
use flow_rules::Config;
use net_base::{Memory, Place};
use path_walk::{PathRoom, follow};
use std::alloc::Global;
use topology::Net;

/// The place that is named, at a switch of the network.
fn place_named(net: &Net, named: EntryName<'_>) -> Option<Place>
    ensures value { result ≡ place_named net.now (entry_seen named.entry) }
    ensures within { IfSome result (λ place. place.switch.0 < switch_count net.now) }
{
    let switch = net.find(named.switch)?;
    Some(Place {
        switch,
        port: named.port,
        vlan: named.vlan,
    })
}

/// The entry of the network that is named.
fn entry_named(net: &Net, named: EntryName<'_>) -> Option<Place>
    ensures some { IfSome result (NamesEntry net.now (entry_seen named.entry)) }
    ensures none { IfNone result (NamesNoEntry net.now (entry_seen named.entry)) }
    ensures within { IfSome result (λ place. place.switch.0 < switch_count net.now) }
{
    let place = place_named(net, named)?;
    if net.is_entry(place) {
        Some(place)
    } else {
        None
    }
}

/// The lines on the path of an entry and an address.
fn path_text(
    alloc: Global,
    net: &Net,
    config: &Config,
    entry: Place,
    dst: u32,
) -> Result<Vec<u8>, Memory>
    requires tables { length config.now ≡ switch_count net.now }
    requires entry { entry.switch.0 < switch_count net.now }
    ensures { IfOk result (λ t. IsPathText net.now (rules_of_all config.now) entry dst t.items) }
{
    let mut room = PathRoom::make(alloc, net)?;
    let end = follow(net, config, entry, dst, &mut room);
    let text = trace_text(alloc, net, config, dst, room.places(), end);
    drop(room);
    text
}

/// The lines on the path of a packet that enters where it is named; or the line on a named entry that the network doesn't have.
pub fn trace_reply(
    alloc: Global,
    files: &TraceFiles,
    names: &TraceNames<'_>,
) -> Result<Reply, Memory>
    requires { IsUserConfig files.now.net (rules_of_all files.now.config) }
    ensures { IfOk result
        (λ r. IsTraceAnswer (meaning_of files.now (names_seen names.now)) (answer_of r)) }
{
    match entry_named(&files.net, names.entry) {
        Some(entry) => Ok(Reply {
            status: Status::Done,
            text: path_text(alloc, &files.net, &files.config, entry, names.dst)?,
        }),
        None => Ok(Reply {
            status: Status::Refused,
            text: no_entry_line(alloc, names.entry)?,
        }),
    }
}
