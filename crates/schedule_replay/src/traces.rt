//! The traces of the packets of a world, as text.
ghost use Rattle.std.specs.Prelude.{◌≡◌, ◌≤◌, ◌++◌, ◌∷◌, [], IfOk, OnOk, Ok, length};
ghost use Rattle.std.specs.List.{AllByRecursion};
ghost use Rattle.schedule_replay.specs.EventTexts.{HasLine, stop_text};
ghost use Rattle.net_base.specs.Lines.{text_of};
ghost use Rattle.schedule_replay.specs.Schedules.{schedule_in, numbered_lines};
ghost use Rattle.schedule_replay.specs.Traces.{marked_lines};
ghost use Rattle.schedule_replay.specs.Traces as texts;

use crate::event_texts::{
    add_entry, add_line, add_numbered, add_place, events_text, stop_text, switch_text,
};
use net_base::{Memory, Place, Stop, SwitchId};
use path_walk::Ended;
use std::alloc::Global;
use text_lines::{add_made, add_word};
use topology::Net;
use update_model::{Event, Events, Packet, Phase, World};

/// Adds where a packet entered, to which address, and how many rounds were settled then.
fn add_packet(
    text: &mut Vec<u8>,
    alloc: Global,
    net: &Net,
    i: usize,
    packet: &Packet,
) -> Result<(), Memory>
    ensures { OnOk result
        (text.new.items ≡ text.old.items ++ texts.packet_text net.now i packet.now) }
{
    add_numbered(text, alloc, "packet ", i)?;
    text.push(b' ')?;
    add_entry(text, alloc, net, packet.entry, packet.dst)?;
    add_numbered(text, alloc, " born ", packet.born as usize)?;
    text.push(b':')?;
    Ok(())
}

/// Adds a stop after a space.
fn add_stop(text: &mut Vec<u8>, alloc: Global, net: &Net, stop: Stop) -> Result<(), Memory>
    ensures { OnOk result (text.new.items ≡ text.old.items ++ 32 ∷ stop_text net.now stop) }
{
    text.push(b' ')?;
    add_made(text, stop_text(alloc, net, stop)?)
}

/// Adds the stops, each after a space.
fn add_stops(text: &mut Vec<u8>, alloc: Global, net: &Net, stops: &[Stop]) -> Result<(), Memory>
    ensures { OnOk result (text.new.items ≡ text.old.items ++ texts.stops_text net.now stops.now) }
{
    for stop in stops {
        add_stop(text, alloc, net, *stop)?;
    }
    Ok(())
}

/// Adds that a packet left, and where.
fn add_left(text: &mut Vec<u8>, alloc: Global, net: &Net, place: Place) -> Result<(), Memory>
    ensures { OnOk result
        (text.new.items ≡ text.old.items
        ++ texts.end_text net.now (Ended.Left place.switch place.port place.vlan)) }
{
    add_word(text, " left ")?;
    add_place(text, alloc, net, place)
}

/// Adds that a packet was dropped, and where.
fn add_dropped(text: &mut Vec<u8>, net: &Net, switch: SwitchId) -> Result<(), Memory>
    ensures { OnOk result
        (text.new.items ≡ text.old.items ++ texts.end_text net.now (Ended.Dropped switch)) }
{
    add_word(text, " dropped ")?;
    add_word(text, switch_text(net, switch))
}

/// Adds how a packet ended, after a space.
fn add_end(text: &mut Vec<u8>, alloc: Global, net: &Net, ended: Ended) -> Result<(), Memory>
    ensures { OnOk result (text.new.items ≡ text.old.items ++ texts.end_text net.now ended) }
{
    match ended {
        Ended::UnderWay => add_word(text, " under way"),
        Ended::Left(switch, port, vlan) => add_left(text, alloc, net, Place { switch, port, vlan }),
        Ended::Dropped(switch) => add_dropped(text, net, switch),
        Ended::Lost => add_word(text, " lost"),
    }
}

/// Adds the trace of packet i.
fn add_trace(
    text: &mut Vec<u8>,
    alloc: Global,
    net: &Net,
    i: usize,
    packet: &Packet,
) -> Result<(), Memory>
    ensures { OnOk result
        (text.new.items ≡ text.old.items ++ texts.packet_line net.now i packet.now) }
{
    add_packet(text, alloc, net, i, packet)?;
    add_stops(text, alloc, net, packet.visits.stops())?;
    add_end(text, alloc, net, packet.ended)
}

/// How many of so many rounds are settled, or which is running: `settled K of N` or `running K of N`.
pub fn phase_line(alloc: Global, phase: Phase, rounds: usize) -> Result<Vec<u8>, Memory>
    ensures { IfOk result (λ t. t.items ≡ texts.phase_line phase rounds) }
{
    match phase {
        Phase::Settled(k) => Ok(format!(in alloc; "settled {k} of {rounds}")?.into_bytes()),
        Phase::Running(k) => Ok(format!(in alloc; "running {k} of {rounds}")?.into_bytes()),
    }
}

/// One more line of a text, with a mark before it.
fn add_marked(text: &mut Vec<u8>, mark: &str, line: &[u8]) -> Result<(), Memory>
    ensures { OnOk result (text.new.items ≡ text.old.items ++ (mark.now ++ line.now ++ 10 ∷ [])) }
{
    add_word(text, mark)?;
    add_line(text, line)
}

/// Adds the trace of packet i in a line with a mark before it.
fn add_trace_line(
    text: &mut Vec<u8>,
    mark: &str,
    alloc: Global,
    net: &Net,
    i: usize,
    packet: &Packet,
) -> Result<(), Memory>
    ensures { OnOk result
        (text.new.items ≡ text.old.items
        ++ (mark.now ++ texts.packet_line net.now i packet.now ++ 10 ∷ [])) }
{
    add_word(text, mark)?;
    add_trace(text, alloc, net, i, packet)?;
    text.push(b'\n')?;
    Ok(())
}

/// The traces of packets, each in a line with a mark before it.
fn add_packets(
    text: &mut Vec<u8>,
    mark: &str,
    alloc: Global,
    net: &Net,
    packets: &[Packet],
) -> Result<(), Memory>
    ensures { OnOk result
        (text.new.items ≡ text.old.items
        ++ text_of (marked_lines mark.now (texts.packet_lines net.now 0 packets.now))) }
{
    for (i, packet) in packets.iter().enumerate() {
        add_trace_line(text, mark, alloc, net, i, packet)?;
    }
    Ok(())
}

/// The traces of the packets of a world and its phase, each in a line with a mark before it.
fn add_traces(
    text: &mut Vec<u8>,
    mark: &str,
    alloc: Global,
    net: &Net,
    world: &World,
) -> Result<(), Memory>
    ensures { OnOk result
        (text.new.items ≡ text.old.items
        ++ text_of (marked_lines mark.now (texts.trace_lines net.now world.now))) }
{
    add_packets(text, mark, alloc, net, world.packets())?;
    let phase = phase_line(alloc, world.phase(), world.rounds().count())?;
    let added = add_marked(text, mark, &phase);
    drop(phase);
    added
}

/// The traces of the packets of a world, one line each in the order of entry: where and to which address the packet entered,
/// how many rounds were settled then, its stops, and its end. The last line says how far the rounds are. The world is one of
/// this network; a switch that the network doesn't have would be named by nothing. The cost is that of the text.
pub fn traces_text(alloc: Global, net: &Net, world: &World) -> Result<Vec<u8>, Memory>
    ensures { IfOk result (λ t. t.items ≡ texts.traces_text net.now world.now) }
{
    let mut text = Vec::new(alloc);
    add_traces(&mut text, "", alloc, net, world)?;
    Ok(text)
}

/// The record of a run: the schedule of its events, and after it the traces of the world as comments. Read as a schedule it
/// gives the events back. The cost is that of the text.
pub fn record_text(
    alloc: Global,
    net: &Net,
    events: &Events,
    world: &World,
) -> Result<Vec<u8>, Memory>
    requires few { length events.now ≤ 4000000 }
    requires lines { AllByRecursion (HasLine net.now) events.now }
    ensures text { IfOk result (λ t. t.items ≡ texts.record_text net.now events.now world.now) }
    // What was written is read as these events, in the lines from 1 on.
    ensures again { IfOk result
        (λ t. schedule_in net.now t.items ≡ Ok (numbered_lines 1 events.now)) }
{
    net.keeps_rules();
    record_of(alloc, net, events.list(), world)
}

/// The text of events, and after it the traces of the world as comments.
fn record_of(alloc: Global, net: &Net, events: &[Event], world: &World) -> Result<Vec<u8>, Memory>
    ensures { IfOk result (λ t. t.items ≡ texts.record_text net.now events.now world.now) }
{
    let mut text = events_text(alloc, net, events)?;
    add_traces(&mut text, "# ", alloc, net, world)?;
    Ok(text)
}
