//! The texts of places and events.
ghost use Rattle.std.specs.Prelude.{◌≡◌, ◌≤◌, ◌^◌, ◌++◌, ◌∷◌, [], IfOk, OnOk, OnErr, Ok, length, decimal};
ghost use Rattle.std.specs.List.{AllByRecursion};
ghost use Rattle.flow_rules.specs.Tables.{rules_of_all};
ghost use Rattle.update_model.specs.Runs.{IsRun};
ghost use Rattle.schedule_replay.specs.EventTexts as texts;
ghost use Rattle.schedule_replay.specs.EventTexts.{HasLine};
ghost use Rattle.schedule_replay.specs.Schedules.{schedule_in, numbered_lines};

use flow_rules::Config;
use net_base::{Memory, Place, Stop, SwitchId, addr_text, vlan_text};
use std::alloc::Global;
use text_lines::{add_made, add_word};
use topology::Net;
use update_model::{Event, Events, Rounds};

/// The name of a switch; empty where the network has no such switch.
pub fn switch_text(net: &Net, switch: SwitchId) -> &str
    ensures { result.now ≡ texts.switch_text net.now switch }
{
    if switch.0 < net.switches() {
        net.name(switch)
    } else {
        ""
    }
}

/// A port of a switch: `SWITCH:PORT`.
pub fn stop_text(alloc: Global, net: &Net, stop: Stop) -> Result<Vec<u8>, Memory>
    ensures { IfOk result (λ t. t.items ≡ texts.stop_text net.now stop) }
{
    let name = switch_text(net, stop.switch);
    let port = stop.port.0;
    Ok(format!(in alloc; "{name}:{port}")?.into_bytes())
}

/// Adds a word and a number.
pub fn add_numbered(text: &mut Vec<u8>, alloc: Global, word: &str, n: usize) -> Result<(), Memory>
    ensures { OnOk result (text.new.items ≡ text.old.items ++ word.now ++ decimal n) }
{
    add_made(text, format!(in alloc; "{word}{n}")?.into_bytes())
}

/// Adds a place: `SWITCH:PORT VLAN`.
pub fn add_place(text: &mut Vec<u8>, alloc: Global, net: &Net, place: Place) -> Result<(), Memory>
    ensures { OnOk result (text.new.items ≡ text.old.items ++ texts.place_text net.now place) }
{
    let stop = Stop {
        switch: place.switch,
        port: place.port,
    };
    add_made(text, stop_text(alloc, net, stop)?)?;
    text.push(b' ')?;
    add_made(text, vlan_text(alloc, place.vlan)?)
}

/// Adds a packet's entry and its address: `SWITCH:PORT VLAN ADDRESS`.
pub fn add_entry(
    text: &mut Vec<u8>,
    alloc: Global,
    net: &Net,
    place: Place,
    dst: u32,
) -> Result<(), Memory>
    ensures { OnOk result (text.new.items ≡ text.old.items ++ texts.entry_text net.now place dst) }
{
    add_place(text, alloc, net, place)?;
    text.push(b' ')?;
    add_made(text, addr_text(alloc, dst)?)
}

/// Adds the line of an entry.
fn add_enter(
    text: &mut Vec<u8>,
    alloc: Global,
    net: &Net,
    place: Place,
    dst: u32,
) -> Result<(), Memory>
    ensures { OnOk result
        (text.new.items ≡ text.old.items ++ texts.event_text net.now (Event.Enter place dst)) }
{
    add_word(text, "enter ")?;
    add_entry(text, alloc, net, place, dst)
}

/// Adds the line of an event.
fn add_event(text: &mut Vec<u8>, alloc: Global, net: &Net, event: Event) -> Result<(), Memory>
    ensures { OnOk result (text.new.items ≡ text.old.items ++ texts.event_text net.now event) }
{
    match event {
        Event::Start => add_word(text, "start"),
        Event::Settle => add_word(text, "settle"),
        Event::Change(i) => add_numbered(text, alloc, "change ", i),
        Event::Enter(place, dst) => add_enter(text, alloc, net, place, dst),
        Event::Hop(i) => add_numbered(text, alloc, "hop ", i),
        Event::Lose(i) => add_numbered(text, alloc, "lose ", i),
    }
}

/// One more line of a text. After a refusal the text is as before.
pub fn add_line(text: &mut Vec<u8>, line: &[u8]) -> Result<(), Memory>
    ensures ok { OnOk result (text.new.items ≡ text.old.items ++ line.now ++ 10 ∷ []) }
    ensures err { OnErr result (text.new.items ≡ text.old.items) }
{
    text.reserve(line.len() + 1)?;
    text.extend_from_slice(line)?;
    text.push(b'\n')?;
    Ok(())
}

/// Does nothing: its contract says that a line has room for each event of a run, for crates that record runs.
pub fn runs_have_lines(net: &Net, old: &Config, rounds: &Rounds, events: &Events)
    requires run { IsRun (record { net = net.now; old = rules_of_all old.now; rounds = rounds.now })
        events.now }
    requires short { AllByRecursion (λ round. length round ≤ 2 ^ 32) rounds.now }
    requires few { length events.now ≤ 4000000 }
    ensures { AllByRecursion (HasLine net.now) events.now }
{
    net.keeps_rules();
}

/// The schedule of some events, each in a line of its own. Reading it gives these events back. The cost is that of the text.
pub fn schedule_text(alloc: Global, net: &Net, events: &Events) -> Result<Vec<u8>, Memory>
    requires few { length events.now ≤ 4000000 }
    requires lines { AllByRecursion (HasLine net.now) events.now }
    ensures text { IfOk result (λ t. t.items ≡ texts.schedule_text net.now events.now) }
    // What was written is read as these events, in the lines from 1 on.
    ensures again { IfOk result
        (λ t. schedule_in net.now t.items ≡ Ok (numbered_lines 1 events.now)) }
{
    net.keeps_rules();
    events_text(alloc, net, events.list())
}

/// Adds an event in a line of its own.
fn add_event_line(text: &mut Vec<u8>, alloc: Global, net: &Net, event: Event) -> Result<(), Memory>
    ensures { OnOk result
        (text.new.items ≡ text.old.items ++ texts.event_text net.now event ++ 10 ∷ []) }
{
    add_event(text, alloc, net, event)?;
    text.push(b'\n')?;
    Ok(())
}

/// Adds events, each in a line of its own.
fn add_events(text: &mut Vec<u8>, alloc: Global, net: &Net, events: &[Event]) -> Result<(), Memory>
    ensures { OnOk result
        (text.new.items ≡ text.old.items ++ texts.schedule_text net.now events.now) }
{
    for event in events {
        add_event_line(text, alloc, net, *event)?;
    }
    Ok(())
}

/// The text of events, each in a line of its own.
pub fn events_text(alloc: Global, net: &Net, events: &[Event]) -> Result<Vec<u8>, Memory>
    ensures { IfOk result (λ t. t.items ≡ texts.schedule_text net.now events.now) }
{
    let mut text = Vec::new(alloc);
    add_events(&mut text, alloc, net, events)?;
    Ok(text)
}
