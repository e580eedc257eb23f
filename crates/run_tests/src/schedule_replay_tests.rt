//! Schedules over a network of four switches: how they are read, carried out and written.
ghost use Rattle.std.specs.Prelude.{◌<◌, ◌≤◌, IsTrue, IfOk, length};
ghost use Rattle.std.specs.List.{AllByRecursion};
ghost use Rattle.topology.specs.Networks.{switch_count, IsPortNumber, IsVlan};
ghost use Rattle.schedule_replay.specs.EventTexts.{HasLine};

use crate::square::{begun, network, two_rounds};
use net_base::{Place, Port, SwitchId, Vlan};
use schedule_replay::{
    ReplayFault, Schedule, ScheduleFault, ScheduleLine, read_schedule, record_text, replay,
    schedule_text, traces_text,
};
use std::alloc::Global;
use std::process::Abort;
use topology::Net;
use update_model::{Event, Events, Phase, World};

fn read(rt: &impl Abort, alloc: Global, net: &Net, schedule: &[u8]) -> Schedule {
    read_schedule(alloc, net, schedule).expect(rt, "a schedule")
}

fn traces(rt: &impl Abort, alloc: Global, net: &Net, world: &World) -> Vec<u8> {
    traces_text(alloc, net, world).expect(rt, "a text")
}

/// What is said of a schedule that isn't read.
fn refusal(rt: &impl Abort, alloc: Global, fault: ScheduleFault) -> Vec<u8> {
    let (number, name, place) = (fault.number(), fault.name(), fault.place());
    let text = format!(in alloc; "{number} {name} at {place}").expect(rt, "a text");
    text.into_bytes()
}

/// What is said of a schedule that stops.
fn stop(rt: &impl Abort, alloc: Global, fault: ReplayFault) -> Vec<u8> {
    match fault {
        ReplayFault::NotEnabled(line) => {
            let text = format!(in alloc; "line {line}").expect(rt, "a text");
            text.into_bytes()
        }
        ReplayFault::Memory => panic!(rt; "memory"),
    }
}

/// Carries a schedule out: the traces, or where it stops.
fn carried_out(rt: &impl Abort, alloc: Global, net: &Net, schedule: &Schedule) -> Vec<u8> {
    let rounds = two_rounds(rt, alloc);
    let mut world = begun(rt, alloc, net, &rounds);
    match replay(&mut world, schedule) {
        Ok(()) => traces(rt, alloc, net, &world),
        Err(fault) => stop(rt, alloc, fault),
    }
}

/// What a schedule comes to: its refusal, where it stops, or the traces.
fn answer(rt: &impl Abort, alloc: Global, schedule: &[u8]) -> Vec<u8> {
    let net = network(rt, alloc);
    match read_schedule(alloc, &net, schedule) {
        Ok(schedule) => carried_out(rt, alloc, &net, &schedule),
        Err(fault) => refusal(rt, alloc, fault),
    }
}

/// Each of the schedules comes to its text.
fn all_come_to(rt: &impl Abort, alloc: Global, rows: &[(&[u8], &[u8])]) {
    for (i, (schedule, want)) in rows.iter().enumerate() {
        assert!(rt; answer(rt, alloc, *schedule).as_slice() == *want, "row {i}");
    }
}

#[test]
fn a_schedule_ends_in_traces_or_stops_at_a_line(rt: HostRuntime) {
    let rows: [(&[u8], &[u8]); 9] = [
        // A packet that entered before the round is settled is still under way at the next start.
        (
            b"start\nenter s1:1 untagged 10.0.0.1\nchange 0\nsettle\nstart\n",
            b"line 5",
        ),
        // One that entered behind it goes on across the next start.
        (
            b"start\nchange 0\nsettle\nenter s1:1 untagged 10.0.0.1\nstart\n",
            b"packet 0 s1:1 untagged 10.0.0.1 born 1: s1:1 under way\nrunning 2 of 2\n",
        ),
        (b"settle", b"line 1"),
        (b"enter s1:2 untagged 10.0.0.1", b"line 1"),
        (b"enter s1:1 7 10.0.0.1", b"line 1"),
        (b"enter s1:1 untagged 10.0.0.1\nlose 0\nlose 0\n", b"line 3"),
        (b"# a comment\n\nstart\nchange 1\n", b"line 4"),
        (
            b"enter s1:1 untagged 10.0.0.1\nlose 0\n",
            b"packet 0 s1:1 untagged 10.0.0.1 born 0: s1:1 lost\nsettled 0 of 2\n",
        ),
        (b"", b"settled 0 of 2\n"),
    ];
    all_come_to(&rt, rt.alloc(), &rows);
}

/// A run of both rounds with two packets, and its record.
const EVENTS: &[u8] = b"start
enter s1:1 untagged 0.0.0.0
hop 0
enter s1:1 untagged 10.0.0.0
change 0
hop 1
settle
hop 1
start
change 0
settle
";

const RECORD: &[u8] = b"start
enter s1:1 untagged 0.0.0.0
hop 0
enter s1:1 untagged 10.0.0.0
change 0
hop 1
settle
hop 1
start
change 0
settle
# packet 0 s1:1 untagged 0.0.0.0 born 0: s1:1 dropped s1
# packet 1 s1:1 untagged 10.0.0.0 born 0: s1:1 s4:2 left s4:3 untagged
# settled 2 of 2
";

const TRACES: &[u8] = b"packet 0 s1:1 untagged 0.0.0.0 born 0: s1:1 dropped s1
packet 1 s1:1 untagged 10.0.0.0 born 0: s1:1 s4:2 left s4:3 untagged
settled 2 of 2
";

#[test]
fn a_record_is_a_schedule_with_the_same_traces(rt: HostRuntime) {
    let rows: [(&[u8], &[u8]); 2] = [(EVENTS, TRACES), (RECORD, TRACES)];
    all_come_to(&rt, rt.alloc(), &rows);
}

/// Whether a place is one that a line has room for.
fn is_place(net: &Net, place: Place) -> bool
    ensures { IsTrue result → (place.switch.0 < switch_count net.now) × IsPortNumber place.port.0
        × IsVlan place.vlan }
{
    if place.switch.0 >= net.switches() || place.port.0 < 1 || place.port.0 > 65279 {
        return false;
    }
    match place.vlan {
        Vlan::Untagged => true,
        Vlan::Id(id) => 1 <= id && id <= 4094,
    }
}

/// Whether an event is one that a line has room for.
fn has_line(net: &Net, event: Event) -> bool
    ensures { IsTrue result → HasLine net.now event }
{
    match event {
        Event::Start | Event::Settle => true,
        Event::Change(i) | Event::Hop(i) | Event::Lose(i) => i <= 4_294_967_295,
        Event::Enter(place, _) => is_place(net, place),
    }
}

/// The events of a schedule, where a line has room for each.
fn events_of(rt: &impl Abort, alloc: Global, net: &Net, schedule: &Schedule) -> Events
    ensures lines { AllByRecursion (HasLine net.now) result }
    ensures few { length result ≤ length schedule.now }
{
    let mut events = Events::make(alloc).expect(rt, "events");
    for line in schedule.list() {
        assert!(rt; has_line(net, line.event));
        events.add(line.event).expect(rt, "an event");
    }
    events
}

/// The events of a schedule as a schedule.
fn written(rt: &impl Abort, alloc: Global, net: &Net, schedule: &Schedule) -> Vec<u8> {
    assert!(rt; schedule.list().len() <= 4_000_000);
    let events = events_of(rt, alloc, net, schedule);
    schedule_text(alloc, net, &events).expect(rt, "a text")
}

/// The record of the events in a world.
fn record_of(
    rt: &impl Abort,
    alloc: Global,
    net: &Net,
    schedule: &Schedule,
    world: &World,
) -> Vec<u8> {
    assert!(rt; schedule.list().len() <= 4_000_000);
    let events = events_of(rt, alloc, net, schedule);
    record_text(alloc, net, &events, world).expect(rt, "a text")
}

/// The record of a schedule that is carried out whole.
fn recorded(rt: &impl Abort, alloc: Global, net: &Net, schedule: &Schedule) -> Vec<u8> {
    let rounds = two_rounds(rt, alloc);
    let mut world = begun(rt, alloc, net, &rounds);
    assert!(rt; replay(&mut world, schedule).is_ok());
    record_of(rt, alloc, net, schedule, &world)
}

#[test]
fn the_record_of_a_run_has_its_events_and_its_traces(rt: HostRuntime) {
    let net = network(&rt, rt.alloc());
    let schedule = read(&rt, rt.alloc(), &net, EVENTS);
    assert!(rt; written(&rt, rt.alloc(), &net, &schedule).as_slice() == EVENTS);
    assert!(rt; recorded(&rt, rt.alloc(), &net, &schedule).as_slice() == RECORD);
}

/// An entry at a port of the first switch.
fn enter(port: u16, vlan: Vlan, dst: u32) -> Event {
    let place = Place {
        switch: SwitchId(0),
        port: Port(port),
        vlan,
    };
    Event::Enter(place, dst)
}

/// Whether a line is read as its event, and is written as it stands.
fn is_line_of(rt: &impl Abort, net: &Net, alloc: Global, line: &[u8], event: Event) -> bool {
    let schedule = read(rt, alloc, net, line);
    let want = ScheduleLine { line: 1, event };
    schedule.list() == [want].as_slice() && written(rt, alloc, net, &schedule).as_slice() == line
}

/// Each of the lines is read as its event, and is written as it stands.
fn are_lines_of(rt: &impl Abort, alloc: Global, rows: &[(&[u8], Event)]) {
    let net = network(rt, alloc);
    for (i, (line, event)) in rows.iter().enumerate() {
        assert!(rt; is_line_of(rt, &net, alloc, *line, *event), "row {i}");
    }
}

#[test]
fn each_event_has_its_line(rt: HostRuntime) {
    let rows: [(&[u8], Event); 10] = [
        (b"start\n", Event::Start),
        (b"settle\n", Event::Settle),
        (b"change 0\n", Event::Change(0)),
        (b"change 4294967295\n", Event::Change(4_294_967_295)),
        (b"hop 12\n", Event::Hop(12)),
        (b"lose 7\n", Event::Lose(7)),
        (
            b"enter s1:1 untagged 10.0.0.1\n",
            enter(1, Vlan::Untagged, 0x0a00_0001),
        ),
        (b"enter s1:65279 1 0.0.0.0\n", enter(65279, Vlan::Id(1), 0)),
        (
            b"enter s1:2 4094 255.255.255.255\n",
            enter(2, Vlan::Id(4094), 0xffff_ffff),
        ),
        (
            b"enter s1:10 30 1.20.0.3\n",
            enter(10, Vlan::Id(30), 0x0114_0003),
        ),
    ];
    are_lines_of(&rt, rt.alloc(), &rows);
}

#[test]
fn a_line_that_is_no_event_is_named(rt: HostRuntime) {
    let rows: [(&[u8], &[u8]); 33] = [
        (b"hop x\nchange 0\nsettle\n", b"1 BadLine at 1"),
        (b"change 4294967296", b"1 BadLine at 1"),
        (b"change 18446744073709551616", b"1 BadLine at 1"),
        (b"change 00", b"1 BadLine at 1"),
        (b"change", b"1 BadLine at 1"),
        (b"change ", b"1 BadLine at 1"),
        (b"change  0", b"1 BadLine at 1"),
        (b"change 0 ", b"1 BadLine at 1"),
        (b"change +1", b"1 BadLine at 1"),
        (b"change -1", b"1 BadLine at 1"),
        (b"Start", b"1 BadLine at 1"),
        (b"start ", b"1 BadLine at 1"),
        (b" start", b"1 BadLine at 1"),
        (b"start 0", b"1 BadLine at 1"),
        // A carriage return is a byte of its line.
        (b"start\r\n", b"1 BadLine at 1"),
        (b"start\n\r\n", b"1 BadLine at 2"),
        (b" # no comment", b"1 BadLine at 1"),
        (b"start\n\n# a comment\nhop 1,0\nhop x", b"1 BadLine at 4"),
        (b"enter s1:1 untagged", b"1 BadLine at 1"),
        (b"enter s1:1 untagged 10.0.0", b"1 BadLine at 1"),
        (b"enter s1:1 untagged 10.0.0.256", b"1 BadLine at 1"),
        (b"enter s1:1 untagged 10.0.0.01", b"1 BadLine at 1"),
        (b"enter s1:1 untagged 10.0.0.1 x", b"1 BadLine at 1"),
        (b"enter s1:1 Untagged 10.0.0.1", b"1 BadLine at 1"),
        (b"enter s1:1 0 10.0.0.1", b"1 BadLine at 1"),
        (b"enter s1:1 4095 10.0.0.1", b"1 BadLine at 1"),
        (b"enter s1:0 untagged 10.0.0.1", b"1 BadLine at 1"),
        (b"enter s1:65280 untagged 10.0.0.1", b"1 BadLine at 1"),
        (b"enter s1:01 untagged 10.0.0.1", b"1 BadLine at 1"),
        (b"enter s1 untagged 10.0.0.1", b"1 BadLine at 1"),
        (b"enter s9:1 untagged 10.0.0.1", b"1 BadLine at 1"),
        // Bytes that are no text.
        (b"hop \xff", b"1 BadLine at 1"),
        (b"start\nsettle\0\n", b"1 BadLine at 2"),
    ];
    all_come_to(&rt, rt.alloc(), &rows);
}

#[test]
fn comments_count_as_lines_and_the_last_line_may_lack_its_end(rt: HostRuntime) {
    let net = network(&rt, rt.alloc());
    let bytes = b"# \xff any bytes\r\n\nstart\n#settle\n\nhop 3";
    let schedule = read(&rt, rt.alloc(), &net, bytes);
    let want = [
        ScheduleLine {
            line: 3,
            event: Event::Start,
        },
        ScheduleLine {
            line: 6,
            event: Event::Hop(3),
        },
    ];
    assert!(rt; schedule.list() == want.as_slice());
}

fn add(rt: &impl Abort, text: &mut Vec<u8>, bytes: &[u8]) {
    text.extend_from_slice(bytes).expect(rt, "room");
}

#[test]
fn a_schedule_has_at_most_4000000_events(rt: HostRuntime) {
    let net = network(&rt, rt.alloc());
    let mut text = Vec::with_capacity(rt.alloc(), 24_000_100).expect(&rt, "room");
    for _ in 0..4_000_000 {
        add(&rt, &mut text, b"hop 1\n");
    }
    let schedule = read(&rt, rt.alloc(), &net, &text);
    assert!(rt; schedule.list().len() == 4_000_000);
    add(&rt, &mut text, b"# no event\nhop 2\nhop x\n");
    let fault = read_schedule(rt.alloc(), &net, &text).err();
    assert!(rt; fault == Some(ScheduleFault::TooMany));
}

/// Carries out what follows.
fn goes_on(
    rt: &impl Abort,
    alloc: Global,
    net: &Net,
    world: &mut World,
    schedule: &[u8],
) -> Result<(), ReplayFault> {
    let schedule = read(rt, alloc, net, schedule);
    replay(world, &schedule)
}

#[test]
fn a_replay_goes_on_from_where_it_stopped(rt: HostRuntime) {
    let net = network(&rt, rt.alloc());
    let rounds = two_rounds(&rt, rt.alloc());
    let mut world = begun(&rt, rt.alloc(), &net, &rounds);
    let first = b"start\nenter s1:1 untagged 10.0.0.1\nsettle\nchange 0\n";
    let stopped = goes_on(&rt, rt.alloc(), &net, &mut world, first);
    assert!(rt; stopped == Err(ReplayFault::NotEnabled(3)));
    assert!(rt; world.phase() == Phase::Running(1));
    let rest = b"change 0\nsettle\nhop 0\nhop 0\n";
    assert!(rt; goes_on(&rt, rt.alloc(), &net, &mut world, rest).is_ok());
    let want =
        b"packet 0 s1:1 untagged 10.0.0.1 born 0: s1:1 s4:2 left s4:3 untagged\nsettled 1 of 2\n";
    assert!(rt; traces(&rt, rt.alloc(), &net, &world).as_slice() == want.as_slice());
}

/// A fault's number, name, place and message.
fn is_told(
    rt: &impl Abort,
    alloc: Global,
    fault: ScheduleFault,
    number: u32,
    name: &str,
    place: u32,
) {
    let message = format!(in alloc; "{fault}").expect(rt, "a text");
    assert!(rt; message.as_str() == name);
    assert!(rt; fault.number() == number);
    assert!(rt; fault.name() == name);
    assert!(rt; fault.place() == place);
    assert!(rt; fault.field().is_none());
}

#[test]
fn faults_have_numbers_names_and_messages(rt: HostRuntime) {
    for (fault, number, name, place) in [
        (ScheduleFault::BadLine(7), 1, "BadLine", 7),
        (ScheduleFault::TooMany, 2, "TooMany", 0),
        (ScheduleFault::Memory, 0, "Memory", 0),
    ] {
        is_told(&rt, rt.alloc(), fault, number, name, place);
    }
}
