//! Tests of driven runs over a network of four switches.
ghost use Rattle.std.specs.Prelude.{◌↔◌, ◌^◌, ◌<◌, IsTrue};
ghost use Rattle.topology.specs.Networks.{IsEntry};
ghost use Rattle.schedule_pilot.specs.Driving.{IsPilot};
ghost use Rattle.schedule_pilot.specs.Ends.{AreEntries};

use crate::square::{FIRST_HOST, begun, network, rounds_of, rule, two_rounds};
use net_base::{Place, Port, Stop, SwitchId, Vlan};
use path_walk::Ended;
use schedule_pilot::{Ending, Entry, Pilot, drive};
use std::alloc::Global;
use std::process::Abort;
use topology::Net;
use update_model::{Change, Event, Packet, Rounds};

/// A packet to an address that no rule matches, and one to an address of the rules.
const ENTRIES: [Entry; 2] = [
    Entry {
        place: FIRST_HOST,
        dst: 0,
    },
    Entry {
        place: FIRST_HOST,
        dst: 0x0a00_0000,
    },
];

/// The entry of the first packet.
const ENTER_0: Event = Event::Enter(FIRST_HOST, 0);

/// The entry of the second packet.
const ENTER_1: Event = Event::Enter(FIRST_HOST, 0x0a00_0000);

/// A stop of a packet.
fn stop(switch: u32, port: u16) -> Stop {
    Stop {
        switch: SwitchId(switch),
        port: Port(port),
    }
}

/// What a driven run comes to: its events and its ending; and of the second packet how many rounds were settled when it entered,
/// and its stops until it left at the last switch, none where it didn't enter.
#[derive(Drop)]
struct Course<'a> {
    events: &'a [Event],
    ending: Ending,
    born: u32,
    stops: &'a [Stop],
}

/// Whether a packet to an address may enter at a place.
fn may_enter(net: &Net, place: Place, _dst: u32) -> bool
    ensures { IsTrue result ↔ (IsEntry net.now place × (_dst < 2 ^ 32)) }
{
    net.is_entry(place)
}

/// Whether each packet may enter where it is to enter.
fn are_entries(net: &Net, entries: &[Entry]) -> bool
    ensures { IsTrue result ↔ AreEntries net.now entries.now }
{
    entries
        .iter()
        .all(|entry| may_enter(net, entry.place, entry.dst))
}

/// Whether the first packet was dropped at the first switch, and the second went its course.
fn went(packets: &[Packet], course: &Course) -> bool {
    let [first, second] = packets else {
        return false;
    };
    first.ended == Ended::Dropped(SwitchId(0))
        && second.born == course.born
        && second.visits.stops() == course.stops
        && second.ended == Ended::Left(SwitchId(3), Port(3), Vlan::Untagged)
}

/// A pilot drives the rounds, with the two packets and this budget, along the course.
fn goes<F: Fn(u64, u64) -> u64>(
    rt: &impl Abort,
    alloc: Global,
    rounds: &Rounds,
    pilot: &Pilot<F>,
    budget: u64,
    course: &Course,
)
    requires names_one { IsPilot (F.pre pilot.now) (F.post pilot.now) }
{
    let net = network(rt, alloc);
    assert!(rt; are_entries(&net, &ENTRIES));
    let world = begun(rt, alloc, &net, rounds);
    let driven = drive(alloc, world, pilot, &ENTRIES, budget).expect(rt, "a run");
    assert!(rt; driven.events.list() == course.events);
    assert!(rt; driven.ending == course.ending);
    let entered = !course.stops.is_empty();
    assert!(rt; went(driven.world.packets(), course) == entered);
}

#[test]
fn a_pilot_that_names_the_last_event_delays_changes(rt: HostRuntime) {
    let rounds = two_rounds(&rt, rt.alloc());
    let course = Course {
        events: &[
            ENTER_0,
            Event::Hop(0),
            ENTER_1,
            Event::Hop(1),
            Event::Hop(1),
            Event::Hop(1),
            Event::Hop(1),
            Event::Start,
            Event::Change(0),
            Event::Settle,
            Event::Start,
            Event::Change(0),
            Event::Settle,
        ],
        ending: Ending::Finished,
        born: 0,
        stops: &[stop(0, 1), stop(1, 1), stop(2, 1), stop(3, 1)],
    };
    let pilot = Pilot::new(|_, count| count - 1);
    goes(&rt, rt.alloc(), &rounds, &pilot, 16, &course);
}

#[test]
fn a_pilot_that_names_the_first_event_delays_packets(rt: HostRuntime) {
    let rounds = two_rounds(&rt, rt.alloc());
    let course = Course {
        events: &[
            Event::Start,
            Event::Change(0),
            Event::Settle,
            Event::Start,
            Event::Change(0),
            Event::Settle,
            ENTER_0,
            ENTER_1,
            Event::Hop(0),
            Event::Hop(1),
            Event::Hop(1),
        ],
        ending: Ending::Finished,
        born: 2,
        stops: &[stop(0, 1), stop(3, 2)],
    };
    let pilot = Pilot::new(|_, _| 0);
    goes(&rt, rt.alloc(), &rounds, &pilot, 16, &course);
}

#[test]
fn a_pilot_may_go_by_a_table(rt: HostRuntime) {
    let rounds = two_rounds(&rt, rt.alloc());
    let course = Course {
        events: &[
            ENTER_0,
            Event::Start,
            Event::Hop(0),
            ENTER_1,
            Event::Hop(1),
            Event::Hop(1),
            Event::Hop(1),
            Event::Hop(1),
            Event::Change(0),
            Event::Settle,
            Event::Start,
            Event::Change(0),
            Event::Settle,
        ],
        ending: Ending::Finished,
        born: 0,
        stops: &[stop(0, 1), stop(1, 1), stop(2, 1), stop(3, 1)],
    };
    let table = [5, 3];
    let pilot = Pilot::new(move |step, count| table[(step % 2) as usize] % count);
    goes(&rt, rt.alloc(), &rounds, &pilot, 16, &course);
}

#[test]
fn a_round_waits_for_a_packet_of_the_round_before(rt: HostRuntime) {
    let rounds = two_rounds(&rt, rt.alloc());
    let course = Course {
        events: &[
            Event::Start,
            ENTER_0,
            Event::Hop(0),
            ENTER_1,
            Event::Change(0),
            Event::Hop(1),
            Event::Settle,
            Event::Hop(1),
            Event::Start,
            Event::Change(0),
            Event::Settle,
        ],
        ending: Ending::Finished,
        born: 0,
        stops: &[stop(0, 1), stop(3, 2)],
    };
    let first = 0u64;
    let pilot = Pilot::new(move |step: u64, count| first.wrapping_add(step.wrapping_mul(7))
        % count);
    goes(&rt, rt.alloc(), &rounds, &pilot, 16, &course);
}

#[test]
fn a_budget_ends_a_run_early(rt: HostRuntime) {
    let rounds = two_rounds(&rt, rt.alloc());
    let course = Course {
        events: &[Event::Start, Event::Change(0)],
        ending: Ending::OutOfBudget,
        born: 0,
        stops: &[],
    };
    let pilot = Pilot::new(|_, _| 0);
    goes(&rt, rt.alloc(), &rounds, &pilot, 2, &course);
}

#[test]
fn a_change_that_never_applies_blocks_a_run(rt: HostRuntime) {
    // The third switch has a rule with this key already.
    let wrong = Change::Insert(SwitchId(2), rule(100, 3));
    let rounds = rounds_of(&rt, rt.alloc(), &[wrong]);
    let course = Course {
        events: &[
            Event::Start,
            ENTER_0,
            ENTER_1,
            Event::Hop(0),
            Event::Hop(1),
            Event::Hop(1),
            Event::Hop(1),
            Event::Hop(1),
        ],
        ending: Ending::Blocked,
        born: 0,
        stops: &[stop(0, 1), stop(1, 1), stop(2, 1), stop(3, 1)],
    };
    let pilot = Pilot::new(|_, _| 0);
    goes(&rt, rt.alloc(), &rounds, &pilot, 16, &course);
}
