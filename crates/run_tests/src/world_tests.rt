//! Tests of runs over a network of four switches.
use crate::square::{FIRST_HOST, begun, network, two_rounds};
use path_walk::Ended;
use std::alloc::Global;
use std::process::Abort;
use update_model::{Event, Phase, StepFault, World};

const ADDRESS: u32 = 0x0a00_0001;

/// The position of the first event that isn't enabled. The world is that after the events before it.
fn first_refused(rt: &impl Abort, world: &mut World, events: &[Event]) -> Option<usize> {
    for (i, event) in events.iter().enumerate() {
        match world.step(*event) {
            Ok(()) => {}
            Err(fault) => {
                assert!(rt; fault == StepFault::NotEnabled);
                return Some(i);
            }
        }
    }
    None
}

/// The first packet entered in the round that is given, and is still under way at its first stop.
fn has_first_packet(rt: &impl Abort, world: &World, born: u32) {
    let packet = world.packets().first().expect(rt, "a packet");
    assert!(rt; packet.born == born);
    assert!(rt; packet.ended == Ended::UnderWay);
    assert!(rt; packet.visits.stops().len() == 1);
}

/// Events from the beginning on: the first that isn't enabled, then the phase, and when the first packet entered.
fn leads_to(
    rt: &impl Abort,
    alloc: Global,
    events: &[Event],
    refused: Option<usize>,
    phase: Phase,
    born: u32,
) {
    let net = network(rt, alloc);
    let rounds = two_rounds(rt, alloc);
    let mut world = begun(rt, alloc, &net, &rounds);
    assert!(rt; first_refused(rt, &mut world, events) == refused);
    assert!(rt; world.phase() == phase);
    has_first_packet(rt, &world, born);
}

#[test]
fn a_round_waits_for_the_packets_of_the_round_before(rt: HostRuntime) {
    let events = [
        Event::Start,
        Event::Enter(FIRST_HOST, ADDRESS),
        Event::Change(0),
        Event::Settle,
        Event::Start,
    ];
    leads_to(&rt, rt.alloc(), &events, Some(4), Phase::Settled(1), 0);
}

#[test]
fn a_packet_of_a_settled_round_goes_on_across_the_next_start(rt: HostRuntime) {
    let events = [
        Event::Start,
        Event::Change(0),
        Event::Settle,
        Event::Enter(FIRST_HOST, ADDRESS),
        Event::Start,
    ];
    leads_to(&rt, rt.alloc(), &events, None, Phase::Running(2), 1);
}
