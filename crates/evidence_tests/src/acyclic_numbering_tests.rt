//! Heights along edges, and the cycles among them.
use acyclic_numbering::{Edge, Numbered, number};
use net_base::SwitchId;
use std::process::Abort;

const LINE: [Edge; 3] = [
    Edge {
        from: SwitchId(0),
        to: SwitchId(1),
    },
    Edge {
        from: SwitchId(1),
        to: SwitchId(2),
    },
    Edge {
        from: SwitchId(0),
        to: SwitchId(2),
    },
];

/// The edges of a line, the last of them first.
const BACKWARDS: [Edge; 3] = [
    Edge {
        from: SwitchId(2),
        to: SwitchId(3),
    },
    Edge {
        from: SwitchId(1),
        to: SwitchId(2),
    },
    Edge {
        from: SwitchId(0),
        to: SwitchId(1),
    },
];

const RING: [Edge; 3] = [
    Edge {
        from: SwitchId(0),
        to: SwitchId(1),
    },
    Edge {
        from: SwitchId(1),
        to: SwitchId(2),
    },
    Edge {
        from: SwitchId(2),
        to: SwitchId(1),
    },
];

/// The steps of packets in the first round of the square's plan.
const STEPS: [Edge; 4] = [
    Edge {
        from: SwitchId(0),
        to: SwitchId(1),
    },
    Edge {
        from: SwitchId(0),
        to: SwitchId(3),
    },
    Edge {
        from: SwitchId(1),
        to: SwitchId(2),
    },
    Edge {
        from: SwitchId(2),
        to: SwitchId(3),
    },
];

/// One step more leads back to the first switch.
const ROUND: [Edge; 5] = [
    Edge {
        from: SwitchId(0),
        to: SwitchId(1),
    },
    Edge {
        from: SwitchId(0),
        to: SwitchId(3),
    },
    Edge {
        from: SwitchId(1),
        to: SwitchId(2),
    },
    Edge {
        from: SwitchId(2),
        to: SwitchId(3),
    },
    Edge {
        from: SwitchId(2),
        to: SwitchId(0),
    },
];

fn are_heights(rt: &impl Abort, found: &Numbered, want: &[u16]) {
    match found {
        Numbered::Heights(heights) => assert!(rt; heights.list() == want),
        Numbered::Cycle(_walk) => assert!(rt; false, "a cycle"),
    }
}

fn is_cycle(rt: &impl Abort, found: &Numbered, len: usize) {
    match found {
        Numbered::Heights(_heights) => assert!(rt; false, "heights"),
        Numbered::Cycle(walk) => {
            assert!(rt; walk.list().len() == len);
            assert!(rt; walk.list().first() == walk.list().last());
        }
    }
}

fn is_walk(rt: &impl Abort, found: &Numbered, want: &[SwitchId]) {
    match found {
        Numbered::Heights(_heights) => assert!(rt; false, "heights"),
        Numbered::Cycle(walk) => assert!(rt; walk.list() == want),
    }
}

#[test]
fn a_line_has_heights(rt: HostRuntime) {
    let found = number(rt.alloc(), 3, &LINE).expect(&rt, "memory");
    are_heights(&rt, &found, &[2, 1, 0]);
}

#[test]
fn edges_in_any_order_have_heights(rt: HostRuntime) {
    let found = number(rt.alloc(), 4, &BACKWARDS).expect(&rt, "memory");
    are_heights(&rt, &found, &[3, 2, 1, 0]);
}

#[test]
fn a_ring_has_a_closed_walk(rt: HostRuntime) {
    let found = number(rt.alloc(), 3, &RING).expect(&rt, "memory");
    is_walk(&rt, &found, &[SwitchId(1), SwitchId(2), SwitchId(1)]);
}

#[test]
fn steps_lead_to_lower_heights(rt: HostRuntime) {
    let found = number(rt.alloc(), 4, &STEPS).expect(&rt, "memory");
    are_heights(&rt, &found, &[3, 2, 1, 0]);
}

/// The only cycle joins three switches; a walk may begin at each of them.
#[test]
fn steps_lead_round_a_cycle(rt: HostRuntime) {
    let found = number(rt.alloc(), 4, &ROUND).expect(&rt, "memory");
    is_cycle(&rt, &found, 4);
}
