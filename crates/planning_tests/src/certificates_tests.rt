//! Which plans a plan file may hold, each row with another part of a plan.
use crate::parts::{numbering_of, set_of};
use certificates::{
    Evidence, Label, LabelPick, OrderedEvidence, OrderedPick, Plan, Shared, TwoPhaseEvidence, valid,
};
use flow_rules::{Action, Key, Pattern, Rule, VlanTest};
use net_base::{ListOf, Prefix, SwitchId, Vlan};
use std::alloc::Global;
use std::process::Abort;
use topology_files::read_net;
use update_model::{Change, Rounds};

/// Two switches.
const PAIR: &[u8] =
    b"{\"switches\":[{\"name\":\"a\",\"capacity\":2},{\"name\":\"b\",\"capacity\":2}],\"links\":[],\"hosts\":[],\"vlans\":[\"untagged\"],\"tags\":[3000,3009]}";

/// Rounds: so many without changes, and the last one with so many changes of a switch.
#[derive(Clone, Copy)]
struct Made {
    empty: usize,
    changes: usize,
    switch: u32,
    priority: u16,
}

/// One round with one change.
const ONE: Made = Made {
    empty: 0,
    changes: 1,
    switch: 1,
    priority: 1,
};

/// A plan by its rounds, the numbers of its numbering, the members of its before set, its use by the numbers of both, and its
/// picks by round, class and use.
#[derive(Clone, Copy)]
struct Ordered {
    rounds: Made,
    numbers: &'static [u16],
    members: &'static [u8],
    numbering: u32,
    set: u64,
    picks: &'static [(u32, u32, u32)],
}

/// A valid plan.
const ORDERED: Ordered = Ordered {
    rounds: ONE,
    numbers: &[1, 0],
    members: &[1],
    numbering: 0,
    set: 0,
    picks: &[(1, 0, 0), (1, 8191, 0)],
};

/// A plan by its rounds, its labels by VLAN and user's VLAN, its picks by round and label table, and the rounds tried.
#[derive(Clone, Copy)]
struct TwoPhase {
    rounds: Made,
    labels: &'static [(Vlan, Vlan)],
    picks: &'static [(u32, u32)],
    tried: Made,
}

/// A valid plan.
const TWO_PHASE: TwoPhase = TwoPhase {
    rounds: ONE,
    labels: &[
        (Vlan::Untagged, Vlan::Untagged),
        (Vlan::Id(4094), Vlan::Id(1)),
    ],
    picks: &[(1, 0)],
    tried: ONE,
};

const SEVEN: Vlan = Vlan::Id(7);

/// What a plan has in the place of that part of a valid plan.
#[derive(Clone, Copy)]
enum Part {
    Rounds(Made),
    Numbers(&'static [u16]),
    Members(&'static [u8]),
    Use(u32, u64),
    Picks(&'static [(u32, u32, u32)]),
    Tried(Made),
    Labels(&'static [(Vlan, Vlan)]),
    LabelPicks(&'static [(u32, u32)]),
}

/// What each plan has, and whether it is valid.
const ROWS: [(&str, Part, bool); 30] = [
    ("one round", Part::Rounds(ONE), true),
    (
        "4200 rounds",
        Part::Rounds(Made { empty: 4199, ..ONE }),
        true,
    ),
    (
        "4201 rounds",
        Part::Rounds(Made { empty: 4200, ..ONE }),
        false,
    ),
    (
        "2,200,001 changes",
        Part::Rounds(Made {
            changes: 2200001,
            ..ONE
        }),
        false,
    ),
    (
        "a switch past the last",
        Part::Rounds(Made { switch: 2, ..ONE }),
        false,
    ),
    (
        "priority 0",
        Part::Rounds(Made { priority: 0, ..ONE }),
        false,
    ),
    ("a number too few", Part::Numbers(&[1]), false),
    ("a number too many", Part::Numbers(&[1, 0, 0]), false),
    ("a set past the last switch", Part::Members(&[1, 2]), false),
    ("a use past the last numbering", Part::Use(1, 0), false),
    ("a use past the last set", Part::Use(0, 1), false),
    ("a pick of round 0", Part::Picks(&[(0, 0, 0)]), false),
    (
        "a pick past the last round",
        Part::Picks(&[(2, 0, 0)]),
        false,
    ),
    ("a pick of class 8192", Part::Picks(&[(1, 8192, 0)]), false),
    ("a pick past the last use", Part::Picks(&[(1, 0, 1)]), false),
    (
        "two picks of a class",
        Part::Picks(&[(1, 0, 0), (1, 0, 0)]),
        false,
    ),
    (
        "a lower class behind",
        Part::Picks(&[(1, 1, 0), (1, 0, 0)]),
        false,
    ),
    ("one round tried", Part::Tried(ONE), true),
    (
        "4096 rounds tried",
        Part::Tried(Made { empty: 4095, ..ONE }),
        true,
    ),
    (
        "4097 rounds tried",
        Part::Tried(Made { empty: 4096, ..ONE }),
        false,
    ),
    (
        "2,200,000 changes tried",
        Part::Tried(Made {
            changes: 2200000,
            ..ONE
        }),
        false,
    ),
    (
        "a switch tried past the last",
        Part::Tried(Made { switch: 2, ..ONE }),
        false,
    ),
    (
        "VLAN 4095",
        Part::Labels(&[(Vlan::Id(4095), Vlan::Id(1))]),
        false,
    ),
    (
        "a user's VLAN 4095",
        Part::Labels(&[(Vlan::Id(1), Vlan::Id(4095))]),
        false,
    ),
    (
        "two labels of a VLAN",
        Part::Labels(&[(SEVEN, SEVEN), (SEVEN, SEVEN)]),
        false,
    ),
    (
        "untagged behind",
        Part::Labels(&[(SEVEN, SEVEN), (Vlan::Untagged, SEVEN)]),
        false,
    ),
    (
        "a label pick of round 0",
        Part::LabelPicks(&[(0, 0)]),
        false,
    ),
    (
        "a label pick past the last round",
        Part::LabelPicks(&[(2, 0)]),
        false,
    ),
    (
        "a label pick past the last table",
        Part::LabelPicks(&[(1, 1)]),
        false,
    ),
    (
        "two label picks of a round",
        Part::LabelPicks(&[(1, 0), (1, 0)]),
        false,
    ),
];

/// A rule that discards all packets.
fn rule(priority: u16) -> Rule {
    let pattern = Pattern {
        in_port: None,
        vlan: VlanTest::Any,
        dst: Prefix { base: 0, len: 0 },
    };
    Rule {
        key: Key { priority, pattern },
        action: Action::Discard,
    }
}

fn rounds_of(rt: &impl Abort, alloc: Global, made: Made) -> Rounds {
    let mut rounds = Rounds::make(alloc).expect(rt, "memory");
    for _ in 0..made.empty {
        rounds.add_round().expect(rt, "memory");
    }
    let change = Change::Insert(SwitchId(made.switch), rule(made.priority));
    let round = vec![in alloc; change; made.changes].expect(rt, "memory");
    rounds.push_round(round).expect(rt, "memory");
    rounds
}

/// A list of one item.
fn one<T: Drop>(rt: &impl Abort, alloc: Global, item: T) -> ListOf<T> {
    let mut list = ListOf::make(alloc).expect(rt, "memory");
    list.add(item).expect(rt, "memory");
    list
}

fn picks_of(rt: &impl Abort, alloc: Global, picks: &[(u32, u32, u32)]) -> ListOf<OrderedPick> {
    let mut list = ListOf::make(alloc).expect(rt, "memory");
    for (round, class, shared) in picks {
        let pick = OrderedPick {
            round: *round,
            class: *class,
            shared: *shared,
        };
        list.add(pick).expect(rt, "memory");
    }
    list
}

fn ordered_plan(rt: &impl Abort, alloc: Global, plan: Ordered) -> Plan {
    let numbering = numbering_of(alloc, plan.numbers);
    let shared = Shared {
        numbering: plan.numbering,
        befores: one(rt, alloc, plan.set),
    };
    Plan {
        rounds: rounds_of(rt, alloc, plan.rounds),
        evidence: Evidence::Ordered(OrderedEvidence {
            numberings: one(rt, alloc, numbering.expect(rt, "memory")),
            befores: one(rt, alloc, set_of(plan.members)),
            uses: one(rt, alloc, shared),
            picks: picks_of(rt, alloc, plan.picks),
        }),
    }
}

fn labels_of(rt: &impl Abort, alloc: Global, labels: &[(Vlan, Vlan)]) -> ListOf<Label> {
    let mut list = ListOf::make(alloc).expect(rt, "memory");
    for (vlan, user) in labels {
        let label = Label {
            vlan: *vlan,
            new: false,
            user: *user,
        };
        list.add(label).expect(rt, "memory");
    }
    list
}

fn label_picks_of(rt: &impl Abort, alloc: Global, picks: &[(u32, u32)]) -> ListOf<LabelPick> {
    let mut list = ListOf::make(alloc).expect(rt, "memory");
    for (round, labels) in picks {
        let pick = LabelPick {
            round: *round,
            labels: *labels,
        };
        list.add(pick).expect(rt, "memory");
    }
    list
}

fn two_phase_plan(rt: &impl Abort, alloc: Global, plan: TwoPhase) -> Plan {
    Plan {
        rounds: rounds_of(rt, alloc, plan.rounds),
        evidence: Evidence::TwoPhase(TwoPhaseEvidence {
            labels: one(rt, alloc, labels_of(rt, alloc, plan.labels)),
            picks: label_picks_of(rt, alloc, plan.picks),
            tried: rounds_of(rt, alloc, plan.tried),
        }),
    }
}

/// A valid plan but for a part.
fn plan_with(rt: &impl Abort, alloc: Global, part: Part) -> Plan {
    match part {
        Part::Rounds(rounds) => ordered_plan(rt, alloc, Ordered { rounds, ..ORDERED }),
        Part::Numbers(numbers) => ordered_plan(rt, alloc, Ordered { numbers, ..ORDERED }),
        Part::Members(members) => ordered_plan(rt, alloc, Ordered { members, ..ORDERED }),
        Part::Use(numbering, set) => ordered_plan(
            rt,
            alloc,
            Ordered {
                numbering,
                set,
                ..ORDERED
            },
        ),
        Part::Picks(picks) => ordered_plan(rt, alloc, Ordered { picks, ..ORDERED }),
        Part::Tried(tried) => two_phase_plan(rt, alloc, TwoPhase { tried, ..TWO_PHASE }),
        Part::Labels(labels) => two_phase_plan(
            rt,
            alloc,
            TwoPhase {
                labels,
                ..TWO_PHASE
            },
        ),
        Part::LabelPicks(picks) => two_phase_plan(rt, alloc, TwoPhase { picks, ..TWO_PHASE }),
    }
}

#[test]
fn a_plan_is_valid_where_each_of_its_parts_is(rt: HostRuntime) {
    let alloc = rt.alloc();
    let net = read_net(alloc, PAIR).ok().expect(&rt, "a network");
    for (what, part, is_valid) in ROWS {
        let plan = plan_with(&rt, alloc, part);
        assert_eq!(rt; valid(&plan, &net), is_valid, "{what}");
    }
}
