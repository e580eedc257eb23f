//! The text of the plan of the square network, and of changes with rewrites.
use acyclic_numbering::Numbering;
use certificates::{
    Befores, Evidence, IndexList, Numberings, OrderedEvidence, OrderedPick, OrderedPicks, Plan,
    Shared, Uses, valid,
};
use flow_rules::{Action, Key, Pattern, Rewrite, Rule, VlanTest};
use net_base::{Port, Prefix, SwitchId};
use plan_text::{rounds_text, write_plan};
use std::alloc::Global;
use std::process::Abort;
use topology::Net;
use topology_files::read_net;
use update_model::{Change, Rounds};

/// The switches of the square.
const SQUARE: &str =
    r#"{"switches":[{"name":"s1","capacity":8},{"name":"s2","capacity":8},{"name":"s3","capacity":8},{"name":"s4","capacity":8}],"links":[],"hosts":[],"vlans":["untagged"],"tags":[]}"#;

/// Its plan.
const SQUARE_PLAN: &str =
    r#"{"befores":[],"format":2,"kind":"ordered","numberings":[[0,0,0,0],[3,2,1,0],[0,2,1,0],[0,0,1,0],[1,3,2,0],[1,0,2,0]],"picks":[[1,0,0],[1,1,1],[1,2,0],[1,3,0],[1,4,2],[1,5,0],[1,6,0],[1,7,3],[1,8,0],[1,9,0],[1,10,0],[1,11,0],[2,4,4],[2,7,5]],"rounds":[[["replace",0]],[["replace",1]]],"rules":[{"dst":"10.0.0.0/24","out":4,"priority":100,"switch":"s1"},{"dst":"10.0.0.0/24","out":3,"priority":100,"switch":"s3"}],"uses":[[0,[]],[1,[]],[2,[]],[3,[]],[4,[]],[5,[]]]}
"#;

/// The switches s and d of the detour.
const DETOUR: &str =
    r#"{"switches":[{"name":"s","capacity":8},{"name":"d","capacity":8}],"links":[],"hosts":[],"vlans":["untagged"],"tags":[3000,3000]}"#;

/// Rounds with rewrites.
const DETOUR_ROUNDS: &str =
    r#"[[{"do":"insert","dst":"10.0.0.0/24","out":3,"priority":16484,"strip":true,"switch":"d","vlan":3000}],[],[{"do":"insert","dst":"10.0.0.0/24","in_port":1,"out":3,"priority":32868,"set":3000,"switch":"s","vlan":"untagged"},{"do":"insert","dst":"0.0.0.0/0","in_port":1,"out":"drop","priority":32768,"switch":"s"}]]"#;

/// The numbers of the square's switches, numbering by numbering.
const NUMBERS: [[u16; 4]; 6] = [
    [0, 0, 0, 0],
    [3, 2, 1, 0],
    [0, 2, 1, 0],
    [0, 0, 1, 0],
    [1, 3, 2, 0],
    [1, 0, 2, 0],
];

/// Picks by round, class and use.
const PICKS: [(u32, u32, u32); 14] = [
    (1, 0, 0),
    (1, 1, 1),
    (1, 2, 0),
    (1, 3, 0),
    (1, 4, 2),
    (1, 5, 0),
    (1, 6, 0),
    (1, 7, 3),
    (1, 8, 0),
    (1, 9, 0),
    (1, 10, 0),
    (1, 11, 0),
    (2, 4, 4),
    (2, 7, 5),
];

/// The addresses from 10.0.0.0 to 10.0.0.255.
fn ten() -> Prefix {
    Prefix {
        base: 0x0a00_0000,
        len: 24,
    }
}

fn rule(priority: u16, in_port: Option<Port>, vlan: VlanTest, dst: Prefix, action: Action) -> Rule {
    Rule {
        key: Key {
            priority,
            pattern: Pattern { in_port, vlan, dst },
        },
        action,
    }
}

fn to_port(port: u16) -> Rule {
    let action = Action::Out(Port(port), Rewrite::Keep);
    rule(100, None, VlanTest::Any, ten(), action)
}

fn net_of(rt: &impl Abort, alloc: Global, text: &str) -> Net {
    read_net(alloc, text.as_bytes()).expect(rt, "a network")
}

fn numbering(rt: &impl Abort, alloc: Global, numbers: [u16; 4]) -> Numbering {
    let mut numbering = Numbering::make(alloc).expect(rt, "memory");
    for number in numbers {
        numbering.add(number).expect(rt, "memory");
    }
    numbering
}

fn numberings(rt: &impl Abort, alloc: Global) -> Numberings {
    let mut list = Numberings::make(alloc).expect(rt, "memory");
    for numbers in NUMBERS {
        list.add(numbering(rt, alloc, numbers)).expect(rt, "memory");
    }
    list
}

fn shared(rt: &impl Abort, alloc: Global, numbering: u32) -> Shared {
    Shared {
        numbering,
        befores: IndexList::make(alloc).expect(rt, "memory"),
    }
}

fn uses(rt: &impl Abort, alloc: Global) -> Uses {
    let mut list = Uses::make(alloc).expect(rt, "memory");
    for numbering in 0..6 {
        list.add(shared(rt, alloc, numbering)).expect(rt, "memory");
    }
    list
}

fn picks(rt: &impl Abort, alloc: Global) -> OrderedPicks {
    let mut list = OrderedPicks::make(alloc).expect(rt, "memory");
    for (round, class, shared) in PICKS {
        let pick = OrderedPick {
            round,
            class,
            shared,
        };
        list.add(pick).expect(rt, "memory");
    }
    list
}

/// Adds a round with these changes.
fn add_round(rt: &impl Abort, alloc: Global, rounds: &mut Rounds, changes: &[Change]) {
    let round = Vec::from_slice(alloc, changes).expect(rt, "memory");
    rounds.push_round(round).expect(rt, "memory");
}

fn square_rounds(rt: &impl Abort, alloc: Global) -> Rounds {
    let mut rounds = Rounds::make(alloc).expect(rt, "memory");
    for (switch, port) in [(0, 4), (2, 3)] {
        let change = Change::Replace(SwitchId(switch), to_port(port));
        add_round(rt, alloc, &mut rounds, &[change]);
    }
    rounds
}

fn square_plan(rt: &impl Abort, alloc: Global) -> Plan {
    Plan {
        rounds: square_rounds(rt, alloc),
        evidence: Evidence::Ordered(OrderedEvidence {
            numberings: numberings(rt, alloc),
            befores: Befores::make(alloc).expect(rt, "memory"),
            uses: uses(rt, alloc),
            picks: picks(rt, alloc),
        }),
    }
}

fn has_text(rt: &impl Abort, alloc: Global, net: &Net, plan: &Plan, want: &str) {
    assert!(rt; valid(plan, net));
    let text = write_plan(alloc, net, plan).expect(rt, "memory");
    assert!(rt; text.as_slice() == want.as_bytes());
}

#[test]
fn the_plan_of_the_square_has_its_text(rt: HostRuntime) {
    let net = net_of(&rt, rt.alloc(), SQUARE);
    let plan = square_plan(&rt, rt.alloc());
    has_text(&rt, rt.alloc(), &net, &plan, SQUARE_PLAN);
}

fn laying() -> Change {
    let strips = Action::Out(Port(3), Rewrite::Strip);
    Change::Insert(
        SwitchId(1),
        rule(16484, None, VlanTest::Id(3000), ten(), strips),
    )
}

fn switching() -> Change {
    let sets = Action::Out(Port(3), Rewrite::Set(3000));
    let one = Some(Port(1));
    Change::Insert(
        SwitchId(0),
        rule(32868, one, VlanTest::Untagged, ten(), sets),
    )
}

fn dropping() -> Change {
    let all = Prefix { base: 0, len: 0 };
    let one = Some(Port(1));
    Change::Insert(
        SwitchId(0),
        rule(32768, one, VlanTest::Any, all, Action::Discard),
    )
}

fn detour_rounds(rt: &impl Abort, alloc: Global) -> Rounds {
    let mut rounds = Rounds::make(alloc).expect(rt, "memory");
    add_round(rt, alloc, &mut rounds, &[laying()]);
    add_round(rt, alloc, &mut rounds, &[]);
    add_round(rt, alloc, &mut rounds, &[switching(), dropping()]);
    rounds
}

fn have_text(rt: &impl Abort, alloc: Global, net: &Net, rounds: &Rounds, want: &str) {
    let text = rounds_text(alloc, net, rounds).expect(rt, "memory");
    assert!(rt; text.as_slice() == want.as_bytes());
}

#[test]
fn changes_are_written_as_objects(rt: HostRuntime) {
    let net = net_of(&rt, rt.alloc(), DETOUR);
    let rounds = detour_rounds(&rt, rt.alloc());
    have_text(&rt, rt.alloc(), &net, &rounds, DETOUR_ROUNDS);
}

#[test]
fn no_rounds_are_an_empty_list(rt: HostRuntime) {
    let net = net_of(&rt, rt.alloc(), DETOUR);
    let rounds = Rounds::make(rt.alloc()).expect(&rt, "memory");
    have_text(&rt, rt.alloc(), &net, &rounds, "[]");
}
