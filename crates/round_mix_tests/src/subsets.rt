//! Possible outcomes beside those of each subset of the changes.
ghost use Rattle.std.specs.Prelude.{◌≤◌, IsTrue};
ghost use Rattle.update_model.specs.Mixtures.{entries_needed};

use flow_rules::{Action, Key, Pattern, Rewrite, Rule, Table, VlanTest};
use net_base::{Place, Port, Prefix, SwitchId, Vlan};
use path_walk::Outcome;
use path_walk::following::outcome;
use round_mix::{Mixed, Outcomes};
use std::process::Abort;
use topology::Net;
use topology_files::read_net;
use update_model::Change;

/// One switch with four hosts.
const ALONE: &[u8] =
    b"{\"switches\":[{\"name\":\"a\",\"capacity\":8}],\"links\":[],\"hosts\":[\"a:1\",\"a:2\",\"a:3\",\"a:4\"],\"vlans\":[\"untagged\",10],\"tags\":[]}";

const AT: SwitchId = SwitchId(0);

/// The addresses from 10.0.0.0 to 10.0.0.255.
pub const TEN: Prefix = Prefix {
    base: 0x0a00_0000,
    len: 24,
};

/// The addresses from 10.0.0.0 to 10.0.0.127.
pub const HALF: Prefix = Prefix {
    base: 0x0a00_0000,
    len: 25,
};

/// The addresses from 10.0.0.0 to 10.255.255.255.
pub const WIDE: Prefix = Prefix {
    base: 0x0a00_0000,
    len: 8,
};

/// The addresses from 192.0.0.0 to 192.0.0.255.
pub const FAR: Prefix = Prefix {
    base: 0xc000_0000,
    len: 24,
};

pub fn rule(priority: u16, vlan: VlanTest, dst: Prefix, action: Action) -> Rule {
    let pattern = Pattern {
        in_port: None,
        vlan,
        dst,
    };
    Rule {
        key: Key { priority, pattern },
        action,
    }
}

pub fn out(port: u16) -> Action {
    Action::Out(Port(port), Rewrite::Keep)
}

/// A packet without a tag leaves.
fn leave(port: u16) -> Outcome {
    Outcome::Leave(Port(port), Vlan::Untagged)
}

pub fn insert(rule: Rule) -> Change {
    Change::Insert(AT, rule)
}

pub fn delete(rule: Rule) -> Change {
    Change::Delete(AT, rule)
}

pub fn replace(rule: Rule) -> Change {
    Change::Replace(AT, rule)
}

/// Makes a change where it applies.
pub fn make(rt: &impl Abort, table: &mut Table, change: &Change) {
    table.reserve(1).expect(rt, "room");
    if change.applies_to(table) {
        change.apply_to(table);
    }
}

/// A table of these rules.
pub fn table_of(rt: &(impl Abort + AllocGlobal), rules: &[Rule]) -> Table {
    let mut table = Table::make(rt.alloc()).expect(rt, "a table");
    for rule in rules {
        make(rt, &mut table, &insert(*rule));
    }
    table
}

/// The table after those of the changes whose bit is set, the lowest bit for the first.
fn mixture(rt: &impl Abort, table: &Table, changes: &[Change], bits: u32) -> Table {
    let mut mixed = table.copy().expect(rt, "a copy");
    let mut left = bits;
    for change in changes {
        if left % 2 == 1 {
            make(rt, &mut mixed, change);
        }
        left /= 2;
    }
    mixed
}

/// The plain program: the outcome in the mixture of each subset, of four changes at most.
fn outcomes_by_subsets(
    rt: &(impl Abort + AllocGlobal),
    net: &Net,
    table: &Table,
    changes: &[Change],
    place: Place,
    dst: u32,
) -> Vec<Outcome> {
    let mut found = Vec::new(rt.alloc());
    for bits in 0..16 {
        let mixed = mixture(rt, table, changes, bits);
        found
            .push(outcome(net, &mixed, place, dst))
            .expect(rt, "room");
    }
    found
}

/// Whether each outcome of the one list stands in the other.
fn is_within(some: &[Outcome], all: &[Outcome]) -> bool {
    some.iter().all(|one| all.contains(one))
}

/// Whether a round at the table needs so few entries that there is room for them.
#[tactic(auto, using(round_mix::proofs::NeedLaws::few_inserts))]
pub fn is_small(table: &Table, changes: &[Change]) -> bool
    ensures { IsTrue result → entries_needed table.now.rules changes.now ≤ 64 }
{
    table.rules().len() <= 17 && changes.len() <= 47
}

/// The changes, and behind them so many that insert rules for other addresses that all changes are looked up by their keys.
pub fn among_many(rt: &(impl Abort + AllocGlobal), changes: &[Change]) -> Vec<Change> {
    let mut many = Vec::from_slice(rt.alloc(), changes).expect(rt, "room");
    for i in 0..32 {
        let far = rule(1000 + i / 2, VlanTest::Id(1 + i % 2), FAR, out(1));
        many.push(insert(far)).expect(rt, "room");
    }
    many
}

/// The possible outcomes at a place.
pub fn possible(
    rt: &(impl Abort + AllocGlobal),
    net: &Net,
    table: &Table,
    changes: &[Change],
    place: Place,
    dst: u32,
) -> Outcomes {
    assert!(rt; is_small(table, changes));
    let mut mixed = Mixed::with_room(rt.alloc(), 64).expect(rt, "room");
    assert!(rt; mixed.load(table, changes).is_ok());
    let mut found = Outcomes::with_room(rt.alloc(), 65).expect(rt, "room");
    mixed.possible(net, place, dst, &mut found);
    found
}

/// The possible outcomes at a place, where what is prepared is indexed.
fn possible_by_index(
    rt: &(impl Abort + AllocGlobal),
    net: &Net,
    table: &Table,
    changes: &[Change],
    place: Place,
    dst: u32,
) -> Outcomes {
    assert!(rt; is_small(table, changes));
    let mut mixed = Mixed::with_room(rt.alloc(), 64).expect(rt, "room");
    assert!(rt; mixed.load(table, changes).is_ok());
    mixed.index();
    let mut found = Outcomes::with_room(rt.alloc(), 65).expect(rt, "room");
    mixed.possible(net, place, dst, &mut found);
    found
}

/// Whether the possible outcomes at a place are those of the plain program, also where the changes are among many, and are
/// indexed.
fn agrees_at(
    rt: &(impl Abort + AllocGlobal),
    net: &Net,
    table: &Table,
    changes: &[Change],
    place: Place,
    dst: u32,
) -> bool {
    let few = possible(rt, net, table, changes, place, dst);
    let plain = outcomes_by_subsets(rt, net, table, changes, place, dst);
    let many = among_many(rt, changes);
    let by_keys = possible(rt, net, table, &many, place, dst);
    let by_index = possible_by_index(rt, net, table, &many, place, dst);
    is_within(few.list(), &plain)
        && is_within(&plain, few.list())
        && by_keys.list() == few.list()
        && by_index.list() == few.list()
}

/// Whether they are, at each of some places and addresses.
fn agrees(rt: &(impl Abort + AllocGlobal), net: &Net, rules: &[Rule], changes: &[Change]) -> bool {
    let table = table_of(rt, rules);
    for (port, vlan, dst) in [
        (1, Vlan::Untagged, 0x0a00_0000),
        (2, Vlan::Untagged, 0x0a00_0001),
        (1, Vlan::Id(10), 0x0a00_0080),
        (3, Vlan::Id(10), 0x0a00_00ff),
        (1, Vlan::Untagged, 0x0a01_0000),
        (1, Vlan::Untagged, 0x0b00_0000),
    ] {
        let place = Place {
            switch: AT,
            port: Port(port),
            vlan,
        };
        if !agrees_at(rt, net, &table, changes, place, dst) {
            return false;
        }
    }
    true
}

/// The rule that sends to the second host.
pub fn to_second() -> Rule {
    rule(100, VlanTest::Any, TEN, out(2))
}

/// A rule that drops all else.
pub fn drop_wide() -> Rule {
    rule(50, VlanTest::Any, WIDE, Action::Discard)
}

/// Two changes: a rule that sends to the second host, and another in its place.
fn swap() -> [Change; 2] {
    [
        delete(to_second()),
        insert(rule(110, VlanTest::Any, TEN, out(2))),
    ]
}

/// Two changes: the second host's packets go to the third, and some to the fourth.
fn split() -> [Change; 2] {
    [
        replace(rule(100, VlanTest::Any, TEN, out(3))),
        insert(rule(120, VlanTest::Any, HALF, out(4))),
    ]
}

/// Three changes: both rules give way to one of a lower priority.
fn lower() -> [Change; 3] {
    [
        delete(drop_wide()),
        delete(to_second()),
        insert(rule(40, VlanTest::Any, WIDE, out(4))),
    ]
}

/// Four changes, two of them at one priority.
fn spread() -> [Change; 4] {
    [
        replace(rule(50, VlanTest::Any, WIDE, out(1))),
        insert(rule(120, VlanTest::Id(10), TEN, out(4))),
        insert(rule(120, VlanTest::Untagged, HALF, out(3))),
        delete(to_second()),
    ]
}

pub fn network(rt: &(impl Abort + AllocGlobal)) -> Net {
    read_net(rt.alloc(), ALONE).expect(rt, "a network")
}

/// Rounds over the two rules: with none, two, three and four changes, at equal and at different priorities.
#[test]
fn possible_outcomes_are_those_of_all_subsets(rt: HostRuntime) {
    let net = network(&rt);
    let rules = [drop_wide(), to_second()];
    assert!(rt; agrees(&rt, &net, &rules, &[]));
    assert!(rt; agrees(&rt, &net, &rules, &swap()));
    assert!(rt; agrees(&rt, &net, &rules, &split()));
    assert!(rt; agrees(&rt, &net, &rules, &lower()));
    assert!(rt; agrees(&rt, &net, &rules, &spread()));
}

/// A packet from the first host to the first address.
pub const FROM_FIRST: Place = Place {
    switch: AT,
    port: Port(1),
    vlan: Vlan::Untagged,
};

/// The possible outcomes of that packet.
fn possible_of_first(
    rt: &(impl Abort + AllocGlobal),
    rules: &[Rule],
    changes: &[Change],
) -> Outcomes {
    let net = network(rt);
    let table = table_of(rt, rules);
    possible(rt, &net, &table, changes, FROM_FIRST, 0x0a00_0000)
}

/// The inserted rule may stand and decide, then the deleted one may, and the rule below them stands in each mixture.
#[test]
fn a_delete_and_an_insert_stand_in_descending_priority(rt: HostRuntime) {
    let rules = [rule(50, VlanTest::Any, WIDE, out(3)), to_second()];
    let changes = [
        delete(to_second()),
        insert(rule(110, VlanTest::Any, TEN, out(4))),
    ];
    let found = possible_of_first(&rt, &rules, &changes);
    assert!(rt; found.list() == [leave(4), leave(2), leave(3)].as_slice());
}

#[test]
fn a_delete_beside_an_insert_may_drop(rt: HostRuntime) {
    let found = possible_of_first(&rt, &[drop_wide(), to_second()], &swap());
    let both = [leave(2), Outcome::Discard];
    assert!(rt; is_within(found.list(), &both));
    assert!(rt; is_within(&both, found.list()));
}

#[test]
fn a_round_needs_the_entries_before_it_and_its_inserts(rt: HostRuntime) {
    let table = table_of(&rt, &[drop_wide(), to_second()]);
    let changes = swap();
    assert!(rt; is_small(&table, &changes));
    let mut mixed = Mixed::with_room(rt.alloc(), 64).expect(&rt, "room");
    assert!(rt; mixed.load(&table, &changes).is_ok());
    assert!(rt; mixed.most_entries() == 3);
}
