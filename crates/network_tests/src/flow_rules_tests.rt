//! Tables at work on worked values.
use flow_rules::{Action, Config, Key, Pattern, Rewrite, Rule, Table, VlanTest};
use net_base::{Port, SwitchId, Vlan, read_prefix};
use std::alloc::Global;
use std::process::Abort;

/// A rule for a prefix, of any ingress port where that is 0.
fn rule(
    rt: &impl Abort,
    priority: u16,
    port: u16,
    vlan: VlanTest,
    dst: &str,
    action: Action,
) -> Rule {
    let in_port = if port == 0 { None } else { Some(Port(port)) };
    let dst = read_prefix(dst).expect(rt, "a prefix");
    let pattern = Pattern { in_port, vlan, dst };
    Rule {
        key: Key { priority, pattern },
        action,
    }
}

fn out(port: u16) -> Action {
    Action::Out(Port(port), Rewrite::Keep)
}

fn add(rt: &impl Abort, table: &mut Table, rule: Rule) {
    table.reserve(1).expect(rt, "room");
    assert!(rt; !table.has_key(&rule.key));
    table.insert(rule);
}

fn delete(rt: &impl Abort, table: &mut Table, rule: &Rule) {
    assert!(rt; table.has_key(&rule.key));
    table.delete(&rule.key);
}

fn set_action(rt: &impl Abort, table: &mut Table, rule: &Rule) {
    assert!(rt; table.has_key(&rule.key));
    table.set_action(&rule.key, rule.action);
}

fn low(rt: &impl Abort, action: Action) -> Rule {
    rule(rt, 50, 0, VlanTest::Any, "10.0.0.0/8", action)
}

fn first(rt: &impl Abort) -> Rule {
    rule(rt, 100, 2, VlanTest::Any, "10.0.0.0/24", out(3))
}

fn second(rt: &impl Abort) -> Rule {
    rule(rt, 100, 0, VlanTest::Id(7), "10.0.0.0/24", out(4))
}

fn third(rt: &impl Abort) -> Rule {
    rule(rt, 200, 0, VlanTest::Untagged, "10.0.0.128/25", out(5))
}

/// 50 10.0.0.0/8 -> drop, 100 port 2 10.0.0.0/24 -> 3, 100 VLAN 7 10.0.0.0/24 -> 4, 200 untagged 10.0.0.128/25 -> 5.
fn sample(rt: &impl Abort, alloc: Global) -> Table {
    let mut table = Table::make(alloc).expect(rt, "a table");
    for rule in [low(rt, Action::Discard), first(rt), second(rt), third(rt)] {
        add(rt, &mut table, rule);
    }
    table
}

#[test]
fn the_first_of_greatest_priority_decides(rt: HostRuntime) {
    let table = sample(&rt, rt.alloc());
    for (port, vlan, dst, want) in [
        (1, Vlan::Untagged, 0x0a00_0001, Action::Discard),
        (2, Vlan::Untagged, 0x0a00_0001, out(3)),
        (2, Vlan::Untagged, 0x0a00_0080, out(5)),
        (2, Vlan::Id(7), 0x0a00_0080, out(3)),
        (1, Vlan::Id(7), 0x0a00_0080, out(4)),
        (1, Vlan::Id(8), 0x0a00_0080, Action::Discard),
        (2, Vlan::Untagged, 0x0a00_0100, Action::Discard),
        (2, Vlan::Untagged, 0x0b00_0000, Action::Discard),
    ] {
        let found = table.lookup(Port(port), vlan, dst);
        assert!(rt; found == want, "at {port} {vlan:?} {dst}");
    }
}

fn has_rules(rt: &impl Abort, table: &Table, rules: &[Rule]) {
    assert!(rt; table.rules() == rules);
}

#[test]
fn the_order_stays_under_changes(rt: HostRuntime) {
    let mut table = sample(&rt, rt.alloc());
    let changed = low(&rt, out(1));
    set_action(&rt, &mut table, &changed);
    let gone = first(&rt);
    delete(&rt, &mut table, &gone);
    has_rules(&rt, &table, &[changed, second(&rt), third(&rt)]);
    assert!(rt; table.get(&gone.key).is_none());
    add(&rt, &mut table, gone);
    let copy = table.copy().expect(&rt, "a copy");
    has_rules(&rt, &copy, &[changed, second(&rt), third(&rt), gone]);
    assert!(rt; table.get(&changed.key) == Some(out(1)));
}

/// Replaces rules of a table together, and of a copy one after the other.
fn replace(rt: &impl Abort, alloc: Global, table: &mut Table, others: &Table) {
    let mut in_turn = table.copy().expect(rt, "a copy");
    for rule in others.rules() {
        in_turn.replace(*rule);
    }
    let mut list = Vec::from_slice(alloc, others.rules()).expect(rt, "a list");
    table.replace_all(&mut list);
    has_rules(rt, table, in_turn.rules());
}

/// The last rule of the sample as it is after the replaces.
fn last(rt: &impl Abort) -> Rule {
    rule(rt, 200, 0, VlanTest::Untagged, "10.0.0.128/25", out(9))
}

/// Rules for the last and the first of the sample, and one between them with a key that the sample hasn't.
fn replacing(rt: &impl Abort, alloc: Global) -> Table {
    let mut table = Table::make(alloc).expect(rt, "a table");
    add(rt, &mut table, last(rt));
    let absent = rule(rt, 100, 3, VlanTest::Any, "10.0.0.0/24", out(8));
    add(rt, &mut table, absent);
    add(rt, &mut table, low(rt, out(1)));
    table
}

#[test]
fn rules_are_replaced_together_as_one_after_the_other(rt: HostRuntime) {
    let mut table = sample(&rt, rt.alloc());
    let others = replacing(&rt, rt.alloc());
    replace(&rt, rt.alloc(), &mut table, &others);
    has_rules(
        &rt,
        &table,
        &[low(&rt, out(1)), first(&rt), second(&rt), last(&rt)],
    );
}

#[test]
fn the_least_pair_that_overlaps(rt: HostRuntime) {
    let mut table = sample(&rt, rt.alloc());
    assert!(rt; table.overlap() == Some((1, 2)));
    delete(&rt, &mut table, &first(&rt));
    assert!(rt; table.overlap().is_none());
    let untagged = rule(&rt, 100, 0, VlanTest::Untagged, "10.0.0.0/8", out(1));
    add(&rt, &mut table, untagged);
    assert!(rt; table.overlap().is_none());
    let within = rule(&rt, 50, 9, VlanTest::Any, "10.9.0.0/16", out(1));
    add(&rt, &mut table, within);
    assert!(rt; table.overlap() == Some((0, 4)));
}

/// Tables without rules for three switches, but for a rule at the second.
fn one_rule(rt: &impl Abort, alloc: Global) -> Config {
    let mut config = Config::make(alloc, 3).expect(rt, "tables");
    assert!(rt; config.count() == 3);
    let rule = rule(rt, 9, 0, VlanTest::Any, "0.0.0.0/0", out(1));
    add(rt, config.table_mut(SwitchId(1)), rule);
    config
}

#[test]
fn a_copy_of_all_tables_has_their_rules(rt: HostRuntime) {
    let copy = one_rule(&rt, rt.alloc()).copy().expect(&rt, "a copy");
    assert!(rt; copy.count() == 3);
    for (switch, want) in [(0, 0), (1, 1), (2, 0)] {
        let count = copy.table(SwitchId(switch)).rules().len();
        assert!(rt; count == want, "at {switch}");
    }
}

/// The forty rules of five prefixes, with and without an ingress port, and of four VLAN tests: of twelve kinds. Each sends
/// by a port of its own. Many tie.
fn forty(rt: &impl Abort, alloc: Global) -> Table {
    let mut table = Table::make(alloc).expect(rt, "a table");
    for (priority, port, dst) in [
        (50, 0, "10.0.0.0/8"),
        (50, 1, "10.0.0.0/8"),
        (50, 0, "10.1.0.0/16"),
        (50, 1, "10.1.0.0/16"),
        (40, 0, "10.2.0.0/16"),
        (60, 1, "10.2.0.0/16"),
        (60, 0, "10.1.2.0/24"),
        (50, 2, "10.1.2.0/24"),
        (40, 0, "10.2.3.0/24"),
        (60, 2, "10.2.3.0/24"),
    ] {
        add_tests(rt, &mut table, priority, port, dst);
    }
    table
}

/// Adds a rule for each of four VLAN tests.
fn add_tests(rt: &impl Abort, table: &mut Table, priority: u16, port: u16, dst: &str) {
    for vlan in [
        VlanTest::Id(7),
        VlanTest::Any,
        VlanTest::Untagged,
        VlanTest::Id(8),
    ] {
        let number = u16::try_from(table.rules().len()).expect(rt, "few rules");
        add(rt, table, rule(rt, priority, port, vlan, dst, out(number)));
    }
}

/// Compares what two tables do with packets to an address.
fn answer_alike(rt: &impl Abort, one: &Table, other: &Table, dst: u32) {
    for (port, vlan) in [
        (1, Vlan::Untagged),
        (2, Vlan::Untagged),
        (3, Vlan::Untagged),
        (1, Vlan::Id(7)),
        (2, Vlan::Id(8)),
        (3, Vlan::Id(9)),
    ] {
        let found = one.lookup(Port(port), vlan, dst);
        assert!(rt; found == other.lookup(Port(port), vlan, dst));
    }
}

#[test]
fn an_indexed_table_answers_as_one_that_is_not(rt: HostRuntime) {
    let mut table = forty(&rt, rt.alloc());
    let mut plain = table.copy().expect(&rt, "a copy");
    table.index().expect(&rt, "an index");
    assert!(rt; table.rules() == plain.rules());
    for dst in [
        0x0a01_0203,
        0x0a01_0909,
        0x0a02_0304,
        0x0a02_0909,
        0x0a09_0909,
        0x0b00_0000,
    ] {
        answer_alike(&rt, &table, &plain, dst);
    }
    assert!(rt; table.lookup(Port(1), Vlan::Id(7), 0x0a01_0203) == out(24));
    assert!(rt; table.lookup(Port(3), Vlan::Id(9), 0x0a09_0909) == out(1));
    let gone = rule(&rt, 60, 0, VlanTest::Id(7), "10.1.2.0/24", out(24));
    delete(&rt, &mut table, &gone);
    delete(&rt, &mut plain, &gone);
    answer_alike(&rt, &table, &plain, 0x0a01_0203);
}

/// Prefixes of 25 lengths that begin with the same address, and the length of each as a priority.
const ROUTES: [(u16, &str); 25] = [
    (8, "10.0.0.0/8"),
    (9, "10.0.0.0/9"),
    (10, "10.0.0.0/10"),
    (11, "10.0.0.0/11"),
    (12, "10.0.0.0/12"),
    (13, "10.0.0.0/13"),
    (14, "10.0.0.0/14"),
    (15, "10.0.0.0/15"),
    (16, "10.0.0.0/16"),
    (17, "10.0.0.0/17"),
    (18, "10.0.0.0/18"),
    (19, "10.0.0.0/19"),
    (20, "10.0.0.0/20"),
    (21, "10.0.0.0/21"),
    (22, "10.0.0.0/22"),
    (23, "10.0.0.0/23"),
    (24, "10.0.0.0/24"),
    (25, "10.0.0.0/25"),
    (26, "10.0.0.0/26"),
    (27, "10.0.0.0/27"),
    (28, "10.0.0.0/28"),
    (29, "10.0.0.0/29"),
    (30, "10.0.0.0/30"),
    (31, "10.0.0.0/31"),
    (32, "10.0.0.0/32"),
];

/// Adds a rule for each of two ingress ports and three VLAN tests, which all test the same parts of a packet.
fn add_alike(rt: &impl Abort, table: &mut Table, priority: u16, dst: &str) {
    for port in [1, 2] {
        for vlan in [VlanTest::Id(7), VlanTest::Untagged, VlanTest::Id(8)] {
            let number = u16::try_from(table.rules().len()).expect(rt, "few rules");
            add(rt, table, rule(rt, priority, port, vlan, dst, out(number)));
        }
    }
}

/// A table as routers have one: 150 rules, of 25 kinds, where the longer prefix has the higher priority.
fn routes(rt: &impl Abort, alloc: Global) -> Table {
    let mut table = Table::make(alloc).expect(rt, "a table");
    for (priority, dst) in ROUTES {
        add_alike(rt, &mut table, priority, dst);
    }
    table
}

#[test]
fn a_table_of_prefixes_of_many_lengths_is_searched_by_them(rt: HostRuntime) {
    let mut table = routes(&rt, rt.alloc());
    let plain = table.copy().expect(&rt, "a copy");
    table.index().expect(&rt, "an index");
    for dst in [
        0x0a00_0000,
        0x0a00_0001,
        0x0a00_00ff,
        0x0a00_ff00,
        0x0aff_0000,
        0x0b00_0000,
    ] {
        answer_alike(&rt, &table, &plain, dst);
    }
    assert!(rt; table.lookup(Port(1), Vlan::Id(7), 0x0a00_0000) == out(144));
    assert!(rt; table.lookup(Port(2), Vlan::Id(8), 0x0a80_0000) == out(5));
}

#[test]
fn all_tables_are_indexed(rt: HostRuntime) {
    let mut config = one_rule(&rt, rt.alloc());
    config.index().expect(&rt, "an index");
    assert!(rt; config.count() == 3);
    let found = config.table(SwitchId(1)).lookup(Port(3), Vlan::Untagged, 1);
    assert!(rt; found == out(1));
}
