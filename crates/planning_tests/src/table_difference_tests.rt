//! The changes between two small configurations.
use flow_rules::{Action, Config, Key, Pattern, Rewrite, Rule, VlanTest, key_order};
use net_base::{Port, SwitchId, read_prefix};
use std::cmp::Ordering;
use std::process::Abort;
use table_difference::{remaining, sort_by_key};
use update_model::Change;

/// A rule for a prefix, of any ingress port where that is 0, that sends to a port, or discards where that is 0.
fn rule(rt: &impl Abort, priority: u16, port: u16, vlan: VlanTest, dst: &str, to: u16) -> Rule {
    let in_port = if port == 0 { None } else { Some(Port(port)) };
    let dst = read_prefix(dst).expect(rt, "a prefix");
    let action = if to == 0 {
        Action::Discard
    } else {
        Action::Out(Port(to), Rewrite::Keep)
    };
    Rule {
        key: Key {
            priority,
            pattern: Pattern { in_port, vlan, dst },
        },
        action,
    }
}

/// The same for any port and VLAN.
fn plain(rt: &impl Abort, priority: u16, dst: &str, to: u16) -> Rule {
    rule(rt, priority, 0, VlanTest::Any, dst, to)
}

/// The same for 10.0.0.0/8.
fn wide(rt: &impl Abort, priority: u16, to: u16) -> Rule {
    plain(rt, priority, "10.0.0.0/8", to)
}

/// Puts a rule into a table.
fn put(rt: &impl Abort, config: &mut Config, switch: u32, rule: Rule) {
    assert!(rt; (switch as usize) < config.count());
    let table = config.table_mut(SwitchId(switch));
    table.reserve(1).expect(rt, "room");
    assert!(rt; !table.has_key(&rule.key));
    table.insert(rule);
}

/// Puts rules into a table, in this order.
fn put_all(rt: &impl Abort, config: &mut Config, switch: u32, rules: &[Rule]) {
    for rule in rules {
        put(rt, config, switch, *rule);
    }
}

/// A rule of priority 100 for 10.0.0.0/8 that sends to port 1.
fn matching(rt: &impl Abort, port: u16, vlan: VlanTest) -> Rule {
    rule(rt, 100, port, vlan, "10.0.0.0/8", 1)
}

/// Rules of one priority, in key order.
fn in_key_order(rt: &impl Abort) -> [Rule; 8] {
    [
        plain(rt, 100, "10.0.0.0/8", 1),
        plain(rt, 100, "10.0.0.0/9", 1),
        plain(rt, 100, "10.128.0.0/9", 1),
        matching(rt, 0, VlanTest::Untagged),
        matching(rt, 0, VlanTest::Id(1)),
        matching(rt, 0, VlanTest::Id(7)),
        matching(rt, 1, VlanTest::Any),
        matching(rt, 2, VlanTest::Any),
    ]
}

/// A rule at both.
fn kept(rt: &impl Abort) -> Rule {
    wide(rt, 50, 1)
}

/// A rule whose port changes.
fn changed(rt: &impl Abort) -> Rule {
    wide(rt, 100, 3)
}

fn gone(rt: &impl Abort) -> Rule {
    wide(rt, 200, 2)
}

fn fresh(rt: &impl Abort) -> Rule {
    wide(rt, 300, 4)
}

fn empty(rt: &(impl Abort + AllocGlobal)) -> Config {
    Config::make(rt.alloc(), 4).expect(rt, "tables")
}

/// The tables of four switches.
fn old_tables(rt: &(impl Abort + AllocGlobal)) -> Config {
    let mut tables = empty(rt);
    put_all(rt, &mut tables, 0, &[wide(rt, 100, 1), gone(rt), kept(rt)]);
    put_all(rt, &mut tables, 2, &[kept(rt), changed(rt)]);
    put_all(rt, &mut tables, 3, &[kept(rt)]);
    tables
}

/// What they are to be.
fn new_tables(rt: &(impl Abort + AllocGlobal)) -> Config {
    let mut tables = empty(rt);
    put_all(rt, &mut tables, 0, &[changed(rt), kept(rt), fresh(rt)]);
    let ordered = in_key_order(rt);
    for i in [3, 7, 0, 5, 2, 6, 1, 4] {
        put(rt, &mut tables, 1, ordered[i]);
    }
    put_all(rt, &mut tables, 2, &[changed(rt), kept(rt)]);
    put_all(rt, &mut tables, 3, &[wide(rt, 50, 0)]);
    tables
}

/// The changes from the ones to the others.
fn wanted(rt: &(impl Abort + AllocGlobal)) -> Vec<Change> {
    let first = [
        Change::Insert(SwitchId(0), fresh(rt)),
        Change::Delete(SwitchId(0), gone(rt)),
        Change::Replace(SwitchId(0), changed(rt)),
    ];
    let mut changes = Vec::from_slice(rt.alloc(), &first).expect(rt, "changes");
    for rule in in_key_order(rt) {
        let change = Change::Insert(SwitchId(1), rule);
        changes.push(change).expect(rt, "a change");
    }
    let last = Change::Replace(SwitchId(3), wide(rt, 50, 0));
    changes.push(last).expect(rt, "a change");
    changes
}

fn found(rt: &(impl Abort + AllocGlobal)) -> Vec<Change> {
    let old = old_tables(rt);
    assert!(rt; old.count() == 4);
    remaining(rt.alloc(), &old, &new_tables(rt)).expect(rt, "changes")
}

#[test]
fn the_changes_come_by_switch_and_then_in_key_order(rt: HostRuntime) {
    assert!(rt; found(&rt).as_slice() == wanted(&rt).as_slice());
}

#[test]
fn a_sort_puts_rules_in_key_order(rt: HostRuntime) {
    let ordered = in_key_order(&rt);
    let mut rules = Vec::from_slice(rt.alloc(), &ordered).expect(&rt, "rules");
    rules.reverse();
    sort_by_key(&mut rules);
    assert!(rt; rules.as_slice() == ordered.as_slice());
    assert!(rt; key_order(&ordered[0].key, &ordered[1].key) == Ordering::Less);
}
