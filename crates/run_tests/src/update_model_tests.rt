//! Tests of rounds and of single changes.
use crate::square::{add_rule, rule};
use flow_rules::{Config, Table};
use net_base::SwitchId;
use std::alloc::Global;
use std::process::Abort;
use update_model::{Change, Event, Events, Rounds, applies};

fn first() -> Change {
    Change::Insert(SwitchId(0), rule(100, 2))
}

fn second() -> Change {
    Change::Replace(SwitchId(1), rule(100, 3))
}

fn add_round(rt: &impl Abort, rounds: &mut Rounds) {
    rounds.add_round().expect(rt, "a round");
}

fn add_change(rt: &impl Abort, rounds: &mut Rounds, change: Change) {
    assert!(rt; rounds.count() > 0);
    rounds.add_change(change).expect(rt, "a change");
}

fn has_round(rt: &impl Abort, rounds: &Rounds, round: usize, changes: &[Change]) {
    assert!(rt; round < rounds.count());
    assert!(rt; rounds.round(round) == changes);
}

#[test]
fn a_change_goes_to_the_last_round(rt: HostRuntime) {
    let mut rounds = Rounds::make(rt.alloc()).expect(&rt, "rounds");
    add_round(&rt, &mut rounds);
    add_change(&rt, &mut rounds, first());
    add_round(&rt, &mut rounds);
    add_round(&rt, &mut rounds);
    add_change(&rt, &mut rounds, second());
    add_change(&rt, &mut rounds, first());
    assert!(rt; rounds.count() == 3);
    has_round(&rt, &rounds, 0, &[first()]);
    has_round(&rt, &rounds, 1, &[]);
    has_round(&rt, &rounds, 2, &[second(), first()]);
}

#[test]
fn events_keep_their_order(rt: HostRuntime) {
    let want = [Event::Start, Event::Change(0)];
    let mut events = Events::make(rt.alloc()).expect(&rt, "events");
    for event in want {
        events.add(event).expect(&rt, "an event");
    }
    assert!(rt; events.list() == want.as_slice());
}

/// Makes a change where it applies.
fn change(rt: &impl Abort, table: &mut Table, change: &Change) -> bool {
    table.reserve(1).expect(rt, "room");
    let applies = change.applies_to(table);
    if applies {
        change.apply_to(table);
    }
    applies
}

/// One table, with the rule of priority 100 out of port 2.
fn one_rule(rt: &impl Abort, alloc: Global) -> Config {
    let mut config = Config::make(alloc, 1).expect(rt, "tables");
    add_rule(rt, &mut config, 0, 2);
    config
}

#[test]
fn a_change_applies_by_its_key_and_a_delete_by_its_action_too(rt: HostRuntime) {
    let at = SwitchId(0);
    let config = one_rule(&rt, rt.alloc());
    for (case, want) in [
        (Change::Insert(at, rule(100, 3)), false),
        (Change::Insert(at, rule(101, 2)), true),
        (Change::Insert(SwitchId(1), rule(101, 2)), false),
        (Change::Delete(at, rule(100, 2)), true),
        (Change::Delete(at, rule(100, 3)), false),
        (Change::Delete(at, rule(101, 2)), false),
        (Change::Replace(at, rule(100, 3)), true),
        (Change::Replace(at, rule(101, 2)), false),
    ] {
        assert!(rt; applies(&config, &case) == want);
    }
}

#[test]
fn a_table_holds_what_its_changes_leave(rt: HostRuntime) {
    let at = SwitchId(0);
    let mut table = Table::make(rt.alloc()).expect(&rt, "a table");
    for (case, want) in [
        (Change::Insert(at, rule(100, 2)), true),
        (Change::Insert(at, rule(200, 3)), true),
        (Change::Replace(at, rule(100, 4)), true),
        (Change::Delete(at, rule(100, 2)), false),
        (Change::Insert(at, rule(50, 1)), true),
        (Change::Delete(at, rule(200, 3)), true),
    ] {
        assert!(rt; change(&rt, &mut table, &case) == want);
    }
    assert!(rt; table.rules() == [rule(100, 4), rule(50, 1)].as_slice());
}
