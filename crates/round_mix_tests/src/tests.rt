//! Tests of what a switch may hold during a round.
use crate::subsets::{among_many, is_small};
use flow_rules::{Action, Key, Pattern, Rewrite, Rule, Table, VlanTest};
use net_base::{Port, Prefix, SwitchId};
use round_mix::{MixFault, MixRefusal, Mixed};
use std::process::Abort;
use update_model::Change;

const AT: SwitchId = SwitchId(0);

/// The addresses from 10.0.0.0 to 10.0.0.255.
const TEN: Prefix = Prefix {
    base: 0x0a00_0000,
    len: 24,
};

/// The addresses from 10.0.0.0 to 10.0.0.127.
const HALF: Prefix = Prefix {
    base: 0x0a00_0000,
    len: 25,
};

fn rule(priority: u16, vlan: VlanTest, dst: Prefix, port: u16) -> Rule {
    let pattern = Pattern {
        in_port: None,
        vlan,
        dst,
    };
    Rule {
        key: Key { priority, pattern },
        action: Action::Out(Port(port), Rewrite::Keep),
    }
}

/// The rule that the tests begin with.
fn old() -> Rule {
    rule(100, VlanTest::Any, TEN, 2)
}

/// A table of that rule.
fn old_table(rt: &(impl Abort + AllocGlobal)) -> Table {
    let mut table = Table::make(rt.alloc()).expect(rt, "a table");
    table.reserve(1).expect(rt, "room");
    let insert = Change::Insert(AT, old());
    assert!(rt; insert.applies_to(&table));
    insert.apply_to(&mut table);
    table
}

#[test]
fn rules_of_one_priority_for_a_common_packet_are_ambiguous(rt: HostRuntime) {
    let round = [
        Change::Delete(AT, old()),
        Change::Insert(AT, rule(100, VlanTest::Untagged, TEN, 2)),
    ];
    let table = old_table(&rt);
    assert!(rt; table.rules().len() == 1);
    let mut mixed = Mixed::with_room(rt.alloc(), 2).expect(&rt, "room");
    assert!(rt; mixed.load(&table, &round) == Err(MixFault::Ambiguous(0, 1)));
    assert!(rt; mixed.prepare(&table, &round) == Err(MixRefusal::Unclear));
}

#[test]
fn the_first_change_that_does_not_apply_is_bad(rt: HostRuntime) {
    let twice = [
        Change::Replace(AT, rule(100, VlanTest::Any, TEN, 3)),
        Change::Delete(AT, old()),
    ];
    let other = [Change::Delete(AT, rule(100, VlanTest::Any, TEN, 4))];
    let table = old_table(&rt);
    assert!(rt; table.rules().len() == 1);
    let mut mixed = Mixed::with_room(rt.alloc(), 1).expect(&rt, "room");
    assert!(rt; mixed.load(&table, &twice) == Err(MixFault::BadChange(1)));
    assert!(rt; mixed.load(&table, &other) == Err(MixFault::BadChange(0)));
}

/// The answer where no one asks which rules clash.
fn without_pair(answer: &Result<(), MixFault>) -> Result<(), MixRefusal> {
    match *answer {
        Ok(()) => Ok(()),
        Err(MixFault::BadChange(i)) => Err(MixRefusal::BadChange(i)),
        Err(MixFault::Ambiguous(_, _)) => Err(MixRefusal::Unclear),
    }
}

/// Whether a round is answered so at the table of the one rule.
fn is_answered(
    rt: &(impl Abort + AllocGlobal),
    changes: &[Change],
    answer: &Result<(), MixFault>,
) -> bool {
    let table = old_table(rt);
    assert!(rt; is_small(&table, changes));
    let mut mixed = Mixed::with_room(rt.alloc(), 64).expect(rt, "room");
    let is_refused_so = mixed.prepare(&table, changes) == without_pair(answer);
    is_refused_so && mixed.load(&table, changes) == *answer
}

/// A round of two changes, and the answer to it.
type Row = ([Change; 2], Result<(), MixFault>);

/// A rule of a lesser priority than the table's.
fn low(vlan: VlanTest, dst: Prefix) -> Rule {
    rule(90, vlan, dst, 3)
}

fn insert(vlan: VlanTest, dst: Prefix) -> Change {
    Change::Insert(AT, low(vlan, dst))
}

fn delete(rule: Rule) -> Change {
    Change::Delete(AT, rule)
}

/// Gives the table's rule another port.
fn replace() -> Change {
    Change::Replace(AT, rule(100, VlanTest::Any, TEN, 3))
}

fn bad(i: usize) -> Result<(), MixFault> {
    Err(MixFault::BadChange(i))
}

/// Rounds of two good changes.
fn good_rows() -> [Row; 3] {
    let any = VlanTest::Any;
    [
        ([delete(old()), insert(any, TEN)], Ok(())),
        ([replace(), insert(any, TEN)], Ok(())),
        (
            [insert(VlanTest::Id(1), TEN), insert(VlanTest::Id(2), HALF)],
            Ok(()),
        ),
    ]
}

/// Rounds with a bad change, and one that makes a mixture unclear.
fn bad_rows() -> [Row; 7] {
    let any = VlanTest::Any;
    [
        ([delete(old()), delete(old())], bad(1)),
        ([delete(old()), replace()], bad(1)),
        ([insert(any, TEN), delete(low(any, TEN))], bad(1)),
        ([delete(low(any, TEN)), insert(any, TEN)], bad(0)),
        ([Change::Insert(AT, old()), delete(old())], bad(0)),
        ([insert(any, TEN), insert(any, TEN)], bad(1)),
        (
            [insert(VlanTest::Id(1), TEN), insert(any, HALF)],
            Err(MixFault::Ambiguous(1, 2)),
        ),
    ]
}

/// Whether each round is answered alone as among many other changes, whose keys are looked up.
fn are_answered(rt: &(impl Abort + AllocGlobal), rows: &[Row]) -> bool {
    for (changes, answer) in rows {
        let many = among_many(rt, changes);
        if !is_answered(rt, changes, answer) || !is_answered(rt, &many, answer) {
            return false;
        }
    }
    true
}

#[test]
fn a_few_changes_are_judged_as_among_many(rt: HostRuntime) {
    assert!(rt; are_answered(&rt, &good_rows()));
    assert!(rt; are_answered(&rt, &bad_rows()));
}
