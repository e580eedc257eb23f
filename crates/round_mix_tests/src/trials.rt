//! Changes tried over what is prepared for a table alone, beside a switch that is prepared anew.
ghost use Rattle.std.specs.Prelude.{◌≤◌, length, IsSomeAnd};

use crate::subsets::{
    FAR, FROM_FIRST, HALF, TEN, WIDE, delete, drop_wide, insert, is_small, make, network, out,
    possible, replace, rule, table_of, to_second,
};
use flow_rules::{Table, VlanTest};
use round_mix::{Mixed, Outcomes};
use std::process::Abort;
use topology::Net;
use update_model::Change;

/// An address that all rules of these tests cover.
const FIRST: u32 = 0x0a00_0000;

/// The table of two rules on which changes are tried, and so many for other addresses that they can be indexed.
fn some_rules(rt: &(impl Abort + AllocGlobal)) -> Table {
    let mut table = table_of(rt, &[drop_wide(), to_second()]);
    for i in 0..14 {
        make(
            rt,
            &mut table,
            &insert(rule(200 + i, VlanTest::Any, FAR, out(1))),
        );
    }
    table
}

/// Whether the possible outcomes of a packet are those of a table and changes of it that are prepared anew.
fn agrees(
    rt: &(impl Abort + AllocGlobal),
    net: &Net,
    mixed: &Mixed,
    table: &Table,
    changes: &[Change],
) -> bool
    requires { IsSomeAnd mixed.now.prepared (λ marks. length marks ≤ 128) }
{
    let anew = possible(rt, net, table, changes, FROM_FIRST, FIRST);
    let mut found = Outcomes::with_room(rt.alloc(), 129).expect(rt, "room");
    mixed.possible(net, FROM_FIRST, FIRST, &mut found);
    found.list() == anew.list()
}

/// Whether a change can be tried, and what is prepared is right while it is tried and once it is given up.
fn is_given_up(rt: &(impl Abort + AllocGlobal), net: &Net, change: &Change) -> bool {
    let table = some_rules(rt);
    assert!(rt; is_small(&table, &[]));
    let mut mixed = Mixed::with_room(rt.alloc(), 65).expect(rt, "room");
    assert!(rt; mixed.load(&table, &[]).is_ok());
    mixed.index();
    let is_begun = mixed.begin(change);
    let is_tried = agrees(rt, net, &mixed, &table, &[*change]);
    mixed.give_up(change);
    is_begun && is_tried && agrees(rt, net, &mixed, &table, &[])
}

/// Whether a change can be tried, and what is prepared is right once it is kept.
fn is_kept(rt: &(impl Abort + AllocGlobal), net: &Net, change: &Change) -> bool {
    let mut table = some_rules(rt);
    assert!(rt; is_small(&table, &[]));
    let mut mixed = Mixed::with_room(rt.alloc(), 65).expect(rt, "room");
    assert!(rt; mixed.load(&table, &[]).is_ok());
    mixed.index();
    let is_begun = mixed.begin(change);
    mixed.keep(change);
    make(rt, &mut table, change);
    is_begun && agrees(rt, net, &mixed, &table, &[])
}

/// Whether a change is refused, and what is prepared stays.
fn is_refused(rt: &(impl Abort + AllocGlobal), net: &Net, change: &Change) -> bool {
    let table = some_rules(rt);
    assert!(rt; is_small(&table, &[]));
    let mut mixed = Mixed::with_room(rt.alloc(), 65).expect(rt, "room");
    assert!(rt; mixed.load(&table, &[]).is_ok());
    mixed.index();
    !mixed.begin(change) && agrees(rt, net, &mixed, &table, &[])
}

/// A delete, a replace, and inserts before, between and behind the rules of the table.
fn clear_changes() -> [Change; 5] {
    let any = VlanTest::Any;
    [
        delete(to_second()),
        replace(rule(100, any, TEN, out(3))),
        insert(rule(120, any, HALF, out(4))),
        insert(rule(60, any, TEN, out(4))),
        insert(rule(10, any, WIDE, out(1))),
    ]
}

#[test]
fn a_change_is_tried_given_up_and_kept_as_if_prepared_anew(rt: HostRuntime) {
    let net = network(&rt);
    for change in &clear_changes() {
        assert!(rt; is_given_up(&rt, &net, change));
        assert!(rt; is_kept(&rt, &net, change));
    }
}

#[test]
fn an_insert_that_clashes_is_refused_and_what_is_prepared_stays(rt: HostRuntime) {
    let net = network(&rt);
    let above = insert(rule(100, VlanTest::Untagged, HALF, out(3)));
    let below = insert(rule(50, VlanTest::Id(10), TEN, out(3)));
    assert!(rt; is_refused(&rt, &net, &above));
    assert!(rt; is_refused(&rt, &net, &below));
}

/// Whether a change can be tried behind another, and what is prepared is right with both, and once each is given up.
fn is_given_up_behind(
    rt: &(impl Abort + AllocGlobal),
    net: &Net,
    first: &Change,
    second: &Change,
) -> bool {
    let table = some_rules(rt);
    assert!(rt; is_small(&table, &[]));
    let mut mixed = Mixed::with_room(rt.alloc(), 97).expect(rt, "room");
    assert!(rt; mixed.load(&table, &[]).is_ok());
    mixed.index();
    let is_begun = mixed.begin(first);
    let is_next = mixed.begin(second);
    let are_tried = agrees(rt, net, &mixed, &table, &[*first, *second]);
    mixed.give_up(second);
    let is_first = agrees(rt, net, &mixed, &table, &[*first]);
    mixed.give_up(first);
    is_begun && is_next && are_tried && is_first && agrees(rt, net, &mixed, &table, &[])
}

#[test]
fn a_change_is_tried_behind_another_and_given_up_as_if_prepared_anew(rt: HostRuntime) {
    let net = network(&rt);
    let any = VlanTest::Any;
    let above = insert(rule(120, any, HALF, out(4)));
    let between = insert(rule(60, any, TEN, out(4)));
    let gone = delete(to_second());
    let other = replace(rule(100, any, TEN, out(3)));
    assert!(rt; is_given_up_behind(&rt, &net, &above, &gone));
    assert!(rt; is_given_up_behind(&rt, &net, &gone, &between));
    assert!(rt; is_given_up_behind(&rt, &net, &other, &above));
}

/// Makes changes where they apply.
fn make_all(rt: &impl Abort, table: &mut Table, changes: &[Change]) {
    for change in changes {
        make(rt, table, change);
    }
}

/// Whether changes can be made together, and what is prepared is right while they are and once they are kept.
fn are_kept(rt: &(impl Abort + AllocGlobal), net: &Net, changes: &[Change]) -> bool {
    let mut table = some_rules(rt);
    assert!(rt; is_small(&table, &[]) && changes.len() <= 32);
    let mut mixed = Mixed::with_room(rt.alloc(), 97).expect(rt, "room");
    assert!(rt; mixed.load(&table, &[]).is_ok());
    mixed.index();
    if !mixed.begin_all(changes) {
        return false;
    }
    let is_begun = agrees(rt, net, &mixed, &table, changes);
    mixed.keep_all(changes);
    make_all(rt, &mut table, changes);
    is_begun && agrees(rt, net, &mixed, &table, &[])
}

#[test]
fn several_changes_are_begun_and_kept_as_if_prepared_anew(rt: HostRuntime) {
    let net = network(&rt);
    let any = VlanTest::Any;
    let each = [
        replace(rule(50, any, WIDE, out(4))),
        insert(rule(60, any, TEN, out(3))),
        delete(to_second()),
        insert(rule(120, any, HALF, out(1))),
    ];
    assert!(rt; are_kept(&rt, &net, &[]));
    assert!(rt; are_kept(&rt, &net, &each[..2]));
    assert!(rt; are_kept(&rt, &net, &each));
}

#[test]
fn several_changes_of_which_one_clashes_or_is_bad_are_refused(rt: HostRuntime) {
    let net = network(&rt);
    let any = VlanTest::Any;
    let first = insert(rule(60, any, TEN, out(4)));
    let second = insert(rule(60, VlanTest::Untagged, HALF, out(3)));
    assert!(rt; !are_kept(&rt, &net, &[first, second]));
    assert!(rt;
        !are_kept(
            &rt,
            &net,
            &[delete(to_second()), insert(rule(100, any, HALF, out(3)))]
        )
    );
    assert!(rt; !are_kept(&rt, &net, &[delete(to_second()), replace(to_second())]));
}
