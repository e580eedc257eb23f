//! Rules found by an address, and the outcomes among them.
ghost use Rattle.std.specs.Prelude.{◌≤◌, length, IsSome, IsSomeAnd};

use crate::subsets::{
    FROM_FIRST, TEN, delete, drop_wide, insert, is_small, network, out, possible, rule, table_of,
    to_second,
};
use flow_rules::{Rule, VlanTest};
use net_base::{Port, Vlan};
use path_walk::Outcome;
use round_mix::{Mixed, Outcomes};
use std::process::Abort;
use table_index::Index;
use topology::Net;
use update_model::Change;

/// An address that all rules of these tests cover.
const FIRST: u32 = 0x0a00_0000;

/// An address that only the rule for a wide prefix covers.
const BESIDE: u32 = 0x0a01_0000;

/// Whether these are the positions of the rules whose prefix holds the address.
fn is_found(rt: &(impl Abort + AllocGlobal), dst: u32, positions: &[u32]) -> bool {
    let rules: [Rule; 2] = [to_second(), drop_wide()];
    let mut index = Index::with_room(rt.alloc(), 2).expect(rt, "room");
    index.load(&rules, dst);
    index.candidates() == positions
}

#[test]
fn an_index_finds_the_rules_whose_prefix_holds_the_address(rt: HostRuntime) {
    assert!(rt; is_found(&rt, FIRST, &[0, 1]));
    assert!(rt; is_found(&rt, BESIDE, &[1]));
    assert!(rt; is_found(&rt, 0x0b00_0000, &[]));
}

/// A round that replaces a rule by one of a greater priority: the mixed list has the priorities 110, 100 and 50.
fn round() -> [Change; 2] {
    [
        delete(to_second()),
        insert(rule(110, VlanTest::Any, TEN, out(2))),
    ]
}

/// The outcomes of a packet to the first address among the rules at the aimed positions.
fn among_aimed(rt: &(impl Abort + AllocGlobal), net: &Net, mixed: &Mixed) -> Outcomes
    requires prepared { IsSomeAnd mixed.now.prepared (λ marks. length marks ≤ 64) }
    requires aimed { IsSome mixed.now.aimed }
{
    let mut found = Outcomes::with_room(rt.alloc(), 65).expect(rt, "room");
    mixed.among(net, FROM_FIRST, FIRST, mixed.aimed(), &mut found);
    found
}

/// Whether an aim at an address finds these positions, and a packet to the first address has these outcomes among them.
fn is_aimed(
    rt: &(impl Abort + AllocGlobal),
    dst: u32,
    positions: &[u32],
    outcomes: &[Outcome],
) -> bool {
    let net = network(rt);
    let table = table_of(rt, &[drop_wide(), to_second()]);
    let changes = round();
    assert!(rt; is_small(&table, &changes));
    let mut mixed = Mixed::with_room(rt.alloc(), 64).expect(rt, "room");
    assert!(rt; mixed.load(&table, &changes).is_ok());
    mixed.aim(dst);
    let found = among_aimed(rt, &net, &mixed);
    mixed.aimed() == positions && found.list() == outcomes
}

/// The second host's packets leave, or are dropped where neither rule for them stands.
fn leave_or_drop() -> [Outcome; 3] {
    let leave = Outcome::Leave(Port(2), Vlan::Untagged);
    [leave, leave, Outcome::Discard]
}

#[test]
fn the_outcomes_among_the_covering_rules_are_the_possible_ones(rt: HostRuntime) {
    let net = network(&rt);
    let table = table_of(&rt, &[drop_wide(), to_second()]);
    let all = possible(&rt, &net, &table, &round(), FROM_FIRST, FIRST);
    assert!(rt; is_aimed(&rt, FIRST, &[0, 1, 2], all.list()));
    assert!(rt; is_aimed(&rt, FIRST, &[0, 1, 2], &leave_or_drop()));
}

#[test]
fn rules_at_other_positions_are_left_out(rt: HostRuntime) {
    assert!(rt; is_aimed(&rt, BESIDE, &[2], &[Outcome::Discard]));
    assert!(rt; is_aimed(&rt, 0x0b00_0000, &[], &[Outcome::Discard]));
}
