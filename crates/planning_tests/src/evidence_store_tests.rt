//! Equal numberings, before sets and uses of picks, by their numbers.
ghost use Rattle.std.specs.Prelude.{◌≡◌, ◌<◌, ◌≤◌, ◌↔◌, IsTrue};
ghost use Rattle.std.specs.List.{AllByRecursion};
ghost use Rattle.certificates.specs.Valid.{IsPickBefore};

use crate::parts::{numbering_of, set_of};
use certificates::{Befores, OrderedEvidence, OrderedPick};
use evidence_store::EvidenceStore;
use std::alloc::Global;
use std::process::Abort;

/// A pick of a round and a class, with its numbering and its before sets.
#[derive(Clone, Copy)]
struct Row {
    round: u32,
    class: u32,
    numbers: &'static [u16],
    sets: &'static [&'static [u8]],
}

/// Picks of two of three classes.
const ROWS: [Row; 5] = [
    Row {
        round: 1,
        class: 0,
        numbers: &[7, 5],
        sets: &[&[4], &[3, 9]],
    },
    Row {
        round: 1,
        class: 1,
        numbers: &[5, 7],
        sets: &[&[3, 9]],
    },
    Row {
        round: 2,
        class: 0,
        numbers: &[5, 7],
        sets: &[&[3, 9]],
    },
    Row {
        round: 2,
        class: 1,
        numbers: &[7, 5],
        sets: &[&[3, 9], &[], &[3, 9]],
    },
    Row {
        round: 3,
        class: 0,
        numbers: &[7, 5],
        sets: &[&[4], &[3, 9]],
    },
];

fn sets_of(rt: &impl Abort, alloc: Global, sets: &[&[u8]]) -> Befores {
    let mut befores = Befores::make(alloc).expect(rt, "memory");
    for members in sets {
        befores.add(set_of(members)).expect(rt, "memory");
    }
    befores
}

fn is_earlier(pick: OrderedPick, round: u32, class: u32) -> bool
    ensures { IsTrue result ↔ IsPickBefore pick
        (record { round = round; class = class; shared = 0 }) }
{
    pick.round < round || (pick.round == round && pick.class < class)
}

fn are_earlier(picks: &[OrderedPick], round: u32, class: u32) -> bool
    ensures { IsTrue result ↔ AllByRecursion
        (λ p. IsPickBefore p (record { round = round; class = class; shared = 0 })) picks.now }
{
    picks.iter().all(|pick| is_earlier(*pick, round, class))
}

/// The store with the pick of a row.
fn with_row(rt: &impl Abort, alloc: Global, store: EvidenceStore, row: Row) -> EvidenceStore
    requires classes { store.classes ≡ 3 }
    requires round { row.round ≤ 4200 }
    requires class { row.class < 3 }
    ensures { result.classes ≡ 3 }
{
    if !are_earlier(store.evidence().picks.list(), row.round, row.class) {
        panic!(rt; "a pick isn't behind the others");
    }
    let numbering = numbering_of(alloc, row.numbers).expect(rt, "memory");
    let befores = sets_of(rt, alloc, row.sets);
    store
        .add(row.round, row.class, numbering, befores)
        .expect(rt, "memory")
}

/// A store of all rows.
fn filled(rt: &impl Abort, alloc: Global) -> EvidenceStore
    ensures { result.classes ≡ 3 }
{
    let store = EvidenceStore::make(alloc, 3).expect(rt, "memory");
    let store = with_row(rt, alloc, store, ROWS[0]);
    let store = with_row(rt, alloc, store, ROWS[1]);
    let store = with_row(rt, alloc, store, ROWS[2]);
    let store = with_row(rt, alloc, store, ROWS[3]);
    with_row(rt, alloc, store, ROWS[4])
}

fn has_numberings(rt: &impl Abort, evidence: &OrderedEvidence) {
    let numberings = evidence.numberings.list();
    assert!(rt; numberings.len() == 2);
    assert!(rt; numberings[0].list() == [7, 5].as_slice());
    assert!(rt; numberings[1].list() == [5, 7].as_slice());
}

fn has_sets(rt: &impl Abort, evidence: &OrderedEvidence) {
    let wanted: [&[u8]; 3] = [&[4], &[3, 9], &[]];
    let sets = evidence.befores.list();
    assert!(rt; sets.len() == 3);
    for (set, members) in sets.iter().zip(wanted) {
        assert!(rt; set.marks() == set_of(members).marks());
    }
}

fn has_uses(rt: &impl Abort, evidence: &OrderedEvidence) {
    let wanted: [(u32, &[u64]); 3] = [(0, &[0, 1]), (1, &[1]), (0, &[1, 2, 1])];
    let uses = evidence.uses.list();
    assert!(rt; uses.len() == 3);
    for (shared, (numbering, befores)) in uses.iter().zip(wanted) {
        assert!(rt; shared.numbering == numbering);
        assert!(rt; shared.befores.list() == befores);
    }
}

fn has_picks(rt: &impl Abort, evidence: &OrderedEvidence) {
    let wanted = [(1, 0, 0), (1, 1, 1), (2, 0, 1), (2, 1, 2), (3, 0, 0)];
    let picks = evidence.picks.list();
    assert!(rt; picks.len() == 5);
    for (pick, wanted) in picks.iter().zip(wanted) {
        assert!(rt; (pick.round, pick.class, pick.shared) == wanted);
    }
}

#[test]
fn equal_evidence_stands_once_in_the_order_of_first_use(rt: HostRuntime) {
    let evidence = filled(&rt, rt.alloc()).into_evidence();
    has_numberings(&rt, &evidence);
    has_sets(&rt, &evidence);
    has_uses(&rt, &evidence);
    has_picks(&rt, &evidence);
}

#[test]
fn the_last_pick_of_a_class_is_in_force(rt: HostRuntime) {
    let store = filled(&rt, rt.alloc());
    for (class, want) in [(0, Some(0)), (1, Some(2)), (2, None)] {
        assert!(rt; store.in_force(class) == want);
    }
}

#[test]
fn a_store_begins_without_picks(rt: HostRuntime) {
    let store = EvidenceStore::make(rt.alloc(), 3).expect(&rt, "memory");
    assert!(rt; store.in_force(0).is_none());
}
