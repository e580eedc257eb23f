//! Places from which a packet was found to keep to the path of a version, so that they aren't looked at again.
ghost use Rattle.std.specs.Prelude.{◌≡◌, ℕ, ◌+◌, ◌<◌, true, None, length, replicate};
ghost use Rattle.topology.specs.Networks.{switch_count};
ghost use Rattle.certificates.specs.Updates.{Task};
ghost use Rattle.two_phase_check.specs.Kept.{KeepsFrom, AreKept, IsStepOf};

use crate::straying::{RoundCase, carry, outcome_at, stays, tables_of};
use net_base::{Place, Vlan};
use path_walk::Outcome;
use round_mix::Outcomes;

/// How many places are known at most.
pub(crate) const MOST_KNOWN: usize = 4096;

/// The way of a packet along the path of a version: the version, the address, and the VLAN that the packet carries.
#[derive(Clone, Copy, PartialEq, Eq)]
pub(crate) struct Way {
    pub(crate) new: bool,
    pub(crate) dst: u32,
    pub(crate) tag: Vlan,
}

/// A place on the path from which the packet keeps to it.
#[derive(Clone, Copy, PartialEq, Eq)]
pub(crate) struct KeptPlace {
    way: Way,
    place: Place,
}

/// What the path does at a place: a packet may stray from it there, or the path ends, or goes on.
#[derive(Clone, Copy)]
enum Step {
    Strays,
    Ends,
    Goes(Place),
}

/// The number of a VLAN, 0 for none.
fn vlan_number(vlan: Vlan) -> usize {
    match vlan {
        Vlan::Untagged => 0,
        Vlan::Id(id) => id as usize,
    }
}

/// Where a place is kept. Few places of one way share a slot.
fn slot_of(kept: KeptPlace) -> usize {
    let switch = kept.place.switch.0 as usize;
    let port = kept.place.port.0 as usize;
    let tag = vlan_number(kept.way.tag);
    let mixed = switch
        .wrapping_mul(31)
        .wrapping_add(port)
        .wrapping_mul(31)
        .wrapping_add(tag);
    mixed.wrapping_mul(2).wrapping_add(kept.way.new as usize) % MOST_KNOWN
}

/// Forgets all places.
pub(crate) fn forget(known: &mut [Option<KeptPlace>])
    ensures { known.new ≡ replicate (length known.old) None }
{
    known.fill(None);
}

/// Whether two places are the same.
fn is_same(a: KeptPlace, b: KeptPlace) -> bool
    ensures { result ≡ true → a ≡ b }
{
    a == b
}

/// Whether the place is known.
fn is_known(known: &[Option<KeptPlace>], kept: KeptPlace) -> bool
    ensures { result ≡ true → (t : Task) (k : ℕ) → AreKept t k known.now → KeepsFrom t k kept }
{
    let slot = slot_of(kept);
    if slot >= known.len() {
        return false;
    }
    match known[slot] {
        Some(other) => is_same(other, kept),
        None => false,
    }
}

/// Puts a place into its slot, instead of the one that is known there.
fn note(known: &mut [Option<KeptPlace>], kept: KeptPlace)
    ensures { (t : Task) (k : ℕ) → AreKept t k known.old → KeepsFrom t k kept
        → AreKept t k known.new }
{
    let slot = slot_of(kept);
    if slot < known.len() {
        known[slot] = Some(kept);
    }
}

/// What the path of a way does at a place.
fn step_at(round: &RoundCase, way: Way, place: Place, room: &mut Outcomes) -> Step
    requires switch { place.switch.0 < switch_count round.now.task.update.net }
    requires room { 8192 < length room.old.list + room.old.spare }
    ensures step { IsStepOf round.now.task round.now.number way place result }
    ensures room { 8192 < length room.new.list + room.new.spare }
{
    let tables = tables_of(round, way.new);
    let expected = outcome_at(round, tables, place, way.dst);
    let carried = Place {
        vlan: way.tag,
        ..place
    };
    if !stays(round, carried, way.dst, carry(way.tag, expected), room) {
        return Step::Strays;
    }
    match expected {
        Outcome::Go(next) => Step::Goes(next),
        _ => Step::Ends,
    }
}

/// Whether a packet keeps to the path of a way from a place on, which is followed for so many steps more at most. A place
/// that is known isn't looked at again. Where the packet keeps to the path, its places are known afterwards.
pub(crate) fn keeps_way(
    round: &RoundCase,
    way: Way,
    place: Place,
    left: u32,
    room: &mut Outcomes,
    known: &mut [Option<KeptPlace>],
) -> bool
    requires switch { place.switch.0 < switch_count round.now.task.update.net }
    requires room { 8192 < length room.old.list + room.old.spare }
    requires known { AreKept round.now.task round.now.number known.old }
    ensures keeps { result ≡ true
        → KeepsFrom round.now.task round.now.number (record { way = way; place = place }) }
    ensures room { 8192 < length room.new.list + room.new.spare }
    ensures known { AreKept round.now.task round.now.number known.new }
{
    let kept = KeptPlace { way, place };
    if is_known(known, kept) {
        return true;
    }
    match step_at(round, way, place, room) {
        Step::Strays => false,
        Step::Ends => {
            note(known, kept);
            true
        }
        Step::Goes(next) => {
            if left == 0 {
                return false;
            }
            if !keeps_way(round, way, next, left - 1, room, known) {
                return false;
            }
            note(known, kept);
            true
        }
    }
}
