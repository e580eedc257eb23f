//! The marked rules that cover a packet, found in a space of their patterns.
ghost use Rattle.std.specs.Prelude.{◌≡◌, ◌-◌, ◌<◌, ◌≤◌, ◌++◌, ℕ, IsTrue, Some, true, false, length, slice_index_or};
ghost use Rattle.flow_rules.specs.Tuples.{pattern_around, slot_of, slots_of};
ghost use Rattle.path_walk.specs.Outcomes.{header_at};
ghost use Rattle.round_mix.specs.Nearest.{IsMet, IsNear, covers_there, patterns_back};

use crate::MarkedRule;
use flow_rules::{Pattern, TupleSpace};
use net_base::Place;

/// A packet at a place, to an address.
#[derive(Clone, Copy)]
pub struct Packet {
    pub place: Place,
    pub dst: u32,
}

/// Whether the rule at a position covers the packet.
fn covers_there(rules: &[MarkedRule], packet: Packet, position: usize) -> bool
    requires { position < length rules.now }
    ensures { result ≡ covers_there (header_at packet.place packet.dst) rules.now position }
{
    let pattern = &rules[position].rule.key.pattern;
    let place = packet.place;
    pattern.covers(place.port, place.vlan, packet.dst)
}

/// Whether a position is from the first on that of a rule that covers the packet.
fn is_met(rules: &[MarkedRule], packet: Packet, from: usize, position: usize) -> bool
    requires { position < length rules.now }
    ensures yes { result ≡ true
        → IsMet (header_at packet.place packet.dst) rules.now from (Some position) }
    ensures no { result ≡ false → from ≤ position
        → covers_there (header_at packet.place packet.dst) rules.now position ≡ false }
{
    if position < from {
        return false;
    }
    covers_there(rules, packet, position)
}

/// Whether a position is no nearer than the nearest one so far.
fn is_beaten(best: Option<usize>, position: usize) -> bool
    ensures yes { result ≡ true → (i : ℕ) × (best ≡ Some i) × (i ≤ position) }
    ensures no { result ≡ false → (i : ℕ) → best ≡ Some i → position < i }
{
    match best {
        Some(nearest) => nearest <= position,
        None => false,
    }
}

/// The nearest position so far, or a nearer one of a rule that covers the packet in the slot that it has for a kind of pattern.
/// The space has the rules from the last to the first, so the positions in a slot ascend, and the first hit is the nearest.
fn nearest_of_kind(
    rules: &[MarkedRule],
    space: &TupleSpace,
    kind: &Pattern,
    packet: Packet,
    from: usize,
    best: Option<usize>,
) -> Option<usize>
    requires count { length space.now.patterns ≡ length rules.now }
    requires met { IsMet (header_at packet.place packet.dst) rules.now from best }
    ensures met { IsMet (header_at packet.place packet.dst) rules.now from result }
    ensures kept { (j : ℕ) → IsNear (header_at packet.place packet.dst) rules.now from best j
        → IsNear (header_at packet.place packet.dst) rules.now from result j }
    ensures slot { (k : ℕ) → k < length rules.now
        → slice_index_or (slots_of space.now) k 0
        ≡ slot_of space.now.count (pattern_around kind.now (header_at packet.place packet.dst))
        → IsNear (header_at packet.place packet.dst) rules.now from result
        (length rules.now - 1 - k) }
{
    let place = packet.place;
    let mut at = space.first(kind, place.port, place.vlan, packet.dst);
    while let Some(back) = at {
        let position = rules.len() - 1 - back;
        if is_beaten(best, position) {
            return best;
        }
        if is_met(rules, packet, from, position) {
            return Some(position);
        }
        at = space.after(back);
    }
    best
}

/// The least position, from the first on, of a rule that covers the packet, by a look into one slot for each kind of pattern.
pub fn nearest(
    rules: &[MarkedRule],
    space: &TupleSpace,
    packet: Packet,
    from: usize,
) -> Option<usize>
    requires { space.now.patterns ≡ patterns_back rules.now }
    ensures met { IsMet (header_at packet.place packet.dst) rules.now from result }
    ensures first { (j : ℕ) → IsNear (header_at packet.place packet.dst) rules.now from result j }
{
    let mut best = None;
    for kind in space.kinds() {
        best = nearest_of_kind(rules, space, kind, packet, from, best);
    }
    best
}

/// Adds the patterns of marked rules to a space, from the last to the first; whether they all could be added.
fn add_patterns(space: &mut TupleSpace, rules: &[MarkedRule]) -> bool
    ensures { IsTrue result → space.new.patterns ≡ space.old.patterns ++ patterns_back rules.now }
{
    for position in (0..rules.len()).rev() {
        if !space.add(&rules[position].rule.key.pattern) {
            return false;
        }
    }
    true
}

/// Has a space hold the patterns of marked rules, from the last to the first; whether there was room for all their kinds.
pub fn fill_space(space: &mut TupleSpace, rules: &[MarkedRule]) -> bool
    ensures { IsTrue result → space.new.patterns ≡ patterns_back rules.now }
{
    space.clear();
    add_patterns(space, rules)
}
