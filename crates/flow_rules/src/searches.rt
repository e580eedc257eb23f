//! Searches for the rule that matches a packet: among all rules, and in a space of their patterns.
ghost use Rattle.std.specs.Prelude.{◌≡◌, ◌⊎◌, ◌<◌, ◌++◌, ℕ, IsTrue, Option, Some, true, length, map, IfOk, IfSome, slice_index_or};
ghost use Rattle.flow_rules.specs.Scan.{better_of, covers_at, IsBeaten, IsHit, IsOver};
ghost use Rattle.flow_rules.specs.Tables.{matched_rule, patterns_of};
ghost use Rattle.flow_rules.specs.Tuples.{pattern_around, slot_of, slots_of};

use crate::rules::{Pattern, Rule};
use crate::tuple_space::TupleSpace;
use net_base::{Memory, Port, Vlan};
use std::alloc::Global;

/// What a look-up sees of a packet: its ingress port, its VLAN and its destination.
#[derive(Clone, Copy)]
pub(crate) struct Packet {
    pub(crate) port: Port,
    pub(crate) vlan: Vlan,
    pub(crate) dst: u32,
}

/// The rule that counts so far: the first of the greatest priority.
fn better(best: Option<Rule>, rule: Rule) -> Option<Rule>
    ensures { result ≡ better_of best rule }
{
    match best {
        Some(b) => {
            if b.key.priority < rule.key.priority {
                Some(rule)
            } else {
                Some(b)
            }
        }
        None => Some(rule),
    }
}

/// The first of the covering rules of greatest priority, by a look at each rule.
pub(crate) fn best_of(rules: &[Rule], packet: Packet) -> Option<Rule>
    ensures { result ≡ matched_rule
        (record { port = packet.port; vlan = packet.vlan; dst = packet.dst })
        rules.now }
{
    let mut best = None;
    for rule in rules {
        if rule
            .key
            .pattern
            .covers(packet.port, packet.vlan, packet.dst)
        {
            best = better(best, *rule);
        }
    }
    best
}

/// The better of two positions: that of the rule of more priority, the first of as much.
fn better_position(rules: &[Rule], best: usize, position: usize) -> usize
    requires best { best < length rules.now }
    requires position { position < length rules.now }
    ensures best { IsOver rules.now result best }
    ensures position { IsOver rules.now result position }
    ensures either { (result ≡ best) ⊎ (result ≡ position) }
{
    let most = rules[best].key.priority;
    let priority = rules[position].key.priority;
    if most < priority || (most == priority && position < best) {
        position
    } else {
        best
    }
}

/// The best position so far, or another one where its rule covers a packet and is better.
fn better_at(rules: &[Rule], packet: Packet, best: Option<usize>, position: usize) -> Option<usize>
    requires hit { IsHit (record { port = packet.port; vlan = packet.vlan; dst = packet.dst })
        rules.now best }
    requires position { position < length rules.now }
    ensures hit { IsHit (record { port = packet.port; vlan = packet.vlan; dst = packet.dst })
        rules.now result }
    ensures kept { (j : ℕ) → IsBeaten
        (record { port = packet.port; vlan = packet.vlan; dst = packet.dst }) rules.now best j
        → IsBeaten (record { port = packet.port; vlan = packet.vlan; dst = packet.dst }) rules.now
        result j }
    ensures here { IsBeaten (record { port = packet.port; vlan = packet.vlan; dst = packet.dst })
        rules.now result position }
{
    if !rules[position]
        .key
        .pattern
        .covers(packet.port, packet.vlan, packet.dst)
    {
        return best;
    }
    match best {
        Some(b) => Some(better_position(rules, b, position)),
        None => Some(position),
    }
}

/// The best position so far, or a better one of a rule that covers a packet in the slot that it has for a kind of pattern.
fn best_of_kind(
    rules: &[Rule],
    space: &TupleSpace,
    kind: &Pattern,
    packet: Packet,
    best: Option<usize>,
) -> Option<usize>
    requires count { length space.now.patterns ≡ length rules.now }
    requires hit { IsHit (record { port = packet.port; vlan = packet.vlan; dst = packet.dst })
        rules.now best }
    ensures hit { IsHit (record { port = packet.port; vlan = packet.vlan; dst = packet.dst })
        rules.now result }
    ensures kept { (j : ℕ) → IsBeaten
        (record { port = packet.port; vlan = packet.vlan; dst = packet.dst }) rules.now best j
        → IsBeaten (record { port = packet.port; vlan = packet.vlan; dst = packet.dst }) rules.now
        result j }
    ensures slot { (j : ℕ) → slice_index_or (slots_of space.now) j 0
        ≡ slot_of space.now.count (pattern_around kind.now
        (record { port = packet.port; vlan = packet.vlan; dst = packet.dst }))
        → IsBeaten (record { port = packet.port; vlan = packet.vlan; dst = packet.dst }) rules.now
        result j }
{
    let mut best = best;
    let mut at = space.first(kind, packet.port, packet.vlan, packet.dst);
    while let Some(position) = at {
        best = better_at(rules, packet, best, position);
        at = space.after(position);
    }
    best
}

/// The first of the covering rules of greatest priority, by a look into one slot for each kind of pattern.
pub(crate) fn best_in_space(rules: &[Rule], space: &TupleSpace, packet: Packet) -> Option<Rule>
    requires { space.now.patterns ≡ patterns_of rules.now }
    ensures { result ≡ matched_rule
        (record { port = packet.port; vlan = packet.vlan; dst = packet.dst })
        rules.now }
{
    let mut best = None;
    for kind in space.kinds() {
        best = best_of_kind(rules, space, kind, packet, best);
    }
    match best {
        Some(position) => Some(rules[position]),
        None => None,
    }
}

/// Adds the patterns of rules to a space; whether they all could be added.
fn add_patterns(space: &mut TupleSpace, rules: &[Rule]) -> bool
    ensures { IsTrue result → space.new.patterns ≡ space.old.patterns ++ patterns_of rules.now }
{
    for rule in rules {
        if !space.add(&rule.key.pattern) {
            return false;
        }
    }
    true
}

/// A space of the patterns of rules, where it has room for all their kinds.
pub(crate) fn space_of(alloc: Global, rules: &[Rule]) -> Result<Option<TupleSpace>, Memory>
    ensures { IfOk result (λ found. IfSome found (λ s. s.patterns ≡ patterns_of rules.now)) }
{
    let mut space = TupleSpace::with_room(alloc, rules.len())?;
    if !add_patterns(&mut space, rules) {
        return Ok(None);
    }
    Ok(Some(space))
}
