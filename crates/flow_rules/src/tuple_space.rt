//! Tuple space search (Srinivasan, Suri and Varghese, "Packet classification using tuple space search", SIGCOMM 1999): the
//! patterns that may cover a packet are found by a look-up for each kind of pattern.
ghost use Rattle.std.specs.Prelude.{◌≡◌, ◌<◌, ◌++◌, ◌∷◌, [], ℕ, List, IsTrue, not, length, map, slice_index_or, IfOk};
ghost use Rattle.std.specs.List.{list_any};
ghost use Rattle.net_base.specs.Blocks.{IsBlock};
ghost use Rattle.net_base.specs.Members.{IsIn};
ghost use Rattle.flow_rules.specs.Patterns.{Header, covers};
ghost use Rattle.flow_rules.specs.Tuples.{ports_alike, tests_alike, are_alike, kind_eq, port_around, test_around, prefix_around, pattern_around, slot_of, slots_of, link_number, IsLink};
ghost use Rattle.flow_rules.specs.declared.rules.Pattern.{Pattern as PatternModel};

use crate::order::{rank_of_port, rank_of_vlan};
use crate::rules::{Pattern, VlanTest};
use net_base::{Memory, Port, Prefix, Vlan};
use std::alloc::Global;
use std::marker::Model;

/// How many kinds of patterns there are: with a port or without, with a test of the VLAN or without, with each of 33 lengths.
const ALL_KINDS: usize = 132;

/// How many kinds a space takes where it has room for few patterns.
const FEW_KINDS: usize = 16;

/// In a space with more room there are so many patterns for each of its kinds: a look into a slot takes as long as a look at so
/// many rules.
const PATTERNS_OF_A_KIND: usize = 4;

/// Up to how many patterns there are twice as many slots.
const MOST_APART: usize = 1 << 20;

/// A pattern, and the number behind the position of the one before it with the same slot, 0 where there is none.
#[derive(Clone, Copy)]
struct Entry {
    pattern: Pattern,
    next: u32,
}

/// Patterns by their positions, in the order in which they were added. A slot, found by what a pattern tests, leads to the
/// last of its patterns, and each pattern to the one before it in its slot. Patterns of one kind look at the same parts of a
/// packet: the ingress port or not, the VLAN or not, and so many bits of the address.
#[derive(Drop)]
pub struct TupleSpace {
    heads: Vec<u32>,
    entries: Vec<Entry>,
    kinds: Vec<Pattern>,
}

impl Model for TupleSpace {
    ghost use Rattle.std.specs.Prelude.{length, map};
    ghost use Rattle.flow_rules.specs.Tuples.{SpaceState, IsSpace};

    ghost Value = { SpaceState };

    ghost view = { λ s. record { patterns = map (λ e. e.pattern) s.entries.items; kinds = s.kinds.items; count = length s.heads.items } };

    ghost invariant = { λ s. IsSpace s.heads.items (map (λ e. e.next) s.entries.items) (map (λ e. e.pattern) s.entries.items) s.kinds.items };
}

/// Whether both choose a port, or neither.
fn are_ports_alike(a: Option<Port>, b: Option<Port>) -> bool
    ensures { result ≡ ports_alike a b }
{
    match (a, b) {
        (None, None) => true,
        (Some(_), Some(_)) => true,
        _ => false,
    }
}

/// Whether both look at the VLAN, or neither.
fn are_tests_alike(a: VlanTest, b: VlanTest) -> bool
    ensures { result ≡ tests_alike a b }
{
    match (a, b) {
        (VlanTest::Any, VlanTest::Any) => true,
        (VlanTest::Any, _) => false,
        (_, VlanTest::Any) => false,
        _ => true,
    }
}

impl Pattern {
    /// Whether two patterns test the same beside the address.
    pub fn is_alike(&self, other: &Pattern) -> bool
        ensures { result ≡ are_alike self.now other.now }
    {
        are_ports_alike(self.in_port, other.in_port) && are_tests_alike(self.vlan, other.vlan)
    }
}

/// Whether two patterns are of one kind.
fn is_same_kind(a: &Pattern, b: &Pattern) -> bool
    ensures { result ≡ kind_eq a.now b.now }
{
    are_ports_alike(a.in_port, b.in_port)
        && are_tests_alike(a.vlan, b.vlan)
        && a.dst.len == b.dst.len
}

/// Whether a pattern of the kind is among these.
fn has_kind(kinds: &[Pattern], pattern: &Pattern) -> bool
    ensures { result ≡ list_any (λ k. kind_eq k pattern.now) kinds.now }
{
    kinds.iter().any(|kind| is_same_kind(kind, pattern))
}

/// A packet's port, where the choice is of one.
fn port_around(choice: Option<Port>, port: Port) -> Option<Port>
    ensures { result ≡ port_around choice port }
{
    match choice {
        None => None,
        Some(_) => Some(port),
    }
}

/// The test that a packet's VLAN passes, where the test is one.
fn test_around(test: VlanTest, vlan: Vlan) -> VlanTest
    ensures { result ≡ test_around test vlan }
{
    match (test, vlan) {
        (VlanTest::Any, _) => VlanTest::Any,
        (_, Vlan::Untagged) => VlanTest::Untagged,
        (_, Vlan::Id(id)) => VlanTest::Id(id),
    }
}

/// The prefix of a prefix's length around an address.
fn prefix_around(prefix: &Prefix, address: u32) -> Prefix
    ensures { result ≡ prefix_around prefix.now.len address }
{
    let size = 1u64 << (32 - prefix.len);
    let base = u64::from(address) / size * size;
    Prefix {
        base: base as u32,
        len: prefix.len,
    }
}

/// The one pattern of the kind of a pattern that covers a packet.
fn pattern_around(kind: &Pattern, port: Port, vlan: Vlan, dst: u32) -> Pattern
    ensures { result ≡ pattern_around kind.now (record { port = port; vlan = vlan; dst = dst }) }
{
    Pattern {
        in_port: port_around(kind.in_port, port),
        vlan: test_around(kind.vlan, vlan),
        dst: prefix_around(&kind.dst, dst),
    }
}

/// The slot of a pattern, of so many. The parts are multiplied, and the low half of 32 bits is left out (Knuth, The Art of
/// Computer Programming 3, section 6.4), so that bases which are multiples of one number don't share a slot.
fn slot_of(pattern: &Pattern, slots: usize) -> usize
    requires { 0 < slots }
    ensures slot { result ≡ slot_of slots pattern.now }
    ensures within { result < slots }
{
    let port = u64::from(rank_of_port(pattern.in_port)) * 134_217_757;
    let vlan = u64::from(rank_of_vlan(pattern.vlan)) * 268_435_459;
    let prefix = &pattern.dst;
    let length = u64::from(prefix.len) * 536_870_923;
    let number = u64::from(prefix.base) * 2_654_435_761 + port + vlan + length;
    (number / 65_536 % slots as u64) as usize
}

/// The position that a number links to.
fn position_of(link: u32) -> Option<usize>
    ensures { link_number result ≡ link }
{
    if link == 0 {
        None
    } else {
        Some(link as usize - 1)
    }
}

/// Empties the slots.
fn empty_slots(heads: &mut Vec<u32>)
    ensures count { length heads.new.items ≡ length heads.old.items }
    ensures empty { (slot : ℕ) → slice_index_or heads.new.items slot 0 ≡ 0 }
{
    for slot in 0..heads.len() {
        heads[slot] = 0;
    }
}

/// Adds the kind of a pattern, where it isn't among these; whether there was room for it.
fn add_kind(kinds: &mut Vec<Pattern>, pattern: &Pattern) -> bool
    ensures known { IsTrue result → IsTrue (list_any (λ k. kind_eq k pattern.now) kinds.new.items) }
    ensures kept { (p : PatternModel) → IsTrue (list_any (λ k. kind_eq k p) kinds.old.items)
        → IsTrue (list_any (λ k. kind_eq k p) kinds.new.items) }
{
    if has_kind(kinds, pattern) {
        return true;
    }
    if kinds.len() == kinds.capacity() {
        return false;
    }
    kinds.push_reserved(*pattern);
    true
}

/// Does nothing: its contract says what every prefix keeps.
fn keeps_bits(prefix: Prefix)
    ensures { IsBlock prefix }
{
    let _ = prefix.base;
}

impl TupleSpace {
    /// A space without patterns, with room for so many, for a fourth as many kinds, 16 at least and all 132 at most, and with
    /// slots for twice as many patterns.
    pub fn with_room(alloc: Global, patterns: usize) -> Result<TupleSpace, Memory>
        ensures { IfOk result (λ s. s.patterns ≡ []) }
    {
        let slots = patterns.min(MOST_APART) * 2 + 1;
        let kinds = (patterns / PATTERNS_OF_A_KIND).clamp(FEW_KINDS, ALL_KINDS);
        Ok(TupleSpace {
            heads: vec![in alloc; 0; slots]?,
            entries: Vec::with_capacity(alloc, patterns)?,
            kinds: Vec::with_capacity(alloc, kinds)?,
        })
    }

    /// Takes out all patterns, in time by how many slots there are. Their room stays.
    pub fn clear(&mut self)
        ensures { self.new.patterns ≡ [] }
    {
        empty_slots(&mut self.heads);
        self.entries.clear();
        self.kinds.clear();
    }

    /// Adds a pattern at the next position; whether it could. It can't where the room is full, or the pattern is of a kind
    /// that isn't there yet, and there are as many as there is room for.
    pub fn add(&mut self, pattern: &Pattern) -> bool
        ensures added { IsTrue result → self.new.patterns ≡ self.old.patterns ++ pattern.now ∷ [] }
        ensures kept { IsTrue (not result) → self.new.patterns ≡ self.old.patterns }
    {
        let count = self.entries.len();
        if count == self.entries.capacity() || count >= u32::MAX as usize {
            return false;
        }
        if !add_kind(&mut self.kinds, pattern) {
            return false;
        }
        keeps_bits(pattern.dst);
        let slot = slot_of(pattern, self.heads.len());
        let next = self.heads[slot];
        self.entries.push_reserved(Entry {
            pattern: *pattern,
            next,
        });
        self.heads[slot] = count as u32 + 1;
        true
    }

    /// A pattern of each kind. A pattern that covers a packet is the packet's own for its kind.
    pub fn kinds(&self) -> &[Pattern]
        ensures value { result.now ≡ self.now.kinds }
        ensures complete { (p : PatternModel) (h : Header) → IsIn p self.now.patterns
            → IsTrue (covers p h) → (k : PatternModel) × IsIn k self.now.kinds
            × (pattern_around k h ≡ p) }
    {
        &self.kinds
    }

    /// The last position in the slot that a packet has for the kind of a pattern.
    pub fn first(&self, kind: &Pattern, port: Port, vlan: Vlan, dst: u32) -> Option<usize>
        ensures { IsLink (slots_of self.now)
            (slot_of self.now.count (pattern_around kind.now
            (record { port = port; vlan = vlan; dst = dst }))) (length self.now.patterns)
            (link_number result) }
    {
        let pattern = pattern_around(kind, port, vlan, dst);
        let slot = slot_of(&pattern, self.heads.len());
        position_of(self.heads[slot])
    }

    /// The last position before this one in the same slot.
    pub fn after(&self, position: usize) -> Option<usize>
        requires { position < length self.now.patterns }
        ensures { IsLink (slots_of self.now) (slice_index_or (slots_of self.now) position 0)
            position (link_number result) }
    {
        let entry = &self.entries[position];
        position_of(entry.next)
    }
}
