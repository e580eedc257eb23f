//! Patterns, keys, actions and rules.
ghost use Rattle.std.specs.Prelude.{◌≡◌, ◌↔◌, ◌==◌, IsTrue};
ghost use Rattle.std.specs.Option.{option_eq};
ghost use Rattle.net_base.specs.declared.ids.Port.{Port};
ghost use Rattle.flow_rules.specs.Overlaps.{IsClash, ports_meet, vlans_meet, blocks_meet, patterns_meet, keys_clash};
ghost use Rattle.flow_rules.specs.Patterns.{admits_port, admits_vlan, covers, vlan_test_eq, key_eq};
ghost use Rattle.flow_rules.specs.Same.{rewrite_eq, action_eq, rule_eq};

use net_base::{Port, Prefix, Vlan};

/// A test of a packet's VLAN: none, that it has no tag, or its id, 1 to 4094 (OpenFlow 1.0.0, section 5.2.3: `dl_vlan`,
/// where 0xffff is a packet without a tag).
#[derive(Clone, Copy, Debug, PartialEq, Eq, Hash)]
pub enum VlanTest {
    Any,
    Untagged,
    Id(u16),
}

/// A flow match: an ingress port or any, a VLAN test and a destination prefix.
#[derive(Clone, Copy, Debug, PartialEq, Eq, Hash)]
pub struct Pattern {
    pub in_port: Option<Port>,
    pub vlan: VlanTest,
    pub dst: Prefix,
}

/// What names an entry of a table: its priority and its match (OpenFlow 1.0.0, section 4.6: a strict command acts on the
/// entry of just these). The greater priority is tried first.
#[derive(Clone, Copy, Debug, PartialEq, Eq, Hash)]
pub struct Key {
    pub priority: u16,
    pub pattern: Pattern,
}

/// What an output does to the VLAN before it sends: nothing, set the id, 1 to 4094, or strip the tag
/// (OpenFlow 1.0.0, section 5.2.4).
#[derive(Clone, Copy, Debug, PartialEq, Eq, Hash)]
pub enum Rewrite {
    Keep,
    Set(u16),
    Strip,
}

/// What a rule does with a packet: an entry without actions discards it (OpenFlow 1.0.0, section 3.3).
#[derive(Clone, Copy, Debug, PartialEq, Eq, Hash)]
pub enum Action {
    Discard,
    Out(Port, Rewrite),
}

/// An entry of a flow table.
#[derive(Clone, Copy, Debug, PartialEq, Eq, Hash)]
pub struct Rule {
    pub key: Key,
    pub action: Action,
}

/// Whether the choice of an ingress port admits a port: none chooses any.
pub fn admits_port(choice: Option<Port>, port: Port) -> bool
    ensures { result ≡ admits_port choice port }
{
    match choice {
        None => true,
        Some(p) => p.0 == port.0,
    }
}

/// Whether a test admits a VLAN.
pub fn admits_vlan(test: VlanTest, vlan: Vlan) -> bool
    ensures { result ≡ admits_vlan test vlan }
{
    match (test, vlan) {
        (VlanTest::Any, _) => true,
        (VlanTest::Untagged, Vlan::Untagged) => true,
        (VlanTest::Id(n), Vlan::Id(id)) => n == id,
        _ => false,
    }
}

impl Pattern {
    /// Whether the pattern covers a packet.
    pub fn covers(&self, port: Port, vlan: Vlan, dst: u32) -> bool
        ensures { result ≡ covers self.now (record { port = port; vlan = vlan; dst = dst }) }
    {
        admits_port(self.in_port, port) && admits_vlan(self.vlan, vlan) && self.dst.has(dst)
    }
}

/// Whether two choices of an ingress port are the same.
fn is_same_port(a: Option<Port>, b: Option<Port>) -> bool
    ensures { result ≡ option_eq (λ (p q : Port). p.0 == q.0) a b }
{
    match (a, b) {
        (None, None) => true,
        (Some(p), Some(q)) => p.0 == q.0,
        _ => false,
    }
}

/// Whether two VLAN tests are the same.
fn is_same_test(a: VlanTest, b: VlanTest) -> bool
    ensures { result ≡ vlan_test_eq a b }
{
    match (a, b) {
        (VlanTest::Any, VlanTest::Any) => true,
        (VlanTest::Untagged, VlanTest::Untagged) => true,
        (VlanTest::Id(m), VlanTest::Id(n)) => m == n,
        _ => false,
    }
}

impl Key {
    /// Whether two keys are the same.
    pub fn is_same(&self, other: &Key) -> bool
        ensures { result ≡ key_eq self.now other.now }
    {
        let one = &self.pattern.dst;
        let two = &other.pattern.dst;
        self.priority == other.priority
            && is_same_port(self.pattern.in_port, other.pattern.in_port)
            && is_same_test(self.pattern.vlan, other.pattern.vlan)
            && one.base == two.base
            && one.len == two.len
    }
}

/// Whether some port is admitted by both choices.
fn do_ports_meet(a: Option<Port>, b: Option<Port>) -> bool
    ensures { result ≡ ports_meet a b }
{
    match (a, b) {
        (Some(p), Some(q)) => p.0 == q.0,
        _ => true,
    }
}

/// Whether some VLAN is admitted by both tests.
fn do_tests_meet(a: VlanTest, b: VlanTest) -> bool
    ensures { result ≡ vlans_meet a b }
{
    match (a, b) {
        (VlanTest::Any, _) => true,
        (_, VlanTest::Any) => true,
        (VlanTest::Untagged, VlanTest::Untagged) => true,
        (VlanTest::Id(m), VlanTest::Id(n)) => m == n,
        _ => false,
    }
}

/// Whether some address lies in both prefixes.
fn do_prefixes_meet(a: &Prefix, b: &Prefix) -> bool
    ensures { result ≡ blocks_meet a.now b.now }
{
    a.has(b.base) || b.has(a.base)
}

impl Pattern {
    /// Whether some packet is covered by both patterns.
    fn meets(&self, other: &Pattern) -> bool
        ensures { result ≡ patterns_meet self.now other.now }
    {
        do_ports_meet(self.in_port, other.in_port)
            && do_tests_meet(self.vlan, other.vlan)
            && do_prefixes_meet(&self.dst, &other.dst)
    }
}

impl Key {
    /// Whether the keys have equal priority and cover a common packet.
    pub fn clashes(&self, other: &Key) -> bool
        ensures { result ≡ keys_clash self.now other.now }
    {
        self.priority == other.priority && self.pattern.meets(&other.pattern)
    }
}

impl Rule {
    /// Whether two rules of equal priority cover a common packet.
    pub fn clashes(&self, other: &Rule) -> bool
        ensures { IsTrue result ↔ IsClash self.now other.now }
    {
        self.key.clashes(&other.key)
    }
}

/// Whether two rewrites are the same.
fn is_same_rewrite(a: Rewrite, b: Rewrite) -> bool
    ensures { result ≡ rewrite_eq a b }
{
    match (a, b) {
        (Rewrite::Keep, Rewrite::Keep) => true,
        (Rewrite::Set(m), Rewrite::Set(n)) => m == n,
        (Rewrite::Strip, Rewrite::Strip) => true,
        _ => false,
    }
}

/// Whether two actions are the same.
fn is_same_action(a: Action, b: Action) -> bool
    ensures { result ≡ action_eq a b }
{
    match (a, b) {
        (Action::Discard, Action::Discard) => true,
        (Action::Out(p, r), Action::Out(q, w)) => p.0 == q.0 && is_same_rewrite(r, w),
        _ => false,
    }
}

impl Rule {
    /// Whether two rules are the same.
    pub fn is_same(&self, other: &Rule) -> bool
        ensures { result ≡ rule_eq self.now other.now }
    {
        self.key.is_same(&other.key) && is_same_action(self.action, other.action)
    }
}
