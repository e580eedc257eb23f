//! Whether rules clash, by kinds: rules of one kind test the same things beside the address.
ghost use Rattle.std.specs.Prelude.{◌≡◌, ◌≢◌, ◌<◌, ◌↔◌, length, IsTrue, IsPermutation, IsSortedBy, vec_capacity};
ghost use Rattle.net_base.specs.Members.{IsIn};
ghost use Rattle.net_base.specs.Blocks.{block_size};
ghost use Rattle.flow_rules.specs.Order.{port_rank, vlan_rank};
ghost use Rattle.round_mix.specs.Apart.{AreApart};
ghost use Rattle.round_mix.specs.Kinds.{has_port, has_vlan, kind_of, tests_port, tests_vlan, kind_eq, turned_pair, AreSwept, AreKindsApart, spot_of, begin_of, end_of, spot_cmp, is_sooner, begins_past, reach_with};
ghost use Rattle.round_mix.specs.declared.kinds.Pair.{Pair as PairModel};

use crate::MarkedRule;
use crate::clashes::least_clash;
use flow_rules::VlanTest;
use net_base::{Port, Prefix};
use std::cmp::Ordering;

/// What a rule tests beside the address: nothing, the ingress port, the VLAN, or both.
#[derive(Clone, Copy)]
enum Kind {
    Address,
    Port,
    Vlan,
    Both,
}

/// Two kinds of rules. Two of their rules clash where they have one priority, the prefix of one holds that of the other, and
/// what both test is the same.
#[derive(Clone, Copy)]
struct Pair {
    one: Kind,
    two: Kind,
}

/// What sweeps tell of rules.
#[derive(Clone, Copy)]
enum SweepFinding {
    /// Of the kinds that were swept no two rules clash.
    Apart,
    /// Two of the rules clash.
    Clash,
    /// Neither, since the rules don't stand as the sweep goes.
    Nothing,
}

/// Where a sweep over the rules of two kinds is. Those of one priority that test the same, as far as both kinds do, follow
/// one another by their addresses.
#[derive(Clone, Copy)]
struct Spot {
    priority: u16,
    port: u32,
    vlan: u32,
    address: u64,
}

/// The spot before all others.
const START: Spot = Spot {
    priority: u16::MAX,
    port: 0,
    vlan: 0,
    address: 0,
};

/// Any port first, and then the ports by their numbers.
fn rank_of_port(port: Option<Port>) -> u32
    ensures { result ≡ port_rank port }
{
    match port {
        None => 0,
        Some(port) => 1 + u32::from(port.0),
    }
}

/// Any VLAN first, then untagged, and then the ids.
fn rank_of_vlan(test: VlanTest) -> u32
    ensures { result ≡ vlan_rank test }
{
    match test {
        VlanTest::Any => 0,
        VlanTest::Untagged => 1,
        VlanTest::Id(id) => 2 + u32::from(id),
    }
}

/// Whether an ingress port is chosen.
fn has_port(choice: Option<Port>) -> bool
    ensures { result ≡ has_port choice }
{
    match choice {
        None => false,
        Some(_) => true,
    }
}

/// Whether a test looks at the VLAN.
fn has_vlan(test: VlanTest) -> bool
    ensures { result ≡ has_vlan test }
{
    match test {
        VlanTest::Any => false,
        VlanTest::Untagged => true,
        VlanTest::Id(_) => true,
    }
}

/// The kind of a rule.
fn kind_of(marked: &MarkedRule) -> Kind
    ensures { result ≡ kind_of marked.now }
{
    let pattern = &marked.rule.key.pattern;
    let tests_vlan = has_vlan(pattern.vlan);
    if has_port(pattern.in_port) {
        if tests_vlan { Kind::Both } else { Kind::Port }
    } else if tests_vlan {
        Kind::Vlan
    } else {
        Kind::Address
    }
}

impl Kind {
    /// Whether its rules choose an ingress port.
    fn tests_port(self) -> bool
        ensures { result ≡ tests_port self }
    {
        match self {
            Kind::Address => false,
            Kind::Port => true,
            Kind::Vlan => false,
            Kind::Both => true,
        }
    }

    /// Whether its rules look at the VLAN.
    fn tests_vlan(self) -> bool
        ensures { result ≡ tests_vlan self }
    {
        match self {
            Kind::Address => false,
            Kind::Port => false,
            Kind::Vlan => true,
            Kind::Both => true,
        }
    }

    /// Whether it is the same kind as another.
    fn is_same(self, other: Kind) -> bool
        ensures { result ≡ kind_eq self other }
    {
        match (self, other) {
            (Kind::Address, Kind::Address) => true,
            (Kind::Port, Kind::Port) => true,
            (Kind::Vlan, Kind::Vlan) => true,
            (Kind::Both, Kind::Both) => true,
            _ => false,
        }
    }
}

/// How many addresses a prefix has.
fn size_of(prefix: &Prefix) -> u64
    ensures { result ≡ block_size prefix.now }
{
    1u64 << (32 - prefix.len)
}

impl Pair {
    /// The other way round.
    fn turned(self) -> Pair
        ensures { result ≡ turned_pair self }
    {
        Pair {
            one: self.two,
            two: self.one,
        }
    }

    /// Where a sweep is at an address of a rule.
    fn spot_of(self, marked: &MarkedRule, address: u64) -> Spot
        ensures { result ≡ spot_of self marked.now address }
    {
        let pattern = &marked.rule.key.pattern;
        let by_port = self.one.tests_port() && self.two.tests_port();
        let by_vlan = self.one.tests_vlan() && self.two.tests_vlan();
        Spot {
            priority: marked.rule.key.priority,
            port: if by_port {
                rank_of_port(pattern.in_port)
            } else {
                0
            },
            vlan: if by_vlan {
                rank_of_vlan(pattern.vlan)
            } else {
                0
            },
            address,
        }
    }

    /// Where the sweep meets a rule.
    fn begin_of(self, marked: &MarkedRule) -> Spot
        ensures { result ≡ begin_of self marked.now }
    {
        let prefix = &marked.rule.key.pattern.dst;
        self.spot_of(marked, u64::from(prefix.base))
    }

    /// Where the sweep leaves a rule.
    fn end_of(self, marked: &MarkedRule) -> Spot
        ensures { result ≡ end_of self marked.now }
    {
        let prefix = &marked.rule.key.pattern.dst;
        self.spot_of(marked, u64::from(prefix.base) + size_of(prefix))
    }
}

impl Spot {
    /// How it compares with another spot: the greatest priority first, and then by port, VLAN and address.
    fn compare(&self, other: &Spot) -> Ordering
        ensures { result ≡ spot_cmp self.now other.now }
    {
        other
            .priority
            .cmp(&self.priority)
            .then(self.port.cmp(&other.port))
            .then(self.vlan.cmp(&other.vlan))
            .then(self.address.cmp(&other.address))
    }

    /// Whether it comes before another spot.
    fn is_sooner(&self, other: &Spot) -> bool
        ensures { result ≡ is_sooner self.now other.now }
    {
        self.compare(other).is_lt()
    }
}

/// Whether the sweep, if the rule is of the second kind, doesn't meet it before a spot.
fn begins_past(pair: Pair, reach: &Spot, marked: &MarkedRule) -> bool
    ensures { result ≡ begins_past pair reach.now marked.now }
{
    !(kind_of(marked).is_same(pair.two) && pair.begin_of(marked).is_sooner(reach))
}

/// The later of a spot and where the sweep leaves the rule, if that is of the first kind.
fn reach_with(pair: Pair, reach: &Spot, marked: &MarkedRule) -> Spot
    ensures { result ≡ reach_with pair reach.now marked.now }
{
    let end = pair.end_of(marked);
    if kind_of(marked).is_same(pair.one) && reach.is_sooner(&end) {
        end
    } else {
        *reach
    }
}

/// What a sweep tells that hasn't left the rule at one position when it meets that at another: whether these two clash.
fn tell_met(rules: &[MarkedRule], left: usize, met: usize) -> SweepFinding
    requires { met < length rules.now }
    ensures some { result ≢ SweepFinding.Apart }
    ensures clash { result ≡ SweepFinding.Clash → ¬ AreApart rules.now }
{
    if left < met && rules[left].rule.clashes(&rules[met].rule) {
        SweepFinding::Clash
    } else {
        SweepFinding::Nothing
    }
}

/// Whether a rule of the first kind clashes with one of the second behind it: none does where the sweep meets none of the
/// second kind before it has left all of the first kind that it met. Where it does meet one, that clashes with the rule
/// which the sweep leaves last, if the rules stand as it goes.
fn sweep(rules: &[MarkedRule], pair: Pair) -> SweepFinding
    ensures apart { result ≡ SweepFinding.Apart → AreSwept pair rules.now }
    ensures clash { result ≡ SweepFinding.Clash → ¬ AreApart rules.now }
{
    let mut reach = START;
    let mut furthest = 0;
    for i in 0..rules.len() {
        if !begins_past(pair, &reach, &rules[i]) {
            return tell_met(rules, furthest, i);
        }
        let next = reach_with(pair, &reach, &rules[i]);
        if reach.is_sooner(&next) {
            furthest = i;
        }
        reach = next;
    }
    SweepFinding::Apart
}

/// Whether a rule of the one kind clashes with one of the other, as far as two sweeps tell.
fn sweep_both(rules: &[MarkedRule], pair: Pair) -> SweepFinding
    ensures apart { result ≡ SweepFinding.Apart → AreKindsApart pair rules.now }
    ensures clash { result ≡ SweepFinding.Clash → ¬ AreApart rules.now }
{
    match sweep(rules, pair) {
        SweepFinding::Apart => sweep(rules, pair.turned()),
        SweepFinding::Clash => SweepFinding::Clash,
        SweepFinding::Nothing => SweepFinding::Nothing,
    }
}

/// Sorts marked rules as a sweep over two kinds goes.
fn sort_for(marks: &mut Vec<MarkedRule>, pair: Pair)
    ensures permutation { IsPermutation marks.old.items marks.new.items }
    ensures order { IsSortedBy (λ m n. is_sooner (begin_of pair m) (begin_of pair n))
        marks.new.items }
    ensures room { vec_capacity marks.new ≡ vec_capacity marks.old }
{
    marks.sort_unstable_by(|a, b| pair.begin_of(a).compare(&pair.begin_of(b)));
}

/// Whether a rule of the one kind clashes with one of the other. The rules are sorted only where they don't stand as the
/// sweep goes: they do where one of the kinds has none.
fn tell_pair(marks: &mut Vec<MarkedRule>, pair: &Pair) -> SweepFinding
    ensures permutation { IsPermutation marks.old.items marks.new.items }
    ensures apart { result ≡ SweepFinding.Apart → AreKindsApart pair.now marks.new.items }
    ensures clash { result ≡ SweepFinding.Clash → ¬ AreApart marks.new.items }
    ensures room { vec_capacity marks.new ≡ vec_capacity marks.old }
{
    let told = sweep_both(marks, *pair);
    if !matches!(told, SweepFinding::Nothing) {
        return told;
    }
    sort_for(marks, *pair);
    sweep_both(marks, *pair)
}

/// Whether rules of two of the kinds clash.
fn tell_pairs(marks: &mut Vec<MarkedRule>, pairs: &[Pair]) -> SweepFinding
    ensures permutation { IsPermutation marks.old.items marks.new.items }
    ensures apart { (pair : PairModel) → result ≡ SweepFinding.Apart → IsIn pair pairs.now
        → AreKindsApart pair marks.new.items }
    ensures clash { result ≡ SweepFinding.Clash → ¬ AreApart marks.new.items }
    ensures room { vec_capacity marks.new ≡ vec_capacity marks.old }
{
    for pair in pairs {
        match tell_pair(marks, pair) {
            SweepFinding::Apart => {}
            SweepFinding::Clash => return SweepFinding::Clash,
            SweepFinding::Nothing => return SweepFinding::Nothing,
        }
    }
    SweepFinding::Apart
}

/// Two kinds.
fn pair_of(one: Kind, two: Kind) -> Pair
    ensures { result ≡ record { one = one; two = two } }
{
    Pair { one, two }
}

/// Whether two marked rules clash, by kinds.
fn tell(marks: &mut Vec<MarkedRule>) -> SweepFinding
    ensures permutation { IsPermutation marks.old.items marks.new.items }
    ensures apart { result ≡ SweepFinding.Apart → AreApart marks.new.items }
    ensures clash { result ≡ SweepFinding.Clash → ¬ AreApart marks.new.items }
    ensures room { vec_capacity marks.new ≡ vec_capacity marks.old }
{
    let pairs = [
        pair_of(Kind::Address, Kind::Address),
        pair_of(Kind::Port, Kind::Port),
        pair_of(Kind::Vlan, Kind::Vlan),
        pair_of(Kind::Both, Kind::Both),
        pair_of(Kind::Port, Kind::Both),
        pair_of(Kind::Vlan, Kind::Both),
        pair_of(Kind::Address, Kind::Port),
        pair_of(Kind::Address, Kind::Vlan),
        pair_of(Kind::Address, Kind::Both),
        pair_of(Kind::Port, Kind::Vlan),
    ];
    tell_pairs(marks, &pairs)
}

/// Whether no two marked rules clash, by kinds. Rules of one kind are apart from each other as they stand where they stand by
/// their keys; for kinds that both have rules these are sorted three times at most. So it takes n log n: a sweep over rules
/// sorted for it always tells, and it is only where none did that each two rules would be compared.
pub fn are_apart_by_kind(marks: &mut Vec<MarkedRule>) -> bool
    ensures permutation { IsPermutation marks.old.items marks.new.items }
    ensures apart { IsTrue result ↔ AreApart marks.new.items }
    ensures room { vec_capacity marks.new ≡ vec_capacity marks.old }
{
    match tell(marks) {
        SweepFinding::Apart => true,
        SweepFinding::Clash => false,
        SweepFinding::Nothing => least_clash(marks).is_none(),
    }
}
