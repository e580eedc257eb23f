//! Whether a plan is one that a plan file may hold.
ghost use Rattle.std.specs.Prelude.{◌≡◌, ◌↔◌, ◌≤◌, ◌<◌, ℕ, false, IsTrue, length, min, ◌^◌, ◌-◌, sum_by, slice_index_or};
ghost use Rattle.std.specs.List.{AllByRecursion};
ghost use Rattle.net_base.specs.Blocks.{IsBlock};
ghost use Rattle.topology.specs.Networks.{IsPortNumber, IsVlan, switch_count};
ghost use Rattle.update_model.specs.Ranges.{IsPlanPort, IsPlanVlan, IsPlanAction, IsPlanRewrite, IsPlanChange};
ghost use Rattle.update_model.specs.Changes.{rule_of};
ghost use Rattle.certificates.specs.Valid.{IsChain, IsPickBefore, IsVlanBefore, IsValidOrdered, IsValidTwoPhase, IsValidEvidence, IsValidPlan, IsValidNumbering, IsValidBefore, IsValidUse, IsValidPick, IsValidTable, IsValidLabelPick};

use crate::{
    Evidence, Label, LabelPick, Labels, OrderedEvidence, OrderedPick, Plan, Shared,
    TwoPhaseEvidence,
};
use acyclic_numbering::Numbering;
use flow_rules::{Action, Rewrite, Rule, VlanTest};
use net_base::{MAX_PORT, Port, Prefix, Vlan};
use topology::{Net, is_vlan_id};
use update_model::{Change, Rounds};
use waypoint_evidence::Before;

const MAX_ROUNDS: usize = 4200;

const MAX_TRIED: usize = 4096;

const MAX_CHANGES: u64 = 2200000;

const MAX_CLASS: u32 = 8191;

fn is_port_number(port: u16) -> bool
    ensures { IsTrue result ↔ IsPortNumber port }
{
    1 <= port && u64::from(port) <= MAX_PORT
}

fn is_vlan(vlan: Vlan) -> bool
    ensures { IsTrue result ↔ IsVlan vlan }
{
    match vlan {
        Vlan::Untagged => true,
        Vlan::Id(id) => is_vlan_id(u64::from(id)),
    }
}

fn is_plan_port(port: Option<Port>) -> bool
    ensures { IsTrue result ↔ IsPlanPort port }
{
    match port {
        None => true,
        Some(port) => is_port_number(port.0),
    }
}

fn is_plan_vlan(vlan: VlanTest) -> bool
    ensures { IsTrue result ↔ IsPlanVlan vlan }
{
    match vlan {
        VlanTest::Any => true,
        VlanTest::Untagged => true,
        VlanTest::Id(id) => is_vlan_id(u64::from(id)),
    }
}

fn is_plan_rewrite(rewrite: Rewrite) -> bool
    ensures { IsTrue result ↔ IsPlanRewrite rewrite }
{
    match rewrite {
        Rewrite::Keep => true,
        Rewrite::Set(id) => is_vlan_id(u64::from(id)),
        Rewrite::Strip => true,
    }
}

fn is_plan_action(action: Action) -> bool
    ensures { IsTrue result ↔ IsPlanAction action }
{
    match action {
        Action::Discard => true,
        Action::Out(port, rewrite) => is_port_number(port.0) && is_plan_rewrite(rewrite),
    }
}

/// Does nothing: its contract says what every prefix keeps.
fn keeps_bits(prefix: Prefix)
    ensures { IsBlock prefix }
{
    let _ = prefix.base;
}

/// The rule of a change.
fn rule_of_change(change: &Change) -> &Rule
    ensures { result.now ≡ rule_of change.now }
{
    match change {
        Change::Insert(_, rule) => rule,
        Change::Delete(_, rule) => rule,
        Change::Replace(_, rule) => rule,
    }
}

/// Whether a change names a switch of the network, and its numbers are in range.
fn is_plan_change(net: &Net, change: &Change) -> bool
    ensures { IsTrue result ↔ IsPlanChange net.now change.now }
{
    let rule = rule_of_change(change);
    let pattern = rule.key.pattern;
    keeps_bits(pattern.dst);
    change.switch().0 < net.switches()
        && rule.key.priority >= 1
        && is_plan_port(pattern.in_port)
        && is_plan_vlan(pattern.vlan)
        && is_plan_action(rule.action)
}

fn are_plan_changes(net: &Net, changes: &[Change]) -> bool
    ensures { IsTrue result ↔ AllByRecursion (IsPlanChange net.now) changes.now }
{
    for change in changes {
        if !is_plan_change(net, change) {
            return false;
        }
    }
    true
}

fn are_plan_rounds(net: &Net, rounds: &Rounds) -> bool
    ensures { IsTrue result ↔ AllByRecursion (AllByRecursion (IsPlanChange net.now)) rounds.now }
{
    for k in 0..rounds.count() {
        if !are_plan_changes(net, rounds.round(k)) {
            return false;
        }
    }
    true
}

/// How many changes the rounds have; the greatest number where there are more.
fn change_count(rounds: &Rounds) -> u64
    ensures { result ≡ min (sum_by length rounds.now) (2 ^ 64 - 1) }
{
    let mut count = 0u64;
    for k in 0..rounds.count() {
        count = count.saturating_add(rounds.round(k).len() as u64);
    }
    count
}

/// Does nothing: its contract says what numbers of 16 bits keep.
fn keeps_range(_numbers: &[u16])
    ensures { AllByRecursion (λ x. x ≤ 65535) _numbers.now }
{}

/// Whether there is one number for each switch.
fn is_valid_numbering(net: &Net, numbering: &Numbering) -> bool
    ensures { IsTrue result ↔ IsValidNumbering net.now numbering.now }
{
    let numbers = numbering.list();
    keeps_range(numbers);
    numbers.len() == net.switches() as usize
}

/// Whether no mark is on from a number on.
fn none_from(marks: &[bool], first: usize) -> bool
    ensures { IsTrue result ↔ ((k : ℕ) → first ≤ k → k < length marks.now
        → slice_index_or marks.now k false ≡ false) }
{
    for k in first..marks.len() {
        if marks[k] {
            return false;
        }
    }
    true
}

/// Whether a set has switches of the network alone.
fn is_valid_before(net: &Net, before: &Before) -> bool
    ensures { IsTrue result ↔ IsValidBefore net.now before.now }
{
    none_from(&before.marks(), net.switches() as usize)
}

/// Whether all numbers are below a count.
fn are_below(numbers: &[u64], count: usize) -> bool
    ensures { IsTrue result ↔ AllByRecursion (λ i. i < count) numbers.now }
{
    for number in numbers {
        if *number >= count as u64 {
            return false;
        }
    }
    true
}

fn is_valid_use(shared: &Shared, numberings: usize, befores: usize) -> bool
    ensures { IsTrue result ↔ IsValidUse numberings befores shared.now }
{
    (shared.numbering as usize) < numberings && are_below(shared.befores.list(), befores)
}

fn is_valid_pick(pick: OrderedPick, rounds: usize, uses: usize) -> bool
    ensures { IsTrue result ↔ IsValidPick rounds uses pick }
{
    pick.round >= 1
        && pick.round as usize <= rounds
        && pick.class <= MAX_CLASS
        && (pick.shared as usize) < uses
}

/// Whether one pick comes before another, by round and then by class.
fn is_pick_before(p: OrderedPick, q: OrderedPick) -> bool
    ensures { IsTrue result ↔ IsPickBefore p q }
{
    p.round < q.round || (p.round == q.round && p.class < q.class)
}

fn are_ascending(picks: &[OrderedPick]) -> bool
    ensures { IsTrue result ↔ IsChain IsPickBefore picks.now }
{
    for k in 1..picks.len() {
        if !is_pick_before(picks[k - 1], picks[k]) {
            return false;
        }
    }
    true
}

fn are_valid_numberings(net: &Net, numberings: &[Numbering]) -> bool
    ensures { IsTrue result ↔ AllByRecursion (IsValidNumbering net.now) numberings.now }
{
    for numbering in numberings {
        if !is_valid_numbering(net, numbering) {
            return false;
        }
    }
    true
}

fn are_valid_befores(net: &Net, befores: &[Before]) -> bool
    ensures { IsTrue result ↔ AllByRecursion (IsValidBefore net.now) befores.now }
{
    for before in befores {
        if !is_valid_before(net, before) {
            return false;
        }
    }
    true
}

fn are_valid_uses(uses: &[Shared], numberings: usize, befores: usize) -> bool
    ensures { IsTrue result ↔ AllByRecursion (IsValidUse numberings befores) uses.now }
{
    for shared in uses {
        if !is_valid_use(shared, numberings, befores) {
            return false;
        }
    }
    true
}

fn are_valid_picks(picks: &[OrderedPick], rounds: usize, uses: usize) -> bool
    ensures { IsTrue result ↔ AllByRecursion (IsValidPick rounds uses) picks.now }
{
    for pick in picks {
        if !is_valid_pick(*pick, rounds, uses) {
            return false;
        }
    }
    true
}

fn is_valid_ordered(net: &Net, rounds: usize, evidence: &OrderedEvidence) -> bool
    ensures { IsTrue result ↔ IsValidOrdered net.now rounds evidence.now }
{
    let numberings = evidence.numberings.list();
    let befores = evidence.befores.list();
    let uses = evidence.uses.list();
    let picks = evidence.picks.list();
    are_valid_numberings(net, numberings)
        && are_valid_befores(net, befores)
        && are_valid_uses(uses, numberings.len(), befores.len())
        && are_valid_picks(picks, rounds, uses.len())
        && are_ascending(picks)
}

/// Whether one VLAN comes before another: untagged first, then by its id.
fn is_vlan_before(a: Vlan, b: Vlan) -> bool
    ensures { IsTrue result ↔ IsVlanBefore a b }
{
    match (a, b) {
        (Vlan::Untagged, Vlan::Id(_)) => true,
        (Vlan::Id(m), Vlan::Id(n)) => m < n,
        _ => false,
    }
}

fn are_vlans_ascending(labels: &[Label]) -> bool
    ensures { IsTrue result ↔ IsChain (λ a b. IsVlanBefore a.vlan b.vlan) labels.now }
{
    for k in 1..labels.len() {
        if !is_vlan_before(labels[k - 1].vlan, labels[k].vlan) {
            return false;
        }
    }
    true
}

fn is_label(label: Label) -> bool
    ensures { IsTrue result ↔ (IsVlan label.vlan × IsVlan label.user) }
{
    is_vlan(label.vlan) && is_vlan(label.user)
}

fn are_labels(labels: &[Label]) -> bool
    ensures { IsTrue result ↔ AllByRecursion (λ l. IsVlan l.vlan × IsVlan l.user) labels.now }
{
    for label in labels {
        if !is_label(*label) {
            return false;
        }
    }
    true
}

fn is_valid_table(table: &Labels) -> bool
    ensures { IsTrue result ↔ IsValidTable table.now }
{
    are_labels(table.list()) && are_vlans_ascending(table.list())
}

fn are_valid_tables(tables: &[Labels]) -> bool
    ensures { IsTrue result ↔ AllByRecursion IsValidTable tables.now }
{
    for table in tables {
        if !is_valid_table(table) {
            return false;
        }
    }
    true
}

fn is_valid_label_pick(pick: LabelPick, rounds: usize, tables: usize) -> bool
    ensures { IsTrue result ↔ IsValidLabelPick rounds tables pick }
{
    pick.round >= 1 && pick.round as usize <= rounds && (pick.labels as usize) < tables
}

fn are_valid_label_picks(picks: &[LabelPick], rounds: usize, tables: usize) -> bool
    ensures { IsTrue result ↔ AllByRecursion (IsValidLabelPick rounds tables) picks.now }
{
    for pick in picks {
        if !is_valid_label_pick(*pick, rounds, tables) {
            return false;
        }
    }
    true
}

fn are_rounds_ascending(picks: &[LabelPick]) -> bool
    ensures { IsTrue result ↔ IsChain (λ p q. p.round < q.round) picks.now }
{
    for k in 1..picks.len() {
        if picks[k - 1].round >= picks[k].round {
            return false;
        }
    }
    true
}

fn is_valid_two_phase(net: &Net, rounds: &Rounds, evidence: &TwoPhaseEvidence) -> bool
    ensures { IsTrue result ↔ IsValidTwoPhase net.now (length rounds.now) (sum_by length rounds.now)
        evidence.now }
{
    let tables = evidence.labels.list();
    let picks = evidence.picks.list();
    let changes = change_count(rounds).saturating_add(change_count(&evidence.tried));
    are_valid_tables(tables)
        && are_valid_label_picks(picks, rounds.count(), tables.len())
        && are_rounds_ascending(picks)
        && evidence.tried.count() <= MAX_TRIED
        && changes <= MAX_CHANGES
        && are_plan_rounds(net, &evidence.tried)
}

fn is_valid_evidence(net: &Net, rounds: &Rounds, evidence: &Evidence) -> bool
    ensures { IsTrue result ↔ IsValidEvidence net.now (length rounds.now) (sum_by length rounds.now)
        evidence.now }
{
    match evidence {
        Evidence::Ordered(e) => is_valid_ordered(net, rounds.count(), e),
        Evidence::TwoPhase(e) => is_valid_two_phase(net, rounds, e),
    }
}

/// Whether a plan is one that a plan file may hold: at most 4200 rounds and 2,200,000 changes of switches of the
/// network with numbers in their ranges, and evidence whose numbers, indices and orders are in theirs. Takes no
/// memory, and a time that is linear in the plan.
pub fn valid(plan: &Plan, net: &Net) -> bool
    ensures { IsTrue result ↔ IsValidPlan net.now plan.now }
{
    plan.rounds.count() <= MAX_ROUNDS
        && change_count(&plan.rounds) <= MAX_CHANGES
        && are_plan_rounds(net, &plan.rounds)
        && is_valid_evidence(net, &plan.rounds, &plan.evidence)
}
