//! The ingress rules of each switch with their depths, and the rounds that lay those of one depth or take them away.
ghost use Rattle.std.specs.Prelude.{◌≡◌, ◌==◌, ◌<◌, ◌≤◌, ◌++◌, ◌∷◌, [], List, IfOk, OnOk, length, map, filter, flat_map, get_or, suc};
ghost use Rattle.std.specs.List.{AllByRecursion};
ghost use Rattle.net_base.specs.declared.ids.SwitchId.{SwitchId};
ghost use Rattle.topology.specs.Networks.{switch_count};
ghost use Rattle.flow_rules.specs.Overlaps.{patterns_meet};
ghost use Rattle.flow_rules.specs.Tables.{IsTable, rules_at};
ghost use Rattle.flow_rules.specs.declared.rules.Rule.{Rule};
ghost use Rattle.two_phase.specs.TwoPhasePlan.{by_switch, in_key_order};
ghost use Rattle.two_phase.specs.SwitchRules.{AreOrdered, change_by};
ghost use Rattle.two_phase.specs.Depths.{is_above, greatest, depth_of};
ghost use Rattle.two_phase.specs.DeepRules.{AreDeep, deep_rules};

use crate::switch_rules::{Step, SwitchRules, change};
use flow_rules::{Key, Pattern, Rule};
use net_base::{Memory, SwitchId};
use std::alloc::Global;
use std::marker::Model;
use topology::Net;
use update_model::Change;

/// A rule with its depth.
#[derive(Clone, Copy)]
pub(crate) struct DeepRule {
    pub rule: Rule,
    pub depth: usize,
}

/// Whether some packet is covered by both patterns: keys of one priority clash exactly there.
fn do_meet(a: Pattern, b: Pattern) -> bool
    ensures { result ≡ patterns_meet a b }
{
    let one = Key {
        priority: 0,
        pattern: a,
    };
    let other = Key {
        priority: 0,
        pattern: b,
    };
    one.clashes(&other)
}

/// Whether a rule is above another: it has the higher priority, and some packet is covered by both.
fn is_above(x: &Rule, y: &Rule) -> bool
    ensures { result ≡ is_above x.now y.now }
{
    y.key.priority < x.key.priority && do_meet(x.key.pattern, y.key.pattern)
}

/// The depth of a rule behind those of higher priority: one more than the greatest depth of those above it.
fn next_depth(before: &[DeepRule], rule: &Rule) -> usize
    requires { AllByRecursion (λ d. d.depth < length before.now) before.now }
    ensures value { result
        ≡ greatest (map (λ d. suc d.depth) (filter (λ d. is_above d.rule rule.now) before.now)) }
    ensures few { result ≤ length before.now }
{
    let mut depth = 0;
    for other in before {
        if depth <= other.depth && is_above(&other.rule, rule) {
            depth = other.depth + 1;
        }
    }
    depth
}

/// The rules of a switch, which are in key order, with their depths. It takes time by the square of their number.
fn deepened(alloc: Global, rules: &[Rule]) -> Result<Vec<DeepRule>, Memory>
    ensures { (all : List Rule) → IsTable all → rules.now ≡ in_key_order all
        → IfOk result (λ v. v.items ≡ deep_rules all) }
{
    let mut deep = Vec::new(alloc);
    for rule in rules {
        let depth = next_depth(&deep, rule);
        deep.push(DeepRule { rule: *rule, depth })?;
    }
    Ok(deep)
}

/// A list of rules with their depths for each switch.
#[derive(Drop)]
pub(crate) struct DeepRules {
    lists: Vec<Vec<DeepRule>>,
}

impl Model for DeepRules {
    ghost use Rattle.std.specs.Prelude.{List, map};
    ghost use Rattle.two_phase.specs.declared.deep_rules.DeepRule.{DeepRule};

    ghost Value = { List (List DeepRule) };

    ghost view = { λ d. map (λ rules. rules.items) d.lists.items };
}

/// The greatest depth of some rules, or the number if that is greater.
fn greatest_depth(depth: usize, rules: &[DeepRule]) -> usize
    ensures { result ≡ greatest (depth ∷ map (λ d. d.depth) rules.now) }
{
    let mut greatest = depth;
    for rule in rules {
        greatest = greatest.max(rule.depth);
    }
    greatest
}

/// Adds a change of each rule of one depth at a switch.
fn add_changes_at(
    round: &mut Vec<Change>,
    step: Step,
    s: SwitchId,
    rules: &[DeepRule],
    depth: usize,
) -> Result<(), Memory>
    ensures { OnOk result
        (round.new.items ≡ round.old.items
        ++ map (λ d. change_by step s d.rule) (filter (λ d. d.depth == depth) rules.now)) }
{
    for rule in rules {
        if rule.depth == depth {
            round.push(change(step, s, rule.rule))?;
        }
    }
    Ok(())
}

impl DeepRules {
    /// No list.
    fn new(alloc: Global) -> DeepRules
        ensures { result ≡ [] }
    {
        DeepRules {
            lists: Vec::new(alloc),
        }
    }

    /// The list of the next switch.
    fn push(&mut self, rules: Vec<DeepRule>) -> Result<(), Memory>
        ensures { OnOk result (self.new ≡ self.old ++ rules.items ∷ []) }
    {
        self.lists.push(rules)?;
        Ok(())
    }

    /// The rules of a switch.
    fn rules(&self, s: SwitchId) -> &[DeepRule]
        requires { s.0 < length self.now }
        ensures { result.now ≡ get_or self.now s.0 [] }
    {
        &self.lists[s.0 as usize]
    }

    /// The greatest depth of all rules, 0 where there is none.
    pub(crate) fn greatest(&self) -> usize
        ensures { result ≡ greatest (flat_map (λ rules. map (λ d. d.depth) rules) self.now) }
    {
        let mut greatest = 0;
        for rules in &self.lists {
            greatest = greatest_depth(greatest, rules);
        }
        greatest
    }

    /// The round that lays the rules of one depth, or takes them away, by switch and then in key order. It takes time by the
    /// number of all rules.
    pub(crate) fn round_at(
        &self,
        alloc: Global,
        net: &Net,
        step: Step,
        depth: usize,
    ) -> Result<Vec<Change>, Memory>
        requires { length self.now ≡ switch_count net.now }
        ensures { (rules : SwitchId → List Rule) → AreDeep net.now rules self.now
            → IfOk result
            (λ v. v.items
            ≡ by_switch net.now (change_by step)
            (λ s. filter (λ r. depth_of (rules s) r == depth) (rules s))) }
    {
        let mut round = Vec::new(alloc);
        for number in 0..net.switches() {
            let s = SwitchId(number);
            add_changes_at(&mut round, step, s, self.rules(s), depth)?;
        }
        Ok(round)
    }
}

/// The rules of all switches with their depths. It takes time by the square of the number of rules of each switch.
pub(crate) fn deepen(alloc: Global, net: &Net, rules: &SwitchRules) -> Result<DeepRules, Memory>
    requires { length rules.now ≡ switch_count net.now }
    ensures deep { (given : SwitchId → List Rule) → AreOrdered net.now given rules.now
        → IfOk result (λ d. AreDeep net.now given d) }
    ensures count { IfOk result (λ d. length d ≡ switch_count net.now) }
{
    let mut all = DeepRules::new(alloc);
    for number in 0..net.switches() {
        all.push(deepened(alloc, rules.rules(SwitchId(number)))?)?;
    }
    Ok(all)
}
