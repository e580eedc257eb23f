//! The rules of each switch in key order, and the rounds that lay them or take them away.
ghost use Rattle.std.specs.Prelude.{◌≡◌, ◌==◌, ◌<◌, ◌++◌, ◌∷◌, [], List, IfOk, OnOk, length, map, filter, flat_map};
ghost use Rattle.topology.specs.Networks.{switch_count};
ghost use Rattle.flow_rules.specs.Tables.{rules_at};
ghost use Rattle.flow_rules.specs.declared.rules.Rule.{Rule};
ghost use Rattle.net_base.specs.declared.ids.SwitchId.{SwitchId};
ghost use Rattle.two_phase.specs.TwoPhasePlan.{by_switch};
ghost use Rattle.two_phase.specs.SwitchRules.{AreOrdered, change_by};

use crate::blocks::of_priority;
use flow_rules::Rule;
use net_base::{Memory, SwitchId};
use std::alloc::Global;
use std::marker::Model;
use topology::Net;
use update_model::Change;

/// A list of rules for each switch.
#[derive(Drop)]
pub(crate) struct SwitchRules {
    lists: Vec<Vec<Rule>>,
}

impl Model for SwitchRules {
    ghost use Rattle.std.specs.Prelude.{List, map};
    ghost use Rattle.flow_rules.specs.declared.rules.Rule.{Rule};

    ghost Value = { List (List Rule) };

    ghost view = { λ r. map (λ rules. rules.items) r.lists.items };
}

/// What a round does with rules: it lays them, or takes them away.
#[derive(Clone, Copy)]
pub(crate) enum Step {
    Lay,
    Take,
}

impl SwitchRules {
    /// No list.
    pub(crate) fn new(alloc: Global) -> SwitchRules
        ensures { result ≡ [] }
    {
        SwitchRules {
            lists: Vec::new(alloc),
        }
    }

    /// The list of the next switch.
    pub(crate) fn push(&mut self, rules: Vec<Rule>) -> Result<(), Memory>
        ensures { OnOk result (self.new ≡ self.old ++ rules.items ∷ []) }
    {
        self.lists.push(rules)?;
        Ok(())
    }

    /// The rules of a switch.
    pub(crate) fn rules(&self, s: SwitchId) -> &[Rule]
        requires { s.0 < length self.now }
        ensures { result.now ≡ rules_at self.now s }
    {
        &self.lists[s.0 as usize]
    }

    /// All priorities of the rules, with repetitions, and one more before them.
    pub(crate) fn priorities(&self, first: u16) -> Result<Vec<usize>, Memory>
        ensures { IfOk result
            (λ v. v.items ≡ first ∷ flat_map (λ rules. map (λ r. r.key.priority) rules) self.now) }
    {
        let mut priorities = Vec::new(*self.lists.allocator());
        priorities.push(usize::from(first))?;
        for rules in &self.lists {
            add_priorities(&mut priorities, rules)?;
        }
        Ok(priorities)
    }
}

/// Adds the priorities of rules.
fn add_priorities(priorities: &mut Vec<usize>, rules: &[Rule]) -> Result<(), Memory>
    ensures { OnOk result
        (priorities.new.items ≡ priorities.old.items ++ map (λ r. r.key.priority) rules.now) }
{
    for rule in rules {
        priorities.push(usize::from(rule.key.priority))?;
    }
    Ok(())
}

/// What lays a rule at a switch, or takes it away.
pub(crate) fn change(step: Step, s: SwitchId, rule: Rule) -> Change
    ensures { result ≡ change_by step s rule }
{
    match step {
        Step::Lay => Change::Insert(s, rule),
        Step::Take => Change::Delete(s, rule),
    }
}

/// Adds a change of each rule at a switch.
fn add_changes(
    round: &mut Vec<Change>,
    step: Step,
    s: SwitchId,
    rules: &[Rule],
) -> Result<(), Memory>
    ensures { OnOk result (round.new.items ≡ round.old.items ++ map (change_by step s) rules.now) }
{
    for rule in rules {
        round.push(change(step, s, *rule))?;
    }
    Ok(())
}

impl SwitchRules {
    /// The round that lays all rules, or takes them away, by switch and then in key order.
    pub(crate) fn round(&self, alloc: Global, net: &Net, step: Step) -> Result<Vec<Change>, Memory>
        requires { length self.now ≡ switch_count net.now }
        ensures { (rules : SwitchId → List Rule) → AreOrdered net.now rules self.now
            → IfOk result (λ v. v.items ≡ by_switch net.now (change_by step) rules) }
    {
        let mut round = Vec::new(alloc);
        for number in 0..net.switches() {
            let s = SwitchId(number);
            add_changes(&mut round, step, s, self.rules(s))?;
        }
        Ok(round)
    }

    /// The round that lays the rules of one priority, or takes them away, by switch and then in key order. It takes time by
    /// their number, and the logarithm of the number of rules for each switch.
    pub(crate) fn round_of(
        &self,
        alloc: Global,
        net: &Net,
        step: Step,
        priority: usize,
    ) -> Result<Vec<Change>, Memory>
        requires { length self.now ≡ switch_count net.now }
        ensures { (rules : SwitchId → List Rule) → AreOrdered net.now rules self.now
            → IfOk result
            (λ v. v.items
            ≡ by_switch net.now (change_by step)
            (λ s. filter (λ r. r.key.priority == priority) (rules s))) }
    {
        let mut round = Vec::new(alloc);
        for number in 0..net.switches() {
            let s = SwitchId(number);
            add_changes(&mut round, step, s, of_priority(self.rules(s), priority))?;
        }
        Ok(round)
    }
}
