//! The rules that a plan uses, each once, with their numbers.
ghost use Rattle.std.specs.Prelude.{◌≡◌, ◌++◌, ◌∷◌, [], length, take, slice_get, map, IfOk, OnOk, OnErr};
ghost use Rattle.plan_text.specs.PlanText.{rules_of, tried_of, used_rules, plan_rule_of, rule_number};
ghost use Rattle.plan_text.specs.Uses.{with_use, with_uses};

use certificates::{Evidence, Plan};
use indexmap::IndexSet;
use net_base::Memory;
use plan_format::PlanRule;
use std::alloc::Global;
use std::marker::Model;
use update_model::{Change, Rounds};

/// Rules at their switches, each once, in order of first use.
#[derive(Drop)]
pub struct UsedRules {
    set: IndexSet<PlanRule>,
}

impl Model for UsedRules {
    ghost use Rattle.std.specs.Prelude.{List};
    ghost use Rattle.plan_format.specs.declared.rules.PlanRule.{PlanRule};

    ghost Value = { List PlanRule };

    ghost view = { λ u. u.set.keys };
}

impl UsedRules {
    /// No rules.
    fn make(alloc: Global) -> UsedRules
        ensures { result ≡ [] }
    {
        UsedRules {
            set: IndexSet::new(alloc),
        }
    }

    /// One use more.
    fn add(&mut self, rule: PlanRule) -> Result<(), Memory>
        ensures { OnOk result (self.new ≡ with_use self.old rule) }
    {
        self.set.insert(rule)?;
        Ok(())
    }

    /// The uses of a round.
    fn add_round(&mut self, round: &[Change]) -> Result<(), Memory>
        ensures { OnOk result (self.new ≡ with_uses self.old (map plan_rule_of round.now)) }
    {
        for change in round {
            self.add(plan_rule_of(change))?;
        }
        Ok(())
    }

    /// The uses of rounds.
    fn add_rounds(&mut self, rounds: &Rounds) -> Result<(), Memory>
        ensures { OnOk result (self.new ≡ with_uses self.old (rules_of rounds.now)) }
    {
        for k in 0..rounds.count() {
            self.add_round(rounds.round(k))?;
        }
        Ok(())
    }

    /// The uses of the rounds that were tried.
    fn add_tried(&mut self, evidence: &Evidence) -> Result<(), Memory>
        ensures { OnOk result (self.new ≡ with_uses self.old (rules_of (tried_of evidence.now))) }
    {
        match evidence {
            Evidence::Ordered(_) => Ok(()),
            Evidence::TwoPhase(evidence) => self.add_rounds(&evidence.tried),
        }
    }

    /// The rules that a plan uses.
    #[tactic(auto, using(crate::proofs::UsedRules::plan_uses), unfolding(crate::specs::PlanText::used_rules))]
    pub fn of_plan(alloc: Global, plan: &Plan) -> Result<UsedRules, Memory>
        ensures { IfOk result (λ used. used ≡ used_rules plan.now) }
    {
        let mut used = UsedRules::make(alloc);
        used.add_rounds(&plan.rounds)?;
        used.add_tried(&plan.evidence)?;
        Ok(used)
    }

    /// The number of a rule, from 0; 0 where it isn't in use.
    pub fn number(&self, rule: PlanRule) -> usize
        ensures { result ≡ rule_number self.now rule }
    {
        self.set.get_index_of(&rule).unwrap_or(0)
    }

    /// The rules, in order of first use.
    pub fn list(&self) -> &[PlanRule]
        ensures { result.now ≡ self.now }
    {
        self.set.as_slice()
    }
}

/// The rule of a change at its switch.
pub fn plan_rule_of(change: &Change) -> PlanRule
    ensures { result ≡ plan_rule_of change.now }
{
    PlanRule {
        switch: change.switch(),
        rule: change.rule(),
    }
}
