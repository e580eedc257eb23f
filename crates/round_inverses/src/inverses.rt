//! The rounds that take an update back.
ghost use Rattle.std.specs.Prelude.{◌≡◌, ◌<◌, length, IfOk, OnOk};
ghost use Rattle.flow_rules.specs.Tables.{rules_at, rules_of_all};
ghost use Rattle.update_model.specs.Changes.{tables_after, IsGoodRound};
ghost use Rattle.law_two_way_runs.specs.Inverse.{rule_with, inverse_of, inverse_round};
ghost use Rattle.round_inverses.specs.Rounds.{AreGoodFrom, inverse_rounds};

use flow_rules::{Config, Rule};
use net_base::Memory;
use std::alloc::Global;
use update_model::{Change, Rounds, change_tables};

/// The rule with the key of this one; this one where none has it. It looks at each rule.
fn rule_with(rules: &[Rule], rule: &Rule) -> Rule
    ensures { result ≡ rule_with rules.now rule.now.key rule.now }
{
    for one in rules {
        if one.key.is_same(&rule.key) {
            return *one;
        }
    }
    *rule
}

/// The change that takes a change back, where its switch had these rules before the round.
fn inverse_of(before: &[Rule], change: &Change) -> Change
    ensures { result ≡ inverse_of before.now change.now }
{
    match change {
        Change::Insert(switch, rule) => Change::Delete(*switch, *rule),
        Change::Delete(switch, rule) => Change::Insert(*switch, *rule),
        Change::Replace(switch, rule) => Change::Replace(*switch, rule_with(before, rule)),
    }
}

/// The inverse of a round that is begun over tables.
fn inverse_round(alloc: Global, tables: &Config, round: &[Change]) -> Result<Vec<Change>, Memory>
    requires { IsGoodRound (rules_of_all tables.now) round.now }
    ensures { IfOk result
        (λ v. v.items ≡ inverse_round (rules_of_all tables.now) round.now) }
{
    let mut inverse = Vec::new(alloc);
    let mut left = round.len();
    while left > 0 {
        left -= 1;
        let change = &round[left];
        let before = tables.table(change.switch()).rules();
        inverse.push(inverse_of(before, change))?;
    }
    Ok(inverse)
}

/// Makes the changes of a round.
fn apply_round(tables: &mut Config, round: &[Change]) -> Result<(), Memory>
    requires { IsGoodRound (rules_of_all tables.old) round.now }
    ensures { OnOk result
        (rules_of_all tables.new ≡ tables_after round.now (rules_of_all tables.old)) }
{
    for change in round {
        change_tables(tables, change)?;
    }
    Ok(())
}

/// For each of the rounds, which are good one after the other from these tables on, the round that takes it back. It costs a
/// look at the rules of a switch for each change.
pub fn inverse_rounds(alloc: Global, old: &Config, rounds: &Rounds) -> Result<Rounds, Memory>
    requires { AreGoodFrom (rules_of_all old.now) rounds.now }
    ensures { IfOk result (λ r. r ≡ inverse_rounds (rules_of_all old.now) rounds.now) }
{
    let mut tables = old.copy()?;
    let mut inverses = Rounds::make(alloc)?;
    for k in 0..rounds.count() {
        let round = rounds.round(k);
        inverses.push_round(inverse_round(alloc, &tables, round)?)?;
        apply_round(&mut tables, round)?;
    }
    Ok(inverses)
}
