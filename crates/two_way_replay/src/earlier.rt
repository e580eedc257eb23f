//! Entries that are again what they were before a round.
ghost use Rattle.std.specs.Prelude.{◌≡◌, ◌<◌, ◌++◌, ◌∷◌, [], map, filter, not, Some, length, slice_get, slice_index_or, IfOk, OnErr, OnOk};
ghost use Rattle.flow_rules.specs.Patterns.{key_eq};
ghost use Rattle.flow_rules.specs.Tables.{rules_of_all};
ghost use Rattle.two_way_replay.specs.Actions.{action_after, entries_after_change, entries_after_round, actions_before};
ghost use Rattle.two_way_replay.specs.Entries.{with_entry, tables_with_entry, action_named, earlier_actions};

use flow_rules::{Action, Config, Key, Rule, Table};
use net_base::{Memory, SwitchId};
use std::alloc::Global;
use std::marker::Model;
use update_model::{Change, Rounds};

/// For each change of each round, the action that the entry that it names has before the round; none where there is none.
#[derive(Drop)]
pub(crate) struct EarlierActions {
    rounds: Vec<Vec<Option<Action>>>,
}

impl Model for EarlierActions {
    ghost use Rattle.std.specs.Prelude.{List, Option, map};
    ghost use Rattle.flow_rules.specs.declared.rules.Action.{Action};

    ghost Value = { List (List (Option Action)) };

    ghost view = { λ e. map (λ round. round.items) e.rounds.items };
}

/// Puts a rule in the place of the one with its key, or behind the others where there is none. After a refusal the rules are as
/// before.
fn put_entry(table: &mut Table, rule: Rule) -> Result<(), Memory>
    ensures ok { IfOk result
        (λ _. table.new.rules ≡ with_entry rule.key (Some rule.action) table.old.rules) }
    ensures err { OnErr result (table.new.rules ≡ table.old.rules) }
{
    match table.get(&rule.key) {
        Some(_) => table.replace(rule),
        None => {
            table.reserve(1)?;
            table.insert(rule);
        }
    }
    Ok(())
}

/// Takes out the rule with a key, if there is one.
fn take_entry(table: &mut Table, key: &Key)
    ensures { table.new.rules ≡ filter (λ q. not (key_eq q.key key.now)) table.old.rules }
{
    if table.has_key(key) {
        table.delete(key);
    }
}

/// The entry of a key gets an action, or is taken out. After a refusal the rules are as before.
fn give_entry(table: &mut Table, key: &Key, action: Option<Action>) -> Result<(), Memory>
    ensures ok { IfOk result (λ _. table.new.rules ≡ with_entry key.now action table.old.rules) }
    ensures err { OnErr result (table.new.rules ≡ table.old.rules) }
{
    match action {
        Some(action) => put_entry(table, Rule { key: *key, action }),
        None => {
            take_entry(table, key);
            Ok(())
        }
    }
}

/// The entry of a key at a switch that there is gets an action, or is taken out.
fn give_entry_in(
    tables: &mut Config,
    switch: SwitchId,
    key: &Key,
    action: Option<Action>,
) -> Result<(), Memory>
    requires { switch.0 < length tables.old }
    ensures ok { IfOk result (λ _. rules_of_all tables.new
        ≡ tables_with_entry switch key.now action (rules_of_all tables.old)) }
    ensures err { OnErr result (rules_of_all tables.new ≡ rules_of_all tables.old) }
{
    give_entry(tables.table_mut(switch), key, action)
}

/// The entry of a key at a switch gets an action, or is taken out; where there is no such switch, all is as before. After a
/// refusal the rules are as before.
pub(crate) fn give_entry_at(
    tables: &mut Config,
    switch: SwitchId,
    key: &Key,
    action: Option<Action>,
) -> Result<(), Memory>
    ensures ok { IfOk result (λ _. rules_of_all tables.new
        ≡ tables_with_entry switch key.now action (rules_of_all tables.old)) }
    ensures err { OnErr result (rules_of_all tables.new ≡ rules_of_all tables.old) }
{
    if (switch.0 as usize) < tables.count() {
        give_entry_in(tables, switch, key, action)
    } else {
        Ok(())
    }
}

/// The action of the entry that a change names; none where there is no such entry.
fn named_action(tables: &Config, change: &Change) -> Option<Action>
    ensures { result ≡ action_named (rules_of_all tables.now) change.now }
{
    let switch = change.switch();
    if (switch.0 as usize) < tables.count() {
        tables.table(switch).get(&change.rule().key)
    } else {
        None
    }
}

/// What a change makes of the action of the entry that it names.
fn action_after(change: &Change, action: Option<Action>) -> Option<Action>
    ensures { result ≡ action_after change.now action }
{
    match change {
        Change::Insert(_, rule) => Some(action.unwrap_or(rule.action)),
        Change::Delete(_, _) => None,
        Change::Replace(_, rule) => action.map(|_| rule.action),
    }
}

/// Makes a change, also where it doesn't apply.
fn carry_change(tables: &mut Config, change: &Change) -> Result<(), Memory>
    ensures { OnOk result (rules_of_all tables.new
        ≡ entries_after_change change.now (rules_of_all tables.old)) }
{
    let action = action_after(change, named_action(tables, change));
    give_entry_at(tables, change.switch(), &change.rule().key, action)
}

/// Makes the changes of a round.
fn carry_round(tables: &mut Config, round: &[Change]) -> Result<(), Memory>
    ensures { OnOk result (rules_of_all tables.new
        ≡ entries_after_round round.now (rules_of_all tables.old)) }
{
    for change in round {
        carry_change(tables, change)?;
    }
    Ok(())
}

/// The actions of the entries that the changes of a round name.
fn named_actions(
    alloc: Global,
    tables: &Config,
    round: &[Change],
) -> Result<Vec<Option<Action>>, Memory>
    ensures { IfOk result
        (λ v. v.items ≡ map (action_named (rules_of_all tables.now)) round.now) }
{
    let mut actions = Vec::new(alloc);
    for change in round {
        actions.push(named_action(tables, change))?;
    }
    Ok(actions)
}

impl EarlierActions {
    /// Those of no rounds.
    fn none(alloc: Global) -> EarlierActions
        ensures { result ≡ [] }
    {
        EarlierActions {
            rounds: Vec::new(alloc),
        }
    }

    /// Those of one more round.
    fn add(&mut self, actions: Vec<Option<Action>>) -> Result<(), Memory>
        ensures { OnOk result (self.new ≡ self.old ++ actions.items ∷ []) }
    {
        self.rounds.push(actions)?;
        Ok(())
    }

    /// Those of rounds that are carried out from these tables on.
    pub(crate) fn make(
        alloc: Global,
        old: &Config,
        rounds: &Rounds,
    ) -> Result<EarlierActions, Memory>
        ensures { IfOk result (λ e. e ≡ earlier_actions (rules_of_all old.now) rounds.now) }
    {
        let mut tables = old.copy()?;
        let mut earlier = EarlierActions::none(alloc);
        for k in 0..rounds.count() {
            let round = rounds.round(k);
            earlier.add(named_actions(alloc, &tables, round)?)?;
            carry_round(&mut tables, round)?;
        }
        Ok(earlier)
    }

    /// That of change i of round k, both from 0.
    pub(crate) fn action(&self, k: usize, i: usize) -> Option<Action>
        requires round { k < length self.now }
        requires change { i < length (slice_index_or self.now k []) }
        ensures { slice_get (slice_index_or self.now k []) i ≡ Some result }
    {
        self.rounds[k][i]
    }
}
