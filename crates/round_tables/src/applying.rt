//! The changes of a round are made in the tables, switch by switch.
ghost use Rattle.std.specs.Prelude.{◌≡◌, ◌≢◌, suc, ◌<◌, ◌≤◌, ◌^◌, [], true, false, length, vec_capacity};
ghost use Rattle.net_base.specs.declared.ids.SwitchId.{SwitchId as Switch};
ghost use Rattle.update_model.specs.Changes.{AppliesTo, rules_after, rules_after_change, spare_after_change};
ghost use Rattle.update_model.specs.Mixtures.{is_insert, need_of, is_delete, is_replace};
ghost use Rattle.round_mix.specs.Prepared.{AreGood};
ghost use Rattle.round_tables.specs.PreparedTables.{HoldsRounds, StandsBefore, IsMixed, is_touched, limit_at, list_at, mix_at, room_of, rules_there, table_at};
ghost use Rattle.round_tables.specs.Loading.{ArePrepared, insert_count};
ghost use Rattle.round_tables.specs.ByKind.{deleted_rules, replacing_rules, inserts};

use crate::changed::keep_all_at;
use crate::gathering::SwitchChanges;
use crate::loading::keeps_keys;
use crate::prepared::PreparedTables;
use crate::rollout::Rollout;
use flow_rules::{Config, Rule, Table};
use net_base::SwitchId;
use round_mix::Mixed;
use update_model::Change;

/// Replaces the list by the rules that changes delete.
fn collect_deleted(changes: &[Change], rules: &mut Vec<Rule>)
    requires { length changes.now ≤ vec_capacity rules.old }
    ensures items { rules.new.items ≡ deleted_rules changes.now }
    ensures room { vec_capacity rules.old ≤ vec_capacity rules.new }
{
    rules.clear();
    for change in changes {
        if change.is_delete() {
            rules.push_reserved(change.rule());
        }
    }
}

/// Replaces the list by the rules that changes put in the place of others.
fn collect_replacing(changes: &[Change], rules: &mut Vec<Rule>)
    requires { length changes.now ≤ vec_capacity rules.old }
    ensures items { rules.new.items ≡ replacing_rules changes.now }
    ensures room { vec_capacity rules.old ≤ vec_capacity rules.new }
{
    rules.clear();
    for change in changes {
        if change.is_replace() {
            rules.push_reserved(change.rule());
        }
    }
}

/// Makes a change in a table that has room for it.
fn change_table(table: &mut Table, change: &Change)
    requires applies { AppliesTo table.old.rules change.now }
    requires room { is_insert change.now ≡ true → 1 ≤ table.old.spare }
    ensures rules { table.new.rules ≡ rules_after_change change.now table.old.rules }
    ensures spare { table.new.spare ≡ spare_after_change change.now table.old.spare }
    ensures room { room_of table.new ≡ room_of table.old }
{
    keeps_keys(table);
    change.apply_to(table);
}

/// Makes the inserts among the changes of a table.
fn insert_rules(table: &mut Table, changes: &[Change])
    requires good { AreGood table.old.rules (inserts changes.now) }
    requires fits { insert_count (inserts changes.now) ≤ table.old.spare }
    ensures rules { table.new.rules ≡ rules_after (inserts changes.now) table.old.rules }
    ensures room { room_of table.new ≡ room_of table.old }
{
    for change in changes {
        if change.is_insert() {
            change_table(table, change);
        }
    }
}

/// Makes good changes of a table one after the other. Each delete and each replace looks for its key.
fn change_in_turn(table: &mut Table, changes: &[Change])
    requires good { AreGood table.old.rules changes.now }
    requires fits { insert_count changes.now ≤ table.old.spare }
    ensures rules { table.new.rules ≡ rules_after changes.now table.old.rules }
    ensures room { room_of table.new ≡ room_of table.old }
{
    for change in changes {
        change_table(table, change);
    }
}

/// So many changes of a switch are made one after the other at most. More are faster made by kinds.
const MOST_IN_TURN: usize = 4;

/// Makes good changes of a table. Where they are many, first its deletes and then its replaces, each in one pass over the
/// table, and then its inserts.
fn change_rules(table: &mut Table, changes: &[Change], rules: &mut Vec<Rule>)
    requires good { AreGood table.old.rules changes.now }
    requires fits { insert_count changes.now ≤ table.old.spare }
    requires list { length changes.now ≤ vec_capacity rules.old }
    ensures rules { table.new.rules ≡ rules_after changes.now table.old.rules }
    ensures room { room_of table.new ≡ room_of table.old }
    ensures list { vec_capacity rules.old ≤ vec_capacity rules.new }
{
    if changes.len() <= MOST_IN_TURN {
        change_in_turn(table, changes);
        return;
    }
    collect_deleted(changes, rules);
    table.delete_all(rules);
    collect_replacing(changes, rules);
    table.replace_all(rules);
    insert_rules(table, changes);
}

/// Makes its changes at one of the switches.
fn change_switch(tables: &mut Config, switch: SwitchId, changes: &[Change], rules: &mut Vec<Rule>)
    requires within { switch.0 < length tables.old }
    requires good { AreGood (rules_there tables.old switch) changes.now }
    requires fits { insert_count changes.now ≤ (table_at tables.old switch).spare }
    requires list { length changes.now ≤ vec_capacity rules.old }
    ensures rules { rules_there tables.new switch
        ≡ rules_after changes.now (rules_there tables.old switch) }
    ensures room { room_of (table_at tables.new switch) ≡ room_of (table_at tables.old switch) }
    ensures others { (t : Switch) → t.0 ≢ switch.0 → table_at tables.new t ≡ table_at tables.old t }
    ensures count { length tables.new ≡ length tables.old }
    ensures list { vec_capacity rules.old ≤ vec_capacity rules.new }
{
    if changes.is_empty() {
        return;
    }
    change_rules(tables.table_mut(switch), changes, rules);
}

/// Makes their changes at all switches.
fn change_all(tables: &mut Config, lists: &[SwitchChanges], rules: &mut Vec<Rule>)
    requires few { length tables.old < 2 ^ 32 }
    requires lists { length lists.now ≡ length tables.old }
    requires good { (s : Switch) → s.0 < length tables.old
        → AreGood (rules_there tables.old s) (list_at lists.now s).changes }
    requires fits { (s : Switch) → s.0 < length tables.old
        → insert_count (list_at lists.now s).changes ≤ (table_at tables.old s).spare }
    requires list { (s : Switch) → s.0 < length tables.old
        → length (list_at lists.now s).changes ≤ vec_capacity rules.old }
    ensures rules { (s : Switch) → s.0 < length tables.old
        → rules_there tables.new s
        ≡ rules_after (list_at lists.now s).changes (rules_there tables.old s) }
    ensures room { (s : Switch) → room_of (table_at tables.new s)
        ≡ room_of (table_at tables.old s) }
    ensures count { length tables.new ≡ length tables.old }
    ensures list { vec_capacity rules.old ≤ vec_capacity rules.new }
{
    for i in 0..tables.count() as u32 {
        change_switch(tables, SwitchId(i), lists[i as usize].list(), rules);
    }
}

/// Prepares one of the switches, which is prepared for changes of its table, for the table after them.
fn keep_changes(mixes: &mut [Mixed], switch: SwitchId, table: &Table, changes: &[Change])
    requires within { switch.0 < length mixes.old }
    requires prepared { IsMixed table.now.rules changes.now (mix_at mixes.old switch) }
    ensures after { IsMixed (rules_after changes.now table.now.rules) [] (mix_at mixes.new switch) }
    ensures others { (t : Switch) → t.0 ≢ switch.0 → mix_at mixes.new t ≡ mix_at mixes.old t }
    ensures room { (mix_at mixes.old switch).room ≤ (mix_at mixes.new switch).room }
{
    keeps_keys(table);
    keep_all_at(mixes, switch, changes);
}

/// Prepares a switch, if it isn't touched, for the table after its changes.
fn keep_switch(
    mixes: &mut [Mixed],
    touched: &[bool],
    tables: &Config,
    lists: &[SwitchChanges],
    switch: SwitchId,
)
    requires within { switch.0 < length tables.now }
    requires mixes { length mixes.old ≡ length tables.now }
    requires touched { length touched.now ≡ length tables.now }
    requires lists { length lists.now ≡ length tables.now }
    requires prepared { IsMixed (rules_there tables.now switch) (list_at lists.now switch).changes
        (mix_at mixes.old switch) }
    ensures after { is_touched touched.now switch ≡ false
        → IsMixed (rules_after (list_at lists.now switch).changes (rules_there tables.now switch))
        [] (mix_at mixes.new switch) }
    ensures others { (t : Switch) → t.0 ≢ switch.0 → mix_at mixes.new t ≡ mix_at mixes.old t }
    ensures room { (mix_at mixes.old switch).room ≤ (mix_at mixes.new switch).room }
{
    if touched[switch.0 as usize] {
        return;
    }
    let changes = lists[switch.0 as usize].list();
    keep_changes(mixes, switch, tables.table(switch), changes);
}

/// Prepares each switch that isn't touched for its table after its changes.
fn keep_all(mixes: &mut [Mixed], touched: &[bool], tables: &Config, lists: &[SwitchChanges])
    requires few { length tables.now < 2 ^ 32 }
    requires mixes { length mixes.old ≡ length tables.now }
    requires touched { length touched.now ≡ length tables.now }
    requires lists { length lists.now ≡ length tables.now }
    requires prepared { (s : Switch) → s.0 < length tables.now
        → IsMixed (rules_there tables.now s) (list_at lists.now s).changes (mix_at mixes.old s) }
    ensures after { (s : Switch) → s.0 < length tables.now → is_touched touched.now s ≡ false
        → IsMixed (rules_after (list_at lists.now s).changes (rules_there tables.now s)) []
        (mix_at mixes.new s) }
    ensures room { (s : Switch) → (mix_at mixes.old s).room ≤ (mix_at mixes.new s).room }
{
    for i in 0..tables.count() as u32 {
        keep_switch(mixes, touched, tables, lists, SwitchId(i));
    }
}

impl PreparedTables {
    /// Makes the changes of round k, for which all switches are prepared. Each switch that it changes more than 16 times is
    /// to be prepared anew. The changes at a switch take time n log n together.
    pub fn apply_round(&mut self, update: &Rollout<'_>, k: usize)
        requires round { k < length update.now.rounds }
        requires room { HoldsRounds (length update.now.old) update.now.rounds self.old }
        requires prepared { ArePrepared update.now k self.old }
        requires fits { (s : Switch) → s.0 < length update.now.old
            → need_of update.now k s ≤ limit_at self.old.limits s }
        ensures stands { StandsBefore update.now (suc k) self.new }
        ensures room { HoldsRounds (length update.now.old) update.now.rounds self.new }
        ensures limits { self.new.limits ≡ self.old.limits }
    {
        let _ = k;
        keep_all(&mut self.mixes, &self.touched, &self.tables, &self.changes);
        change_all(&mut self.tables, &self.changes, &mut self.rules);
    }
}
