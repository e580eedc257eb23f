//! Rules of entries, added to the tables of their switches.
ghost use Rattle.std.specs.Prelude.{◌≡◌, ◌+◌, ◌<◌, ◌≤◌, ◌^◌, ◌++◌, ◌∷◌, [], Ok, OnOk, MatchResult, length};
ghost use Rattle.net_base.specs.Blocks.{IsBlock};
ghost use Rattle.net_base.specs.Reading.{Fails, in_turn};
ghost use Rattle.flow_rules.specs.Tables.{rules_of_all};
ghost use Rattle.flow_stats.specs.declared.fault.StatsFault.TheVariants.{Memory};
ghost use Rattle.flow_stats.specs.Index.{AreIndexed, IsIndexOf, Adds, is_mark_at};
ghost use Rattle.flow_stats.specs.Tables as tables;

use crate::entries::Entry;
use crate::fault::StatsFault;
use crate::index::RuleIndex;
use crate::profile::read_rule;
use flow_rules::{Config, Rule, Table};
use net_base::{SwitchId, place_of};
use topology::Net;

const MAX_ENTRIES: u32 = 2048;

/// Adds a rule to the table of a switch.
#[tactic(auto, unfolding(crate::specs::Tables::rules_with))]
fn add_rule(
    table: &mut Table,
    index: &mut RuleIndex,
    place: u32,
    switch: SwitchId,
    rule: Rule,
) -> Result<(), StatsFault>
    requires { IsIndexOf switch table.old.rules index.old }
    ensures read { MatchResult result
        (λ _. tables.rules_with place table.old.rules rule ≡ Ok table.new.rules)
        (λ e. Fails Memory e (tables.rules_with place table.old.rules rule)) }
    ensures index { OnOk result ((table.new.rules ≡ table.old.rules ++ rule ∷ [])
        × Adds index.old (is_mark_at switch rule.key) index.new × IsBlock rule.key.pattern.dst) }
{
    if index.has_key(switch, &rule.key) {
        return Err(StatsFault::KeyTwice(place));
    }
    if index.has_clash(switch, &rule.key) {
        return Err(StatsFault::Overlap(place));
    }
    table.reserve(1)?;
    index.add(switch, &rule.key)?;
    table.insert(rule);
    Ok(())
}

/// Adds a rule to the table of its switch.
#[tactic(auto, unfolding(crate::specs::Tables::with_rule))]
fn add_to(
    config: &mut Config,
    index: &mut RuleIndex,
    place: u32,
    switch: SwitchId,
    rule: Rule,
) -> Result<(), StatsFault>
    requires within { switch.0 < length config.old }
    requires index { AreIndexed (rules_of_all config.old) index.old }
    ensures read { let read = tables.with_rule place (rules_of_all config.old) switch rule in
        MatchResult result (λ _. read ≡ Ok (rules_of_all config.new)) (λ e. Fails Memory e read) }
    ensures index { OnOk result (AreIndexed (rules_of_all config.new) index.new) }
    ensures count { length config.new ≡ length config.old }
{
    add_rule(config.table_mut(switch), index, place, switch, rule)
}

/// Reads an entry of a switch into its table.
#[tactic(auto, unfolding(crate::specs::Tables::entry_at))]
fn add_entry(
    net: &Net,
    config: &mut Config,
    index: &mut RuleIndex,
    place: u32,
    switch: SwitchId,
    entry: &Entry,
) -> Result<(), StatsFault>
    requires within { switch.0 < length config.old }
    requires index { AreIndexed (rules_of_all config.old) index.old }
    ensures read { let read = tables.entry_at net.now switch place (rules_of_all config.old)
        entry.now in
        MatchResult result (λ _. read ≡ Ok (rules_of_all config.new)) (λ e. Fails Memory e read) }
    ensures index { OnOk result (AreIndexed (rules_of_all config.new) index.new) }
    ensures few { OnOk result (place < 2048) }
    ensures count { length config.new ≡ length config.old }
{
    if place >= MAX_ENTRIES {
        return Err(StatsFault::TooMany);
    }
    let rule = read_rule(net, place, switch, entry)?;
    add_to(config, index, place, switch, rule)
}

/// Reads the entries of a switch into its table, one after the other, of which the first has this number over the file.
pub fn add_entries(
    net: &Net,
    config: &mut Config,
    index: &mut RuleIndex,
    first: usize,
    switch: SwitchId,
    entries: &[Entry],
) -> Result<(), StatsFault>
    requires within { switch.0 < length config.old }
    requires index { AreIndexed (rules_of_all config.old) index.old }
    requires first { first ≤ 2048 }
    ensures read { let read = in_turn (tables.entry_at net.now switch) first
        (rules_of_all config.old) entries.now in
        MatchResult result (λ _. read ≡ Ok (rules_of_all config.new)) (λ e. Fails Memory e read) }
    ensures index { OnOk result (AreIndexed (rules_of_all config.new) index.new) }
    ensures few { OnOk result (first + length entries.now ≤ 2048) }
    ensures count { length config.new ≡ length config.old }
{
    for (i, entry) in entries.iter().enumerate() {
        add_entry(net, config, index, place_of(first + i), switch, entry)?;
    }
    Ok(())
}
