//! The reader of a configuration.
ghost use Rattle.std.specs.Prelude.{◌≡◌, ◌<◌, ◌↔◌, [], IsTrue, IfOk, Ok, MatchResult, MatchOption, find, length, map, replicate, option_map};
ghost use Rattle.std.specs.List.{list_any};
ghost use Rattle.flat_json.specs.Trees.{data_of};
ghost use Rattle.net_base.specs.Reading.{Gives, Fails, in_turn};
ghost use Rattle.topology.specs.Networks.{switch_count, capacity_of};
ghost use Rattle.flow_rules.specs.Overlaps.{keys_clash};
ghost use Rattle.flow_rules.specs.Patterns.{key_eq};
ghost use Rattle.flow_rules.specs.Tables.{rules_of_all, rules_at};
ghost use Rattle.path_walk.specs.UserConfigs.{IsUserConfig};
ghost use Rattle.config_files.specs.declared.fault.ConfigFault.TheVariants.{Memory};
ghost use Rattle.config_files.specs.Configuration as configuration;

use crate::fault::ConfigFault;
use crate::rules::read_rule;
use flat_json::{Node, Tree, parse_tree};
use flow_rules::{Config, Key, Rule, Table};
use json::Scratch;
use net_base::{Field, SwitchId, place_of};
use std::alloc::Global;
use topology::Net;

const MAX_RULES: u32 = 2048;

/// Whether one of the rules has the key.
fn has_key(rules: &[Rule], key: &Key) -> bool
    ensures { result ≡ list_any (λ q. key_eq q.key key.now) rules.now }
{
    rules.iter().any(|rule| rule.key.is_same(key))
}

/// Whether one of the rules has the key's priority and covers a common packet.
fn has_clash(rules: &[Rule], key: &Key) -> bool
    ensures { result ≡ list_any (λ q. keys_clash q.key key.now) rules.now }
{
    rules.iter().any(|rule| rule.key.clashes(key))
}

/// Adds a rule to a table.
#[tactic(auto, unfolding(crate::specs::Configuration::rules_with))]
fn add_rule(table: &mut Table, place: u32, rule: Rule) -> Result<(), ConfigFault>
    ensures { MatchResult result
        (λ _. configuration.rules_with place table.old.rules rule ≡ Ok table.new.rules)
        (λ e. Fails Memory e (configuration.rules_with place table.old.rules rule)) }
{
    if has_clash(table.rules(), &rule.key) {
        if has_key(table.rules(), &rule.key) {
            return Err(ConfigFault::KeyTwice(place));
        }
        return Err(ConfigFault::Overlap(place));
    }
    table.reserve(1)?;
    table.insert(rule);
    Ok(())
}

/// Adds a rule to the table of its switch.
#[tactic(auto, unfolding(crate::specs::Configuration::with_rule))]
fn add_to(config: &mut Config, place: u32, switch: SwitchId, rule: Rule) -> Result<(), ConfigFault>
    requires { switch.0 < length config.old }
    ensures read { MatchResult result
        (λ _. configuration.with_rule place (rules_of_all config.old) switch rule
        ≡ Ok (rules_of_all config.new))
        (λ e. Fails Memory e (configuration.with_rule place (rules_of_all config.old) switch
        rule)) }
    ensures count { length config.new ≡ length config.old }
{
    add_rule(config.table_mut(switch), place, rule)
}

/// Reads one rule of a switch into its table.
#[tactic(auto, unfolding(crate::specs::Configuration::rule_to))]
fn read_into(
    net: &Net,
    config: &mut Config,
    place: u32,
    switch: SwitchId,
    tree: &Tree<'_>,
    item: &Node,
) -> Result<(), ConfigFault>
    requires { switch.0 < length config.old }
    ensures read { MatchResult result
        (λ _. configuration.rule_to net.now place (rules_of_all config.old) switch
        (data_of tree.now item.now) ≡ Ok (rules_of_all config.new))
        (λ e. Fails Memory e (configuration.rule_to net.now place (rules_of_all config.old) switch
        (data_of tree.now item.now))) }
    ensures count { length config.new ≡ length config.old }
{
    let rule = read_rule(net, place, switch, tree, item)?;
    add_to(config, place, switch, rule)
}

/// Reads the switch of a rule.
#[tactic(auto, unfolding(crate::specs::Configuration::switch_in))]
fn read_switch(net: &Net, place: u32, tree: &Tree<'_>, item: &Node) -> Result<SwitchId, ConfigFault>
    ensures read { Gives Memory (λ s. s) result
        (configuration.switch_in place net.now (data_of tree.now item.now)) }
    ensures within { IfOk result (λ s. s.0 < switch_count net.now) }
{
    if place >= MAX_RULES {
        return Err(ConfigFault::TooMany(place));
    }
    if !tree.is_object(item) {
        return Err(ConfigFault::Shape(Field::Rules, place));
    }
    let name = tree
        .text_at(item, "switch")
        .ok_or(ConfigFault::Shape(Field::Switch, place))?;
    let switch = net.find(name).ok_or(ConfigFault::UnknownSwitch(place))?;
    Ok(switch)
}

/// Reads one rule into the table of its switch.
#[tactic(auto, unfolding(crate::specs::Configuration::rule_at))]
fn read_item(
    net: &Net,
    config: &mut Config,
    place: u32,
    tree: &Tree<'_>,
    item: &Node,
) -> Result<(), ConfigFault>
    requires { length config.old ≡ switch_count net.now }
    ensures read { MatchResult result
        (λ _. configuration.rule_at net.now place (rules_of_all config.old)
        (data_of tree.now item.now) ≡ Ok (rules_of_all config.new))
        (λ e. Fails Memory e (configuration.rule_at net.now place (rules_of_all config.old)
        (data_of tree.now item.now))) }
    ensures count { length config.new ≡ length config.old }
{
    let switch = read_switch(net, place, tree, item)?;
    read_into(net, config, place, switch, tree, item)
}

/// Reads the rules one after the other.
fn read_items(
    net: &Net,
    config: &mut Config,
    tree: &Tree<'_>,
    items: &[Node],
) -> Result<(), ConfigFault>
    requires { length config.old ≡ switch_count net.now }
    ensures read { let read = in_turn (configuration.rule_at net.now) 0 (rules_of_all config.old)
        (map (data_of tree.now) items.now) in
        MatchResult result (λ _. read ≡ Ok (rules_of_all config.new)) (λ e. Fails Memory e read) }
    ensures count { length config.new ≡ length config.old }
{
    for (i, item) in items.iter().enumerate() {
        read_item(net, config, place_of(i), tree, item)?;
    }
    Ok(())
}

/// Whether the table of the switch is longer than its capacity.
fn is_over(net: &Net, config: &Config, switch: SwitchId) -> bool
    requires within { switch.0 < switch_count net.now }
    requires tables { length config.now ≡ switch_count net.now }
    ensures { result ≡ configuration.is_over net.now (rules_of_all config.now) switch.0 }
{
    config.table(switch).rules().len() > net.capacity(switch) as usize
}

/// The least switch whose table is longer than its capacity.
pub fn over_capacity(net: &Net, config: &Config) -> Option<SwitchId>
    requires { length config.now ≡ switch_count net.now }
    ensures { option_map (λ s. s.0) result
        ≡ configuration.over_capacity net.now (rules_of_all config.now) }
{
    for s in 0..net.switches() {
        if is_over(net, config, SwitchId(s)) {
            return Some(SwitchId(s));
        }
    }
    None
}

/// The items of `rules`.
#[tactic(auto, unfolding(crate::specs::Configuration::items_in))]
fn items_of<'a>(tree: &'a Tree<'_>, top: &Node) -> Result<&'a [Node], ConfigFault>
    ensures { Gives Memory (λ items. map (data_of tree.now) items.now) result
        (configuration.items_in (data_of tree.now top.now)) }
{
    if !tree.is_object(top) {
        return Err(ConfigFault::Shape(Field::Top, 0));
    }
    tree.list_at(top, "rules")
        .ok_or(ConfigFault::Shape(Field::Rules, 0))
}

/// Reads the items into the tables, and makes their indexes.
#[tactic(auto, unfolding(crate::specs::Configuration::filled_in))]
fn fill(net: &Net, config: &mut Config, tree: &Tree<'_>, items: &[Node]) -> Result<(), ConfigFault>
    requires { length config.old ≡ switch_count net.now }
    ensures { let read = configuration.filled_in net.now (rules_of_all config.old)
        (map (data_of tree.now) items.now) in
        MatchResult result (λ _. read ≡ Ok (rules_of_all config.new)) (λ e. Fails Memory e read) }
{
    read_items(net, config, tree, items)?;
    if let Some(switch) = over_capacity(net, config) {
        return Err(ConfigFault::OverCapacity(switch));
    }
    config.index()?;
    Ok(())
}

/// Reads the tables of the file.
#[tactic(auto, unfolding(crate::specs::Configuration::tables_in))]
fn read_tables(alloc: Global, net: &Net, tree: &Tree<'_>, top: &Node) -> Result<Config, ConfigFault>
    ensures { Gives Memory rules_of_all result
        (configuration.tables_in net.now (data_of tree.now top.now)) }
{
    let items = items_of(tree, top)?;
    let mut config = Config::make(alloc, net.switches())?;
    match fill(net, &mut config, tree, items) {
        Ok(()) => Ok(config),
        Err(fault) => {
            drop(config);
            Err(fault)
        }
    }
}

/// Reads the tables that the bytes describe, with room for their texts.
#[tactic(auto, unfolding(crate::specs::Configuration::configuration_in))]
fn read_with(
    alloc: Global,
    net: &Net,
    bytes: &[u8],
    scratch: &mut Scratch,
) -> Result<Config, ConfigFault>
    ensures { Gives Memory rules_of_all result (configuration.configuration_in net.now bytes.now) }
{
    let tree = parse_tree(alloc, bytes, scratch)?;
    let read = read_tables(alloc, net, &tree, tree.top());
    drop(tree);
    read
}

/// The tables that the bytes describe.
fn read_bytes(alloc: Global, net: &Net, bytes: &[u8]) -> Result<Config, ConfigFault>
    ensures { Gives Memory rules_of_all result (configuration.configuration_in net.now bytes.now) }
{
    let mut scratch = Scratch::new(alloc);
    let read = read_with(alloc, net, bytes, &mut scratch);
    drop(scratch);
    read
}

/// The configuration of a network that the bytes describe: for each switch its rules in the order of the file. The first
/// check that fails is the refusal. The cost is that of the text, and of comparing each rule with those before it at its
/// switch, of which there are at most 2047. Look-ups in its tables search by the kinds of patterns.
pub fn read_config(alloc: Global, net: &Net, bytes: &[u8]) -> Result<Config, ConfigFault>
    ensures read { Gives Memory rules_of_all result
        (configuration.configuration_in net.now bytes.now) }
    // What was read is what a user may write.
    ensures user { IfOk result (λ c. IsUserConfig net.now (rules_of_all c)) }
{
    read_bytes(alloc, net, bytes)
}
