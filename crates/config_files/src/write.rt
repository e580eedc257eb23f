//! The text of a configuration.
ghost use Rattle.std.specs.Prelude.{◌≡◌, ◌<◌, ◌++◌, ◌∷◌, [], Ok, IfOk, OnOk, length, map, option_map, slice_index_or};
ghost use Rattle.serde_json.specs.Data.{string, no_members};
ghost use Rattle.serde_json.specs.View.{view, members_view};
ghost use Rattle.net_base.specs.Text.{prefix_text};
ghost use Rattle.topology.specs.Networks.{switch_count};
ghost use Rattle.flow_rules.specs.Tables.{rules_of_all};
ghost use Rattle.path_walk.specs.UserConfigs.{IsUserConfig};
ghost use Rattle.config_files.specs.Configuration.{configuration_in};
ghost use Rattle.config_files.specs.RuleTrees as trees;
ghost use Rattle.config_files.specs.ConfigText as texts;

use flat_json::write_line;
use flow_rules::{Action, Config, Rule, VlanTest};
use net_base::{Memory, Port, Prefix, SwitchId, prefix_string};
use serde_json::{Map, Value, push, put};
use std::alloc::Global;
use topology::Net;

/// Puts a member where there is a value for it.
fn put_some(
    members: &mut Map<String, Value>,
    alloc: Global,
    name: &str,
    value: Option<Value>,
) -> Result<(), Memory>
    ensures { OnOk result (members_view members.new.entries
        ≡ trees.put_some name.now (option_map view value) (members_view members.old.entries)) }
{
    match value {
        Some(value) => Ok(put(members, alloc, name, value)?),
        None => Ok(()),
    }
}

fn prefix_value(alloc: Global, prefix: Prefix) -> Result<Value, Memory>
    ensures { IfOk result (λ v. view v ≡ string (prefix_text prefix)) }
{
    Ok(Value::String(prefix_string(alloc, prefix)?))
}

/// The name of a switch.
fn name_of(net: &Net, switch: SwitchId) -> &str
    requires { switch.0 < switch_count net.now }
    ensures { result.now ≡ slice_index_or net.now.names switch.0 [] }
{
    net.name(switch)
}

fn in_port_value(port: Option<Port>) -> Option<Value>
    ensures { option_map view result ≡ trees.in_port_tree port }
{
    match port {
        Some(port) => Some(Value::from(port.0)),
        None => None,
    }
}

fn test_value(alloc: Global, test: VlanTest) -> Result<Option<Value>, Memory>
    ensures { IfOk result (λ v. option_map view v ≡ trees.test_tree test) }
{
    match test {
        VlanTest::Any => Ok(None),
        VlanTest::Untagged => Ok(Some(Value::try_from_str(alloc, "untagged")?)),
        VlanTest::Id(id) => Ok(Some(Value::from(id))),
    }
}

fn out_value(alloc: Global, action: Action) -> Result<Value, Memory>
    ensures { IfOk result (λ v. view v ≡ trees.out_tree action) }
{
    match action {
        Action::Discard => Ok(Value::try_from_str(alloc, "drop")?),
        Action::Out(port, _) => Ok(Value::from(port.0)),
    }
}

/// Puts the members of a rule of a switch where there are none.
#[tactic(auto, unfolding(crate::specs::ConfigText::rule_members))]
fn put_rule(
    members: &mut Map<String, Value>,
    alloc: Global,
    net: &Net,
    switch: SwitchId,
    rule: &Rule,
) -> Result<(), Memory>
    requires none { members_view members.old.entries ≡ no_members }
    requires within { switch.0 < switch_count net.now }
    ensures { OnOk result (members_view members.new.entries
        ≡ texts.rule_members net.now switch rule.now) }
{
    let pattern = &rule.key.pattern;
    put(members, alloc, "dst", prefix_value(alloc, pattern.dst)?)?;
    put(members, alloc, "out", out_value(alloc, rule.action)?)?;
    put(members, alloc, "priority", Value::from(rule.key.priority))?;
    let name = Value::try_from_str(alloc, name_of(net, switch))?;
    put(members, alloc, "switch", name)?;
    put_some(members, alloc, "in_port", in_port_value(pattern.in_port))?;
    put_some(members, alloc, "vlan", test_value(alloc, pattern.vlan)?)
}

/// The object of a rule of a switch.
fn rule_value(alloc: Global, net: &Net, switch: SwitchId, rule: &Rule) -> Result<Value, Memory>
    requires { switch.0 < switch_count net.now }
    ensures { IfOk result (λ v. view v ≡ texts.rule_tree net.now switch rule.now) }
{
    let mut members = Map::new(alloc);
    put_rule(&mut members, alloc, net, switch, rule)?;
    Ok(Value::Object(members))
}

/// The objects of the rules of a switch, behind those of the switches before it.
fn add_rules(
    values: &mut Vec<Value>,
    alloc: Global,
    net: &Net,
    switch: SwitchId,
    rules: &[Rule],
) -> Result<(), Memory>
    requires { switch.0 < switch_count net.now }
    ensures { OnOk result (map view values.new.items
        ≡ map view values.old.items ++ map (texts.rule_tree net.now switch) rules.now) }
{
    for rule in rules {
        push(values, rule_value(alloc, net, switch, rule)?)?;
    }
    Ok(())
}

/// The objects of all rules, by switch, and then in the order of its table.
fn rule_values(alloc: Global, net: &Net, config: &Config) -> Result<Vec<Value>, Memory>
    requires { length config.now ≡ switch_count net.now }
    ensures { IfOk result (λ v. map view v.items
        ≡ texts.rule_trees net.now 0 (rules_of_all config.now)) }
{
    let mut values = Vec::new(alloc);
    for s in 0..net.switches() {
        let switch = SwitchId(s);
        add_rules(
            &mut values,
            alloc,
            net,
            switch,
            config.table(switch).rules(),
        )?;
    }
    Ok(values)
}

/// The list of these objects.
fn rules_value(alloc: Global, net: &Net, config: &Config) -> Result<Value, Memory>
    requires { length config.now ≡ switch_count net.now }
    ensures { IfOk result (λ v. view v
        ≡ trees.list_tree (texts.rule_trees net.now 0 (rules_of_all config.now))) }
{
    Ok(Value::Array(rule_values(alloc, net, config)?))
}

/// The object of a configuration.
fn config_value(alloc: Global, net: &Net, config: &Config) -> Result<Value, Memory>
    requires { length config.now ≡ switch_count net.now }
    ensures { IfOk result (λ v. view v ≡ texts.config_tree net.now (rules_of_all config.now)) }
{
    let rules = rules_value(alloc, net, config)?;
    let mut members = Map::new(alloc);
    put(&mut members, alloc, "rules", rules)?;
    Ok(Value::Object(members))
}

/// The text of a user configuration: compact JSON with members in ascending order and a line end, the rules by switch, and
/// then in the order of its table. Takes a time that is proportional to the text.
pub fn config_text(alloc: Global, net: &Net, config: &Config) -> Result<Vec<u8>, Memory>
    requires user { IsUserConfig net.now (rules_of_all config.now) }
    ensures text { IfOk result (λ b. b.items
        ≡ texts.config_text net.now (rules_of_all config.now)) }
    // What was written is read as the same configuration.
    ensures again { IfOk result (λ b. configuration_in net.now b.items
        ≡ Ok (rules_of_all config.now)) }
{
    net.keeps_rules();
    write_line(alloc, &config_value(alloc, net, config)?)
}
