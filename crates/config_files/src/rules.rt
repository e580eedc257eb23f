//! One rule of a configuration, by the table of its members.
ghost use Rattle.std.specs.Prelude.{◌≡◌, ◌≤◌, option_map, true};
ghost use Rattle.flat_json.specs.Trees.{data_of};
ghost use Rattle.net_base.specs.Reading.{Gives};
ghost use Rattle.topology.specs.Networks.{is_used};
ghost use Rattle.config_files.specs.declared.fault.ConfigFault.TheVariants.{Memory};
ghost use Rattle.config_files.specs.Configuration as configuration;

use crate::fault::ConfigFault;
use flat_json::{Node, Tree};
use flow_rules::{Action, Key, Pattern, Rewrite, Rule, VlanTest};
use net_base::{Field, MAX_PORT, Port, Prefix, SwitchId, read_prefix};
use topology::{Net, is_vlan_id};

const MAX_PRIORITY: u64 = 16383;

/// Which rule is read: of a switch of a network, with its number in the file.
#[derive(Clone, Copy)]
struct RulePlace<'a> {
    net: &'a Net,
    switch: SwitchId,
    place: u32,
}

/// Whether the value is this text.
fn is_text(tree: &Tree<'_>, item: &Node, word: &str) -> bool
    ensures { result ≡ configuration.is_text word.now (data_of tree.now item.now) }
{
    match tree.as_str(item) {
        Some(text) => text == word,
        None => false,
    }
}

/// Whether the number is that of a host port or link end of the switch.
fn is_port(net: &Net, switch: SwitchId, number: u64) -> bool
    ensures value { result ≡ is_used net.now
        (record { switch = switch; port = record { 0 = number } }) }
    ensures small { result ≡ true → number ≤ 65279 }
{
    net.keeps_rules();
    number <= MAX_PORT && net.is_used(switch, Port(number as u16))
}

/// Reads the number of a port.
#[tactic(auto, unfolding(crate::specs::Configuration::port_in))]
fn read_port(
    rule: RulePlace,
    field: Field,
    tree: &Tree<'_>,
    item: &Node,
) -> Result<Port, ConfigFault>
    ensures { Gives Memory (λ p. p) result
        (configuration.port_in field rule.entry.place rule.entry.net.now rule.entry.switch
        (data_of tree.now item.now)) }
{
    let number = tree
        .whole(item)
        .ok_or(ConfigFault::Shape(field, rule.place))?;
    if !is_port(rule.net, rule.switch, number) {
        return Err(ConfigFault::BadPort(rule.place));
    }
    Ok(Port(number as u16))
}

/// Reads a port, or the word for none.
#[tactic(auto, unfolding(crate::specs::Configuration::some_port))]
fn read_port_or(
    rule: RulePlace,
    word: &str,
    field: Field,
    tree: &Tree<'_>,
    item: &Node,
) -> Result<Option<Port>, ConfigFault>
    ensures { Gives Memory (λ p. p) result
        (configuration.port_or word.now field rule.entry.place rule.entry.net.now rule.entry.switch
        (data_of tree.now item.now)) }
{
    if is_text(tree, item, word) {
        return Ok(None);
    }
    let port = read_port(rule, field, tree, item)?;
    Ok(Some(port))
}

/// Reads the ingress port.
fn read_in_port(
    rule: RulePlace,
    tree: &Tree<'_>,
    member: Option<&Node>,
) -> Result<Option<Port>, ConfigFault>
    ensures { Gives Memory (λ p. p) result
        (configuration.in_port_in rule.entry.place rule.entry.net.now rule.entry.switch
        (option_map (λ v. data_of tree.now v.now) member.entry)) }
{
    match member {
        Some(item) => read_port_or(rule, "any", Field::InPort, tree, item),
        None => Ok(None),
    }
}

/// Reads an id of a VLAN.
#[tactic(auto, unfolding(crate::specs::Configuration::id_in))]
fn read_id(net: &Net, place: u32, tree: &Tree<'_>, item: &Node) -> Result<VlanTest, ConfigFault>
    ensures { Gives Memory (λ t. t) result
        (configuration.id_in place net.now (data_of tree.now item.now)) }
{
    let id = tree
        .whole(item)
        .ok_or(ConfigFault::Shape(Field::Vlan, place))?;
    if !is_vlan_id(id) {
        return Err(ConfigFault::BadVlan(place));
    }
    let id = id as u16;
    if net.is_tag(id) {
        return Err(ConfigFault::ReservedVlan(place));
    }
    Ok(VlanTest::Id(id))
}

/// Reads the VLAN test.
fn read_test(
    net: &Net,
    place: u32,
    tree: &Tree<'_>,
    member: Option<&Node>,
) -> Result<VlanTest, ConfigFault>
    ensures { Gives Memory (λ t. t) result
        (configuration.vlan_in place net.now
        (option_map (λ v. data_of tree.now v.now) member.entry)) }
{
    match member {
        Some(item) => {
            if is_text(tree, item, "any") {
                return Ok(VlanTest::Any);
            }
            if is_text(tree, item, "untagged") {
                return Ok(VlanTest::Untagged);
            }
            read_id(net, place, tree, item)
        }
        None => Ok(VlanTest::Any),
    }
}

/// Discards where there is no port, or sends out of it and keeps the VLAN.
fn action_by(port: Option<Port>) -> Action
    ensures { result ≡ configuration.action_by port }
{
    match port {
        Some(port) => Action::Out(port, Rewrite::Keep),
        None => Action::Discard,
    }
}

/// Reads the priority.
#[tactic(auto, unfolding(crate::specs::Configuration::priority_in))]
fn read_priority(place: u32, tree: &Tree<'_>, item: &Node) -> Result<u16, ConfigFault>
    ensures { Gives Memory (λ n. n) result
        (configuration.priority_in place (data_of tree.now item.now)) }
{
    let priority = tree
        .whole_at(item, "priority")
        .ok_or(ConfigFault::Shape(Field::Priority, place))?;
    if !(1..=MAX_PRIORITY).contains(&priority) {
        return Err(ConfigFault::BadPriority(place));
    }
    Ok(priority as u16)
}

/// Reads the prefix of the destinations.
#[tactic(auto, unfolding(crate::specs::Configuration::dst_in))]
fn read_dst(place: u32, tree: &Tree<'_>, item: &Node) -> Result<Prefix, ConfigFault>
    ensures { Gives Memory (λ p. p) result
        (configuration.dst_in place (data_of tree.now item.now)) }
{
    let text = tree
        .text_at(item, "dst")
        .ok_or(ConfigFault::Shape(Field::Dst, place))?;
    read_prefix(text).ok().ok_or(ConfigFault::BadPrefix(place))
}

/// Reads the pattern of a rule.
#[tactic(auto, unfolding(crate::specs::Configuration::pattern_in))]
fn read_pattern(rule: RulePlace, tree: &Tree<'_>, item: &Node) -> Result<Pattern, ConfigFault>
    ensures { Gives Memory (λ p. p) result
        (configuration.pattern_in rule.entry.place rule.entry.net.now rule.entry.switch
        (data_of tree.now item.now)) }
{
    let in_port = read_in_port(rule, tree, tree.get(item, "in_port"))?;
    let vlan = read_test(rule.net, rule.place, tree, tree.get(item, "vlan"))?;
    let dst = read_dst(rule.place, tree, item)?;
    Ok(Pattern { in_port, vlan, dst })
}

/// Reads the action of a rule.
#[tactic(auto, unfolding(crate::specs::Configuration::action_in))]
fn read_action(rule: RulePlace, tree: &Tree<'_>, item: &Node) -> Result<Action, ConfigFault>
    ensures { Gives Memory (λ a. a) result
        (configuration.action_in rule.entry.place rule.entry.net.now rule.entry.switch
        (data_of tree.now item.now)) }
{
    let out = tree
        .get(item, "out")
        .ok_or(ConfigFault::Shape(Field::Out, rule.place))?;
    let port = read_port_or(rule, "drop", Field::Out, tree, out)?;
    Ok(action_by(port))
}

/// Reads one rule of a switch.
#[tactic(auto, unfolding(crate::specs::Configuration::rule_in))]
pub(crate) fn read_rule(
    net: &Net,
    place: u32,
    switch: SwitchId,
    tree: &Tree<'_>,
    item: &Node,
) -> Result<Rule, ConfigFault>
    ensures { Gives Memory (λ r. r) result
        (configuration.rule_in place net.now switch (data_of tree.now item.now)) }
{
    let priority = read_priority(place, tree, item)?;
    let rule = RulePlace { net, switch, place };
    let pattern = read_pattern(rule, tree, item)?;
    let action = read_action(rule, tree, item)?;
    Ok(Rule {
        key: Key { priority, pattern },
        action,
    })
}
