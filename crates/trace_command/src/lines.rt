//! The lines on a packet's path.
ghost use Rattle.std.specs.Prelude.{◌≡◌, ◌++◌, ◌∷◌, [], map, IfOk, OnOk};
ghost use Rattle.net_base.specs.Lines.{text_of};
ghost use Rattle.flow_rules.specs.Tables.{matched_rule, rules_at, rules_of_all};
ghost use Rattle.flow_rules.specs.Scan.{better_of};
ghost use Rattle.path_walk.specs.Outcomes.{header_at};
ghost use Rattle.command_base.specs.Lines.{switch_name};
ghost use Rattle.trace_command.specs.Names.{entry_seen};
ghost use Rattle.trace_command.specs.Traced as texts;

use crate::names::EntryName;
use command_base::switch_name;
use flow_rules::{Action, Config, Rule, VlanTest};
use net_base::{Memory, Place, Port, SwitchId, prefix_string, vlan_text};
use path_walk::PlacesEnd;
use std::alloc::Global;
use text_lines::{add_made, add_word};
use topology::Net;

/// Adds a named entry: `NAME:PORT VLAN`.
fn add_entry(text: &mut Vec<u8>, alloc: Global, named: EntryName<'_>) -> Result<(), Memory>
    ensures { OnOk result
        (text.new.items ≡ text.old.items ++ texts.entry_text (entry_seen named.entry)) }
{
    let name = named.switch;
    let port = named.port.0;
    add_made(text, format!(in alloc; "{name}:{port} ")?.into_bytes())?;
    add_made(text, vlan_text(alloc, named.vlan)?)
}

/// The line on a named entry that the network doesn't have.
pub fn no_entry_line(alloc: Global, named: EntryName<'_>) -> Result<Vec<u8>, Memory>
    ensures { IfOk result (λ t. t.items ≡ texts.no_entry_line (entry_seen named.entry)) }
{
    let mut text = Vec::new(alloc);
    add_word(&mut text, "no entry: ")?;
    add_entry(&mut text, alloc, named)?;
    text.push(b'\n')?;
    Ok(text)
}

/// Adds a place: `SWITCH:PORT VLAN`.
fn add_place(text: &mut Vec<u8>, alloc: Global, net: &Net, place: Place) -> Result<(), Memory>
    ensures { OnOk result (text.new.items ≡ text.old.items ++ texts.place_text net.now place) }
{
    let named = EntryName {
        switch: switch_name(net, place.switch),
        port: place.port,
        vlan: place.vlan,
    };
    add_entry(text, alloc, named)
}

/// Adds an ingress port, or `any`.
fn add_port(text: &mut Vec<u8>, alloc: Global, port: Option<Port>) -> Result<(), Memory>
    ensures { OnOk result (text.new.items ≡ text.old.items ++ texts.port_text port) }
{
    match port {
        None => add_word(text, "any"),
        Some(Port(number)) => add_made(text, format!(in alloc; "{number}")?.into_bytes()),
    }
}

/// Adds what a VLAN has to be, or `any`.
fn add_test(text: &mut Vec<u8>, alloc: Global, test: VlanTest) -> Result<(), Memory>
    ensures { OnOk result (text.new.items ≡ text.old.items ++ texts.test_text test) }
{
    match test {
        VlanTest::Any => add_word(text, "any"),
        VlanTest::Untagged => add_word(text, "untagged"),
        VlanTest::Id(id) => add_made(text, format!(in alloc; "{id}")?.into_bytes()),
    }
}

/// Adds what is done: `drop`, or `port P`.
fn add_action(text: &mut Vec<u8>, alloc: Global, action: Action) -> Result<(), Memory>
    ensures { OnOk result (text.new.items ≡ text.old.items ++ texts.action_text action) }
{
    match action {
        Action::Discard => add_word(text, "drop"),
        Action::Out(Port(number), _) => {
            add_made(text, format!(in alloc; "port {number}")?.into_bytes())
        }
    }
}

/// Adds a rule: `PRIORITY IN_PORT VLAN DST -> ACTION`.
fn add_rule(text: &mut Vec<u8>, alloc: Global, rule: &Rule) -> Result<(), Memory>
    ensures { OnOk result (text.new.items ≡ text.old.items ++ texts.rule_text rule.now) }
{
    let priority = rule.key.priority;
    add_made(text, format!(in alloc; "{priority} ")?.into_bytes())?;
    add_port(text, alloc, rule.key.pattern.in_port)?;
    add_word(text, " ")?;
    add_test(text, alloc, rule.key.pattern.vlan)?;
    add_word(text, " ")?;
    add_made(
        text,
        prefix_string(alloc, rule.key.pattern.dst)?.into_bytes(),
    )?;
    add_word(text, " -> ")?;
    add_action(text, alloc, rule.action)
}

/// Adds the rule that a lookup picks, or that there is none.
fn add_picked(text: &mut Vec<u8>, alloc: Global, picked: Option<Rule>) -> Result<(), Memory>
    ensures { OnOk result (text.new.items ≡ text.old.items ++ texts.picked_text picked) }
{
    match picked {
        None => add_word(text, "no rule"),
        Some(rule) => add_rule(text, alloc, &rule),
    }
}

/// The better of two rules: the first of greater priority.
fn better(best: Option<Rule>, rule: Rule) -> Option<Rule>
    ensures { result ≡ better_of best rule }
{
    match best {
        Some(b) if b.key.priority >= rule.key.priority => Some(b),
        _ => Some(rule),
    }
}

/// The rule that a lookup at a place picks for an address.
fn picked_at(rules: &[Rule], place: Place, dst: u32) -> Option<Rule>
    ensures { result ≡ matched_rule (header_at place dst) rules.now }
{
    let mut best = None;
    for rule in rules {
        if rule.key.pattern.covers(place.port, place.vlan, dst) {
            best = better(best, *rule);
        }
    }
    best
}

/// The rules of a switch; none where there is no such switch.
fn rules_at(config: &Config, switch: SwitchId) -> &[Rule]
    ensures { result.now ≡ rules_at (rules_of_all config.now) switch }
{
    if (switch.0 as usize) < config.count() {
        config.table(switch).rules()
    } else {
        &[]
    }
}

/// Adds the line of a stop.
fn add_stop(
    text: &mut Vec<u8>,
    alloc: Global,
    net: &Net,
    config: &Config,
    dst: u32,
    place: Place,
) -> Result<(), Memory>
    ensures { OnOk result (text.new.items
        ≡ text.old.items ++ texts.stop_line net.now
        (rules_of_all config.now) dst place ++ 10 ∷ []) }
{
    add_place(text, alloc, net, place)?;
    add_word(text, ": ")?;
    let picked = picked_at(rules_at(config, place.switch), place, dst);
    add_picked(text, alloc, picked)?;
    text.push(b'\n')?;
    Ok(())
}

/// Adds the lines of stops.
fn add_stops(
    text: &mut Vec<u8>,
    alloc: Global,
    net: &Net,
    config: &Config,
    dst: u32,
    places: &[Place],
) -> Result<(), Memory>
    ensures { OnOk result (text.new.items
        ≡ text.old.items ++ text_of
        (map (texts.stop_line net.now (rules_of_all config.now) dst) places.now)) }
{
    for place in places {
        add_stop(text, alloc, net, config, dst, *place)?;
    }
    Ok(())
}

/// Adds that a packet left, and where.
fn add_left(text: &mut Vec<u8>, alloc: Global, net: &Net, place: Place) -> Result<(), Memory>
    ensures { OnOk result (text.new.items
        ≡ text.old.items ++ texts.end_line net.now
        (PlacesEnd.Left place.switch place.port place.vlan)) }
{
    add_word(text, "left ")?;
    add_place(text, alloc, net, place)
}

/// Adds a word and the name of a switch.
fn add_at_switch(text: &mut Vec<u8>, word: &str, net: &Net, switch: SwitchId) -> Result<(), Memory>
    ensures { OnOk result
        (text.new.items ≡ text.old.items ++ word.now ++ switch_name net.now switch) }
{
    add_word(text, word)?;
    add_word(text, switch_name(net, switch))
}

/// Adds how a path ends.
fn add_end(text: &mut Vec<u8>, alloc: Global, net: &Net, end: PlacesEnd) -> Result<(), Memory>
    ensures { OnOk result (text.new.items ≡ text.old.items ++ texts.end_line net.now end) }
{
    match end {
        PlacesEnd::Left(switch, port, vlan) => {
            add_left(text, alloc, net, Place { switch, port, vlan })
        }
        PlacesEnd::Dropped(switch) => add_at_switch(text, "dropped ", net, switch),
        PlacesEnd::Again(switch) => add_at_switch(text, "again ", net, switch),
    }
}

/// The lines on the places of a path: one for each place, with the rule that the lookup there picks, and one for the end.
pub fn trace_text(
    alloc: Global,
    net: &Net,
    config: &Config,
    dst: u32,
    places: &[Place],
    end: PlacesEnd,
) -> Result<Vec<u8>, Memory>
    ensures { IfOk result
        (λ t. t.items ≡ texts.trace_text net.now (rules_of_all config.now) dst places.now end) }
{
    let mut text = Vec::new(alloc);
    add_stops(&mut text, alloc, net, config, dst, places)?;
    add_end(&mut text, alloc, net, end)?;
    text.push(b'\n')?;
    Ok(text)
}
