//! Rules and changes as JSON objects, token by token.
ghost use Rattle.std.specs.Prelude.{◌≡◌, IfOk, OnOk, true, codes, map};
ghost use Rattle.serde_json.specs.Data.{boolean, string, object, put};
ghost use Rattle.net_base.specs.Text.{prefix_text};
ghost use Rattle.config_files.specs.RuleTrees.{whole_tree, list_tree, in_port_tree, test_tree, out_tree};
ghost use Rattle.plan_text.specs.PlanText.{name_of, set_tree, strip_tree, rule_members, rule_tree, word_of, plan_rule_of, change_tree, round_tree, rounds_tree};
ghost use Rattle.plan_text.specs.Tokens.{tokens_of, closed_tokens, member_tokens, some_tokens, Adds};

use crate::write_lists::{write_number_at, write_text_at};
use crate::write_used::plan_rule_of;
use flow_rules::{Action, Rewrite, VlanTest};
use json::Writer;
use net_base::{Memory, Port, Prefix, SwitchId, prefix_string};
use plan_format::PlanRule;
use std::alloc::Global;
use topology::Net;
use update_model::{Change, Rounds};

/// Writes the destinations of the rule.
fn write_dst(out: &mut Writer, alloc: Global, dst: Prefix) -> Result<(), Memory>
    ensures { OnOk result
        (Adds out.old out.new (member_tokens (codes "dst") (string (prefix_text dst)))) }
{
    let text = prefix_string(alloc, dst)?;
    write_text_at(out, "dst", &text)
}

/// Writes the priority of the rule.
fn write_priority(out: &mut Writer, priority: u16) -> Result<(), Memory>
    ensures { OnOk result
        (Adds out.old out.new (member_tokens (codes "priority") (whole_tree priority))) }
{
    write_number_at(out, "priority", u64::from(priority))
}

/// The name of a switch; empty where the network has no such switch.
fn name_of(net: &Net, s: SwitchId) -> &str
    ensures { result.now ≡ name_of net.now s }
{
    if s.0 < net.switches() {
        net.name(s)
    } else {
        ""
    }
}

/// Writes the switch of the rule.
fn write_switch(out: &mut Writer, net: &Net, s: SwitchId) -> Result<(), Memory>
    ensures { OnOk result (Adds out.old out.new
        (member_tokens (codes "switch") (string (name_of net.now s)))) }
{
    write_text_at(out, "switch", name_of(net, s))
}

/// Writes the ingress port, where the rule has one.
fn write_in_port(out: &mut Writer, port: Option<Port>) -> Result<(), Memory>
    ensures { OnOk result
        (Adds out.old out.new (some_tokens (codes "in_port") (in_port_tree port))) }
{
    match port {
        Some(port) => write_number_at(out, "in_port", u64::from(port.0)),
        None => Ok(()),
    }
}

/// Writes what the VLAN has to be, where the rule tests it.
fn write_test(out: &mut Writer, test: VlanTest) -> Result<(), Memory>
    ensures { OnOk result (Adds out.old out.new (some_tokens (codes "vlan") (test_tree test))) }
{
    match test {
        VlanTest::Any => Ok(()),
        VlanTest::Untagged => write_text_at(out, "vlan", "untagged"),
        VlanTest::Id(id) => write_number_at(out, "vlan", u64::from(id)),
    }
}

/// Writes the port of the output, or the word for none.
fn write_out(out: &mut Writer, action: Action) -> Result<(), Memory>
    ensures { OnOk result (Adds out.old out.new (member_tokens (codes "out") (out_tree action))) }
{
    match action {
        Action::Discard => write_text_at(out, "out", "drop"),
        Action::Out(port, _) => write_number_at(out, "out", u64::from(port.0)),
    }
}

/// Writes the VLAN that the action sets, where it sets one.
fn write_set(out: &mut Writer, action: Action) -> Result<(), Memory>
    ensures { OnOk result (Adds out.old out.new (some_tokens (codes "set") (set_tree action))) }
{
    match action {
        Action::Out(_, Rewrite::Set(id)) => write_number_at(out, "set", u64::from(id)),
        _ => Ok(()),
    }
}

/// Writes a member that is true.
fn write_true_at(out: &mut Writer, name: &str) -> Result<(), Memory>
    ensures { OnOk result (Adds out.old out.new (member_tokens name.now (boolean true))) }
{
    out.key(name)?;
    Ok(out.boolean(true)?)
}

/// Writes that the action strips the tag, where it does.
fn write_strip(out: &mut Writer, action: Action) -> Result<(), Memory>
    ensures { OnOk result (Adds out.old out.new (some_tokens (codes "strip") (strip_tree action))) }
{
    match action {
        Action::Out(_, Rewrite::Strip) => write_true_at(out, "strip"),
        _ => Ok(()),
    }
}

/// Writes the members of a rule at its switch, in the order of their names, and closes the object.
fn write_rule_members(
    out: &mut Writer,
    alloc: Global,
    net: &Net,
    placed: &PlanRule,
) -> Result<(), Memory>
    ensures { OnOk result (Adds out.old out.new (closed_tokens (rule_members net.now placed.now))) }
{
    let rule = &placed.rule;
    let pattern = &rule.key.pattern;
    write_dst(out, alloc, pattern.dst)?;
    write_in_port(out, pattern.in_port)?;
    write_out(out, rule.action)?;
    write_priority(out, rule.key.priority)?;
    write_set(out, rule.action)?;
    write_strip(out, rule.action)?;
    write_switch(out, net, placed.switch)?;
    write_test(out, pattern.vlan)?;
    Ok(out.end_object()?)
}

/// Writes the object of a rule at its switch.
fn write_rule(out: &mut Writer, alloc: Global, net: &Net, placed: &PlanRule) -> Result<(), Memory>
    ensures { OnOk result (Adds out.old out.new (tokens_of (rule_tree net.now placed.now))) }
{
    out.begin_object()?;
    write_rule_members(out, alloc, net, placed)
}

/// Writes the list of the objects of rules.
pub fn write_rules(
    out: &mut Writer,
    alloc: Global,
    net: &Net,
    rules: &[PlanRule],
) -> Result<(), Memory>
    ensures { OnOk result (Adds out.old out.new
        (tokens_of (list_tree (map (rule_tree net.now) rules.now)))) }
{
    out.begin_array()?;
    for placed in rules {
        write_rule(out, alloc, net, placed)?;
    }
    Ok(out.end_array()?)
}

/// What a change does, in a word.
pub fn word_of(change: &Change) -> &'static str
    ensures { result.now ≡ word_of change.now }
{
    match change {
        Change::Insert(_, _) => "insert",
        Change::Delete(_, _) => "delete",
        Change::Replace(_, _) => "replace",
    }
}

/// Writes the object of a change with this word and this rule.
fn write_worded(
    out: &mut Writer,
    alloc: Global,
    net: &Net,
    word: &str,
    placed: &PlanRule,
) -> Result<(), Memory>
    ensures { OnOk result (Adds out.old out.new
        (tokens_of
        (object (put (codes "do") (string word.now) (rule_members net.now placed.now))))) }
{
    out.begin_object()?;
    write_text_at(out, "do", word)?;
    write_rule_members(out, alloc, net, placed)
}

/// Writes the object of a change: what it does beside the members of its rule.
fn write_change(out: &mut Writer, alloc: Global, net: &Net, change: &Change) -> Result<(), Memory>
    ensures { OnOk result (Adds out.old out.new (tokens_of (change_tree net.now change.now))) }
{
    write_worded(out, alloc, net, word_of(change), &plan_rule_of(change))
}

/// Writes the list of the objects of a round's changes.
pub fn write_round(
    out: &mut Writer,
    alloc: Global,
    net: &Net,
    round: &[Change],
) -> Result<(), Memory>
    ensures { OnOk result (Adds out.old out.new (tokens_of (round_tree net.now round.now))) }
{
    out.begin_array()?;
    for change in round {
        write_change(out, alloc, net, change)?;
    }
    Ok(out.end_array()?)
}

/// Writes the list of rounds, each the list of the objects of its changes.
pub fn write_rounds(
    out: &mut Writer,
    alloc: Global,
    net: &Net,
    rounds: &Rounds,
) -> Result<(), Memory>
    ensures { OnOk result (Adds out.old out.new (tokens_of (rounds_tree net.now rounds.now))) }
{
    out.begin_array()?;
    for k in 0..rounds.count() {
        write_round(out, alloc, net, rounds.round(k))?;
    }
    Ok(out.end_array()?)
}
