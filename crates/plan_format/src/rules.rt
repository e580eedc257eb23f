//! One rule of a plan, by the table of its members.
ghost use Rattle.std.specs.Prelude.{◌≡◌, ◌≤◌, true, option_map, IfOk, MatchResult};
ghost use Rattle.flat_json.specs.Trees.{data_of};
ghost use Rattle.net_base.specs.Reading.{Gives};
ghost use Rattle.plan_format.specs.declared.fault.PlanFault.TheVariants.{Memory};
ghost use Rattle.plan_format.specs.Changes as plan;

use crate::fault::PlanFault;
use flat_json::{Node, Tree};
use flow_rules::{Action, Key, Pattern, Rewrite, Rule, VlanTest};
use net_base::{Field, MAX_PORT, Port, Prefix, SwitchId, read_prefix};
use topology::{Net, is_vlan_id};

const MAX_PRIORITY: u64 = 65535;

/// A VLAN test as it is spelled.
#[derive(Clone, Copy)]
pub enum TestWord {
    Any,
    Untagged,
    Number(u64),
}

/// The members of a rule, each of its kind but perhaps not in its range. A text that is no prefix is none.
#[derive(Clone, Copy)]
pub struct RuleWords {
    pub switch: SwitchId,
    pub priority: u64,
    pub in_port: Option<u64>,
    pub vlan: TestWord,
    pub dst: Option<Prefix>,
    pub out: Option<u64>,
    pub set: Option<u64>,
    pub strip: bool,
}

/// A rule and its switch.
#[derive(Clone, Copy, PartialEq, Eq, Hash)]
pub struct PlanRule {
    pub switch: SwitchId,
    pub rule: Rule,
}

/// Whether the value is this text.
pub(crate) fn is_text(tree: &Tree<'_>, item: &Node, word: &str) -> bool
    ensures { result ≡ plan.is_text word.now (data_of tree.now item.now) }
{
    match tree.as_str(item) {
        Some(text) => text == word,
        None => false,
    }
}

/// A whole number, or none where the value is the word.
fn number_or(tree: &Tree<'_>, item: &Node, word: &str) -> Option<Option<u64>>
    ensures { result ≡ plan.number_or word.now (data_of tree.now item.now) }
{
    if is_text(tree, item, word) {
        return Some(None);
    }
    tree.whole(item).map(Some)
}

/// The ingress port; any where it is absent.
fn in_port_word(tree: &Tree<'_>, member: Option<&Node>) -> Option<Option<u64>>
    ensures { result ≡ plan.in_port_word (option_map (λ v. data_of tree.now v.now) member.entry) }
{
    match member {
        Some(item) => number_or(tree, item, "any"),
        None => Some(None),
    }
}

/// The VLAN test; any where it is absent.
fn vlan_word(tree: &Tree<'_>, member: Option<&Node>) -> Option<TestWord>
    ensures { result ≡ plan.vlan_word (option_map (λ v. data_of tree.now v.now) member.entry) }
{
    match member {
        Some(item) => {
            if is_text(tree, item, "any") {
                return Some(TestWord::Any);
            }
            if is_text(tree, item, "untagged") {
                return Some(TestWord::Untagged);
            }
            tree.whole(item).map(TestWord::Number)
        }
        None => Some(TestWord::Any),
    }
}

/// The port of the output, or none for a drop.
fn out_word(tree: &Tree<'_>, member: Option<&Node>) -> Option<Option<u64>>
    ensures { result ≡ plan.out_word (option_map (λ v. data_of tree.now v.now) member.entry) }
{
    number_or(tree, member?, "drop")
}

/// The id to set; none where it is absent.
fn set_word(tree: &Tree<'_>, member: Option<&Node>) -> Option<Option<u64>>
    ensures { result ≡ plan.set_word (option_map (λ v. data_of tree.now v.now) member.entry) }
{
    match member {
        Some(item) => tree.whole(item).map(Some),
        None => Some(None),
    }
}

/// Whether the tag is stripped. The member is true where it is there.
fn strip_word(tree: &Tree<'_>, member: Option<&Node>) -> Option<bool>
    ensures { result ≡ plan.strip_word (option_map (λ v. data_of tree.now v.now) member.entry) }
{
    match member {
        Some(item) => match tree.as_bool(item) {
            Some(true) => Some(true),
            _ => None,
        },
        None => Some(false),
    }
}

fn is_port(number: u64) -> bool
    ensures value { result ≡ plan.is_port number }
    ensures small { result ≡ true → number ≤ 65279 }
{
    1 <= number && number <= MAX_PORT
}

/// Any port, or one that may be.
fn port_choice(number: Option<u64>) -> Option<Option<Port>>
    ensures { result ≡ plan.port_choice number }
{
    match number {
        None => Some(None),
        Some(number) if is_port(number) => Some(Some(Port(number as u16))),
        Some(_) => None,
    }
}

/// The test, where a VLAN may have the number.
fn test_of(word: TestWord) -> Option<VlanTest>
    ensures { result ≡ plan.test_of word }
{
    match word {
        TestWord::Any => Some(VlanTest::Any),
        TestWord::Untagged => Some(VlanTest::Untagged),
        TestWord::Number(n) if is_vlan_id(n) => Some(VlanTest::Id(n as u16)),
        TestWord::Number(_) => None,
    }
}

/// At most one rewrite.
fn rewrite_of(set: Option<u64>, strip: bool) -> Option<Rewrite>
    ensures { result ≡ plan.rewrite_of set strip }
{
    match (set, strip) {
        (None, false) => Some(Rewrite::Keep),
        (None, true) => Some(Rewrite::Strip),
        (Some(id), false) if is_vlan_id(id) => Some(Rewrite::Set(id as u16)),
        _ => None,
    }
}

/// An output with a rewrite.
fn output_of(port: u64, rewrite: Option<Rewrite>) -> Option<Action>
    ensures { result ≡ plan.output_of port rewrite }
{
    match rewrite {
        Some(rewrite) if is_port(port) => Some(Action::Out(Port(port as u16), rewrite)),
        _ => None,
    }
}

/// A drop, without a rewrite.
fn drop_of(set: Option<u64>, strip: bool) -> Option<Action>
    ensures { result ≡ plan.drop_of set strip }
{
    match (set, strip) {
        (None, false) => Some(Action::Discard),
        _ => None,
    }
}

/// A drop, or an output.
fn action_of(out: Option<u64>, set: Option<u64>, strip: bool) -> Option<Action>
    ensures { result ≡ plan.action_of out set strip }
{
    match out {
        None => drop_of(set, strip),
        Some(port) => output_of(port, rewrite_of(set, strip)),
    }
}

/// The rule with these members, each in its range.
#[tactic(auto, unfolding(crate::specs::Changes::rule_of))]
fn rule_of(place: u32, words: RuleWords) -> Result<PlanRule, PlanFault>
    ensures { Gives Memory (λ r. r) result (plan.rule_of place words) }
{
    if !(1..=MAX_PRIORITY).contains(&words.priority) {
        return Err(PlanFault::BadRule(place));
    }
    let in_port = port_choice(words.in_port).ok_or(PlanFault::BadRule(place))?;
    let vlan = test_of(words.vlan).ok_or(PlanFault::BadRule(place))?;
    let dst = words.dst.ok_or(PlanFault::BadRule(place))?;
    let action = action_of(words.out, words.set, words.strip).ok_or(PlanFault::BadRule(place))?;
    let pattern = Pattern { in_port, vlan, dst };
    let key = Key {
        priority: words.priority as u16,
        pattern,
    };
    Ok(PlanRule {
        switch: words.switch,
        rule: Rule { key, action },
    })
}

/// Reads a rule of a switch: its members, each of its kind, and then their ranges.
#[tactic(auto, unfolding(crate::specs::Changes::rule_in))]
pub(crate) fn read_rule(
    net: &Net,
    place: u32,
    tree: &Tree<'_>,
    item: &Node,
) -> Result<PlanRule, PlanFault>
    ensures { Gives Memory (λ r. r) result
        (plan.rule_in net.now place (data_of tree.now item.now)) }
{
    let name = tree
        .text_at(item, "switch")
        .ok_or(PlanFault::Shape(Field::Switch, place))?;
    let switch = net.find(name).ok_or(PlanFault::UnknownSwitch(place))?;
    let priority = tree
        .whole_at(item, "priority")
        .ok_or(PlanFault::Shape(Field::Priority, place))?;
    let in_port = in_port_word(tree, tree.get(item, "in_port")).ok_or(PlanFault::Shape(
        Field::InPort,
        place,
    ))?;
    let vlan = vlan_word(tree, tree.get(item, "vlan")).ok_or(PlanFault::Shape(Field::Vlan, place))?;
    let dst = tree
        .text_at(item, "dst")
        .ok_or(PlanFault::Shape(Field::Dst, place))?;
    let out = out_word(tree, tree.get(item, "out")).ok_or(PlanFault::Shape(Field::Out, place))?;
    let set = set_word(tree, tree.get(item, "set")).ok_or(PlanFault::Shape(Field::Set, place))?;
    let strip = strip_word(tree, tree.get(item, "strip")).ok_or(PlanFault::Shape(
        Field::Strip,
        place,
    ))?;
    let words = RuleWords {
        switch,
        priority,
        in_port,
        vlan,
        dst: read_prefix(dst).ok(),
        out,
        set,
        strip,
    };
    rule_of(place, words)
}
