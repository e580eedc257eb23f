//! The copies of a new rule that the two-phase plan makes for a declared VLAN and its tag.
ghost use Rattle.std.specs.Prelude.{◌≡◌, ◌≤◌, ◌++◌, IsTrue, OnOk};
ghost use Rattle.flow_rules.specs.Patterns.{admits_port, admits_vlan};
ghost use Rattle.table_difference.specs.SameClasses.{every_address};
ghost use Rattle.two_phase.specs.TwoPhasePlan.{host_end, link_end, is_host_bound, restore, test_of, tagged_action, ingress_action, rule, tagged_copy, ingress_copy};

use crate::vlan_tags::VlanTag;
use flow_rules::{Action, Key, Pattern, Rewrite, Rule, VlanTest, admits_vlan};
use net_base::{Memory, Port, Prefix, SwitchId, Vlan};
use topology::{End, Net};

/// The base of the tagged rules' priorities, which the default of a tag has. A copy adds its new rule's priority to it.
pub(crate) const TAGGED_BASE: u16 = 16384;

/// The base of the ingress rules' priorities, which the default of a host port has. A copy adds its new rule's priority to it.
pub(crate) const INGRESS_BASE: u16 = 32768;

/// Whether a host is there.
fn is_host_end(end: End) -> bool
    ensures { result ≡ host_end end }
{
    match end {
        End::Host => true,
        _ => false,
    }
}

/// Whether a link leads on from there.
fn is_link_end(end: End) -> bool
    ensures { result ≡ link_end end }
{
    match end {
        End::Link(_, _) => true,
        _ => false,
    }
}

/// Whether a rule is bound to a host port of its switch.
pub(crate) fn is_host_bound(net: &Net, s: SwitchId, rule: &Rule) -> bool
    ensures { result ≡ is_host_bound net.now s rule.now }
{
    match rule.key.pattern.in_port {
        Some(port) => is_host_end(net.end(s, port)),
        None => false,
    }
}

/// What gives the user's VLAN back.
fn restore(user: Vlan) -> Rewrite
    ensures { result ≡ restore user }
{
    match user {
        Vlan::Untagged => Rewrite::Strip,
        Vlan::Id(id) => Rewrite::Set(id),
    }
}

/// The test that names a VLAN.
fn test_of(vlan: Vlan) -> VlanTest
    ensures { result ≡ test_of vlan }
{
    match vlan {
        Vlan::Untagged => VlanTest::Untagged,
        Vlan::Id(id) => VlanTest::Id(id),
    }
}

/// The action on a packet that carries the tag of a user's VLAN: where it leaves the network the VLAN is given back.
fn tagged_action(net: &Net, s: SwitchId, user: Vlan, action: Action) -> Action
    ensures { result ≡ tagged_action net.now s user action }
{
    match action {
        Action::Discard => Action::Discard,
        Action::Out(port, rewrite) => {
            if is_host_end(net.end(s, port)) {
                Action::Out(port, restore(user))
            } else {
                Action::Out(port, rewrite)
            }
        }
    }
}

/// The action on a packet that enters: where it goes on it carries the tag from then on.
fn ingress_action(net: &Net, s: SwitchId, tag: u16, action: Action) -> Action
    ensures { result ≡ ingress_action net.now s tag action }
{
    match action {
        Action::Discard => Action::Discard,
        Action::Out(port, rewrite) => {
            if is_link_end(net.end(s, port)) {
                Action::Out(port, Rewrite::Set(tag))
            } else {
                Action::Out(port, rewrite)
            }
        }
    }
}

/// The rule of these parts.
fn make_rule(
    priority: u16,
    in_port: Option<Port>,
    vlan: VlanTest,
    dst: Prefix,
    action: Action,
) -> Rule
    ensures { result ≡ rule priority in_port vlan dst action }
{
    let pattern = Pattern { in_port, vlan, dst };
    Rule {
        key: Key { priority, pattern },
        action,
    }
}

/// A rule for all addresses that discards.
pub(crate) fn default_rule(priority: u16, in_port: Option<Port>, vlan: VlanTest) -> Rule
    ensures { result ≡ rule priority in_port vlan every_address Action.Discard }
{
    make_rule(
        priority,
        in_port,
        vlan,
        Prefix { base: 0, len: 0 },
        Action::Discard,
    )
}

/// Adds the tagged copy of a new rule for a declared VLAN, where the rule covers it.
pub(crate) fn add_tagged_copy(
    rules: &mut Vec<Rule>,
    net: &Net,
    s: SwitchId,
    new: &Rule,
    v: &VlanTag,
) -> Result<(), Memory>
    requires { new.now.key.priority ≤ 16383 }
    ensures { OnOk result
        (rules.new.items ≡ rules.old.items ++ tagged_copy net.now s new.now v.now) }
{
    let pattern = &new.key.pattern;
    if admits_vlan(pattern.vlan, v.user) {
        rules.push(make_rule(
            TAGGED_BASE + new.key.priority,
            pattern.in_port,
            VlanTest::Id(v.tag),
            pattern.dst,
            tagged_action(net, s, v.user, new.action),
        ))?;
    }
    Ok(())
}

/// Adds the ingress copy of a new rule at a host port that it covers for a declared VLAN, where it covers that too.
pub(crate) fn add_ingress_copy(
    rules: &mut Vec<Rule>,
    net: &Net,
    s: SwitchId,
    host: Port,
    new: &Rule,
    v: &VlanTag,
) -> Result<(), Memory>
    requires priority { new.now.key.priority ≤ 16383 }
    requires port { IsTrue (admits_port new.now.key.pattern.in_port host) }
    ensures { OnOk result
        (rules.new.items ≡ rules.old.items ++ ingress_copy net.now s host new.now v.now) }
{
    let pattern = &new.key.pattern;
    if admits_vlan(pattern.vlan, v.user) {
        rules.push(make_rule(
            INGRESS_BASE + new.key.priority,
            Some(host),
            test_of(v.user),
            pattern.dst,
            ingress_action(net, s, v.tag, new.action),
        ))?;
    }
    Ok(())
}
