//! The two bands of a switch: its tagged rules and its ingress rules.
ghost use Rattle.std.specs.Prelude.{◌≡◌, ◌≤◌, ◌++◌, [], Some, None, OnOk, IfOk, cond, map, flat_map};
ghost use Rattle.std.specs.List.{AllByRecursion};
ghost use Rattle.flow_rules.specs.declared.rules.VlanTest.TheVariants as test;
ghost use Rattle.flow_rules.specs.declared.rules.Action.TheVariants.{Discard};
ghost use Rattle.table_difference.specs.SameClasses.{every_address};
ghost use Rattle.two_phase.specs.SwitchRules.{band_rules_by};
ghost use Rattle.two_phase.specs.TwoPhasePlan.{rule, is_host_bound, tagged_copy, ingress_copy, hosts_of, tagged_rules_by, ingress_rules_by};

use crate::copies::{
    INGRESS_BASE, TAGGED_BASE, add_ingress_copy, add_tagged_copy, default_rule, is_host_bound,
};
use crate::vlan_tags::VlanTag;
use flow_rules::{Rule, VlanTest, admits_port};
use net_base::{Memory, Port, SwitchId};
use std::alloc::Global;
use topology::Net;

/// The rules that a plan lays beside those of the users: those for packets that carry a tag, or those for packets that enter.
#[derive(Clone, Copy)]
pub(crate) enum Band {
    Tagged,
    Ingress,
}

/// Adds the tagged copies of a new rule, which it has where it is bound to no host port.
fn add_tagged_copies(
    rules: &mut Vec<Rule>,
    net: &Net,
    s: SwitchId,
    tags: &[VlanTag],
    new: &Rule,
) -> Result<(), Memory>
    requires { new.now.key.priority ≤ 16383 }
    ensures { OnOk result
        (rules.new.items ≡ rules.old.items
        ++ cond (is_host_bound net.now s new.now) []
        (flat_map (tagged_copy net.now s new.now) tags.now)) }
{
    if is_host_bound(net, s, new) {
        return Ok(());
    }
    for v in tags {
        add_tagged_copy(rules, net, s, new, v)?;
    }
    Ok(())
}

/// Adds the default of each tag.
fn add_tag_defaults(rules: &mut Vec<Rule>, tags: &[VlanTag]) -> Result<(), Memory>
    ensures { OnOk result
        (rules.new.items ≡ rules.old.items
        ++ map (λ v. rule 16384 None (test.Id v.tag) every_address Discard) tags.now) }
{
    for v in tags {
        rules.push(default_rule(TAGGED_BASE, None, VlanTest::Id(v.tag)))?;
    }
    Ok(())
}

/// The tagged rules of a switch: copies of the new rules that are bound to no host port, and a default for each tag.
fn tagged_rules(
    alloc: Global,
    net: &Net,
    s: SwitchId,
    tags: &[VlanTag],
    new: &[Rule],
) -> Result<Vec<Rule>, Memory>
    requires { AllByRecursion (λ r. r.key.priority ≤ 16383) new.now }
    ensures { IfOk result (λ v. v.items ≡ tagged_rules_by tags.now net.now s new.now) }
{
    let mut rules = Vec::new(alloc);
    for rule in new {
        add_tagged_copies(&mut rules, net, s, tags, rule)?;
    }
    add_tag_defaults(&mut rules, tags)?;
    Ok(rules)
}

/// The host ports of a switch.
fn hosts_of(alloc: Global, net: &Net, s: SwitchId) -> Result<Vec<Port>, Memory>
    ensures { IfOk result (λ v. v.items ≡ hosts_of net.now s) }
{
    let hosts = net.hosts();
    let here = hosts
        .iter()
        .filter(|host| host.switch.0 == s.0)
        .map(|host| host.port)
        .collect(alloc)?;
    Ok(here)
}

/// Adds the ingress copies of a new rule at a host port. It takes time by the declared VLANs only where the rule covers the
/// port.
fn add_ingress_copies(
    rules: &mut Vec<Rule>,
    net: &Net,
    s: SwitchId,
    tags: &[VlanTag],
    host: Port,
    new: &Rule,
) -> Result<(), Memory>
    requires { new.now.key.priority ≤ 16383 }
    ensures { OnOk result
        (rules.new.items ≡ rules.old.items
        ++ flat_map (ingress_copy net.now s host new.now) tags.now) }
{
    if !admits_port(new.key.pattern.in_port, host) {
        return Ok(());
    }
    for v in tags {
        add_ingress_copy(rules, net, s, host, new, v)?;
    }
    Ok(())
}

/// Adds the ingress copies of all new rules at a host port.
fn add_host_copies(
    rules: &mut Vec<Rule>,
    net: &Net,
    s: SwitchId,
    tags: &[VlanTag],
    host: Port,
    new: &[Rule],
) -> Result<(), Memory>
    requires { AllByRecursion (λ r. r.key.priority ≤ 16383) new.now }
    ensures { OnOk result
        (rules.new.items ≡ rules.old.items
        ++ flat_map (λ r. flat_map (ingress_copy net.now s host r) tags.now) new.now) }
{
    for rule in new {
        add_ingress_copies(rules, net, s, tags, host, rule)?;
    }
    Ok(())
}

/// Adds the default of each host port.
fn add_host_defaults(rules: &mut Vec<Rule>, hosts: &[Port]) -> Result<(), Memory>
    ensures { OnOk result
        (rules.new.items ≡ rules.old.items
        ++ map (λ host. rule 32768 (Some host) test.Any every_address Discard) hosts.now) }
{
    for host in hosts {
        rules.push(default_rule(INGRESS_BASE, Some(*host), VlanTest::Any))?;
    }
    Ok(())
}

/// The ingress rules of a switch: copies of the new rules at each host port, and a default for each host port.
fn ingress_rules(
    alloc: Global,
    net: &Net,
    s: SwitchId,
    tags: &[VlanTag],
    new: &[Rule],
) -> Result<Vec<Rule>, Memory>
    requires { AllByRecursion (λ r. r.key.priority ≤ 16383) new.now }
    ensures { IfOk result (λ v. v.items ≡ ingress_rules_by tags.now net.now s new.now) }
{
    let hosts = hosts_of(alloc, net, s)?;
    let mut rules = Vec::new(alloc);
    for host in &hosts {
        add_host_copies(&mut rules, net, s, tags, *host, new)?;
    }
    add_host_defaults(&mut rules, &hosts)?;
    Ok(rules)
}

/// The rules of a band at a switch.
pub(crate) fn band_rules(
    alloc: Global,
    net: &Net,
    s: SwitchId,
    tags: &[VlanTag],
    new: &[Rule],
    band: Band,
) -> Result<Vec<Rule>, Memory>
    requires { AllByRecursion (λ r. r.key.priority ≤ 16383) new.now }
    ensures { IfOk result (λ v. v.items ≡ band_rules_by band tags.now net.now s new.now) }
{
    match band {
        Band::Tagged => tagged_rules(alloc, net, s, tags, new),
        Band::Ingress => ingress_rules(alloc, net, s, tags, new),
    }
}
