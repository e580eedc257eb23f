//! The entries that the two-phase plan needs.
ghost use Rattle.std.specs.Prelude.{◌≡◌, ◌<◌, ◌≤◌, ◌+◌, ◌*◌, cond, length, count_by, sum_by};
ghost use Rattle.topology.specs.Networks.{switch_count};
ghost use Rattle.flow_rules.specs.Patterns.{admits_port, admits_vlan};
ghost use Rattle.flow_rules.specs.Tables.{rules_of_all, rules_at};
ghost use Rattle.path_walk.specs.UserConfigs.{IsUserConfig};
ghost use Rattle.two_phase.specs.TwoPhasePlan.{is_host_bound, counted_tags, tagged_rules_by, ingress_rules_by, two_phase_need};

use crate::copies::is_host_bound;
use flow_rules::{Config, Rule, VlanTest, admits_port, admits_vlan};
use net_base::{Port, SwitchId};
use topology::Net;

/// How many declared VLANs a test admits.
fn count_vlans(net: &Net, test: VlanTest) -> u64
    ensures value { result ≡ count_by (admits_vlan test) net.now.vlans }
    ensures few { result ≤ 64 }
{
    net.keeps_rules();
    net.vlans()
        .iter()
        .filter(|vlan| admits_vlan(test, **vlan))
        .count() as u64
}

/// How many tagged copies a new rule has.
fn count_copies(net: &Net, s: SwitchId, rule: &Rule) -> u64
    ensures value { result
        ≡ cond (is_host_bound net.now s rule.now) 0
        (count_by (admits_vlan rule.now.key.pattern.vlan) net.now.vlans) }
    ensures few { result ≤ 64 }
{
    if is_host_bound(net, s, rule) {
        return 0;
    }
    count_vlans(net, rule.key.pattern.vlan)
}

/// How many tagged rules a switch has: the copies of its new rules, and a default for each tag.
fn count_tagged(net: &Net, s: SwitchId, rules: &[Rule]) -> u64
    requires { length rules.now ≤ 8192 }
    ensures value { result ≡ length (tagged_rules_by (counted_tags net.now) net.now s rules.now) }
    ensures few { result ≤ 64 + 64 * 8192 }
{
    net.keeps_rules();
    let mut count = net.vlans().len() as u64;
    for rule in rules {
        count += count_copies(net, s, rule);
    }
    count
}

/// How many ingress copies a new rule has at a host port.
fn count_entering(net: &Net, host: Port, rule: &Rule) -> u64
    ensures value { result
        ≡ cond (admits_port rule.now.key.pattern.in_port host)
        (count_by (admits_vlan rule.now.key.pattern.vlan) net.now.vlans) 0 }
    ensures few { result ≤ 64 }
{
    if !admits_port(rule.key.pattern.in_port, host) {
        return 0;
    }
    count_vlans(net, rule.key.pattern.vlan)
}

/// How many ingress copies the new rules have at a host port.
fn count_at_host(net: &Net, host: Port, rules: &[Rule]) -> u64
    requires { length rules.now ≤ 8192 }
    ensures value { result
        ≡ sum_by
        (λ r. cond (admits_port r.key.pattern.in_port host)
        (count_by (admits_vlan r.key.pattern.vlan) net.now.vlans) 0) rules.now }
    ensures few { result ≤ 64 * 8192 }
{
    let mut count = 0;
    for rule in rules {
        count += count_entering(net, host, rule);
    }
    count
}

/// How many ingress rules a switch has: the copies of its new rules and a default, for each of its host ports.
fn count_ingress(net: &Net, s: SwitchId, rules: &[Rule]) -> u64
    requires { length rules.now ≤ 8192 }
    ensures value { result ≡ length (ingress_rules_by (counted_tags net.now) net.now s rules.now) }
    ensures few { result ≤ 64 * (1 + 64 * 8192) }
{
    net.keeps_rules();
    let mut count = 0;
    for stop in net.hosts() {
        if stop.switch.0 == s.0 {
            count += count_at_host(net, stop.port, rules) + 1;
        }
    }
    count
}

/// The rules of a user configuration at a switch.
fn rules_of<'a>(net: &Net, config: &'a Config, s: SwitchId) -> &'a [Rule]
    requires within { s.0 < switch_count net.now }
    requires user { IsUserConfig net.now (rules_of_all config.now) }
    ensures value { result.now ≡ rules_at (rules_of_all config.now) s }
    ensures few { length result.now ≤ 8192 }
{
    net.keeps_rules();
    config.table(s).rules()
}

/// The entries that the two-phase plan needs at a switch: those of the greater of both configurations there, its tagged
/// rules and its ingress rules, which are counted without being made.
///
/// Takes time by the host ports of the network, and by the new rules of the switch times the declared VLANs and times its host
/// ports, and times both where a rule covers the port.
pub fn need(net: &Net, old: &Config, new: &Config, s: SwitchId) -> u64
    requires within { s.0 < switch_count net.now }
    requires old { IsUserConfig net.now (rules_of_all old.now) }
    requires new { IsUserConfig net.now (rules_of_all new.now) }
    ensures { result ≡ two_phase_need net.now (rules_of_all old.now) (rules_of_all new.now) s }
{
    let before = rules_of(net, old, s);
    let after = rules_of(net, new, s);
    let most = before.len().max(after.len()) as u64;
    most + count_tagged(net, s, after) + count_ingress(net, s, after)
}
