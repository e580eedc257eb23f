//! What an entry has to be, field by field, so that it is a rule.
ghost use Rattle.std.specs.Prelude.{◌≡◌, ◌==◌, ◌≤◌, ◌-◌, ◌*◌, ◌/◌, ◌^◌, min};
ghost use Rattle.std.specs.Int.{bit_at};
ghost use Rattle.net_base.specs.Reading.{Gives};
ghost use Rattle.flow_stats.specs.declared.fault.StatsFault.TheVariants.{Memory};
ghost use Rattle.flow_stats.specs.Profile as profile;

use crate::entries::{Entry, EntryActions};
use crate::fault::{StatsFault, StatsField};
use crate::fields::FlowStatsFields;
use flow_rules::{Action, Key, Pattern, Rewrite, Rule, VlanTest};
use net_base::{Port, Prefix, SwitchId};
use openflow10::{MatchFields, is_port};
use topology::{Net, is_vlan_id};

/// The bits of enum ofp_flow_wildcards, each of the field that any packet matches where it is set.
const DL_SRC: u32 = 2;

const DL_DST: u32 = 3;

const DL_TYPE: u32 = 4;

const NW_PROTO: u32 = 5;

const TP_SRC: u32 = 6;

const TP_DST: u32 = 7;

const DL_VLAN_PCP: u32 = 20;

const NW_TOS: u32 = 21;

/// OFPFW_NW_SRC_SHIFT, the lowest of the six bits that count the ignored bits of the source.
const NW_SRC: u32 = 8;

/// How many bits an address has.
const ADDRESS_BITS: u32 = 32;

/// OFP_VLAN_NONE: the packet has no tag.
const VLAN_NONE: u16 = 0xffff;

/// The frame type of IPv4.
const IPV4: u16 = 0x0800;

const MAX_PRIORITY: u16 = 16383;

/// Whether a field is a wildcard, by its bit.
fn is_wild(wildcards: u32, bit: u32) -> bool
    requires { bit ≤ 31 }
    ensures { result ≡ profile.is_wild wildcards bit }
{
    (wildcards >> bit) % 2 == 1
}

/// Whether the wildcards leave open all but the ingress port, the VLAN id, the frame type and the destination, and the
/// frame type counts.
#[tactic(auto, unfolding(crate::specs::Profile::has_wildcards))]
fn has_wildcards(fields: &MatchFields) -> bool
    ensures { result ≡ profile.has_wildcards fields.now }
{
    let wildcards = fields.wildcards;
    !is_wild(wildcards, DL_TYPE)
        && is_wild(wildcards, DL_SRC)
        && is_wild(wildcards, DL_DST)
        && is_wild(wildcards, DL_VLAN_PCP)
        && is_wild(wildcards, NW_TOS)
        && is_wild(wildcards, NW_PROTO)
        && is_wild(wildcards, TP_SRC)
        && is_wild(wildcards, TP_DST)
        && (wildcards >> NW_SRC) % 64 >= ADDRESS_BITS
}

#[tactic(auto, unfolding(crate::specs::Profile::has_in_port))]
fn has_in_port(fields: &MatchFields) -> bool
    ensures { result ≡ profile.has_in_port fields.now }
{
    fields.any_port() || is_port(fields.in_port)
}

#[tactic(auto, unfolding(crate::specs::Profile::has_vlan))]
fn has_vlan(fields: &MatchFields) -> bool
    ensures { result ≡ profile.has_vlan fields.now }
{
    fields.any_vlan() || fields.dl_vlan == VLAN_NONE || is_vlan_id(u64::from(fields.dl_vlan))
}

#[tactic(auto, unfolding(crate::specs::Profile::has_priority))]
fn has_priority(fields: &FlowStatsFields) -> bool
    ensures { result ≡ profile.has_priority fields.now }
{
    1 <= fields.priority && fields.priority <= MAX_PRIORITY
}

#[tactic(auto, unfolding(crate::specs::Profile::has_no_timeouts))]
fn has_no_timeouts(fields: &FlowStatsFields) -> bool
    ensures { result ≡ profile.has_no_timeouts fields.now }
{
    fields.idle_timeout == 0 && fields.hard_timeout == 0
}

/// The prefix that an address without so many low bits begins.
pub fn prefix_without(address: u32, ignored: u32) -> Prefix
    requires { ignored ≤ 32 }
    ensures { result ≡ record { base = address / 2 ^ ignored * 2 ^ ignored; len = 32 - ignored } }
{
    let size = 1u64 << ignored;
    let base = u64::from(address) / size * size;
    Prefix {
        base: base as u32,
        len: (ADDRESS_BITS - ignored) as u8,
    }
}

/// The destinations of an entry: its address without the bits that are ignored, where 32 and more are all.
#[tactic(auto, unfolding(crate::specs::Profile::dst_in))]
fn destination(fields: &MatchFields) -> Prefix
    ensures { result ≡ profile.dst_in fields.now }
{
    prefix_without(fields.nw_dst, fields.ignored_bits().min(ADDRESS_BITS))
}

/// The key of an entry.
fn key_of(fields: &FlowStatsFields) -> Key
    ensures { result ≡ profile.key_in fields.now }
{
    Key {
        priority: fields.priority,
        pattern: Pattern {
            in_port: fields.pattern.in_port(),
            vlan: fields.pattern.vlan(),
            dst: destination(&fields.pattern),
        },
    }
}

/// What an entry does, where its actions have a form of the profile.
fn action_of(actions: EntryActions) -> Option<Action>
    ensures { result ≡ profile.action_of actions }
{
    match actions {
        EntryActions::Empty => Some(Action::Discard),
        EntryActions::Output(port) => Some(Action::Out(port, Rewrite::Keep)),
        EntryActions::Other => None,
    }
}

/// Reads the fields of an entry, of which each has to have a value of the profile.
#[tactic(auto, unfolding(crate::specs::Profile::profile_rule))]
fn read_fields(place: u32, entry: &Entry) -> Result<Rule, StatsFault>
    ensures { Gives Memory (λ r. r) result (profile.profile_rule place entry.now) }
{
    let fields = &entry.fields;
    if !has_wildcards(&fields.pattern) {
        return Err(StatsFault::Profile(place, StatsField::Wildcards));
    }
    if !has_in_port(&fields.pattern) {
        return Err(StatsFault::Profile(place, StatsField::InPort));
    }
    if !has_vlan(&fields.pattern) {
        return Err(StatsFault::Profile(place, StatsField::Vlan));
    }
    if fields.pattern.dl_type != IPV4 {
        return Err(StatsFault::Profile(place, StatsField::DlType));
    }
    if !has_priority(fields) {
        return Err(StatsFault::Profile(place, StatsField::Priority));
    }
    if !has_no_timeouts(fields) {
        return Err(StatsFault::Profile(place, StatsField::Timeouts));
    }
    let action = action_of(entry.actions).ok_or(StatsFault::Profile(place, StatsField::Actions))?;
    Ok(Rule {
        key: key_of(fields),
        action,
    })
}

/// Whether a choice of an ingress port is any, or a host port or link end of the switch.
fn is_port_used(net: &Net, switch: SwitchId, port: Option<Port>) -> bool
    ensures { result ≡ profile.is_port_used net.now switch port }
{
    match port {
        Some(port) => net.is_used(switch, port),
        None => true,
    }
}

/// Whether an action discards, or sends out of a host port or link end of the switch.
fn is_action_used(net: &Net, switch: SwitchId, action: Action) -> bool
    ensures { result ≡ profile.is_action_used net.now switch action }
{
    match action {
        Action::Out(port, _) => net.is_used(switch, port),
        Action::Discard => true,
    }
}

/// Whether a VLAN test names an available tag.
fn is_reserved(net: &Net, test: VlanTest) -> bool
    ensures { result ≡ profile.is_reserved net.now test }
{
    match test {
        VlanTest::Id(id) => net.is_tag(id),
        _ => false,
    }
}

/// Whether the ports that a rule names are host ports or link ends of the switch.
#[tactic(auto, unfolding(crate::specs::Profile::has_used_ports))]
fn has_used_ports(net: &Net, switch: SwitchId, rule: &Rule) -> bool
    ensures { result ≡ profile.has_used_ports net.now switch rule.now }
{
    is_port_used(net, switch, rule.key.pattern.in_port) && is_action_used(net, switch, rule.action)
}

/// Reads the rule of an entry of a switch.
#[tactic(auto, unfolding(crate::specs::Profile::rule_in))]
pub fn read_rule(net: &Net, place: u32, switch: SwitchId, entry: &Entry) -> Result<Rule, StatsFault>
    ensures { Gives Memory (λ r. r) result (profile.rule_in net.now place switch entry.now) }
{
    let rule = read_fields(place, entry)?;
    if !has_used_ports(net, switch, &rule) {
        return Err(StatsFault::BadPort(place));
    }
    if is_reserved(net, rule.key.pattern.vlan) {
        return Err(StatsFault::ReservedVlan(place));
    }
    Ok(rule)
}
