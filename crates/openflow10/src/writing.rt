//! Writing messages.
ghost use Rattle.std.specs.Prelude.{◌≡◌, ◌+◌, ◌*◌, ◌≤◌, ◌++◌, ℕ, List, length, replicate, vec_len, IfOk};
ghost use Rattle.openflow10.specs.Layout.{text_of};
ghost use Rattle.openflow10.specs.Match.{match_table, match_of};
ghost use Rattle.openflow10.specs.FlowMod.{command_table, command_of, flow_mod_of};
ghost use Rattle.openflow10.specs.Actions.{action_table, actions_table, rewrite_actions, verb_actions, actions_of};
ghost use Rattle.openflow10.specs.Messages.{wire_text, message_of, IsMessage, header_table, BeginsWith};
ghost use Rattle.openflow10.specs.declared.Message.TheVariants.{Flow, BarrierRequest};

use crate::numbers::{push_u8, push_u16, push_u32};
use crate::ofp_action::{ACTION_LENGTH, ActionFields, OUTPUT, SET_VLAN_VID, STRIP_VLAN};
use crate::ofp_flow_mod::{ADD, ANY_OUT_PORT, DELETE_STRICT, MODIFY_STRICT, NO_BUFFER};
use crate::ofp_match::{IPV4, VLAN_NONE, wildcards_of};
use crate::reading::{BARRIER_REQUEST, FLOW_MOD, FLOW_MOD_LENGTH, VERSION};
use crate::{FlowMod, Verb};
use byteorder::{BigEndian, ByteOrder};
use flow_rules::{Action, Key, Pattern, Rewrite, VlanTest};
use net_base::Memory;
use std::alloc::Global;
use update_model::Change;

/// How many bytes the longest message has: a flow message with two actions.
const LONGEST: usize = 88;

/// Appends so many zero bytes, at most 12.
fn push_zeros(out: &mut Vec<u8>, count: usize) -> Result<(), Memory>
    requires { count ≤ 12 }
    ensures { IfOk result (λ _. out.new.items ≡ out.old.items ++ replicate count 0) }
{
    let zeros = [0u8; 12];
    out.extend_from_slice(&zeros[..count])?;
    Ok(())
}

/// The ingress port of a match, 0 for any.
fn in_port_number(pattern: &Pattern) -> u16
    ensures { result ≡ (match_of pattern.now).in_port }
{
    match pattern.in_port {
        None => 0,
        Some(port) => port.0,
    }
}

/// The VLAN of a match, 0 for any.
fn dl_vlan_number(pattern: &Pattern) -> u16
    ensures { result ≡ (match_of pattern.now).dl_vlan }
{
    match pattern.vlan {
        VlanTest::Any => 0,
        VlanTest::Untagged => VLAN_NONE,
        VlanTest::Id(id) => id,
    }
}

/// The destination of a match, the first address of the prefix.
fn nw_dst_number(pattern: &Pattern) -> u32
    ensures { result ≡ (match_of pattern.now).nw_dst }
{
    pattern.dst.base
}

/// The wildcards of a pattern.
fn wildcards_number(pattern: &Pattern) -> u32
    ensures { result ≡ (match_of pattern.now).wildcards }
{
    let any_vlan = matches!(pattern.vlan, VlanTest::Any);
    wildcards_of(
        pattern.in_port.is_none(),
        any_vlan,
        32 - u32::from(pattern.dst.len),
    )
}

/// Appends the 40 bytes of a match (OpenFlow 1.0.0, section 5.2.3).
fn push_match(out: &mut Vec<u8>, pattern: &Pattern) -> Result<(), Memory>
    ensures { IfOk result (λ _. out.new.items
        ≡ out.old.items ++ text_of (match_table 8 (match_of pattern.now))) }
{
    push_u32(out, wildcards_number(pattern))?;
    push_u16(out, in_port_number(pattern))?;
    // dl_src, dl_dst
    push_zeros(out, 12)?;
    push_u16(out, dl_vlan_number(pattern))?;
    // dl_vlan_pcp and a pad
    push_zeros(out, 2)?;
    push_u16(out, IPV4)?;
    // nw_tos, nw_proto, a pad, nw_src
    push_zeros(out, 8)?;
    push_u32(out, nw_dst_number(pattern))?;
    // tp_src, tp_dst
    push_zeros(out, 4)
}

/// The number of a command (OpenFlow 1.0.0, section 5.3.3).
fn command_number(verb: &Verb) -> u16
    ensures { result ≡ command_of verb.now }
{
    match verb {
        Verb::Add(_) => ADD,
        Verb::Modify(_) => MODIFY_STRICT,
        Verb::Remove => DELETE_STRICT,
    }
}

/// Appends what stands between the match and the actions.
fn push_command(out: &mut Vec<u8>, verb: &Verb, key: &Key) -> Result<(), Memory>
    ensures { IfOk result (λ _. out.new.items
        ≡ out.old.items ++ text_of (command_table (flow_mod_of verb.now key.now))) }
{
    // cookie
    push_zeros(out, 8)?;
    push_u16(out, command_number(verb))?;
    // idle_timeout, hard_timeout
    push_zeros(out, 4)?;
    push_u16(out, key.priority)?;
    push_u32(out, NO_BUFFER)?;
    push_u16(out, ANY_OUT_PORT)?;
    // flags
    push_zeros(out, 2)
}

/// Appends an action.
fn push_action(out: &mut Vec<u8>, action: ActionFields) -> Result<(), Memory>
    ensures { IfOk result (λ _. out.new.items ≡ out.old.items ++ text_of (action_table 0 action)) }
{
    push_u16(out, action.kind)?;
    push_u16(out, action.len)?;
    push_u16(out, action.argument)?;
    push_u16(out, action.rest)
}

/// An action with its type, and the port or the VLAN id.
fn action_of(kind: u16, argument: u16) -> ActionFields
    ensures { result ≡ record { kind = kind; len = 8; argument = argument; rest = 0 } }
{
    ActionFields {
        kind,
        len: ACTION_LENGTH,
        argument,
        rest: 0,
    }
}

/// Appends what rewrites the VLAN before an output.
fn push_rewrite(out: &mut Vec<u8>, rewrite: Rewrite) -> Result<(), Memory>
    ensures { IfOk result (λ _. out.new.items
        ≡ out.old.items ++ text_of (actions_table 72 (rewrite_actions rewrite))) }
{
    match rewrite {
        Rewrite::Keep => Ok(()),
        Rewrite::Set(id) => push_action(out, action_of(SET_VLAN_VID, id)),
        Rewrite::Strip => push_action(out, action_of(STRIP_VLAN, 0)),
    }
}

/// Appends the actions of an entry.
fn push_actions(out: &mut Vec<u8>, action: &Action) -> Result<(), Memory>
    ensures { IfOk result (λ _. out.new.items
        ≡ out.old.items ++ text_of (actions_table 72 (actions_of action.now))) }
{
    match action {
        Action::Discard => Ok(()),
        Action::Out(port, rewrite) => {
            push_rewrite(out, *rewrite)?;
            push_action(out, action_of(OUTPUT, port.0))
        }
    }
}

/// Appends the actions of a command.
fn push_verb_actions(out: &mut Vec<u8>, verb: &Verb) -> Result<(), Memory>
    ensures { IfOk result (λ _. out.new.items
        ≡ out.old.items ++ text_of (actions_table 72 (verb_actions verb.now))) }
{
    match verb {
        Verb::Add(action) => push_actions(out, action),
        Verb::Modify(action) => push_actions(out, action),
        Verb::Remove => Ok(()),
    }
}

/// How many bytes the actions of an entry have.
fn actions_length(action: &Action) -> u16
    ensures { result ≡ 8 * length (actions_of action.now) }
{
    match action {
        Action::Discard => 0,
        Action::Out(_, Rewrite::Keep) => ACTION_LENGTH,
        Action::Out(_, _) => 2 * ACTION_LENGTH,
    }
}

/// How many bytes a flow message has.
fn message_length(verb: &Verb) -> u16
    ensures { result ≡ 72 + 8 * length (verb_actions verb.now) }
{
    match verb {
        Verb::Add(action) => FLOW_MOD_LENGTH + actions_length(action),
        Verb::Modify(action) => FLOW_MOD_LENGTH + actions_length(action),
        Verb::Remove => FLOW_MOD_LENGTH,
    }
}

/// Appends the header of a flow message (OpenFlow 1.0.0, section 5.1).
fn push_header(out: &mut Vec<u8>, message: &FlowMod) -> Result<(), Memory>
    ensures { IfOk result (λ _. out.new.items
        ≡ out.old.items ++ text_of (header_table (Flow message.now))) }
{
    push_u8(out, VERSION)?;
    push_u8(out, FLOW_MOD)?;
    push_u16(out, message_length(&message.verb))?;
    push_u32(out, message.xid)
}

/// Appends a flow message.
fn push_flow_mod(out: &mut Vec<u8>, message: &FlowMod) -> Result<(), Memory>
    ensures { IfOk result (λ _. out.new.items ≡ out.old.items ++ wire_text (Flow message.now)) }
{
    push_header(out, message)?;
    push_match(out, &message.key.pattern)?;
    push_command(out, &message.verb, &message.key)?;
    push_verb_actions(out, &message.verb)
}

/// The flow message that carries out a change.
fn flow_mod_for(change: &Change, xid: u32) -> FlowMod
    ensures { Flow result ≡ message_of change.now xid }
{
    let (verb, rule) = match change {
        Change::Insert(_, rule) => (Verb::Add(rule.action), rule),
        Change::Delete(_, rule) => (Verb::Remove, rule),
        Change::Replace(_, rule) => (Verb::Modify(rule.action), rule),
    };
    FlowMod {
        xid,
        verb,
        key: rule.key,
    }
}

/// The flow message that carries out a change, of 72, 80 or 88 bytes: an insert adds the entry, a replace modifies and a
/// delete deletes just the entry with its key. The switch isn't part of it.
pub fn encode_change(alloc: Global, change: &Change, xid: u32) -> Result<Vec<u8>, Memory>
    requires { IsMessage (message_of change.now xid) }
    ensures text { IfOk result (λ bytes. bytes.items ≡ wire_text (message_of change.now xid)) }
    // Whatever follows it, it is read back.
    ensures read_back { IfOk result (λ bytes. (rest : List ℕ)
        → BeginsWith (bytes.items ++ rest) (message_of change.now xid) (vec_len bytes)) }
{
    let mut out = Vec::with_capacity(alloc, LONGEST)?;
    push_flow_mod(&mut out, &flow_mod_for(change, xid))?;
    Ok(out)
}

/// A barrier request, which the switch answers when it has carried out all messages before it
/// (OpenFlow 1.0.0, section 5.3.7).
pub fn encode_barrier(xid: u32) -> [u8; 8]
    ensures text { result ≡ wire_text (BarrierRequest xid) }
    // Whatever follows it, it is read back.
    ensures read_back { (rest : List ℕ) → BeginsWith (result ++ rest) (BarrierRequest xid) 8 }
{
    let mut bytes = [VERSION, BARRIER_REQUEST, 0, 8, 0, 0, 0, 0];
    BigEndian::write_u32(&mut bytes[4..], xid);
    bytes
}
