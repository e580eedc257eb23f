//! Reading messages.
ghost use Rattle.std.specs.Prelude.{◌≡◌, ◌+◌, ◌*◌, ◌≤◌, ◌∷◌, ℕ, [], true, None, is_some, length, IfOk, IfSome, Ok};
ghost use Rattle.std.specs.Result.{result_err};
ghost use Rattle.openflow10.specs.Layout.{number_at};
ghost use Rattle.openflow10.specs.Actions.{actions_at, actions_in, verb_in};
ghost use Rattle.openflow10.specs.FlowMod.{flow_mod_at};
ghost use Rattle.openflow10.specs.Messages.{BeginsWith};
ghost use Rattle.openflow10.specs.Reading.{Names, NamesFlow, type_number};
ghost use Rattle.openflow10.specs.Refusals.{first_failed, profile, header_tests, body_tests, flow_tests, refusal_of, is_type, is_length};
ghost use Rattle.openflow10.specs.declared.Message.{Message};

use crate::numbers::{u8_at, u16_at, u32_at};
use crate::ofp_action::read_actions;
use crate::ofp_flow_mod::{ADD, DELETE_STRICT, FlowModFields};
use crate::{FlowMod, Message, Verb, WireFault, WireField};

/// The wire version of OpenFlow 1.0.
pub(crate) const VERSION: u8 = 0x01;

/// OFPT_FLOW_MOD.
pub(crate) const FLOW_MOD: u8 = 14;

/// OFPT_BARRIER_REQUEST.
pub(crate) const BARRIER_REQUEST: u8 = 18;

/// OFPT_BARRIER_REPLY.
const BARRIER_REPLY: u8 = 19;

/// The types of messages that are read.
#[derive(Clone, Copy)]
enum MessageType {
    FlowMod,
    BarrierRequest,
    BarrierReply,
}

/// How many bytes a header has.
pub(crate) const HEADER_LENGTH: u16 = 8;

/// How many bytes a flow message has before its actions.
pub(crate) const FLOW_MOD_LENGTH: u16 = 72;

/// A refusal of the field, unless it holds a value that is written.
pub(crate) fn want(holds: bool, field: WireField) -> Result<(), WireFault>
    ensures { result_err result ≡ first_failed (profile field holds ∷ []) }
{
    if holds {
        Ok(())
    } else {
        Err(WireFault::Profile(field))
    }
}

/// The type with a number.
#[tactic(auto, unfolding(crate::specs::Refusals::is_type))]
fn type_of(number: u8) -> Option<MessageType>
    ensures known { is_some result ≡ is_type number }
    ensures value { IfSome result (λ t. type_number t ≡ number) }
{
    match number {
        FLOW_MOD => Some(MessageType::FlowMod),
        BARRIER_REQUEST => Some(MessageType::BarrierRequest),
        BARRIER_REPLY => Some(MessageType::BarrierReply),
        _ => None,
    }
}

/// Whether a message of the type may have this length.
#[tactic(auto, unfolding(crate::specs::Refusals::is_length))]
fn is_length(kind: MessageType, length: u16) -> bool
    ensures { result ≡ is_length (type_number kind) length }
{
    match kind {
        MessageType::FlowMod => length == 72 || length == 80 || length == 88,
        MessageType::BarrierRequest => length == HEADER_LENGTH,
        MessageType::BarrierReply => length == HEADER_LENGTH,
    }
}

/// The type and the length of the message that begins the bytes.
fn read_header(bytes: &[u8]) -> Result<(MessageType, usize), WireFault>
    ensures refused { result_err result ≡ first_failed (header_tests bytes.now) }
    ensures found { IfOk result (λ h. (type_number h.0 ≡ number_at 1 1 bytes.now)
        × (h.1 ≡ number_at 2 2 bytes.now)) }
{
    if bytes.len() < 8 {
        return Err(WireFault::Short);
    }
    if u8_at(bytes, 0) != VERSION {
        return Err(WireFault::Version);
    }
    let Some(kind) = type_of(u8_at(bytes, 1)) else {
        return Err(WireFault::Kind);
    };
    let length = u16_at(bytes, 2);
    if !is_length(kind, length) {
        return Err(WireFault::Length);
    }
    let length = usize::from(length);
    if bytes.len() < length {
        return Err(WireFault::Short);
    }
    Ok((kind, length))
}

/// What a command with so many actions asks for.
fn read_verb(bytes: &[u8], command: u16, count: usize) -> Option<Verb>
    requires few { count ≤ 2 }
    requires room { 72 + 8 * count ≤ length bytes.now }
    ensures { result ≡ verb_in command (actions_at count 72 bytes.now) }
{
    if command == DELETE_STRICT {
        return if count == 0 { Some(Verb::Remove) } else { None };
    }
    let action = read_actions(bytes, count)?;
    Some(if command == ADD {
        Verb::Add(action)
    } else {
        Verb::Modify(action)
    })
}

/// The flow message of so many bytes that begins them.
fn read_flow_mod(bytes: &[u8], size: usize) -> Result<FlowMod, WireFault>
    requires stated { size ≡ number_at 2 2 bytes.now }
    requires known { is_length 14 size ≡ true }
    requires room { size ≤ length bytes.now }
    ensures refused { result_err result
        ≡ first_failed (flow_tests (flow_mod_at bytes.now) (actions_in bytes.now)) }
    ensures found { IfOk result (λ m. (m.xid ≡ number_at 4 4 bytes.now) × NamesFlow bytes.now m) }
{
    let fields = FlowModFields::read(bytes);
    fields.pattern.check()?;
    fields.check()?;
    let count = (size - 72) / 8;
    let verb = read_verb(bytes, fields.command, count).ok_or(WireFault::Profile(
        WireField::Actions,
    ))?;
    Ok(FlowMod {
        xid: u32_at(bytes, 4),
        verb,
        key: fields.key(),
    })
}

/// The message of the type and the length that begins the bytes.
fn read_body(bytes: &[u8], kind: MessageType, size: usize) -> Result<Message, WireFault>
    requires header { first_failed (header_tests bytes.now) ≡ None }
    requires type_is { type_number kind ≡ number_at 1 1 bytes.now }
    requires size_is { size ≡ number_at 2 2 bytes.now }
    ensures refused { result_err result ≡ first_failed (body_tests bytes.now) }
    ensures found { IfOk result (Names bytes.now) }
{
    match kind {
        MessageType::FlowMod => Ok(Message::Flow(read_flow_mod(bytes, size)?)),
        MessageType::BarrierRequest => Ok(Message::BarrierRequest(u32_at(bytes, 4))),
        MessageType::BarrierReply => Ok(Message::BarrierReply(u32_at(bytes, 4))),
    }
}

/// The message that the fields of the bytes name, and its length.
fn read_message(bytes: &[u8]) -> Result<(Message, usize), WireFault>
    ensures refused { result_err result ≡ refusal_of bytes.now }
    ensures found { IfOk result (λ found. Names bytes.now found.0
        × (found.1 ≡ number_at 2 2 bytes.now)) }
{
    let (kind, size) = read_header(bytes)?;
    let message = read_body(bytes, kind, size)?;
    Ok((message, size))
}

/// The message that begins the bytes, and how many bytes it has. More bytes may follow. It takes no memory, and looks at
/// 88 bytes at most.
pub fn decode(bytes: &[u8]) -> Result<(Message, usize), WireFault>
    // The bytes begin with the wire text of the message, which has so many bytes.
    ensures found { IfOk result (λ found. BeginsWith bytes.now found.0 found.1) }
    // A message whose wire text begins the bytes is found, whatever follows it.
    ensures only { (m : Message) (n : ℕ) → BeginsWith bytes.now m n → result ≡ Ok (m, n) }
    // Else the first test that fails says why.
    ensures refused { result_err result ≡ refusal_of bytes.now }
{
    read_message(bytes)
}
