//! The OpenFlow 1.0 messages of an update, one spelling both ways: flow messages and barriers, written and read.
#![tactic(auto)]

mod laws;
mod numbers;
mod ofp_action;
mod ofp_flow_mod;
mod ofp_match;
mod reading;
mod writing;

use flow_rules::{Action, Key};
pub use laws::{each_message_has_its_own_text, fields_stand_at_their_offsets, texts_are_read_back};
pub use numbers::{u8_at, u16_at, u32_at, u48_at, u64_at};
pub use ofp_action::{ActionFields, is_port};
pub use ofp_match::MatchFields;
pub use reading::decode;
pub use writing::{encode_barrier, encode_change};

/// What a flow message asks a switch to do with the entry of just its key (OpenFlow 1.0.0, section 5.3.3, `command`).
#[derive(Clone, Copy, PartialEq, Eq)]
pub enum Verb {
    /// Adds an entry with the action: OFPFC_ADD.
    Add(Action),
    /// Gives the entry the action: OFPFC_MODIFY_STRICT.
    Modify(Action),
    /// Takes the entry out: OFPFC_DELETE_STRICT.
    Remove,
}

/// A flow message (OFPT_FLOW_MOD).
#[derive(Clone, Copy, PartialEq, Eq)]
pub struct FlowMod {
    /// The number that pairs an answer with its request.
    pub xid: u32,
    pub verb: Verb,
    pub key: Key,
}

/// A message: a flow message, or a barrier request or reply with its `xid` (OpenFlow 1.0.0, section 5.3.7). A switch
/// answers a barrier request when it has carried out all messages before it.
#[derive(Clone, Copy, PartialEq, Eq)]
pub enum Message {
    Flow(FlowMod),
    BarrierRequest(u32),
    BarrierReply(u32),
}

/// Why bytes begin with no message, in the order of the tests.
#[derive(Clone, Copy, PartialEq, Eq)]
pub enum WireFault {
    /// There are fewer than 8 bytes, or, behind `Length`, fewer than the message's length.
    Short,
    /// The version isn't 0x01.
    Version,
    /// The type is neither that of a flow message nor that of a barrier.
    Kind,
    /// A barrier's length isn't 8, or a flow message's isn't 72, 80 or 88.
    Length,
    /// The field, the first in byte order, has a value that is never written.
    Profile(WireField),
}

/// A field or a group of fields of a flow message, in byte order.
#[derive(Clone, Copy, PartialEq, Eq)]
pub enum WireField {
    /// Bytes 8 to 11: a bit that isn't the one written, or a count of the destination above 32.
    Wildcards,
    /// Bytes 12 and 13: a wildcard and not 0, or exact and no port from 1 to 65279.
    InPort,
    /// Bytes 14 to 25, the Ethernet addresses: not 0.
    LayerTwo,
    /// Bytes 26 and 27: a wildcard and not 0, or exact and neither 0xffff nor an id from 1 to 4094.
    Vlan,
    /// Bytes 28 and 29, the VLAN priority and a pad: not 0.
    VlanPriority,
    /// Bytes 30 and 31, the frame type: not 0x0800.
    DlType,
    /// Bytes 32 to 39, the type of service, the protocol, a pad and the source address: not 0.
    Network,
    /// Bytes 40 to 43, the destination address: a bit isn't 0 that the count ignores.
    Address,
    /// Bytes 44 to 47, the transport ports: not 0.
    Transport,
    /// Bytes 48 to 55: not 0.
    Cookie,
    /// Bytes 56 and 57: not 0, 2 or 4.
    Command,
    /// Bytes 58 to 61: not 0.
    Timeouts,
    /// Bytes 62 and 63: 0.
    Priority,
    /// Bytes 64 to 67: not 0xffffffff.
    Buffer,
    /// Bytes 68 and 69: not 0xffff.
    OutPort,
    /// Bytes 70 and 71: not 0.
    Flags,
    /// From byte 72 on: no output, or a rewrite and an output, to a port from 1 to 65279, with an id from 1 to 4094; or
    /// actions of a delete.
    Actions,
}
