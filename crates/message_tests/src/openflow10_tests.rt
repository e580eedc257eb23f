//! The messages of the wire against bytes that are spelled by hand, field by field, from the structs of OpenFlow 1.0.0.
ghost use Rattle.openflow10.specs.Messages.{IsMessage, message_of};

use flow_rules::{Action, Key, Pattern, Rewrite, Rule, VlanTest};
use net_base::{Port, Prefix, SwitchId};
use openflow10::WireFault::{Kind, Length, Profile, Short, Version};
use openflow10::WireField::{
    Actions, Address, Buffer, Command, Cookie, DlType, Flags, InPort, LayerTwo, Network, OutPort,
    Priority, Timeouts, Transport, Vlan, VlanPriority, Wildcards,
};
use openflow10::{FlowMod, Message, Verb, WireFault, decode, encode_barrier, encode_change};
use std::process::Abort;
use update_model::Change;

/// MODIFY_STRICT, xid 1: any port, any VLAN, 10.0.0.0/24, priority 100; output to port 4.
const REPLACE: &str =
    "010e005000000001003220ef000000000000000000000000000000000000080000000000000000000a0000000000000000000000000000000002000000000064ffffffffffff00000000000800040000";

/// ADD, xid 2: port 1, no tag, 10.0.0.0/24, priority 32868; VLAN id 3000, output to port 3.
const INSERT: &str =
    "010e005800000002003220ec0001000000000000000000000000ffff0000080000000000000000000a0000000000000000000000000000000000000000008064ffffffffffff0000000100080bb800000000000800030000";

/// DELETE_STRICT, xid 3: any port, VLAN 3000, any address, priority 16384; no actions.
const DELETE: &str =
    "010e004800000003003820ed00000000000000000000000000000bb8000008000000000000000000000000000000000000000000000000000004000000004000ffffffffffff0000";

fn replace() -> Change
    ensures { IsMessage (message_of result 1) }
{
    let pattern = Pattern {
        in_port: None,
        vlan: VlanTest::Any,
        dst: Prefix {
            base: 0x0a00_0000,
            len: 24,
        },
    };
    let key = Key {
        priority: 100,
        pattern,
    };
    let action = Action::Out(Port(4), Rewrite::Keep);
    Change::Replace(SwitchId(0), Rule { key, action })
}

fn insert() -> Change
    ensures { IsMessage (message_of result 2) }
{
    let pattern = Pattern {
        in_port: Some(Port(1)),
        vlan: VlanTest::Untagged,
        dst: Prefix {
            base: 0x0a00_0000,
            len: 24,
        },
    };
    let key = Key {
        priority: 32868,
        pattern,
    };
    let action = Action::Out(Port(3), Rewrite::Set(3000));
    Change::Insert(SwitchId(0), Rule { key, action })
}

fn delete() -> Change
    ensures { IsMessage (message_of result 3) }
{
    let pattern = Pattern {
        in_port: None,
        vlan: VlanTest::Id(3000),
        dst: Prefix { base: 0, len: 0 },
    };
    let key = Key {
        priority: 16384,
        pattern,
    };
    Change::Delete(
        SwitchId(0),
        Rule {
            key,
            action: Action::Discard,
        },
    )
}

fn bytes_of(rt: &(impl Abort + AllocGlobal), text: &str) -> Vec<u8> {
    hex::decode(rt.alloc(), text.as_bytes()).expect(rt, "hex digits")
}

/// The flow message that is expected for a change.
fn message_for(change: &Change, xid: u32) -> Message {
    let (verb, rule) = match change {
        Change::Insert(_, rule) => (Verb::Add(rule.action), rule),
        Change::Delete(_, rule) => (Verb::Remove, rule),
        Change::Replace(_, rule) => (Verb::Modify(rule.action), rule),
    };
    Message::Flow(FlowMod {
        xid,
        verb,
        key: rule.key,
    })
}

/// The bytes are those of the text, and with more behind them are read as the message.
fn is_both_ways(rt: &(impl Abort + AllocGlobal), bytes: &[u8], text: &str, message: Message) {
    let mut wanted = bytes_of(rt, text);
    let count = wanted.len();
    assert!(rt; bytes == wanted.as_slice(), "{text}");
    wanted.push(0x01).expect(rt, "room");
    assert!(rt; decode(&wanted) == Ok((message, count)), "{text}");
}

fn encoded(rt: &(impl Abort + AllocGlobal), change: &Change, xid: u32) -> Vec<u8>
    requires { IsMessage (message_of change.now xid) }
{
    encode_change(rt.alloc(), change, xid).expect(rt, "a message")
}

#[test]
fn changes_are_written_and_read_back(rt: HostRuntime) {
    let (first, second, third) = (replace(), insert(), delete());
    is_both_ways(
        &rt,
        &encoded(&rt, &first, 1),
        REPLACE,
        message_for(&first, 1),
    );
    is_both_ways(
        &rt,
        &encoded(&rt, &second, 2),
        INSERT,
        message_for(&second, 2),
    );
    is_both_ways(
        &rt,
        &encoded(&rt, &third, 3),
        DELETE,
        message_for(&third, 3),
    );
}

#[test]
fn barriers_are_written_and_read_back(rt: HostRuntime) {
    let request = Message::BarrierRequest(2);
    is_both_ways(&rt, &encode_barrier(2), "0112000800000002", request);
    let reply = bytes_of(&rt, "0113000800000002");
    assert!(rt; decode(&reply) == Ok((Message::BarrierReply(2), 8)));
}

#[test]
fn a_message_that_is_cut_is_short(rt: HostRuntime) {
    let bytes = bytes_of(&rt, REPLACE);
    for count in 0..80 {
        let front = bytes.get(..count).expect(&rt, "80 bytes");
        assert!(rt; decode(front) == Err(Short), "at {count}");
    }
    assert!(rt; decode(&bytes).is_ok());
}

/// What is said of the text's bytes with another byte at an offset.
fn is_refused(
    rt: &(impl Abort + AllocGlobal),
    text: &str,
    offset: usize,
    byte: u8,
    want: WireFault,
) {
    let mut bytes = bytes_of(rt, text);
    assert!(rt; offset < bytes.len());
    bytes[offset] = byte;
    assert!(rt; decode(&bytes) == Err(want), "{offset} {byte}");
}

#[test]
fn a_damaged_header_is_refused(rt: HostRuntime) {
    let barrier = "0112000800000002";
    let table = [
        (REPLACE, 0, 0x04, Version),
        (REPLACE, 1, 0x0f, Kind),
        (REPLACE, 3, 0x51, Length),
        (REPLACE, 3, 0x08, Length),
        (REPLACE, 2, 0x01, Length),
        (REPLACE, 3, 0x58, Short),
        (barrier, 1, 0x14, Kind),
        (barrier, 3, 0x09, Length),
        (barrier, 1, 0x0e, Length),
    ];
    for (text, offset, byte, fault) in table {
        is_refused(&rt, text, offset, byte, fault);
    }
}

#[test]
fn a_damaged_match_is_refused(rt: HostRuntime) {
    let table = [
        // A bit above those of the fields, the frame type open, and a destination of which 40 bits are ignored.
        (INSERT, 9, 0x72, Wildcards),
        (INSERT, 11, 0xfc, Wildcards),
        (INSERT, 9, 0x3a, Wildcards),
        // Any port, but a number; no number; a reserved number.
        (INSERT, 11, 0xed, InPort),
        (INSERT, 13, 0x00, InPort),
        (INSERT, 12, 0xff, InPort),
        (INSERT, 14, 0x01, LayerTwo),
        (INSERT, 25, 0x01, LayerTwo),
        // Any VLAN, but a number; ids 65534 and 0.
        (INSERT, 11, 0xee, Vlan),
        (INSERT, 27, 0xfe, Vlan),
        (DELETE, 26, 0x1b, Vlan),
        (INSERT, 28, 0x01, VlanPriority),
        (INSERT, 29, 0x01, VlanPriority),
        (INSERT, 31, 0x06, DlType),
        (INSERT, 32, 0x01, Network),
        (INSERT, 39, 0x01, Network),
        // 10.0.0.1/24
        (INSERT, 43, 0x01, Address),
        (INSERT, 44, 0x01, Transport),
        (INSERT, 47, 0x01, Transport),
    ];
    for (text, offset, byte, field) in table {
        is_refused(&rt, text, offset, byte, Profile(field));
    }
}

#[test]
fn a_damaged_command_is_refused(rt: HostRuntime) {
    let table = [
        (INSERT, 48, 0x01, Cookie),
        (INSERT, 55, 0x01, Cookie),
        // MODIFY and DELETE, which aren't strict.
        (INSERT, 57, 0x01, Command),
        (INSERT, 57, 0x03, Command),
        (INSERT, 58, 0x01, Timeouts),
        (INSERT, 61, 0x01, Timeouts),
        (DELETE, 62, 0x00, Priority),
        (INSERT, 67, 0x00, Buffer),
        (INSERT, 69, 0x03, OutPort),
        (INSERT, 71, 0x01, Flags),
        // A delete with actions; a length without the second action; two outputs; another type.
        (INSERT, 57, 0x04, Actions),
        (INSERT, 3, 0x50, Actions),
        (INSERT, 73, 0x00, Actions),
        (INSERT, 73, 0x02, Actions),
        (INSERT, 75, 0x10, Actions),
        (INSERT, 76, 0x1b, Actions),
        (INSERT, 79, 0x01, Actions),
        // A strip that isn't followed by zeros; a rewrite that isn't followed by an output.
        (INSERT, 73, 0x03, Actions),
        (INSERT, 81, 0x03, Actions),
        (INSERT, 84, 0xff, Actions),
        (INSERT, 85, 0x00, Actions),
        (INSERT, 87, 0x01, Actions),
        (REPLACE, 73, 0x03, Actions),
    ];
    for (text, offset, byte, field) in table {
        is_refused(&rt, text, offset, byte, Profile(field));
    }
}
