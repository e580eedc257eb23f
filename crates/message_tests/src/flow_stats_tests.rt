//! Flow statistics replies that are spelled by hand, field by field, from the structs of OpenFlow 1.0.0, and what they become.
ghost use Rattle.std.specs.Prelude.{◌≤◌};

use config_files::{config_text, read_config};
use flow_stats::StatsField::Actions;
use flow_stats::{StatsFault, read_replies};
use net_base::SwitchId;
use std::alloc::Global;
use std::process::Abort;
use topology::Net;
use topology_files::read_net;

/// Ports 1 and 2 of `a` are host ports, as port 1 of `b`; the ports 3 of both are linked. Ids from 3000 to 3009 are tags.
const NETWORK: &[u8] =
    br#"{"switches":[{"name":"a","capacity":8192},{"name":"b","capacity":2}],"links":[["a:3","b:3"]],"hosts":["a:1","a:2","b:1"],"vlans":["untagged",10],"tags":[3000,3009]}"#;

/// The hexadecimal digits of an entry's fields, as they stand in ofp_flow_stats.
#[derive(Clone, Copy)]
pub(crate) struct EntryText<'a> {
    pub(crate) len: &'a str,
    pub(crate) wildcards: &'a str,
    pub(crate) in_port: &'a str,
    pub(crate) dl_vlan: &'a str,
    pub(crate) dl_type: &'a str,
    pub(crate) nw_src: &'a str,
    pub(crate) nw_dst: &'a str,
    pub(crate) priority: &'a str,
    pub(crate) timeouts: &'a str,
    pub(crate) actions: &'a str,
}

/// Any port, any VLAN, 10.0.0.0/24, priority 100; output to port 2.
pub(crate) const ENTRY: EntryText<'static> = EntryText {
    len: "0060",
    wildcards: "003220ef",
    in_port: "0000",
    dl_vlan: "0000",
    dl_type: "0800",
    nw_src: "00000000",
    nw_dst: "0a000000",
    priority: "0064",
    timeouts: "00000000",
    actions: "0000000800020000",
};

/// 192.168.0.0/16, priority 90; no action.
const DROP: EntryText<'static> = EntryText {
    len: "0058",
    wildcards: "003420ef",
    nw_dst: "c0a80000",
    priority: "005a",
    actions: "",
    ..ENTRY
};

/// A message of a switch: its length and its flags as they stand in it, and its entries.
#[derive(Clone, Copy)]
struct Message<'a> {
    switch: &'a str,
    len: &'a str,
    flags: &'a str,
    entries: &'a [EntryText<'a>],
}

/// What messages are refused with.
type Refused<'a> = (&'a [Message<'a>], StatsFault);

fn entry_digits(rt: &impl Abort, alloc: Global, entry: &EntryText<'_>) -> String {
    let EntryText {
        len,
        wildcards,
        in_port,
        dl_vlan,
        dl_type,
        nw_src,
        nw_dst,
        priority,
        timeouts,
        actions,
    } = *entry;
    let addresses = "000000000000000000000000";
    let counts = "000000000000000000000000000000000000000000000000";
    let digits = format!(in alloc;
        "{len}0000{wildcards}{in_port}{addresses}{dl_vlan}0000{dl_type}00000000{nw_src}{nw_dst}000000000000000000000000{priority}{timeouts}000000000000{counts}{actions}"
    );
    digits.expect(rt, "memory")
}

fn push(rt: &impl Abort, text: &mut String, part: &str) {
    text.push_str(part).expect(rt, "memory");
}

/// Adds the line of a message.
fn push_message(rt: &impl Abort, alloc: Global, text: &mut String, message: &Message<'_>) {
    let Message {
        switch,
        len,
        flags,
        ..
    } = *message;
    let head = format!(in alloc; "{switch} 0111{len}000000000001{flags}");
    push(rt, text, &head.expect(rt, "memory"));
    for entry in message.entries {
        push(rt, text, &entry_digits(rt, alloc, entry));
    }
    push(rt, text, "\n");
}

/// The lines of messages.
fn lines_of(rt: &impl Abort, alloc: Global, messages: &[Message<'_>]) -> String {
    let mut text = String::new(alloc);
    for message in messages {
        push_message(rt, alloc, &mut text, message);
    }
    text
}

/// The line of a message of `a` with one entry, which has 108 bytes.
pub(crate) fn alone(rt: &impl Abort, alloc: Global, entry: &EntryText<'_>) -> String {
    let message = Message {
        switch: "a",
        len: "006c",
        flags: "0000",
        entries: &[*entry],
    };
    lines_of(rt, alloc, &[message])
}

fn network(rt: &impl Abort, alloc: Global) -> Net {
    read_net(alloc, NETWORK).expect(rt, "a network")
}

/// Whether the lines tell the configuration of this text, which is read again.
fn tells(rt: &impl Abort, alloc: Global, lines: &str, text: &str) -> bool {
    let net = network(rt, alloc);
    let config = read_replies(alloc, &net, lines.as_bytes())
        .ok()
        .expect(rt, "a configuration");
    let written = config_text(alloc, &net, &config).expect(rt, "memory");
    written.as_slice() == text.as_bytes() && read_config(alloc, &net, &written).is_ok()
}

/// Whether an entry of `a` becomes this rule, and nothing else.
fn becomes(rt: &impl Abort, alloc: Global, entry: &EntryText<'_>, rule: &str) -> bool {
    let text = format!(in alloc; "{{\"rules\":[{rule}]}}\n").expect(rt, "memory");
    tells(rt, alloc, &alone(rt, alloc, entry), &text)
}

/// Why the lines tell no configuration.
pub(crate) fn refusal(rt: &impl Abort, alloc: Global, lines: &[u8]) -> Option<StatsFault> {
    read_replies(alloc, &network(rt, alloc), lines).err()
}

fn all_refused(rt: &impl Abort, alloc: Global, rows: &[Refused<'_>]) {
    for (messages, fault) in rows {
        let lines = lines_of(rt, alloc, messages);
        assert!(rt;
            refusal(rt, alloc, lines.as_bytes()) == Some(*fault),
            "{lines}"
        );
    }
}

/// Entries of `a`, and their rules.
const RULES: &[(EntryText<'static>, &str)] = &[
    (
        ENTRY,
        r#"{"dst":"10.0.0.0/24","out":2,"priority":100,"switch":"a"}"#,
    ),
    // Port 1, no tag; the greatest priority, the link's end.
    (
        EntryText {
            wildcards: "003220ec",
            in_port: "0001",
            dl_vlan: "ffff",
            priority: "3fff",
            actions: "0000000800030000",
            ..ENTRY
        },
        r#"{"dst":"10.0.0.0/24","in_port":1,"out":3,"priority":16383,"switch":"a","vlan":"untagged"}"#,
    ),
    // Id 10; the least priority; a controller would get 128 bytes, which are passed over.
    (
        EntryText {
            wildcards: "003220ed",
            dl_vlan: "000a",
            priority: "0001",
            actions: "0000000800020080",
            ..ENTRY
        },
        r#"{"dst":"10.0.0.0/24","out":2,"priority":1,"switch":"a","vlan":10}"#,
    ),
    // All bits of the destination count.
    (
        EntryText {
            wildcards: "003020ef",
            nw_dst: "0a000401",
            ..ENTRY
        },
        r#"{"dst":"10.0.4.1/32","out":2,"priority":100,"switch":"a"}"#,
    ),
    // 8 bits are ignored, which aren't 0.
    (
        EntryText {
            nw_dst: "0a0000ff",
            ..ENTRY
        },
        r#"{"dst":"10.0.0.0/24","out":2,"priority":100,"switch":"a"}"#,
    ),
    // 32, 33 and 63 ignored bits are all; so are 33 bits of the source.
    (
        EntryText {
            wildcards: "003820ef",
            ..ENTRY
        },
        r#"{"dst":"0.0.0.0/0","out":2,"priority":100,"switch":"a"}"#,
    ),
    (
        EntryText {
            wildcards: "003861ef",
            ..ENTRY
        },
        r#"{"dst":"0.0.0.0/0","out":2,"priority":100,"switch":"a"}"#,
    ),
    (
        EntryText {
            wildcards: "003ff0ef",
            ..ENTRY
        },
        r#"{"dst":"0.0.0.0/0","out":2,"priority":100,"switch":"a"}"#,
    ),
    // Values of wildcards and the bits above 21 are passed over.
    (
        EntryText {
            wildcards: "fff220ef",
            in_port: "fffd",
            dl_vlan: "0fff",
            nw_src: "01020304",
            ..ENTRY
        },
        r#"{"dst":"10.0.0.0/24","out":2,"priority":100,"switch":"a"}"#,
    ),
    // Digits of upper case.
    (
        EntryText {
            wildcards: "003220EF",
            nw_dst: "0A000000",
            ..ENTRY
        },
        r#"{"dst":"10.0.0.0/24","out":2,"priority":100,"switch":"a"}"#,
    ),
];

#[test]
fn an_entry_becomes_a_rule(rt: HostRuntime) {
    for (entry, rule) in RULES {
        assert!(rt; becomes(&rt, rt.alloc(), entry, rule), "{rule}");
    }
}

#[test]
fn an_entry_without_actions_discards(rt: HostRuntime) {
    let alloc = rt.alloc();
    let message = Message {
        switch: "b",
        len: "0064",
        flags: "0000",
        entries: &[DROP],
    };
    let text =
        "{\"rules\":[{\"dst\":\"192.168.0.0/16\",\"out\":\"drop\",\"priority\":90,\"switch\":\"b\"}]}\n";
    assert!(rt; tells(&rt, alloc, &lines_of(&rt, alloc, &[message]), text));
}

/// The first message of `a`.
const FIRST: Message<'static> = Message {
    switch: "a",
    len: "006c",
    flags: "0001",
    entries: &[ENTRY],
};

/// A message of the other switch, and the rest of `a`.
const REST: &[Message<'static>] = &[
    Message {
        switch: "b",
        len: "0064",
        flags: "fffe",
        entries: &[DROP],
    },
    Message {
        switch: "a",
        len: "000c",
        flags: "0003",
        entries: &[],
    },
    Message {
        switch: "a",
        len: "00c4",
        flags: "0000",
        entries: &[
            EntryText {
                priority: "0001",
                ..ENTRY
            },
            DROP,
        ],
    },
];

/// Entries of two messages of one switch, with a comment and the other switch between them; the last line has no end.
#[test]
fn a_reply_goes_on_where_more_follows(rt: HostRuntime) {
    let alloc = rt.alloc();
    let mut lines = lines_of(&rt, alloc, &[FIRST]);
    push(&rt, &mut lines, "# the other switch\n\n");
    push(&rt, &mut lines, lines_of(&rt, alloc, REST).trim_end());
    let text =
        "{\"rules\":[{\"dst\":\"10.0.0.0/24\",\"out\":2,\"priority\":100,\"switch\":\"a\"},{\"dst\":\"10.0.0.0/24\",\"out\":2,\"priority\":1,\"switch\":\"a\"},{\"dst\":\"192.168.0.0/16\",\"out\":\"drop\",\"priority\":90,\"switch\":\"a\"},{\"dst\":\"192.168.0.0/16\",\"out\":\"drop\",\"priority\":90,\"switch\":\"b\"}]}\n";
    assert!(rt; tells(&rt, alloc, &lines, text));
}

#[test]
fn a_file_without_messages_tells_empty_tables(rt: HostRuntime) {
    for lines in ["", "# no switch answered\n"] {
        assert!(rt;
            tells(&rt, rt.alloc(), lines, "{\"rules\":[]}\n"),
            "{lines}"
        );
    }
}

/// An output behind another one; 4 bytes of actions.
const OTHER_ACTIONS: &[Refused<'static>] = &[
    (
        &[Message {
            switch: "a",
            len: "0074",
            flags: "0000",
            entries: &[EntryText {
                len: "0068",
                actions: "00000008000200000000000800030000",
                ..ENTRY
            }],
        }],
        StatsFault::Profile(0, Actions),
    ),
    (
        &[Message {
            switch: "a",
            len: "0068",
            flags: "0000",
            entries: &[EntryText {
                len: "005c",
                actions: "00000004",
                ..ENTRY
            }],
        }],
        StatsFault::Profile(0, Actions),
    ),
];

#[test]
fn other_actions_are_outside_the_profile(rt: HostRuntime) {
    all_refused(&rt, rt.alloc(), OTHER_ACTIONS);
}

/// Lines, and the number of the first that is none.
const BAD_LINES: &[(&[u8], u32)] = &[
    (b"c 00", 1),
    (b"a", 1),
    (b"a ", 1),
    (b" 00", 1),
    (b"a  00", 1),
    (b"a 0", 1),
    (b"a 0g", 1),
    (b"a 00 ", 1),
    (b"#\n\na 00\r", 3),
    (b"\xc3\xa4 00", 1),
    (b"a 00\xff", 1),
];

#[test]
fn what_no_switch_could_have_answered_is_a_bad_line(rt: HostRuntime) {
    for (lines, number) in BAD_LINES {
        let fault = StatsFault::BadLine(*number);
        assert!(rt; refusal(&rt, rt.alloc(), lines) == Some(fault), "{lines:?}");
    }
}

/// Lines of messages that are no flow statistics replies.
const BAD_MESSAGES: &[&str] = &[
    // 11 bytes; version 4; an echo reply; another length; statistics of tables.
    "a 0111000b00000000000100",
    "a 0411000c0000000000010000",
    "a 0103000c0000000000010000",
    "a 0111000d0000000000010000",
    "a 0111000c0000000000030000",
    // An entry of 2 bytes; one of 87 bytes.
    "a 0111000e00000000000100000058",
    "a 0111006300000000000100000057000000000000000000000000000000000000000000000000000000000000000000000000000000000000000000000000000000000000000000000000000000000000000000000000000000000000000000000000000000",
];

/// An entry that says one byte more than there is, and one less.
const BAD_LENGTHS: &[&str] = &["0061", "005f"];

#[test]
fn what_is_no_flow_statistics_reply_is_a_bad_message(rt: HostRuntime) {
    let alloc = rt.alloc();
    let fault = StatsFault::BadMessage(1);
    for lines in BAD_MESSAGES {
        assert!(rt;
            refusal(&rt, alloc, lines.as_bytes()) == Some(fault),
            "{lines}"
        );
    }
    for len in BAD_LENGTHS {
        let lines = alone(&rt, alloc, &EntryText { len, ..ENTRY });
        assert!(rt;
            refusal(&rt, alloc, lines.as_bytes()) == Some(fault),
            "{len}"
        );
    }
}

/// A whole reply and a second one; two replies that go on.
const UNENDED: &[Refused<'static>] = &[
    (
        &[
            Message {
                switch: "a",
                len: "006c",
                flags: "0000",
                entries: &[ENTRY],
            },
            Message {
                switch: "a",
                len: "006c",
                flags: "0000",
                entries: &[ENTRY],
            },
        ],
        StatsFault::BadMessage(2),
    ),
    (
        &[
            Message {
                switch: "b",
                len: "0064",
                flags: "0001",
                entries: &[DROP],
            },
            Message {
                switch: "a",
                len: "006c",
                flags: "0001",
                entries: &[ENTRY],
            },
        ],
        StatsFault::Incomplete(SwitchId(0)),
    ),
];

#[test]
fn a_reply_ends_once(rt: HostRuntime) {
    all_refused(&rt, rt.alloc(), UNENDED);
}

/// Entries that can't follow another one of `a`, and why.
const SECOND: &[(EntryText<'static>, StatsFault)] = &[
    // The same key with another action; the same priority and a common packet.
    (
        EntryText {
            actions: "0000000800030000",
            ..ENTRY
        },
        StatsFault::KeyTwice(1),
    ),
    (
        EntryText {
            wildcards: "003020ee",
            in_port: "0001",
            nw_dst: "0a000001",
            ..ENTRY
        },
        StatsFault::Overlap(1),
    ),
    // A port that isn't used, behind `in_port` and as the output; a tag.
    (
        EntryText {
            wildcards: "003220ee",
            in_port: "0004",
            ..ENTRY
        },
        StatsFault::BadPort(1),
    ),
    (
        EntryText {
            actions: "0000000800040000",
            ..ENTRY
        },
        StatsFault::BadPort(1),
    ),
    (
        EntryText {
            wildcards: "003220ed",
            dl_vlan: "0bb8",
            ..ENTRY
        },
        StatsFault::ReservedVlan(1),
    ),
];

#[test]
fn entries_of_a_switch_are_rules_of_its_table(rt: HostRuntime) {
    for (entry, fault) in SECOND {
        let message = Message {
            switch: "a",
            len: "00cc",
            flags: "0000",
            entries: &[ENTRY, *entry],
        };
        all_refused(&rt, rt.alloc(), &[(&[message], *fault)]);
    }
}

const TWO_OF_A: Message<'static> = Message {
    switch: "a",
    len: "00cc",
    flags: "0000",
    entries: &[
        ENTRY,
        EntryText {
            priority: "0001",
            ..ENTRY
        },
    ],
};

/// Entries are numbered over all lines; the switch `b` has room for two, which is a matter of the end.
const NUMBERED: &[Refused<'static>] = &[
    (
        &[
            TWO_OF_A,
            Message {
                switch: "b",
                len: "0114",
                flags: "0000",
                entries: &[
                    DROP,
                    EntryText {
                        priority: "0002",
                        ..DROP
                    },
                    EntryText {
                        priority: "0001",
                        ..DROP
                    },
                ],
            },
        ],
        StatsFault::OverCapacity(SwitchId(1)),
    ),
    (
        &[
            TWO_OF_A,
            Message {
                switch: "b",
                len: "0114",
                flags: "0001",
                entries: &[
                    DROP,
                    EntryText {
                        priority: "0002",
                        ..DROP
                    },
                    EntryText {
                        priority: "0001",
                        ..DROP
                    },
                ],
            },
        ],
        StatsFault::Incomplete(SwitchId(1)),
    ),
    (
        &[
            TWO_OF_A,
            Message {
                switch: "b",
                len: "00bc",
                flags: "0000",
                entries: &[DROP, DROP],
            },
        ],
        StatsFault::KeyTwice(3),
    ),
];

#[test]
fn entries_are_numbered_over_the_file(rt: HostRuntime) {
    all_refused(&rt, rt.alloc(), NUMBERED);
}

/// Adds an entry of 88 bytes for this address alone.
fn push_address(rt: &impl Abort, alloc: Global, lines: &mut String, address: u32) {
    let nw_dst = format!(in alloc; "{address:08x}").expect(rt, "memory");
    let entry = EntryText {
        wildcards: "003020ef",
        nw_dst: &nw_dst,
        ..DROP
    };
    push(rt, lines, &entry_digits(rt, alloc, &entry));
}

/// Lines of `a` with 256 entries each, for so many of the addresses 10.0.0.0/32 and on; more follows each.
fn many(rt: &impl Abort, alloc: Global, messages: u32) -> String
    requires { messages ≤ 100 }
{
    let mut lines = String::new(alloc);
    for m in 0..messages {
        push(rt, &mut lines, "a 0111580c0000000000010001");
        for n in 0..256 {
            push_address(rt, alloc, &mut lines, 167772160 + m * 256 + n);
        }
        push(rt, &mut lines, "\n");
    }
    lines
}

/// The end of `a` without entries, and a message of `b` with one.
const ENDS: &[(Message<'static>, Option<StatsFault>)] = &[
    (
        Message {
            switch: "a",
            len: "000c",
            flags: "0000",
            entries: &[],
        },
        None,
    ),
    (
        Message {
            switch: "b",
            len: "0064",
            flags: "0000",
            entries: &[DROP],
        },
        Some(StatsFault::TooMany),
    ),
];

#[test]
fn at_most_2048_entries_are_read(rt: HostRuntime) {
    let alloc = rt.alloc();
    for (message, fault) in ENDS {
        let mut lines = many(&rt, alloc, 8);
        push_message(&rt, alloc, &mut lines, message);
        assert!(rt; refusal(&rt, alloc, lines.as_bytes()) == *fault);
    }
}
