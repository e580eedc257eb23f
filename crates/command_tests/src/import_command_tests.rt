//! `import` over files in memory.
use crate::sources::held;
use command_base::Status;
use config_command::{ConfigNames, config};
use example_files::{Answer, UpdateTexts, answer_of, square};
use import_command::{ImportNames, import};
use std::alloc::Global;
use std::process::Abort;

/// 10.0.0.0/24 of priority 100, output to port 2.
const REPLY: &str =
    "s1 0111006c000000000001000000600000003220ef000000000000000000000000000000000000080000000000000000000a0000000000000000000000000000000064000000000000000000000000000000000000000000000000000000000000000000000000000800020000\n";

/// The same, of priority 32768.
const HIGH: &str =
    "s1 0111006c000000000001000000600000003220ef000000000000000000000000000000000000080000000000000000000a0000000000000000000000000000008000000000000000000000000000000000000000000000000000000000000000000000000000000800020000\n";

/// The same as the first, and more follows.
const BEGUN: &str =
    "s1 0111006c000000000001000100600000003220ef000000000000000000000000000000000000080000000000000000000a0000000000000000000000000000000064000000000000000000000000000000000000000000000000000000000000000000000000000800020000\n";

/// What `import` answers to these lines, which are held in the place of a policy.
fn answered(rt: &impl Abort, alloc: Global, replies: &[u8]) -> Answer {
    let texts = UpdateTexts {
        policy: replies,
        ..square::update()
    };
    let mut source = held(rt, alloc, &texts, b"", 0);
    let names = ImportNames {
        topology: "topology",
        replies: "policy",
    };
    answer_of(alloc, import(alloc, &mut source, &names))
}

/// What `config` answers to this configuration.
fn judged(rt: &impl Abort, alloc: Global, text: &[u8]) -> Answer {
    let texts = UpdateTexts {
        old: text,
        ..square::update()
    };
    let mut source = held(rt, alloc, &texts, b"", 0);
    let names = ConfigNames {
        topology: "topology",
        config: "old",
        policy: None,
    };
    answer_of(alloc, config(alloc, &mut source, &names))
}

/// These lines, one behind the other.
fn joined(rt: &impl Abort, alloc: Global, lines: &[&str]) -> Vec<u8> {
    let mut text = Vec::new(alloc);
    for line in lines {
        text.extend_from_slice(line.as_bytes()).expect(rt, "memory");
    }
    text
}

#[test]
fn what_a_switch_told_is_a_configuration(rt: HostRuntime) {
    let alloc = rt.alloc();
    let text =
        b"{\"rules\":[{\"dst\":\"10.0.0.0/24\",\"out\":2,\"priority\":100,\"switch\":\"s1\"}]}\n";
    let answer = answered(&rt, alloc, REPLY.as_bytes());
    assert!(rt; answer.is(Status::Done, text));
    let verdict = judged(&rt, alloc, &answer.text);
    assert!(rt; verdict.is(Status::Done, b"holds: 12 classes\n"));
}

#[test]
fn a_refusal_is_named_with_its_place(rt: HostRuntime) {
    let alloc = rt.alloc();
    let rows: [(&[&str], &str); 5] = [
        (&[HIGH], "bad replies: 4 Profile Priority at 0\n"),
        (&[BEGUN], "bad replies: 3 Incomplete at 0\n"),
        (&[REPLY, REPLY], "bad replies: 2 BadMessage at 2\n"),
        (&[BEGUN, REPLY], "bad replies: 5 KeyTwice at 1\n"),
        (&["# s1\n", "s5 00\n"], "bad replies: 1 BadLine at 2\n"),
    ];
    for (lines, text) in rows {
        let answer = answered(&rt, alloc, &joined(&rt, alloc, lines));
        assert!(rt; answer.is(Status::BadFile, text.as_bytes()), "{text}");
    }
}

#[test]
fn replies_that_are_not_held_are_a_fault_of_reading(rt: HostRuntime) {
    let alloc = rt.alloc();
    let mut source = held(&rt, alloc, &square::update(), b"", 0);
    let names = ImportNames {
        topology: "topology",
        replies: "missing",
    };
    let answer = answer_of(alloc, import(alloc, &mut source, &names));
    assert!(rt; answer.is(Status::ReadFault, b""));
}
