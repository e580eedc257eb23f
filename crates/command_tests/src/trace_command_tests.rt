//! `trace` over files in memory.
use command_base::Status;
use example_files::{Answer, ConfigTexts, answer_of, config_source, square, words};
use std::alloc::Global;
use std::process::Abort;
use trace_command::{trace, trace_names};

/// Two switches with two links between them, and three host ports.
const TOPOLOGY: &[u8] =
    br#"{"switches":[{"name":"a","capacity":8},{"name":"b","capacity":8}],"links":[["a:2","b:1"],["a:4","b:4"]],"hosts":["a:1","a:3","b:2"],"vlans":["untagged",10],"tags":[]}"#;

/// Rules by port, by VLAN and by prefix; packets to 20.0.0.0/24 go round.
const CONFIG: &[u8] = br#"{"rules":[
    {"switch":"a","priority":50,"dst":"20.0.0.0/24","out":2},
    {"switch":"a","priority":100,"vlan":"untagged","dst":"10.0.0.0/16","out":3},
    {"switch":"a","priority":200,"in_port":1,"dst":"10.0.0.0/24","out":2},
    {"switch":"a","priority":300,"in_port":1,"vlan":10,"dst":"10.0.0.0/8","out":"drop"},
    {"switch":"b","priority":50,"dst":"20.0.0.0/24","out":4},
    {"switch":"b","priority":7,"dst":"0.0.0.0/0","out":2}
]}"#;

/// The answer to the words, over a topology and a configuration, where the call of the number fails.
fn answered(
    rt: &impl Abort,
    alloc: Global,
    texts: &ConfigTexts<'_>,
    packet: [&str; 3],
    failing: u64,
) -> Answer {
    let [entry, vlan, address] = packet;
    let words = words(alloc, &["topology", "config", entry, vlan, address]).expect(rt, "memory");
    let names = trace_names(&words).expect(rt, "an entry");
    let mut source = config_source(alloc, texts, 4096, failing).expect(rt, "a source");
    answer_of(alloc, trace(alloc, &mut source, &names))
}

/// The answer over the two switches.
fn over_two_switches(rt: &impl Abort, alloc: Global, packet: [&str; 3], failing: u64) -> Answer {
    let texts = ConfigTexts {
        topology: TOPOLOGY,
        config: CONFIG,
        policy: None,
    };
    answered(rt, alloc, &texts, packet, failing)
}

#[test]
fn each_stop_has_the_rule_of_its_lookup(rt: HostRuntime) {
    let rows: [([&str; 3], &[u8]); 7] = [
        // By port: the rule for untagged packets has less priority.
        (
            ["a:1", "untagged", "10.0.0.5"],
            b"a:1 untagged: 200 1 any 10.0.0.0/24 -> port 2\nb:1 untagged: 7 any any 0.0.0.0/0 -> port 2\nleft b:2 untagged\n",
        ),
        // By port and VLAN.
        (
            ["a:1", "10", "10.0.0.5"],
            b"a:1 10: 300 1 10 10.0.0.0/8 -> drop\ndropped a\n",
        ),
        // By VLAN.
        (
            ["a:1", "untagged", "10.0.1.0"],
            b"a:1 untagged: 100 any untagged 10.0.0.0/16 -> port 3\nleft a:3 untagged\n",
        ),
        // Not sent back out of the port where it came in.
        (
            ["a:3", "untagged", "10.0.255.255"],
            b"a:3 untagged: 100 any untagged 10.0.0.0/16 -> port 3\ndropped a\n",
        ),
        // By none.
        (["a:3", "10", "10.0.0.5"], b"a:3 10: no rule\ndropped a\n"),
        // By prefix, to a switch where it was before.
        (
            ["a:1", "10", "20.0.0.9"],
            b"a:1 10: 50 any any 20.0.0.0/24 -> port 2\nb:1 10: 50 any any 20.0.0.0/24 -> port 4\na:4 10: 50 any any 20.0.0.0/24 -> port 2\nagain a\n",
        ),
        (
            ["b:2", "untagged", "20.0.0.0"],
            b"b:2 untagged: 50 any any 20.0.0.0/24 -> port 4\na:4 untagged: 50 any any 20.0.0.0/24 -> port 2\nb:1 untagged: 50 any any 20.0.0.0/24 -> port 4\nagain b\n",
        ),
    ];
    for (packet, text) in rows {
        let answer = over_two_switches(&rt, rt.alloc(), packet, 0);
        assert!(rt; answer.is(Status::Done, text));
    }
}

#[test]
fn a_packet_of_the_square_goes_round_by_the_diagonal(rt: HostRuntime) {
    let texts = ConfigTexts {
        topology: square::topology(),
        config: square::new(),
        policy: None,
    };
    let answer = answered(&rt, rt.alloc(), &texts, ["s2:3", "untagged", "10.0.0.7"], 0);
    let text =
        b"s2:3 untagged: 100 any any 10.0.0.0/24 -> port 2\ns3:1 untagged: 100 any any 10.0.0.0/24 -> port 3\ns1:3 untagged: 100 any any 10.0.0.0/24 -> port 4\ns4:2 untagged: 100 any any 10.0.0.0/24 -> port 3\nleft s4:3 untagged\n";
    assert!(rt; answer.is(Status::Done, text));
}

#[test]
fn what_is_no_entry_is_refused(rt: HostRuntime) {
    let rows: [([&str; 3], &[u8]); 5] = [
        // No such switch, no such port, the port of a link, no declared VLAN.
        (["c:1", "untagged", "10.0.0.5"], b"no entry: c:1 untagged\n"),
        (["a:9", "untagged", "10.0.0.5"], b"no entry: a:9 untagged\n"),
        (["a:2", "untagged", "10.0.0.5"], b"no entry: a:2 untagged\n"),
        (["a:1", "4094", "10.0.0.5"], b"no entry: a:1 4094\n"),
        (
            ["A-name_of-32-letters-and-digits_:65279", "1", "0.0.0.0"],
            b"no entry: A-name_of-32-letters-and-digits_:65279 1\n",
        ),
    ];
    for (packet, text) in rows {
        let answer = over_two_switches(&rt, rt.alloc(), packet, 0);
        assert!(rt; answer.is(Status::Refused, text));
    }
}

#[test]
fn bad_files_are_named(rt: HostRuntime) {
    let rows: [(&[u8], &[u8], &[u8]); 2] = [
        (b"", CONFIG, b"bad topology: 1 NotJson at 0\n"),
        (
            TOPOLOGY,
            br#"{"rules":[{"switch":"c","priority":1,"dst":"0.0.0.0/0","out":1}]}"#,
            b"bad config: 3 UnknownSwitch at 0\n",
        ),
    ];
    for (topology, config, text) in rows {
        let texts = ConfigTexts {
            topology,
            config,
            policy: None,
        };
        let answer = answered(&rt, rt.alloc(), &texts, ["c:1", "10", "0.0.0.0"], 0);
        assert!(rt; answer.is(Status::BadFile, text));
    }
}

/// Two files are opened, each with a take of its bytes and one at its end.
#[test]
fn each_call_of_the_source_may_fail(rt: HostRuntime) {
    let packet = ["a:1", "10", "10.0.0.5"];
    for failing in 1..=6u64 {
        let answer = over_two_switches(&rt, rt.alloc(), packet, failing);
        assert!(rt; answer.is(Status::ReadFault, b""), "at {failing}");
    }
    let answer = over_two_switches(&rt, rt.alloc(), packet, 7);
    assert!(rt; answer.status == Status::Done);
}

/// Whether these words are names of files, an entry and an address.
fn are_names(rt: &impl Abort, alloc: Global, texts: &[&str]) -> bool {
    let words = words(alloc, texts).expect(rt, "memory");
    trace_names(&words).is_some()
}

#[test]
fn other_spellings_are_no_words(rt: HostRuntime) {
    let good = ["t", "c", "a-Z_9:1", "untagged", "255.255.255.255"];
    assert!(rt; are_names(&rt, rt.alloc(), &good));
    assert!(rt; !are_names(&rt, rt.alloc(), &["t", "c", "a:1", "untagged"]));
    assert!(rt; !are_names(&rt, rt.alloc(), &["t", "c", "a:1", "1", "0.0.0.0", "more"]));
    let rows: [[&str; 3]; 22] = [
        ["a", "1", "0.0.0.0"],
        [":1", "1", "0.0.0.0"],
        ["a:", "1", "0.0.0.0"],
        ["a:0", "1", "0.0.0.0"],
        ["a:65280", "1", "0.0.0.0"],
        ["a:01", "1", "0.0.0.0"],
        ["a:+1", "1", "0.0.0.0"],
        ["a:1 ", "1", "0.0.0.0"],
        ["a.b:1", "1", "0.0.0.0"],
        ["a:b:1", "1", "0.0.0.0"],
        ["a-name-of-33-letters-and-digits-x:1", "1", "0.0.0.0"],
        ["a:1", "0", "0.0.0.0"],
        ["a:1", "4095", "0.0.0.0"],
        ["a:1", "010", "0.0.0.0"],
        ["a:1", "any", "0.0.0.0"],
        ["a:1", "Untagged", "0.0.0.0"],
        ["a:1", "", "0.0.0.0"],
        ["a:1", "1", "0.0.0"],
        ["a:1", "1", "0.0.0.256"],
        ["a:1", "1", "0.0.0.00"],
        ["a:1", "1", "0.0.0.0/32"],
        ["a:1", "1", "0.0.0.0.0"],
    ];
    for [entry, vlan, address] in rows {
        assert!(rt; !are_names(&rt, rt.alloc(), &["t", "c", entry, vlan, address]));
    }
}
