//! `drive` over files in memory. In the plan of the square network s1 is changed in round 1 and s3 in round 2; in that of the
//! detour round 1 changes s, x, w, y and d, and round 5 nothing.
use crate::answers::check_names;
use command_base::Status;
use drive_command::{DriveNames, drive};
use example_files::{
    Answer, UpdateTexts, answer_of, detour, detour_plans, driven_source, none, square, wide,
};
use std::alloc::Global;
use std::process::Abort;

/// What is sent to s1: HELLO, the change of round 1, and its barrier request.
const SENT_S1: &str =
    "# sent s1 0100000800000000010e005000000001003220ef000000000000000000000000000000000000080000000000000000000a0000000000000000000000000000000002000000000064ffffffffffff000000000008000400000112000800000002";

/// Both rounds of the square.
const SQUARE_REPORT: &str =
    "# sent s1 0100000800000000010e005000000001003220ef000000000000000000000000000000000000080000000000000000000a0000000000000000000000000000000002000000000064ffffffffffff000000000008000400000112000800000002\n# sent s2 0100000800000000\n# sent s3 0100000800000000010e005000000003003220ef000000000000000000000000000000000000080000000000000000000a0000000000000000000000000000000002000000000064ffffffffffff000000000008000300000112000800000004\n# sent s4 0100000800000000\nstart\nchange 0\nsettle\nstart\nchange 0\nsettle\n# settled 2 of 2\n";

/// HELLO comes from s1 and s3, of version 1 and 4.
const HELLOS: &str = "feed s1 0100000800000000\nfeed s3 0400000800000000\n";

/// HELLO comes from each switch of the detour.
const DETOUR_HELLOS: &str =
    "feed s 0100000800000000\nfeed x 0100000800000000\nfeed w 0100000800000000\nfeed y 0100000800000000\nfeed d 0100000800000000\n";

fn names(input: &str) -> DriveNames<'_> {
    DriveNames {
        check: check_names(),
        input,
    }
}

/// What is answered.
fn answered(
    rt: &impl Abort,
    alloc: Global,
    texts: &UpdateTexts<'_>,
    plan: &[u8],
    input: &[u8],
) -> Answer {
    let source = driven_source(alloc, texts, plan, input);
    let mut source = source.expect(rt, "a source");
    answer_of(alloc, drive(alloc, &mut source, &names("input")))
}

/// What is answered for the square.
fn square_answer(rt: &impl Abort, alloc: Global, input: &[u8]) -> Answer {
    answered(rt, alloc, &square::update(), square::plan(), input)
}

/// These lines, one text behind the other.
fn joined(rt: &impl Abort, alloc: Global, parts: &[&str]) -> Vec<u8> {
    let mut text = Vec::new(alloc);
    for part in parts {
        text.extend_from_slice(part.as_bytes()).expect(rt, "memory");
    }
    text
}

#[test]
fn a_plan_is_carried_out(rt: HostRuntime) {
    let alloc = rt.alloc();
    let input = joined(
        &rt,
        alloc,
        &[
            "# s3 speaks version 4, in two pieces\nfeed s1 0100000800000000\nfeed s3 04000008000000\nfeed s3 05\n",
            "start\nfeed s1 0113000800000002\nstart\nfeed s3 0113000800000004",
        ],
    );
    let answer = square_answer(&rt, alloc, &input);
    assert!(rt; answer.is(Status::Done, SQUARE_REPORT.as_bytes()));
}

/// A line that feeds these digits, cut behind so many of them.
fn cut(rt: &impl Abort, alloc: Global, name: &str, digits: &str, at: usize) -> Vec<u8> {
    match digits.split_at_checked(at) {
        Some((first, rest)) => {
            let text = format!(in alloc; "feed {name} {first}\nfeed {name} {rest}\n");
            text.expect(rt, "memory").into_bytes()
        }
        None => Vec::new(alloc),
    }
}

#[test]
fn a_message_may_be_cut_anywhere(rt: HostRuntime) {
    let alloc = rt.alloc();
    for at in [2, 4, 6, 8, 10, 12, 14] {
        let mut input = joined(&rt, alloc, &[HELLOS, "start\n"]);
        let reply = cut(&rt, alloc, "s1", "0113000800000002", at);
        input.extend_from_slice(&reply).expect(&rt, "memory");
        let reply = cut(&rt, alloc, "s3", "0113000800000004", at);
        input.extend_from_slice(b"start\n").expect(&rt, "memory");
        input.extend_from_slice(&reply).expect(&rt, "memory");
        let answer = square_answer(&rt, alloc, &input);
        assert!(rt; answer.is(Status::Done, SQUARE_REPORT.as_bytes()), "{at}");
    }
}

#[test]
fn bytes_may_come_singly(rt: HostRuntime) {
    let alloc = rt.alloc();
    let input = joined(
        &rt,
        alloc,
        &[
            "feed s1 01\nfeed s1 00\nfeed s1 00\nfeed s1 08\nfeed s1 00\nfeed s1 00\nfeed s1 00\nfeed s1 00\nfeed s3 0100000800000000\nstart\n",
            "feed s1 01\nfeed s1 13\nfeed s1 00\nfeed s1 08\nfeed s1 00\nfeed s1 00\nfeed s1 00\nfeed s1 02\nstart\n",
            "feed s3 01\nfeed s3 13\nfeed s3 00\nfeed s3 08\nfeed s3 00\nfeed s3 00\nfeed s3 00\nfeed s3 04\n",
        ],
    );
    let answer = square_answer(&rt, alloc, &input);
    assert!(rt; answer.is(Status::Done, SQUARE_REPORT.as_bytes()));
}

#[test]
fn a_session_fails_by_its_cause(rt: HostRuntime) {
    let alloc = rt.alloc();
    let rows: [(&str, &str); 9] = [
        (
            "feed s1 0000000800000000\n",
            "# failed s1 Version\n# settled 0 of 2\n",
        ),
        (
            "feed s1 0402000800000000\n",
            "# failed s1 Version\n# settled 0 of 2\n",
        ),
        (
            "feed s1 0100000700000000\n",
            "# failed s1 Length\n# settled 0 of 2\n",
        ),
        (
            "feed s1 0102000800000000\n",
            "# failed s1 NoHello\n# settled 0 of 2\n",
        ),
        // What comes behind is dropped.
        (
            "feed s1 0100000800000000\nfeed s1 0101000c00000001000300050000000000\nfeed s1 01000008\n",
            "# failed s1 Error 3 5\n# settled 0 of 2\n",
        ),
        (
            "feed s1 0100000800000000\nfeed s1 0101000b00000001000300\n",
            "# failed s1 Length\n# settled 0 of 2\n",
        ),
        // No barrier is outstanding yet.
        (
            "feed s1 0100000800000000\nfeed s1 0113000800000002\n",
            "# failed s1 Xid 2\n# settled 0 of 2\n",
        ),
        (
            "feed s1 0100000800000000\nstart\nfeed s1 0113000800000009\nfeed s1 0113000800000002\n",
            "# failed s1 Xid 9\nstart\n# running 1 of 2\n",
        ),
        // The reply to the request of round 1 comes twice.
        (
            "feed s1 0100000800000000\nstart\nfeed s1 01130008000000020113000800000002\n",
            "# failed s1 Xid 2\nstart\nchange 0\nsettle\n# settled 1 of 2\n",
        ),
    ];
    for (input, end) in rows {
        let answer = square_answer(&rt, alloc, input.as_bytes());
        assert!(rt; answer.status == Status::Done, "{input}");
        assert!(rt; answer.text.as_slice().ends_with(end.as_bytes()), "{input}");
    }
}

#[test]
fn an_echo_is_answered_in_mid_round(rt: HostRuntime) {
    let alloc = rt.alloc();
    let echo = "start\nfeed s1 0102000c00000007a1B2c3d4\nfeed s1 0113000800000002\n";
    let input = joined(&rt, alloc, &[HELLOS, echo]);
    let answer = square_answer(&rt, alloc, &input);
    let front = joined(
        &rt,
        alloc,
        &[
            SENT_S1,
            "0103000c00000007a1b2c3d4\n# sent s2 0100000800000000\n",
        ],
    );
    assert!(rt; answer.status == Status::Done);
    assert!(rt; answer.text.as_slice().starts_with(&front));
    assert!(rt;
        answer
            .text
            .as_slice()
            .ends_with(b"\nstart\nchange 0\nsettle\n# settled 1 of 2\n")
    );
}

#[test]
fn switches_answer_in_any_order(rt: HostRuntime) {
    let alloc = rt.alloc();
    let rows: [(&str, &str); 3] = [
        (
            "start\nfeed s 011300080000000b\nfeed x 011300080000000c\nfeed w 011300080000000d\nfeed y 011300080000000e\nfeed d 011300080000000f\n",
            "\nstart\nchange 0\nchange 1\nchange 2\nchange 3\nchange 4\nchange 5\nchange 6\nchange 7\nchange 8\nchange 9\nsettle\n# settled 1 of 8\n",
        ),
        (
            "start\nfeed d 011300080000000f\nfeed w 011300080000000d\nfeed s 011300080000000b\nfeed y 011300080000000e\nfeed x 011300080000000c\n",
            "\nstart\nchange 8\nchange 9\nchange 4\nchange 5\nchange 0\nchange 1\nchange 6\nchange 7\nchange 2\nchange 3\nsettle\n# settled 1 of 8\n",
        ),
        (
            "start\nfeed d 011300080000000f\nfeed w 011300080000000d\n",
            "\nstart\nchange 8\nchange 9\nchange 4\nchange 5\n# running 1 of 8\n",
        ),
    ];
    for (lines, end) in rows {
        let input = joined(&rt, alloc, &[DETOUR_HELLOS, lines]);
        let answer = answered(
            &rt,
            alloc,
            &detour::update(),
            detour_plans::two_phases(),
            &input,
        );
        assert!(rt; answer.status == Status::Done, "{lines}");
        assert!(rt; answer.text.as_slice().ends_with(end.as_bytes()), "{lines}");
    }
}

/// A round without changes, over an update that changes nothing.
const EMPTY_ROUND: &[u8] =
    br#"{"befores": [], "format": 2, "kind": "ordered", "numberings": [[0, 0, 0, 0], [3, 2, 1, 0], [0, 2, 1, 0], [0, 0, 1, 0]], "picks": [[1, 0, 0], [1, 1, 1], [1, 2, 0], [1, 3, 0], [1, 4, 2], [1, 5, 0], [1, 6, 0], [1, 7, 3], [1, 8, 0], [1, 9, 0], [1, 10, 0], [1, 11, 0]], "rounds": [[]], "rules": [], "uses": [[0, []], [1, []], [2, []], [3, []]]}"#;

#[test]
fn a_round_without_changes_is_settled_at_once(rt: HostRuntime) {
    let alloc = rt.alloc();
    let answer = answered(&rt, alloc, &square::no_change(), EMPTY_ROUND, b"start\n");
    let report =
        b"# sent s1 0100000800000000\n# sent s2 0100000800000000\n# sent s3 0100000800000000\n# sent s4 0100000800000000\nstart\nsettle\n# settled 1 of 1\n";
    assert!(rt; answer.is(Status::Done, report));
}

#[test]
fn a_start_may_be_refused(rt: HostRuntime) {
    let alloc = rt.alloc();
    let rows: [(&str, &str); 4] = [
        // Before the switch has said HELLO.
        ("start\n", "not a run: line 1\n"),
        (
            "feed s3 0100000800000000\n\n# s1 hasn't\nstart\n",
            "not a run: line 4\n",
        ),
        // While a round is running.
        (
            "feed s1 0100000800000000\nstart\nstart\nstart\n",
            "not a run: line 3\n",
        ),
        // When all rounds are settled.
        (
            "feed s1 0100000800000000\nfeed s3 0100000800000000\nstart\nfeed s1 0113000800000002\nstart\nfeed s3 0113000800000004\nstart\n",
            "not a run: line 7\n",
        ),
    ];
    for (input, text) in rows {
        let answer = square_answer(&rt, alloc, input.as_bytes());
        assert!(rt; answer.is(Status::NotARun, text.as_bytes()), "{input}");
    }
}

#[test]
fn inputs_that_are_bad_are_named(rt: HostRuntime) {
    let alloc = rt.alloc();
    let rows: [(&str, &str); 8] = [
        ("begin\n", "bad input: 1 BadLine at 1\n"),
        ("# first\n start\n", "bad input: 1 BadLine at 2\n"),
        ("start\r\n", "bad input: 1 BadLine at 1\n"),
        ("feed s5 00\n", "bad input: 1 BadLine at 1\n"),
        ("feed s1 0\n", "bad input: 1 BadLine at 1\n"),
        ("feed s1 \n", "bad input: 1 BadLine at 1\n"),
        ("feed s1\n", "bad input: 1 BadLine at 1\n"),
        ("feed s1 0g\n", "bad input: 1 BadLine at 1\n"),
    ];
    for (input, text) in rows {
        let answer = square_answer(&rt, alloc, input.as_bytes());
        assert!(rt; answer.is(Status::BadFile, text.as_bytes()), "{input}");
    }
}

#[test]
fn other_plans_are_refused(rt: HostRuntime) {
    let alloc = rt.alloc();
    // All files are read first.
    let answer = answered(
        &rt,
        alloc,
        &square::update(),
        square::both_at_once(),
        b"stop",
    );
    assert!(rt; answer.is(Status::BadFile, b"bad input: 1 BadLine at 1\n"));
    let answer = answered(
        &rt,
        alloc,
        &square::update(),
        square::both_at_once(),
        b"start",
    );
    assert!(rt;
        answer.is(
            Status::Refused,
            b"refused: 7 NotLower round 1 at s1:1 untagged 10.0.0.0 switch s3\n"
        )
    );
    let topology = wide::topology(alloc).expect(&rt, "memory");
    let texts = wide::update(&topology);
    let answer = answered(&rt, alloc, &texts, none::no_rounds(), b"start");
    assert!(rt; answer.is(Status::BadFile, b"too many classes: 12288\n"));
}

#[test]
fn inputs_that_are_not_held_are_a_fault_of_reading(rt: HostRuntime) {
    let alloc = rt.alloc();
    let source = driven_source(alloc, &square::update(), square::plan(), b"start");
    let mut source = source.expect(&rt, "a source");
    let answer = answer_of(alloc, drive(alloc, &mut source, &names("inputs")));
    assert!(rt; answer.is(Status::ReadFault, b""));
}
