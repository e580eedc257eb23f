//! `replay` over files in memory.
use crate::sources::held;
use command_base::Status;
use example_files::{Answer, UpdateTexts, answer_of, square, words};
use replay_command::{ReplayNames, replay, replay_names};
use std::alloc::Global;
use std::process::Abort;

/// What is answered to the schedule, over the square and a plan, where the call of the number fails. The schedule is held in the
/// place of a policy, which `replay` doesn't read.
fn answered(rt: &impl Abort, alloc: Global, plan: &[u8], schedule: &[u8], failing: u64) -> Answer {
    let texts = UpdateTexts {
        policy: schedule,
        ..square::update()
    };
    let mut source = held(rt, alloc, &texts, plan, failing);
    let names = ReplayNames {
        topology: "topology",
        old: "old",
        plan: "plan",
        schedule: "policy",
    };
    answer_of(alloc, replay(alloc, &mut source, &names))
}

/// Each of the schedules is answered so, with its text.
fn are_answered(rt: &impl Abort, alloc: Global, want: Status, rows: &[(&[u8], &[u8])]) {
    for (i, (schedule, text)) in rows.iter().enumerate() {
        let answer = answered(rt, alloc, square::plan_in_format_1(), schedule, 0);
        assert!(rt; answer.is(want, text), "row {i}");
    }
}

#[test]
fn a_run_gives_its_traces(rt: HostRuntime) {
    let rows: [(&[u8], &[u8]); 4] = [
        (
            b"start\nchange 0\nsettle\nenter s1:1 untagged 10.0.0.1\nstart",
            b"packet 0 s1:1 untagged 10.0.0.1 born 1: s1:1 under way\nrunning 2 of 2\n",
        ),
        (b"", b"settled 0 of 2\n"),
        (
            b"# nothing but a packet that is lost\n\nenter s1:1 untagged 10.0.0.1\nlose 0\n",
            b"packet 0 s1:1 untagged 10.0.0.1 born 0: s1:1 lost\nsettled 0 of 2\n",
        ),
        (
            b"start\nenter s1:1 untagged 0.0.0.0\nhop 0\nenter s1:1 untagged 10.0.0.0\nchange 0\nhop 1\nsettle\nhop 1\nstart\nchange 0\nsettle\n",
            b"packet 0 s1:1 untagged 0.0.0.0 born 0: s1:1 dropped s1\npacket 1 s1:1 untagged 10.0.0.0 born 0: s1:1 s4:2 left s4:3 untagged\nsettled 2 of 2\n",
        ),
    ];
    are_answered(&rt, rt.alloc(), Status::Done, &rows);
}

#[test]
fn the_first_event_that_is_not_enabled_is_named(rt: HostRuntime) {
    let rows: [(&[u8], &[u8]); 4] = [
        (
            b"start\nenter s1:1 untagged 10.0.0.1\nchange 0\nsettle\nstart\n",
            b"not a run: line 5\n",
        ),
        (b"settle\n", b"not a run: line 1\n"),
        (b"enter s1:2 untagged 10.0.0.1\n", b"not a run: line 1\n"),
        (
            b"enter s1:1 untagged 10.0.0.1\nlose 0\nlose 0\n",
            b"not a run: line 3\n",
        ),
    ];
    are_answered(&rt, rt.alloc(), Status::NotARun, &rows);
}

#[test]
fn a_bad_line_is_named(rt: HostRuntime) {
    let rows: [(&[u8], &[u8]); 4] = [
        (b"hop x\n", b"bad schedule: 1 BadLine at 1\n"),
        (b"change 4294967296\n", b"bad schedule: 1 BadLine at 1\n"),
        (b"# a comment\nstart \n", b"bad schedule: 1 BadLine at 2\n"),
        (b"start\r\n", b"bad schedule: 1 BadLine at 1\n"),
    ];
    are_answered(&rt, rt.alloc(), Status::BadFile, &rows);
}

/// Over the plan in format 2.
#[test]
fn a_schedule_that_cannot_be_is_refused(rt: HostRuntime) {
    let alloc = rt.alloc();
    let rows: [(&str, Status, &str); 4] = [
        (
            "change 4294967296",
            Status::BadFile,
            "bad schedule: 1 BadLine at 1\n",
        ),
        ("settle", Status::NotARun, "not a run: line 1\n"),
        // Port 2 of s1 is the end of a link.
        (
            "enter s1:2 untagged 10.0.0.1",
            Status::NotARun,
            "not a run: line 1\n",
        ),
        // A packet is lost once.
        (
            "enter s1:1 untagged 10.0.0.1\nlose 0\nlose 0",
            Status::NotARun,
            "not a run: line 3\n",
        ),
    ];
    for (schedule, status, line) in rows {
        let answer = answered(&rt, alloc, square::plan(), schedule.as_bytes(), 0);
        assert!(rt; answer.is(status, line.as_bytes()), "{schedule}");
    }
}

/// Four files are opened, each with a take of its bytes and one at its end.
#[test]
fn each_call_of_the_source_may_fail(rt: HostRuntime) {
    let plan = square::plan_in_format_1();
    for failing in 1..=12u64 {
        let answer = answered(&rt, rt.alloc(), plan, b"start\n", failing);
        assert!(rt; answer.is(Status::ReadFault, b""), "at {failing}");
    }
    let answer = answered(&rt, rt.alloc(), plan, b"start\n", 13);
    assert!(rt; answer.status == Status::Done);
}

/// Whether these words are names of files.
fn are_names(rt: &impl Abort, alloc: Global, texts: &[&str]) -> bool {
    let words = words(alloc, texts).expect(rt, "memory");
    replay_names(&words).is_some()
}

#[test]
fn four_words_are_names(rt: HostRuntime) {
    let alloc = rt.alloc();
    assert!(rt; are_names(&rt, alloc, &["topology", "old", "plan", "schedule"]));
    assert!(rt; !are_names(&rt, alloc, &["topology", "old", "plan"]));
    assert!(rt; !are_names(&rt, alloc, &["topology", "old", "plan", "schedule", "more"]));
}
