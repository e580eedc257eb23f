//! `tables` over files in memory.
use crate::sources::held;
use command_base::Status;
use example_files::{Answer, UpdateTexts, answer_of, detour, detour_plans, square};
use replay_command::ReplayNames;
use std::alloc::Global;
use std::process::Abort;
use tables_command::tables;

/// What is answered to the schedule, over an update and a plan, where the call of the number fails. The schedule is held in the
/// place of a policy, which `tables` doesn't read.
fn answered(
    rt: &impl Abort,
    alloc: Global,
    update: UpdateTexts<'_>,
    plan: &[u8],
    schedule: &[u8],
    failing: u64,
) -> Answer {
    let texts = UpdateTexts {
        policy: schedule,
        ..update
    };
    let mut source = held(rt, alloc, &texts, plan, failing);
    let names = ReplayNames {
        topology: "topology",
        old: "old",
        plan: "plan",
        schedule: "policy",
    };
    answer_of(alloc, tables(alloc, &mut source, &names))
}

/// Over the square, whose plan changes s1 and then s3.
fn over_the_square(rt: &impl Abort, alloc: Global, schedule: &[u8], failing: u64) -> Answer {
    let plan = square::plan_in_format_1();
    answered(rt, alloc, square::update(), plan, schedule, failing)
}

/// The answer is Done with this line.
fn is_line(rt: &impl Abort, answer: &Answer, line: &str) {
    assert!(rt; answer.status == Status::Done);
    assert!(rt;
        answer.text.strip_suffix(b"\n") == Some(line.as_bytes()),
        "{line}"
    );
}

#[test]
fn what_the_switches_have_is_written(rt: HostRuntime) {
    let rows: [(&[u8], &str); 5] = [
        (
            b"",
            r#"{"pending":[],"rules":[{"dst":"10.0.0.0/24","out":2,"priority":100,"switch":"s1"},{"dst":"10.0.0.0/24","out":2,"priority":100,"switch":"s2"},{"dst":"10.0.0.0/24","out":2,"priority":100,"switch":"s3"},{"dst":"10.0.0.0/24","out":3,"priority":100,"switch":"s4"}]}"#,
        ),
        (
            b"start\n",
            r#"{"pending":[{"do":"replace","dst":"10.0.0.0/24","out":4,"priority":100,"switch":"s1"}],"rules":[{"dst":"10.0.0.0/24","out":2,"priority":100,"switch":"s1"},{"dst":"10.0.0.0/24","out":2,"priority":100,"switch":"s2"},{"dst":"10.0.0.0/24","out":2,"priority":100,"switch":"s3"},{"dst":"10.0.0.0/24","out":3,"priority":100,"switch":"s4"}]}"#,
        ),
        (
            b"start\nchange 0\n",
            r#"{"pending":[],"rules":[{"dst":"10.0.0.0/24","out":4,"priority":100,"switch":"s1"},{"dst":"10.0.0.0/24","out":2,"priority":100,"switch":"s2"},{"dst":"10.0.0.0/24","out":2,"priority":100,"switch":"s3"},{"dst":"10.0.0.0/24","out":3,"priority":100,"switch":"s4"}]}"#,
        ),
        (
            b"# packets change no table\nenter s1:1 untagged 10.0.0.1\nhop 0\nlose 0\nstart\nchange 0\nsettle\nstart",
            r#"{"pending":[{"do":"replace","dst":"10.0.0.0/24","out":3,"priority":100,"switch":"s3"}],"rules":[{"dst":"10.0.0.0/24","out":4,"priority":100,"switch":"s1"},{"dst":"10.0.0.0/24","out":2,"priority":100,"switch":"s2"},{"dst":"10.0.0.0/24","out":2,"priority":100,"switch":"s3"},{"dst":"10.0.0.0/24","out":3,"priority":100,"switch":"s4"}]}"#,
        ),
        (
            b"start\nchange 0\nsettle\nstart\nchange 0\nsettle\n",
            r#"{"pending":[],"rules":[{"dst":"10.0.0.0/24","out":4,"priority":100,"switch":"s1"},{"dst":"10.0.0.0/24","out":2,"priority":100,"switch":"s2"},{"dst":"10.0.0.0/24","out":3,"priority":100,"switch":"s3"},{"dst":"10.0.0.0/24","out":3,"priority":100,"switch":"s4"}]}"#,
        ),
    ];
    for (schedule, line) in rows {
        let answer = over_the_square(&rt, rt.alloc(), schedule, 0);
        is_line(&rt, &answer, line);
    }
}

/// Over the two-phase plan of the detour, with rules that test a port or a VLAN and that set or strip a tag: in its third round, of
/// which an insert is pending, and in its last one, of which all deletes but one are. A rule that was inserted stands behind those
/// that stood before, in the order in which the changes were made.
#[test]
fn rules_of_a_two_phase_plan_are_written_whole(rt: HostRuntime) {
    let rows: [(&[u8], &str); 2] = [
        (
            b"start\nchange 9\nchange 8\nchange 0\nchange 1\nchange 2\nchange 3\nchange 4\nchange 5\nchange 6\nchange 7\nsettle\nstart\nchange 1\nchange 0\nsettle\nstart\nchange 0\n",
            r#"{"pending":[{"do":"insert","dst":"0.0.0.0/0","in_port":3,"out":"drop","priority":32768,"switch":"d"}],"rules":[{"dst":"10.0.0.0/24","out":2,"priority":100,"switch":"s"},{"dst":"10.0.0.0/24","out":3,"priority":16484,"switch":"s","vlan":3000},{"dst":"0.0.0.0/0","out":"drop","priority":16384,"switch":"s","vlan":3000},{"dst":"10.0.0.0/24","in_port":1,"out":3,"priority":32868,"set":3000,"switch":"s","vlan":"untagged"},{"dst":"0.0.0.0/0","in_port":1,"out":"drop","priority":32768,"switch":"s"},{"dst":"10.0.0.0/24","out":2,"priority":100,"switch":"x"},{"dst":"10.0.0.0/24","out":3,"priority":16484,"switch":"x","vlan":3000},{"dst":"0.0.0.0/0","out":"drop","priority":16384,"switch":"x","vlan":3000},{"dst":"10.0.0.0/24","out":2,"priority":100,"switch":"w"},{"dst":"10.0.0.0/24","out":1,"priority":16484,"switch":"w","vlan":3000},{"dst":"0.0.0.0/0","out":"drop","priority":16384,"switch":"w","vlan":3000},{"dst":"10.0.0.0/24","out":2,"priority":100,"switch":"y"},{"dst":"10.0.0.0/24","out":1,"priority":16484,"switch":"y","vlan":3000},{"dst":"0.0.0.0/0","out":"drop","priority":16384,"switch":"y","vlan":3000},{"dst":"10.0.0.0/24","out":3,"priority":100,"switch":"d"},{"dst":"0.0.0.0/0","out":"drop","priority":16384,"switch":"d","vlan":3000},{"dst":"10.0.0.0/24","out":3,"priority":16484,"strip":true,"switch":"d","vlan":3000},{"dst":"10.0.0.0/24","in_port":3,"out":3,"priority":32868,"switch":"d","vlan":"untagged"}]}"#,
        ),
        (
            b"start\nchange 9\nchange 8\nchange 0\nchange 1\nchange 2\nchange 3\nchange 4\nchange 5\nchange 6\nchange 7\nsettle\nstart\nchange 1\nchange 0\nsettle\nstart\nchange 0\nchange 1\nsettle\nstart\nchange 0\nchange 1\nchange 2\nchange 3\nsettle\nstart\nsettle\nstart\nchange 0\nchange 1\nsettle\nstart\nchange 0\nchange 1\nsettle\nstart\nchange 0\n",
            r#"{"pending":[{"do":"delete","dst":"0.0.0.0/0","out":"drop","priority":16384,"switch":"s","vlan":3000},{"do":"delete","dst":"10.0.0.0/24","out":3,"priority":16484,"switch":"x","vlan":3000},{"do":"delete","dst":"0.0.0.0/0","out":"drop","priority":16384,"switch":"x","vlan":3000},{"do":"delete","dst":"10.0.0.0/24","out":1,"priority":16484,"switch":"w","vlan":3000},{"do":"delete","dst":"0.0.0.0/0","out":"drop","priority":16384,"switch":"w","vlan":3000},{"do":"delete","dst":"10.0.0.0/24","out":1,"priority":16484,"switch":"y","vlan":3000},{"do":"delete","dst":"0.0.0.0/0","out":"drop","priority":16384,"switch":"y","vlan":3000},{"do":"delete","dst":"10.0.0.0/24","out":3,"priority":16484,"strip":true,"switch":"d","vlan":3000},{"do":"delete","dst":"0.0.0.0/0","out":"drop","priority":16384,"switch":"d","vlan":3000}],"rules":[{"dst":"10.0.0.0/24","out":3,"priority":100,"switch":"s"},{"dst":"0.0.0.0/0","out":"drop","priority":16384,"switch":"s","vlan":3000},{"dst":"10.0.0.0/24","out":3,"priority":100,"switch":"x"},{"dst":"10.0.0.0/24","out":3,"priority":16484,"switch":"x","vlan":3000},{"dst":"0.0.0.0/0","out":"drop","priority":16384,"switch":"x","vlan":3000},{"dst":"10.0.0.0/24","out":1,"priority":100,"switch":"w"},{"dst":"10.0.0.0/24","out":1,"priority":16484,"switch":"w","vlan":3000},{"dst":"0.0.0.0/0","out":"drop","priority":16384,"switch":"w","vlan":3000},{"dst":"10.0.0.0/24","out":1,"priority":100,"switch":"y"},{"dst":"10.0.0.0/24","out":1,"priority":16484,"switch":"y","vlan":3000},{"dst":"0.0.0.0/0","out":"drop","priority":16384,"switch":"y","vlan":3000},{"dst":"10.0.0.0/24","out":3,"priority":100,"switch":"d"},{"dst":"0.0.0.0/0","out":"drop","priority":16384,"switch":"d","vlan":3000},{"dst":"10.0.0.0/24","out":3,"priority":16484,"strip":true,"switch":"d","vlan":3000}]}"#,
        ),
    ];
    for (schedule, line) in rows {
        let plan = detour_plans::two_phases();
        let answer = answered(&rt, rt.alloc(), detour::update(), plan, schedule, 0);
        is_line(&rt, &answer, line);
    }
}

#[test]
fn what_is_no_run_is_refused(rt: HostRuntime) {
    let rows: [(&[u8], Status, &[u8]); 4] = [
        (
            b"start\nchange 0\nsettle\n\nstart\nchange 1\n",
            Status::NotARun,
            b"not a run: line 6\n",
        ),
        (
            b"# nothing runs\nsettle\n",
            Status::NotARun,
            b"not a run: line 2\n",
        ),
        (
            b"start\nundo x\n",
            Status::BadFile,
            b"bad schedule: 1 BadLine at 2\n",
        ),
        (
            b"start\r\n",
            Status::BadFile,
            b"bad schedule: 1 BadLine at 1\n",
        ),
    ];
    for (schedule, status, text) in rows {
        let answer = over_the_square(&rt, rt.alloc(), schedule, 0);
        assert!(rt; answer.is(status, text));
    }
}

const A2: &str = r#"{"dst":"10.0.0.0/24","out":2,"priority":100,"switch":"s1"}"#;

const A4: &str = r#"{"dst":"10.0.0.0/24","out":4,"priority":100,"switch":"s1"}"#;

const B: &str = r#"{"dst":"10.1.0.0/24","out":2,"priority":100,"switch":"s1"}"#;

const C: &str = r#"{"dst":"10.2.0.0/24","out":2,"priority":100,"switch":"s1"}"#;

const E: &str = r#"{"dst":"10.3.0.0/24","out":3,"priority":100,"switch":"s1"}"#;

const F2: &str = r#"{"dst":"10.0.0.0/24","out":2,"priority":100,"switch":"s2"}"#;

const F1: &str = r#"{"dst":"10.0.0.0/24","out":1,"priority":100,"switch":"s2"}"#;

const TO_A4: &str = r#"{"do":"replace","dst":"10.0.0.0/24","out":4,"priority":100,"switch":"s1"}"#;

const TO_A2: &str = r#"{"do":"replace","dst":"10.0.0.0/24","out":2,"priority":100,"switch":"s1"}"#;

const NO_B: &str = r#"{"do":"delete","dst":"10.1.0.0/24","out":2,"priority":100,"switch":"s1"}"#;

const MORE_B: &str = r#"{"do":"insert","dst":"10.1.0.0/24","out":2,"priority":100,"switch":"s1"}"#;

const MORE_E: &str = r#"{"do":"insert","dst":"10.3.0.0/24","out":3,"priority":100,"switch":"s1"}"#;

const NO_E: &str = r#"{"do":"delete","dst":"10.3.0.0/24","out":3,"priority":100,"switch":"s1"}"#;

const TO_D1: &str = r#"{"do":"replace","dst":"10.0.0.0/24","out":1,"priority":100,"switch":"s2"}"#;

const TO_D2: &str = r#"{"do":"replace","dst":"10.0.0.0/24","out":2,"priority":100,"switch":"s2"}"#;

/// Over A2, B, C and F2, and a plan whose first round replaces A2 by A4, deletes B and inserts E, whose second replaces F2 by F1,
/// and whose third has no change.
fn over_three_rounds(rt: &impl Abort, alloc: Global, schedule: &[u8]) -> Answer {
    let update = UpdateTexts {
        old: br#"{"rules":[{"switch":"s1","priority":100,"dst":"10.0.0.0/24","out":2},{"switch":"s1","priority":100,"dst":"10.1.0.0/24","out":2},{"switch":"s1","priority":100,"dst":"10.2.0.0/24","out":2},{"switch":"s2","priority":100,"dst":"10.0.0.0/24","out":2}]}"#,
        ..square::update()
    };
    let plan =
        br#"{"format":1,"kind":"ordered","rounds":[[{"do":"replace","switch":"s1","priority":100,"dst":"10.0.0.0/24","out":4},{"do":"delete","switch":"s1","priority":100,"dst":"10.1.0.0/24","out":2},{"do":"insert","switch":"s1","priority":100,"dst":"10.3.0.0/24","out":3}],[{"do":"replace","switch":"s2","priority":100,"dst":"10.0.0.0/24","out":1}],[]],"numberings":[],"befores":[],"picks":[]}"#;
    answered(rt, alloc, update, plan, schedule, 0)
}

/// Adds texts to a text.
fn add(rt: &impl Abort, text: &mut String, more: &str) {
    text.push_str(more).expect(rt, "room");
}

/// Adds texts with commas between them.
fn add_list(rt: &impl Abort, text: &mut String, list: &[&str]) {
    for (i, one) in list.iter().enumerate() {
        if i > 0 {
            add(rt, text, ",");
        }
        add(rt, text, one);
    }
}

/// The schedule leads to these changes and these rules.
fn leads_to(rt: &impl Abort, alloc: Global, schedule: &str, pending: &[&str], rules: &[&str]) {
    let mut line = String::new(alloc);
    add(rt, &mut line, "{\"pending\":[");
    add_list(rt, &mut line, pending);
    add(rt, &mut line, "],\"rules\":[");
    add_list(rt, &mut line, rules);
    add(rt, &mut line, "]}");
    let answer = over_three_rounds(rt, alloc, schedule.as_bytes());
    is_line(rt, &answer, &line);
}

/// An entry that was replaced keeps its place when the change is undone; one that was deleted stands behind all.
#[test]
fn a_round_is_turned_in_its_midst(rt: HostRuntime) {
    let rows: [(&str, &[&str], &[&str]); 10] = [
        ("start\n", &[TO_A4, NO_B, MORE_E], &[A2, B, C, F2]),
        ("start\nback\n", &[TO_A4, NO_B, MORE_E], &[A2, B, C, F2]),
        ("start\nback\nsettle\n", &[], &[A2, B, C, F2]),
        (
            "start\nchange 2\nchange 0\nchange 1\nback\n",
            &[NO_E, MORE_B, TO_A2],
            &[A4, C, E, F2],
        ),
        (
            "start\nchange 2\nchange 0\nchange 1\nback\nundo 1\n",
            &[NO_E, TO_A2],
            &[A4, C, E, B, F2],
        ),
        (
            "start\nchange 2\nchange 0\nchange 1\nback\nundo 1\nundo 2\n",
            &[TO_A2],
            &[A4, C, B, F2],
        ),
        (
            "start\nchange 2\nchange 0\nchange 1\nback\nundo 1\nundo 2\nundo 0\nsettle",
            &[],
            &[A2, C, B, F2],
        ),
        // A switch that answers behind the turning has made its change all the same.
        (
            "start\nchange 1\nback\nundo 1\nchange 0\n",
            &[TO_A2, MORE_E],
            &[A4, C, B, F2],
        ),
        (
            "start\nchange 0\nback\nundo 0\nchange 0\n",
            &[TO_A2, NO_B, MORE_E],
            &[A4, B, C, F2],
        ),
        (
            "start\nchange 0\nback\nundo 0\nsettle\nstart\n",
            &[TO_A4, NO_B, MORE_E],
            &[A2, B, C, F2],
        ),
    ];
    for (schedule, pending, rules) in rows {
        leads_to(&rt, rt.alloc(), schedule, pending, rules);
    }
}

#[test]
fn settled_rounds_are_undone_one_by_one(rt: HostRuntime) {
    let rows: [(&str, &[&str], &[&str]); 8] = [
        (
            "start\nchange 0\nchange 1\nchange 2\nsettle\nback\n",
            &[NO_E, MORE_B, TO_A2],
            &[A4, C, E, F2],
        ),
        (
            "start\nchange 0\nchange 1\nchange 2\nsettle\nback\nundo 0\n",
            &[NO_E, MORE_B],
            &[A2, C, E, F2],
        ),
        (
            "start\nchange 0\nchange 1\nchange 2\nsettle\nback\nundo 0\nundo 2\nundo 1\nsettle\n",
            &[],
            &[A2, C, B, F2],
        ),
        (
            "start\nchange 0\nchange 1\nchange 2\nsettle\nback\nundo 0\nundo 2\nundo 1\nsettle\nstart\nchange 1\n",
            &[TO_A4, MORE_E],
            &[A2, C, F2],
        ),
        (
            "start\nchange 0\nchange 1\nchange 2\nsettle\nstart\nchange 0\nsettle\nback\n",
            &[TO_D2],
            &[A4, C, E, F1],
        ),
        (
            "start\nchange 0\nchange 1\nchange 2\nsettle\nstart\nchange 0\nsettle\nback\nundo 0\nsettle\nback\nundo 2\n",
            &[MORE_B, TO_A2],
            &[A4, C, F2],
        ),
        // A round without changes is settled the way that it goes: behind the one it is the second round that is undone, behind the
        // other the third begins again.
        (
            "start\nchange 0\nchange 1\nchange 2\nsettle\nstart\nchange 0\nsettle\nstart\nback\nsettle\nback\n",
            &[TO_D2],
            &[A4, C, E, F1],
        ),
        (
            "start\nchange 0\nchange 1\nchange 2\nsettle\nstart\nchange 0\nsettle\nstart\nsettle\nback\nsettle\nstart\nsettle\n",
            &[],
            &[A4, C, E, F1],
        ),
    ];
    for (schedule, pending, rules) in rows {
        leads_to(&rt, rt.alloc(), schedule, pending, rules);
    }
}

#[test]
fn packets_may_be_under_way_at_a_turn(rt: HostRuntime) {
    let rows: [(&str, &[&str], &[&str]); 2] = [
        (
            "enter s1:1 untagged 10.0.0.1\nstart\nhop 0\nback\n",
            &[TO_A4, NO_B, MORE_E],
            &[A2, B, C, F2],
        ),
        (
            "start\nchange 0\nchange 1\nchange 2\nenter s1:1 untagged 10.0.0.1\nsettle\nlose 0\nback\n",
            &[NO_E, MORE_B, TO_A2],
            &[A4, C, E, F2],
        ),
    ];
    for (schedule, pending, rules) in rows {
        leads_to(&rt, rt.alloc(), schedule, pending, rules);
    }
}

/// The first line that can't happen, each the last one of its schedule.
#[test]
fn a_turn_that_can_not_happen_is_no_run(rt: HostRuntime) {
    let rows: [(&[u8], &[u8]); 17] = [
        // nothing runs and nothing is settled
        (b"back\n", b"not a run: line 1\n"),
        (b"undo 0\n", b"not a run: line 1\n"),
        (b"start\nback\nsettle\nback\n", b"not a run: line 4\n"),
        // a round that goes forward
        (b"start\nundo 0\n", b"not a run: line 2\n"),
        (b"start\nchange 0\nundo 0\n", b"not a run: line 3\n"),
        (b"start\nsettle\n", b"not a run: line 2\n"),
        (b"start\nchange 0\nsettle\n", b"not a run: line 3\n"),
        // a round that is being undone
        (b"start\nback\nback\n", b"not a run: line 3\n"),
        (b"start\nback\nstart\n", b"not a run: line 3\n"),
        (b"start\nback\nundo 0\n", b"not a run: line 3\n"),
        (b"start\nback\nundo 3\n", b"not a run: line 3\n"),
        (b"start\nchange 0\nback\nchange 0\n", b"not a run: line 4\n"),
        (b"start\nchange 0\nback\nsettle\n", b"not a run: line 4\n"),
        (
            b"start\nchange 0\nback\nundo 0\nundo 0\n",
            b"not a run: line 5\n",
        ),
        (
            b"start\nchange 0\nchange 1\nchange 2\nback\nsettle\n",
            b"not a run: line 6\n",
        ),
        // a packet from before the last settling
        (
            b"start\nchange 0\nchange 1\nchange 2\nenter s1:1 untagged 10.0.0.1\nsettle\nback\n",
            b"not a run: line 7\n",
        ),
        (
            b"enter s1:1 untagged 10.0.0.1\nstart\nback\nsettle\nstart\n",
            b"not a run: line 5\n",
        ),
    ];
    for (schedule, text) in rows {
        let answer = over_three_rounds(&rt, rt.alloc(), schedule);
        assert!(rt; answer.is(Status::NotARun, text));
    }
}

#[test]
fn the_words_of_a_turn_have_one_spelling(rt: HostRuntime) {
    let lines: [&[u8]; 12] = [
        b"undo",
        b"undo ",
        b"undo  0",
        b"undo 00",
        b"undo -1",
        b"undo 0 ",
        b"undo 4294967296",
        b"Undo 0",
        b"back 0",
        b"back ",
        b" back",
        b"back\r",
    ];
    for line in lines {
        let answer = over_three_rounds(&rt, rt.alloc(), line);
        assert!(rt; answer.is(Status::BadFile, b"bad schedule: 1 BadLine at 1\n"));
    }
    let answer = over_three_rounds(&rt, rt.alloc(), b"undo 4294967295");
    assert!(rt; answer.is(Status::NotARun, b"not a run: line 1\n"));
}

/// Four files are opened, each with a take of its bytes and one at its end.
#[test]
fn each_call_of_the_source_may_fail(rt: HostRuntime) {
    for failing in 1..=12u64 {
        let answer = over_the_square(&rt, rt.alloc(), b"start\n", failing);
        assert!(rt; answer.is(Status::ReadFault, b""), "at {failing}");
    }
    let answer = over_the_square(&rt, rt.alloc(), b"start\n", 13);
    assert!(rt; answer.status == Status::Done);
}
