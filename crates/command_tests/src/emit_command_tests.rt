//! `emit` over files in memory.
use crate::sources::held;
use command_base::{PlanNames, Status};
use emit_command::emit;
use example_files::{
    Answer, UpdateTexts, answer_of, detour, detour_plans, none, plan_names, square,
};
use std::alloc::Global;
use std::process::Abort;

/// What is answered to the plan, with the topology of the texts.
fn answered(rt: &impl Abort, alloc: Global, texts: &UpdateTexts<'_>, plan: &[u8]) -> Answer {
    let mut source = held(rt, alloc, texts, plan, 0);
    answer_of(alloc, emit(alloc, &mut source, &plan_names()))
}

/// Replace 10.0.0.0/24 of priority 100 by an output to port 4, a barrier, the same to port 3, a barrier.
const SQUARE_LINES: &str =
    "1 s1 010e005000000001003220ef000000000000000000000000000000000000080000000000000000000a0000000000000000000000000000000002000000000064ffffffffffff00000000000800040000
1 s1 0112000800000002
2 s3 010e005000000003003220ef000000000000000000000000000000000000080000000000000000000a0000000000000000000000000000000002000000000064ffffffffffff00000000000800030000
2 s3 0112000800000004
";

#[test]
fn each_round_is_its_changes_and_then_its_barriers(rt: HostRuntime) {
    for plan in [square::plan(), square::plan_in_format_1()] {
        let answer = answered(&rt, rt.alloc(), &square::update(), plan);
        assert!(rt; answer.is(Status::Done, SQUARE_LINES.as_bytes()));
    }
}

/// The text has these lines at their places, which count from 0.
fn has_lines(rt: &impl Abort, text: &[u8], rows: &[(usize, Option<&str>)]) {
    let text = str::from_utf8(text).ok().expect(rt, "text");
    for (at, line) in rows {
        assert!(rt; text.lines().nth(*at) == *line, "{at}");
    }
}

#[test]
fn two_phases_are_written_with_tags(rt: HostRuntime) {
    let rows = [
        // Insert with VLAN 3000, to port 3; the default of the tag, which drops.
        (
            0,
            Some(
                "1 s 010e005000000001003220ed00000000000000000000000000000bb80000080000000000000000000a0000000000000000000000000000000000000000004064ffffffffffff00000000000800030000",
            ),
        ),
        (
            1,
            Some(
                "1 s 010e004800000002003820ed00000000000000000000000000000bb8000008000000000000000000000000000000000000000000000000000000000000004000ffffffffffff0000",
            ),
        ),
        // Strip, then output.
        (
            8,
            Some(
                "1 d 010e005800000009003220ed00000000000000000000000000000bb80000080000000000000000000a0000000000000000000000000000000000000000004064ffffffffffff000000030008000000000000000800030000",
            ),
        ),
        // The barriers of the five switches, as the topology lists them.
        (10, Some("1 s 011200080000000b")),
        (11, Some("1 x 011200080000000c")),
        (12, Some("1 w 011200080000000d")),
        (13, Some("1 y 011200080000000e")),
        (14, Some("1 d 011200080000000f")),
        // Insert with port 1 and untagged; sets 3000, then output.
        (
            15,
            Some(
                "2 s 010e005800000010003220ec0001000000000000000000000000ffff0000080000000000000000000a0000000000000000000000000000000000000000008064ffffffffffff0000000100080bb800000000000800030000",
            ),
        ),
        (18, Some("2 d 0112000800000013")),
        // Round 5 has no change, and no line. Delete with port 1.
        (
            31,
            Some(
                "6 s 010e004800000020003820ee00010000000000000000000000000000000008000000000000000000000000000000000000000000000000000004000000008000ffffffffffff0000",
            ),
        ),
        (53, Some("8 d 0112000800000036")),
        (54, None),
    ];
    let answer = answered(
        &rt,
        rt.alloc(),
        &detour::update(),
        detour_plans::two_phases(),
    );
    assert!(rt; answer.status == Status::Done);
    has_lines(&rt, &answer.text, &rows);
}

#[test]
fn a_plan_without_rounds_has_no_line(rt: HostRuntime) {
    let answer = answered(&rt, rt.alloc(), &square::update(), none::no_rounds());
    assert!(rt; answer.is(Status::Done, b""));
}

#[test]
fn a_bad_plan_is_named(rt: HostRuntime) {
    let answer = answered(&rt, rt.alloc(), &square::update(), b"{");
    assert!(rt; answer.is(Status::BadFile, b"bad plan: 1 NotJson at 0\n"));
}

#[test]
fn a_plan_that_is_not_held_is_a_fault_of_reading(rt: HostRuntime) {
    let alloc = rt.alloc();
    let mut source = held(&rt, alloc, &square::update(), square::plan(), 0);
    let names = PlanNames {
        topology: "topology",
        plan: "missing",
    };
    let answer = answer_of(alloc, emit(alloc, &mut source, &names));
    assert!(rt; answer.is(Status::ReadFault, b""));
}
