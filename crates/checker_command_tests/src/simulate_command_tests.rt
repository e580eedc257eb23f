//! `simulate` over files in memory.
use crate::answers::{check_names, held, replayed};
use command_base::Status;
use example_files::{Answer, UpdateTexts, answer_of, none, square, wide, words};
use simulate_command::{SimulateNames, simulate, simulate_names};
use std::alloc::Global;
use std::process::Abort;

/// START is 0, and two packets enter.
const SQUARE_RECORD: &[u8] =
    b"start\nenter s1:1 untagged 0.0.0.0\nhop 0\nenter s1:1 untagged 10.0.0.0\nchange 0\nhop 1\nsettle\nhop 1\nstart\nchange 0\nsettle\n# packet 0 s1:1 untagged 0.0.0.0 born 0: s1:1 dropped s1\n# packet 1 s1:1 untagged 10.0.0.0 born 0: s1:1 s4:2 left s4:3 untagged\n# settled 2 of 2\n";

/// START is the greatest number of 64 bits, and two packets enter.
const GREATEST_RECORD: &[u8] =
    b"enter s1:1 untagged 0.0.0.0\nstart\nenter s1:1 untagged 10.0.0.0\nhop 1\nchange 0\nhop 0\nhop 1\nsettle\nhop 1\nhop 1\nstart\nchange 0\nsettle\n# packet 0 s1:1 untagged 0.0.0.0 born 0: s1:1 dropped s1\n# packet 1 s1:1 untagged 10.0.0.0 born 0: s1:1 s2:1 s3:1 s4:1 left s4:3 untagged\n# settled 2 of 2\n";

/// No packet enters.
const CHANGES_ALONE: &[u8] =
    b"start\nchange 0\nsettle\nstart\nchange 0\nsettle\n# settled 2 of 2\n";

fn no_switches() -> UpdateTexts<'static> {
    UpdateTexts {
        topology: none::no_switches(),
        old: none::no_rules(),
        new: none::no_rules(),
        policy: none::no_demands(),
    }
}

/// What is answered.
fn answered(
    rt: &impl Abort,
    alloc: Global,
    texts: &UpdateTexts<'_>,
    plan: &[u8],
    start: u64,
    count: u64,
) -> Answer {
    assert!(rt; count <= 1000);
    let mut source = held(rt, alloc, texts, plan, 0);
    let names = SimulateNames {
        check: check_names(),
        start,
        count,
    };
    answer_of(alloc, simulate(alloc, &mut source, &names))
}

#[test]
fn a_certified_plan_is_carried_out(rt: HostRuntime) {
    let rows: [(UpdateTexts<'_>, &[u8], u64, u64, &[u8]); 4] = [
        (
            square::update(),
            square::plan_in_format_1(),
            0,
            2,
            SQUARE_RECORD,
        ),
        (
            square::update(),
            square::plan(),
            u64::MAX,
            2,
            GREATEST_RECORD,
        ),
        (square::update(), square::plan(), 5, 0, CHANGES_ALONE),
        (
            no_switches(),
            none::no_rounds(),
            5,
            1000,
            b"# settled 0 of 0\n",
        ),
    ];
    for (texts, plan, start, count, text) in rows {
        let answer = answered(&rt, rt.alloc(), &texts, plan, start, count);
        assert!(rt; answer.is(Status::Done, text), "{start}");
    }
}

#[test]
fn other_plans_are_refused(rt: HostRuntime) {
    let plan = square::both_at_once();
    let answer = answered(&rt, rt.alloc(), &square::update(), plan, 0, 2);
    assert!(rt;
        answer.is(
            Status::Refused,
            b"refused: 7 NotLower round 1 at s1:1 untagged 10.0.0.0 switch s3\n"
        )
    );
}

#[test]
fn an_update_has_at_most_8192_classes(rt: HostRuntime) {
    let topology = wide::topology(rt.alloc()).expect(&rt, "memory");
    let texts = wide::update(&topology);
    let answer = answered(&rt, rt.alloc(), &texts, none::no_rounds(), 0, 1);
    assert!(rt; answer.is(Status::BadFile, b"too many classes: 12288\n"));
}

#[test]
fn the_record_is_a_schedule(rt: HostRuntime) {
    let plan = square::plan_in_format_1();
    let answer = replayed(&rt, rt.alloc(), &square::update(), plan, SQUARE_RECORD);
    assert!(rt;
        answer.is(
            Status::Done,
            b"packet 0 s1:1 untagged 0.0.0.0 born 0: s1:1 dropped s1\npacket 1 s1:1 untagged 10.0.0.0 born 0: s1:1 s4:2 left s4:3 untagged\nsettled 2 of 2\n"
        )
    );
}

/// START and COUNT in the words, if they are those of the command.
fn numbers(rt: &impl Abort, alloc: Global, start: &str, count: &str) -> Option<(u64, u64)> {
    let texts = ["topology", "old", "new", "policy", "plan", start, count];
    let words = words(alloc, &texts).expect(rt, "memory");
    simulate_names(&words).map(|names| (names.start, names.count))
}

#[test]
fn start_has_64_bits_and_count_is_at_most_1000(rt: HostRuntime) {
    let rows = [
        (
            "18446744073709551615",
            "1000",
            Some((18_446_744_073_709_551_615, 1000)),
        ),
        ("0", "0", Some((0, 0))),
        ("18446744073709551616", "0", None),
        ("0", "1001", None),
        ("00", "1", None),
    ];
    for (start, count, want) in rows {
        assert!(rt;
            numbers(&rt, rt.alloc(), start, count) == want,
            "{start} {count}"
        );
    }
}
