//! `upgrade` over files in memory.
use crate::sources::held;
use command_base::Status;
use example_files::{Answer, UpdateTexts, answer_of, detour, detour_plans, plan_names, square};
use std::alloc::Global;
use std::process::Abort;
use upgrade_command::upgrade;

/// What is answered to the plan, with the topology of the texts.
fn answered(rt: &impl Abort, alloc: Global, texts: &UpdateTexts<'_>, plan: &[u8]) -> Answer {
    let mut source = held(rt, alloc, texts, plan, 0);
    answer_of(alloc, upgrade(alloc, &mut source, &plan_names()))
}

#[test]
fn a_plan_is_upgraded_to_format_2(rt: HostRuntime) {
    let rows = [
        (square::update(), square::plan_in_format_1(), square::plan()),
        (square::update(), square::plan(), square::plan()),
        (
            detour::chain_update(),
            detour_plans::chain_in_format_1(),
            detour_plans::chain(),
        ),
    ];
    for (texts, plan, text) in rows {
        assert!(rt; answered(&rt, rt.alloc(), &texts, plan).is(Status::Done, text));
    }
}

/// The plan with something else in the place of a part.
fn damaged(rt: &impl Abort, alloc: Global, plan: &[u8], part: &str, other: &str) -> Vec<u8> {
    let text = str::from_utf8(plan).ok().expect(rt, "text");
    let (front, back) = text.split_once(part).expect(rt, "the part");
    let text = format!(in alloc; "{front}{other}{back}");
    text.expect(rt, "memory").into_bytes()
}

/// Each of the damages is answered by its line.
fn are_named(rt: &impl Abort, alloc: Global, plan: &[u8], rows: &[(&str, &str, &[u8])]) {
    for (part, other, line) in rows {
        let plan = damaged(rt, alloc, plan, part, other);
        let answer = answered(rt, alloc, &square::update(), &plan);
        assert!(rt; answer.is(Status::BadFile, line), "{other}");
    }
}

#[test]
fn damaged_plans_are_named(rt: HostRuntime) {
    let rows: [(&str, &str, &[u8]); 11] = [
        ("}]]}", "}]]}x", b"bad plan: 1 NotJson at 0\n"),
        (
            r#""ordered""#,
            r#""both""#,
            b"bad plan: 2 Shape kind at 0\n",
        ),
        (
            "[3,2,1,0]",
            "[3,2,1]",
            b"bad plan: 2 Shape numberings at 1\n",
        ),
        (":100", ":-1", b"bad plan: 2 Shape priority at 0\n"),
        (
            r#""format":1"#,
            r#""format":3"#,
            b"bad plan: 3 BadFormat at 0\n",
        ),
        (r#""s1""#, r#""s9""#, b"bad plan: 4 UnknownSwitch at 0\n"),
        (r#""out":3"#, r#""out":0"#, b"bad plan: 5 BadRule at 1\n"),
        ("10.0.0.0/24", "10.0.0.1/24", b"bad plan: 5 BadRule at 0\n"),
        (
            r#""befores":[]"#,
            r#""befores":[[2,1]]"#,
            b"bad plan: 6 BadIndex at 0\n",
        ),
        ("[1,0,0,[]]", "[1,0,6,[]]", b"bad plan: 6 BadIndex at 0\n"),
        (
            "[1,0,0,[]]",
            "[1,0,0,[]],[1,0,0,[]]",
            b"bad plan: 6 BadIndex at 1\n",
        ),
    ];
    are_named(&rt, rt.alloc(), square::plan_in_format_1(), &rows);
}

#[test]
fn damaged_plans_of_format_2_are_named(rt: HostRuntime) {
    let rows: [(&str, &str, &[u8]); 2] = [
        (
            r#""uses":[[0,"#,
            r#""uses":[[6,"#,
            b"bad plan: 6 BadIndex at 0\n",
        ),
        (
            r#"["replace",0]"#,
            r#"["replace",2]"#,
            b"bad plan: 6 BadIndex at 0\n",
        ),
    ];
    are_named(&rt, rt.alloc(), square::plan(), &rows);
}
