//! `check` over the plan of the square network, damaged in one place.
use crate::answers::checked;
use command_base::Status;
use example_files::{Answer, square};
use std::alloc::Global;
use std::process::Abort;

/// What `check` answers over the square network to these bytes in the place of a plan.
fn answered(rt: &impl Abort, alloc: Global, plan: &[u8]) -> Answer {
    checked(rt, alloc, &square::update(), plan, 0)
}

/// The plan in format 1 as text.
fn plan_text(rt: &impl Abort) -> &'static str {
    str::from_utf8(square::plan_in_format_1())
        .ok()
        .expect(rt, "text")
}

/// A text with another part in the place of the first one like this.
fn with_part(rt: &impl Abort, alloc: Global, text: &str, part: &str, other: &str) -> Vec<u8> {
    let (front, rest) = text.split_once(part).expect(rt, "the part");
    let text = format!(in alloc; "{front}{other}{rest}");
    text.expect(rt, "memory").into_bytes()
}

#[test]
fn a_plan_with_another_part_is_refused(rt: HostRuntime) {
    let alloc = rt.alloc();
    let text = plan_text(&rt);
    let rows: [(&str, &str, &str); 10] = [
        (
            "\"format\":1",
            "\"format\":3",
            "bad plan: 3 BadFormat at 0\n",
        ),
        ("\"ordered\"", "\"both\"", "bad plan: 2 Shape kind at 0\n"),
        (
            "[3,2,1,0]",
            "[3,2,1]",
            "bad plan: 2 Shape numberings at 1\n",
        ),
        (
            "\"befores\":[]",
            "\"befores\":[[2,1]]",
            "bad plan: 6 BadIndex at 0\n",
        ),
        // The first pick twice.
        (
            "[1,0,0,[]]",
            "[1,0,0,[]],[1,0,0,[]]",
            "bad plan: 6 BadIndex at 1\n",
        ),
        // The first change.
        (
            "\"switch\":\"s1\"",
            "\"switch\":\"s9\"",
            "bad plan: 4 UnknownSwitch at 0\n",
        ),
        ("10.0.0.0/24", "10.0.0.1/24", "bad plan: 5 BadRule at 0\n"),
        (
            "\"priority\":100",
            "\"priority\":-1",
            "bad plan: 2 Shape priority at 0\n",
        ),
        // The second change.
        ("\"out\":3", "\"out\":0", "bad plan: 5 BadRule at 1\n"),
        ("}]]}", "}]]}x", "bad plan: 1 NotJson at 0\n"),
    ];
    for (part, other, line) in rows {
        let plan = with_part(&rt, alloc, text, part, other);
        let answer = answered(&rt, alloc, &plan);
        assert!(rt; answer.is(Status::BadFile, line.as_bytes()), "{other}");
    }
}

/// As many brackets that open as brackets that close.
fn brackets(rt: &impl Abort, alloc: Global, count: usize) -> Vec<u8> {
    let mut text = vec![in alloc; b'['; count].expect(rt, "memory");
    let rest = vec![in alloc; b']'; count].expect(rt, "memory");
    text.extend_from_slice(&rest).expect(rt, "memory");
    text
}

#[test]
fn what_is_no_json_is_refused(rt: HostRuntime) {
    let alloc = rt.alloc();
    let line = b"bad plan: 1 NotJson at 0\n";
    let whole = square::plan_in_format_1();
    let cut = whole.get(..100).expect(&rt, "a hundred bytes");
    assert!(rt; answered(&rt, alloc, cut).is(Status::BadFile, line));
    let deep = brackets(&rt, alloc, 200);
    assert!(rt; answered(&rt, alloc, &deep).is(Status::BadFile, line));
    // The byte ff stands in no text.
    let mut other = whole.to_vec(alloc).expect(&rt, "memory");
    for first in other.iter_mut().take(1) {
        *first = 0xff;
    }
    assert!(rt; answered(&rt, alloc, &other).is(Status::BadFile, line));
}
