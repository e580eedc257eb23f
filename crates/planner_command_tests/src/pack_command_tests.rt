//! `pack` over files in memory, and `check` of what it wrote.
use crate::planners::{Planner, answer_by, are_planned, checked};
use crate::ring::Ring;
use crate::{growing, stuck};
use command_base::Status;
use example_files::{UpdateTexts, detour, leaves, square, words};
use pack_command::{PackKind, pack_names};
use std::alloc::Global;
use std::process::Abort;

/// What the command writes for the update is accepted by this line.
fn is_accepted_of(
    rt: &impl Abort,
    alloc: Global,
    planner: Planner,
    texts: &UpdateTexts<'_>,
    line: &[u8],
    row: &str,
) {
    let answer = answer_by(rt, alloc, planner, texts, 0);
    assert!(rt; answer.status == Status::Done, "{row}");
    let verdict = checked(rt, alloc, texts, &answer.text);
    assert!(rt; verdict.is(Status::Done, line), "{row}");
}

/// What is written for the update without KIND is accepted by this line.
fn is_accepted(rt: &impl Abort, alloc: Global, texts: &UpdateTexts<'_>, line: &[u8], row: &str) {
    is_accepted_of(rt, alloc, Planner::Pack, texts, line, row);
}

/// For the update the command answers so, with its text.
fn is_answered(
    rt: &impl Abort,
    alloc: Global,
    planner: Planner,
    texts: &UpdateTexts<'_>,
    want: (Status, &[u8]),
    row: &str,
) {
    let answer = answer_by(rt, alloc, planner, texts, 0);
    assert!(rt; answer.is(want.0, want.1), "{row}");
}

#[test]
fn each_round_takes_all_changes_that_can_stand_in_it(rt: HostRuntime) {
    let rows: [(&str, UpdateTexts<'_>, &[u8]); 4] = [
        (
            "square",
            square::update(),
            b"accepted: ordered, 2 rounds, 12 classes\n",
        ),
        (
            "leaves",
            leaves::update(),
            b"accepted: ordered, 1 rounds, 96 classes\n",
        ),
        (
            "leaves without tags",
            leaves::update_without_tags(),
            b"accepted: ordered, 1 rounds, 96 classes\n",
        ),
        (
            "rules above the old ones",
            detour::update_above(),
            b"accepted: ordered, 2 rounds, 6 classes\n",
        ),
    ];
    for (row, texts, line) in rows {
        is_accepted(&rt, rt.alloc(), &texts, line, row);
    }
}

#[test]
fn a_ring_is_turned_in_two_phases_where_they_have_less_than_half_as_many_rounds(rt: HostRuntime) {
    // Two phases have 8 rounds, the packed plan of a ring one less than switches.
    let rows: [(u32, &str, Planner, &[u8]); 8] = [
        (
            9,
            "[3000,3009]",
            Planner::Pack,
            b"accepted: ordered, 8 rounds, 27 classes\n",
        ),
        (
            9,
            "[3000,3009]",
            Planner::PackTwoPhase,
            b"accepted: two-phase, 8 rounds, 27 classes\n",
        ),
        (
            10,
            "[3000,3009]",
            Planner::Pack,
            b"accepted: ordered, 9 rounds, 30 classes\n",
        ),
        (
            17,
            "[3000,3009]",
            Planner::Pack,
            b"accepted: ordered, 16 rounds, 51 classes\n",
        ),
        (
            18,
            "[3000,3009]",
            Planner::Pack,
            b"accepted: two-phase, 8 rounds, 54 classes\n",
        ),
        (
            18,
            "[3000,3009]",
            Planner::PackOrdered,
            b"accepted: ordered, 17 rounds, 54 classes\n",
        ),
        (
            18,
            "[3000,3009]",
            Planner::PackTwoPhase,
            b"accepted: two-phase, 8 rounds, 54 classes\n",
        ),
        (
            18,
            "[]",
            Planner::Pack,
            b"accepted: ordered, 17 rounds, 54 classes\n",
        ),
    ];
    let alloc = rt.alloc();
    for (switches, tags, planner, line) in rows {
        let ring = Ring::make(alloc, switches, tags).expect(&rt, "memory");
        is_accepted_of(&rt, alloc, planner, &ring.update(), line, tags);
    }
}

/// An update of one switch, whose only rule gets another priority.
fn raised(topology: &'static [u8]) -> UpdateTexts<'static> {
    UpdateTexts {
        topology,
        old: br#"{"rules":[{"switch":"s","priority":100,"dst":"10.0.0.0/24","out":2}]}"#,
        new: br#"{"rules":[{"switch":"s","priority":200,"dst":"10.0.0.0/24","out":2}]}"#,
        policy: br#"{"demands":[]}"#,
    }
}

#[test]
fn an_insert_waits_for_room(rt: HostRuntime) {
    let rows: [(&[u8], &[u8]); 2] = [
        (
            br#"{"switches":[{"name":"s","capacity":1}],"links":[],"hosts":["s:1","s:2"],"vlans":["untagged"],"tags":[]}"#,
            b"accepted: ordered, 2 rounds, 6 classes\n",
        ),
        (
            br#"{"switches":[{"name":"s","capacity":2}],"links":[],"hosts":["s:1","s:2"],"vlans":["untagged"],"tags":[]}"#,
            b"accepted: ordered, 1 rounds, 6 classes\n",
        ),
    ];
    for (topology, line) in rows {
        is_accepted(&rt, rt.alloc(), &raised(topology), line, "room");
    }
}

#[test]
fn where_one_of_packing_and_the_search_is_stuck_the_other_plans(rt: HostRuntime) {
    let rows: [(UpdateTexts<'_>, &[u8], &[u8]); 2] = [
        (
            stuck::packing(),
            stuck::packing_plan(),
            b"accepted: ordered, 5 rounds, 3 classes\n",
        ),
        (
            stuck::search(),
            stuck::search_plan(),
            b"accepted: ordered, 2 rounds, 6 classes\n",
        ),
    ];
    are_planned(&rt, rt.alloc(), Planner::Pack, &rows);
}

#[test]
fn a_plan_of_the_search_more_than_twice_as_long_gives_way_to_two_phases(rt: HostRuntime) {
    let alloc = rt.alloc();
    let twice = stuck::LongerPacking::make(alloc, 11).expect(&rt, "memory");
    let longer = stuck::LongerPacking::make(alloc, 12).expect(&rt, "memory");
    let rows: [(&str, UpdateTexts<'_>, &[u8]); 3] = [
        (
            "twice as many",
            twice.update(),
            b"accepted: ordered, 16 rounds, 14 classes\n",
        ),
        (
            "more than twice as many",
            longer.update(),
            b"accepted: two-phase, 8 rounds, 15 classes\n",
        ),
        (
            "no tags",
            longer.update_without_tags(),
            b"accepted: ordered, 17 rounds, 15 classes\n",
        ),
    ];
    for (row, texts, line) in rows {
        is_accepted(&rt, alloc, &texts, line, row);
    }
}

#[test]
fn with_ordered_two_phases_are_never_written(rt: HostRuntime) {
    let rows: [(&str, UpdateTexts<'_>, Status, &[u8]); 6] = [
        ("square", square::update(), Status::Done, square::plan()),
        (
            "packing is stuck",
            stuck::packing(),
            Status::Done,
            stuck::packing_plan(),
        ),
        (
            "the search is stuck",
            stuck::search(),
            Status::Done,
            stuck::search_plan(),
        ),
        (
            "both are stuck",
            detour::update(),
            Status::Refused,
            b"no ordered plan\ntried: []\n",
        ),
        (
            "both are stuck after two rounds",
            detour::open_update(),
            Status::Refused,
            br#"no ordered plan
tried: [[{"do":"replace","dst":"10.0.0.0/24","out":1,"priority":100,"switch":"w"}],[{"do":"replace","dst":"10.0.0.0/24","out":1,"priority":100,"switch":"y"}]]
"#,
        ),
        (
            "an end isn't good",
            detour::dropping_update(),
            Status::Refused,
            b"refused: 1 EndBreaks new at s:1 untagged 10.0.0.0 Dropped x\n",
        ),
    ];
    for (row, texts, want, text) in rows {
        is_answered(
            &rt,
            rt.alloc(),
            Planner::PackOrdered,
            &texts,
            (want, text),
            row,
        );
    }
}

/// The rounds that were tried stand in the plan of two phases that is written for the update.
fn has_tried(rt: &impl Abort, alloc: Global, texts: &UpdateTexts<'_>, tried: &str, row: &str) {
    let answer = answer_by(rt, alloc, Planner::PackTwoPhase, texts, 0);
    let text = str::from_utf8(&answer.text).ok().expect(rt, "text");
    assert!(rt; text.contains(tried), "{row}");
}

#[test]
fn with_two_phase_ordered_plans_are_never_written(rt: HostRuntime) {
    let alloc = rt.alloc();
    let rows: [(&str, UpdateTexts<'_>, &[u8], &str); 4] = [
        (
            "square",
            square::update(),
            b"accepted: two-phase, 8 rounds, 12 classes\n",
            "\"tried\":[]",
        ),
        (
            "leaves",
            leaves::update(),
            b"accepted: two-phase, 8 rounds, 96 classes\n",
            "\"tried\":[]",
        ),
        (
            "packing is stuck",
            stuck::packing(),
            b"accepted: two-phase, 8 rounds, 3 classes\n",
            "\"tried\":[]",
        ),
        (
            "both are stuck after two rounds",
            detour::open_update(),
            b"accepted: two-phase, 8 rounds, 6 classes\n",
            "\"tried\":[[[\"replace\",16]],[[\"replace\",17]]]",
        ),
    ];
    for (row, texts, line, tried) in rows {
        is_accepted_of(&rt, alloc, Planner::PackTwoPhase, &texts, line, row);
        has_tried(&rt, alloc, &texts, tried, row);
    }
}

#[test]
fn with_two_phase_an_update_that_has_an_ordered_plan_may_have_none(rt: HostRuntime) {
    let six =
        br#"{"switches":[{"name":"s","capacity":6}],"links":[],"hosts":["s:1","s:2"],"vlans":["untagged"],"tags":[3000,3009]}"#;
    let seven =
        br#"{"switches":[{"name":"s","capacity":7}],"links":[],"hosts":["s:1","s:2"],"vlans":["untagged"],"tags":[3000,3009]}"#;
    let rows: [(&str, UpdateTexts<'_>, Status, &[u8]); 5] = [
        (
            "leaves",
            leaves::update_without_tags(),
            Status::TooFewTags,
            b"too few tags: need 2, has 0\ntried: []\n",
        ),
        (
            "the search is stuck, and packing isn't",
            stuck::search(),
            Status::TooFewTags,
            b"too few tags: need 1, has 0\ntried: []\n",
        ),
        (
            "both are stuck",
            detour::open_update_without_tags(),
            Status::TooFewTags,
            br#"too few tags: need 1, has 0
tried: [[{"do":"replace","dst":"10.0.0.0/24","out":1,"priority":100,"switch":"w"}],[{"do":"replace","dst":"10.0.0.0/24","out":1,"priority":100,"switch":"y"}]]
"#,
        ),
        (
            "six entries",
            raised(six),
            Status::TooSmall,
            b"too small: switch s need 7 capacity 6\ntried: []\n",
        ),
        (
            "an end isn't good",
            detour::dropping_update(),
            Status::Refused,
            b"refused: 1 EndBreaks new at s:1 untagged 10.0.0.0 Dropped x\n",
        ),
    ];
    let alloc = rt.alloc();
    for (row, texts, want, text) in rows {
        is_answered(&rt, alloc, Planner::PackTwoPhase, &texts, (want, text), row);
    }
    let line = b"accepted: two-phase, 8 rounds, 6 classes\n";
    is_accepted_of(
        &rt,
        alloc,
        Planner::PackTwoPhase,
        &raised(seven),
        line,
        "seven entries",
    );
}

#[test]
fn a_round_has_the_sets_of_all_its_changes(rt: HostRuntime) {
    let rows: [(UpdateTexts<'_>, &[u8], &[u8]); 1] = [(
        growing::update(),
        growing::plan(),
        b"accepted: ordered, 2 rounds, 6 classes\n",
    )];
    are_planned(&rt, rt.alloc(), Planner::Pack, &rows);
}

/// The kind in the words behind `pack`, if they are its words.
fn kind_in(rt: &impl Abort, alloc: Global, texts: &[&str]) -> Option<PackKind> {
    pack_names(&words(alloc, texts).expect(rt, "memory")).map(|names| names.kind)
}

#[test]
fn the_fifth_word_is_ordered_or_two_phase(rt: HostRuntime) {
    let alloc = rt.alloc();
    let rows: [(&str, Option<PackKind>); 7] = [
        ("ordered", Some(PackKind::Ordered)),
        ("two-phase", Some(PackKind::TwoPhase)),
        ("two phase", None),
        ("Ordered", None),
        ("--ordered", None),
        ("any", None),
        ("", None),
    ];
    for (word, want) in rows {
        let kind = kind_in(&rt, alloc, &["topology", "old", "new", "policy", word]);
        assert!(rt; kind == want, "{word}");
    }
    let kind = kind_in(&rt, alloc, &["topology", "old", "new", "policy"]);
    assert!(rt; kind == Some(PackKind::Any));
    assert!(rt; kind_in(&rt, alloc, &["topology", "old", "new"]).is_none());
    let more = ["topology", "old", "new", "policy", "ordered", "ordered"];
    assert!(rt; kind_in(&rt, alloc, &more).is_none());
}
