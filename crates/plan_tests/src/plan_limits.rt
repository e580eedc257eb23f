//! How many rounds, changes and rules a plan may have, and how great its numbers may be.
use crate::texts::{pair, repeated};
use net_base::Field;
use plan_format::{PlanFault, read_plan};
use std::alloc::Global;
use std::process::Abort;

/// Whether a text in three parts is read, or refused by this fault.
fn is_answered(
    rt: &impl Abort,
    alloc: Global,
    front: &str,
    middle: &str,
    end: &str,
    fault: Option<PlanFault>,
) {
    let text = format!(in alloc; "{front}{middle}{end}").expect(rt, "memory");
    let found = read_plan(alloc, &pair(rt, alloc), text.as_bytes()).err();
    assert!(rt; found == fault, "{end}");
}

const ROUNDS: &str = "{\"format\":1,\"kind\":\"ordered\",\"rounds\":[";

const NUMBERED_ROUNDS: &str = "{\"format\":2,\"kind\":\"ordered\",\"rules\":[],\"rounds\":[";

/// So many rounds, in both formats. What is read comes to the member that lacks.
fn rounds_are(rt: &impl Abort, alloc: Global, count: u32, fault: PlanFault) {
    let rounds = repeated(rt, alloc, "[]", count);
    is_answered(rt, alloc, ROUNDS, rounds.as_str(), "]}", Some(fault));
    is_answered(
        rt,
        alloc,
        NUMBERED_ROUNDS,
        rounds.as_str(),
        "]}",
        Some(fault),
    );
}

#[test]
fn a_plan_has_at_most_4200_rounds(rt: HostRuntime) {
    let end = PlanFault::Shape(Field::Numberings, 0);
    rounds_are(&rt, rt.alloc(), 4200, end);
    rounds_are(&rt, rt.alloc(), 4201, PlanFault::TooMany(Field::Rounds));
}

const TRIED: &str =
    "{\"format\":1,\"kind\":\"two-phase\",\"rounds\":[],\"labels\":[],\"picks\":[],\"tried\":[";

const NUMBERED_TRIED: &str =
    "{\"format\":2,\"kind\":\"two-phase\",\"rules\":[],\"rounds\":[],\"labels\":[],\"picks\":[],\"tried\":[";

/// So many rounds that were tried, in both formats.
fn tried_are(rt: &impl Abort, alloc: Global, count: u32, fault: Option<PlanFault>) {
    let tried = repeated(rt, alloc, "[]", count);
    is_answered(rt, alloc, TRIED, tried.as_str(), "]}", fault);
    is_answered(rt, alloc, NUMBERED_TRIED, tried.as_str(), "]}", fault);
}

#[test]
fn a_plan_has_at_most_4096_tried_rounds(rt: HostRuntime) {
    tried_are(&rt, rt.alloc(), 4096, None);
    let fault = PlanFault::TooMany(Field::Tried);
    tried_are(&rt, rt.alloc(), 4097, Some(fault));
}

const CHANGES: &str =
    "{\"format\":2,\"kind\":\"two-phase\",\"labels\":[],\"picks\":[],\"rules\":[{\"dst\":\"0.0.0.0/0\",\"out\":1,\"priority\":1,\"switch\":\"a\"}],\"rounds\":[[";

/// The most changes in one round, and this behind them.
fn most_changes_are(rt: &impl Abort, alloc: Global, end: &str, fault: Option<PlanFault>) {
    let changes = repeated(rt, alloc, "[\"insert\",0]", 2_200_000);
    is_answered(rt, alloc, CHANGES, changes.as_str(), end, fault);
}

/// Changes that are tried count behind those of the rounds.
#[test]
fn a_plan_has_at_most_2200000_changes(rt: HostRuntime) {
    let alloc = rt.alloc();
    most_changes_are(&rt, alloc, "]],\"tried\":[]}", None);
    let more = "],[[\"insert\",0]]],\"tried\":[]}";
    most_changes_are(&rt, alloc, more, Some(PlanFault::TooMany(Field::Rounds)));
    let more = "]],\"tried\":[[[\"insert\",0]]]}";
    most_changes_are(&rt, alloc, more, Some(PlanFault::TooMany(Field::Tried)));
}

const RULES: &str = "{\"format\":2,\"kind\":\"ordered\",\"rules\":[";

const RULE: &str = "{\"dst\":\"0.0.0.0/0\",\"out\":1,\"priority\":1,\"switch\":\"a\"}";

/// What is read comes to the member that lacks. The tree of this file takes more than 2 GB.
#[test]
fn a_plan_has_at_most_2200000_rules(rt: HostRuntime) {
    let alloc = rt.alloc();
    let rules = repeated(&rt, alloc, RULE, 2_200_000);
    let end = PlanFault::Shape(Field::Rounds, 0);
    is_answered(&rt, alloc, RULES, rules.as_str(), "]}", Some(end));
    let fault = PlanFault::TooMany(Field::Rules);
    is_answered(&rt, alloc, RULES, rules.as_str(), ",0]}", Some(fault));
}

/// One round, one set, and a pick in it.
const EVIDENCE: &str =
    "{\"format\":1,\"kind\":\"ordered\",\"rounds\":[[]],\"befores\":[[0,1]],\"numberings\":[[0,";

#[test]
fn numbers_of_evidence_end_at_their_greatest(rt: HostRuntime) {
    let alloc = rt.alloc();
    let rows = [
        ("65535]],\"picks\":[[1,8191,0,[0]]]}", None),
        (
            "65536]],\"picks\":[]}",
            Some(PlanFault::Shape(Field::Numberings, 0)),
        ),
        (
            "0]],\"picks\":[[1,8192,0,[]]]}",
            Some(PlanFault::BadIndex(0)),
        ),
        ("0]],\"picks\":[[2,0,0,[]]]}", Some(PlanFault::BadIndex(0))),
        (
            "0]],\"picks\":[[1,0,4294967296,[]]]}",
            Some(PlanFault::BadIndex(0)),
        ),
        (
            "0]],\"picks\":[[1,0,0,[18446744073709551615]]]}",
            Some(PlanFault::BadIndex(0)),
        ),
    ];
    for (end, fault) in rows {
        is_answered(&rt, alloc, EVIDENCE, "", end, fault);
    }
}

/// A change with these members beside its switch, in the first round.
const CHANGE: &str =
    "{\"format\":1,\"kind\":\"ordered\",\"numberings\":[],\"befores\":[],\"picks\":[],\"rounds\":[[{\"do\":\"insert\",\"switch\":\"a\",";

#[test]
fn numbers_of_a_change_lie_in_their_ranges(rt: HostRuntime) {
    let alloc = rt.alloc();
    let bad = Some(PlanFault::BadRule(0));
    let rows = [
        (r#""priority":1,"dst":"0.0.0.0/0","out":1"#, None),
        (r#""priority":0,"dst":"0.0.0.0/0","out":1"#, bad),
        (
            r#""priority":65535,"in_port":65279,"vlan":4094,"dst":"0.0.0.0/0","out":65279,"set":4094"#,
            None,
        ),
        (r#""priority":65536,"dst":"0.0.0.0/0","out":1"#, bad),
        (
            r#""priority":1,"in_port":65280,"dst":"0.0.0.0/0","out":1"#,
            bad,
        ),
        (r#""priority":1,"vlan":0,"dst":"0.0.0.0/0","out":1"#, bad),
        (r#""priority":1,"vlan":4095,"dst":"0.0.0.0/0","out":1"#, bad),
        (r#""priority":1,"dst":"0.0.0.0/33","out":1"#, bad),
        (r#""priority":1,"dst":"0.0.0.0/0","out":1,"set":0"#, bad),
        (r#""priority":1,"dst":"0.0.0.0/0","out":1,"set":1"#, None),
        (r#""priority":1,"dst":"0.0.0.0/0","out":1,"set":4095"#, bad),
    ];
    for (members, fault) in rows {
        is_answered(&rt, alloc, CHANGE, members, "}]]}", fault);
    }
}
