//! The reader, refusal by refusal, and the evidence that the picks of format 1 share.
use crate::texts::pair;
use certificates::{Evidence, OrderedEvidence};
use net_base::Field;
use plan_format::{PlanFault, read_plan};
use std::process::Abort;

/// A text between a head and a tail is refused.
fn is_refused(
    rt: &(impl Abort + AllocGlobal),
    head: &str,
    text: &str,
    tail: &str,
    want: PlanFault,
) {
    let text = format!(in rt.alloc(); "{head}{text}{tail}").expect(rt, "a text");
    let fault = read_plan(rt.alloc(), &pair(rt, rt.alloc()), text.as_bytes()).err();
    assert_eq!(rt; fault, Some(want), "{text}");
}

/// Each text is refused, put between a head and a tail.
fn are_refused(
    rt: &(impl Abort + AllocGlobal),
    head: &str,
    cases: &[(&str, PlanFault)],
    tail: &str,
) {
    for (text, want) in cases {
        is_refused(rt, head, *text, tail, *want);
    }
}

#[test]
fn refuses_a_damaged_head(rt: HostRuntime) {
    let cases = [
        ("[", PlanFault::NotJson),
        ("[]", PlanFault::Shape(Field::Top, 0)),
        ("{}", PlanFault::Shape(Field::Format, 0)),
        (r#"{"format":1.0}"#, PlanFault::Shape(Field::Format, 0)),
        (r#"{"format":3,"kind":1}"#, PlanFault::BadFormat),
        (
            r#"{"format":1,"kind":"both"}"#,
            PlanFault::Shape(Field::Kind, 0),
        ),
        (
            r#"{"format":1,"kind":"ordered"}"#,
            PlanFault::Shape(Field::Rounds, 0),
        ),
        (
            r#"{"format":2,"kind":"ordered"}"#,
            PlanFault::Shape(Field::Rules, 0),
        ),
    ];
    are_refused(&rt, "", &cases, "");
}

/// The second change of the third round, the first being good.
#[test]
fn refuses_a_damaged_change(rt: HostRuntime) {
    let head =
        r#"{"format":1,"kind":"ordered","numberings":[],"befores":[],"picks":[],"rounds":[[],[{"do":"insert","switch":"a","priority":1,"dst":"0.0.0.0/0","out":1}],[{"do":"delete","switch":"b","priority":65535,"in_port":65279,"vlan":4094,"dst":"10.0.0.0/8","out":2,"set":4094},"#;
    let cases = [
        ("[]", PlanFault::Shape(Field::Rounds, 2)),
        (r#"{"do":"change"}"#, PlanFault::Shape(Field::Do, 2)),
        (
            r#"{"do":"insert","switch":1}"#,
            PlanFault::Shape(Field::Switch, 2),
        ),
        (
            r#"{"do":"insert","switch":"c"}"#,
            PlanFault::UnknownSwitch(2),
        ),
        (
            r#"{"do":"insert","switch":"a","priority":-1}"#,
            PlanFault::Shape(Field::Priority, 2),
        ),
        (
            r#"{"do":"insert","switch":"a","priority":0,"in_port":"drop"}"#,
            PlanFault::Shape(Field::InPort, 2),
        ),
        (
            r#"{"do":"insert","switch":"a","priority":0,"vlan":"tagged"}"#,
            PlanFault::Shape(Field::Vlan, 2),
        ),
        (
            r#"{"do":"insert","switch":"a","priority":0,"dst":8}"#,
            PlanFault::Shape(Field::Dst, 2),
        ),
        (
            r#"{"do":"insert","switch":"a","priority":0,"dst":"x","out":"any"}"#,
            PlanFault::Shape(Field::Out, 2),
        ),
        (
            r#"{"do":"insert","switch":"a","priority":0,"dst":"x","out":0,"set":"1"}"#,
            PlanFault::Shape(Field::Set, 2),
        ),
        (
            r#"{"do":"insert","switch":"a","priority":0,"dst":"x","out":0,"set":1,"strip":false}"#,
            PlanFault::Shape(Field::Strip, 2),
        ),
        (
            r#"{"do":"insert","switch":"a","priority":65536,"dst":"10.0.0.0/8","out":1}"#,
            PlanFault::BadRule(2),
        ),
        (
            r#"{"do":"insert","switch":"a","priority":1,"in_port":0,"dst":"10.0.0.0/8","out":1}"#,
            PlanFault::BadRule(2),
        ),
        (
            r#"{"do":"insert","switch":"a","priority":1,"vlan":4095,"dst":"10.0.0.0/8","out":1}"#,
            PlanFault::BadRule(2),
        ),
        (
            r#"{"do":"insert","switch":"a","priority":1,"dst":"10.0.0.1/8","out":1}"#,
            PlanFault::BadRule(2),
        ),
        (
            r#"{"do":"insert","switch":"a","priority":1,"dst":"10.0.0.0/8","out":65280}"#,
            PlanFault::BadRule(2),
        ),
        (
            r#"{"do":"insert","switch":"a","priority":1,"dst":"10.0.0.0/8","out":1,"set":1,"strip":true}"#,
            PlanFault::BadRule(2),
        ),
        (
            r#"{"do":"insert","switch":"a","priority":1,"dst":"10.0.0.0/8","out":"drop","strip":true}"#,
            PlanFault::BadRule(2),
        ),
    ];
    are_refused(&rt, head, &cases, "]]}");
}

#[test]
fn refuses_a_damaged_member_of_format_1(rt: HostRuntime) {
    let cases = [
        (
            r#""ordered","rounds":[[],1]"#,
            PlanFault::Shape(Field::Rounds, 1),
        ),
        (
            r#""ordered","rounds":[],"numberings":[[0,0],[0]]"#,
            PlanFault::Shape(Field::Numberings, 1),
        ),
        (
            r#""ordered","rounds":[],"numberings":[[0,65536]]"#,
            PlanFault::Shape(Field::Numberings, 0),
        ),
        (
            r#""ordered","rounds":[],"numberings":[],"befores":[[5,"x"]]"#,
            PlanFault::Shape(Field::Befores, 0),
        ),
        (
            r#""ordered","rounds":[],"numberings":[],"befores":[[0,1],[2]]"#,
            PlanFault::BadIndex(1),
        ),
        (
            r#""ordered","rounds":[],"numberings":[],"befores":[[0,0]]"#,
            PlanFault::BadIndex(0),
        ),
        (
            r#""ordered","rounds":[[]],"numberings":[[0,0]],"befores":[[]],"picks":[[9,9,9]]"#,
            PlanFault::Shape(Field::Picks, 0),
        ),
        (
            r#""ordered","rounds":[[]],"numberings":[[0,0]],"befores":[[]],"picks":[[0,0,0,[]]]"#,
            PlanFault::BadIndex(0),
        ),
        (
            r#""ordered","rounds":[[]],"numberings":[[0,0]],"befores":[[]],"picks":[[1,8192,0,[]]]"#,
            PlanFault::BadIndex(0),
        ),
        (
            r#""ordered","rounds":[[]],"numberings":[[0,0]],"befores":[[]],"picks":[[1,0,1,[]]]"#,
            PlanFault::BadIndex(0),
        ),
        (
            r#""ordered","rounds":[[]],"numberings":[[0,0]],"befores":[[]],"picks":[[1,0,0,[1]]]"#,
            PlanFault::BadIndex(0),
        ),
        (
            r#""ordered","rounds":[[]],"numberings":[[0,0]],"befores":[[]],"picks":[[1,1,0,[]],[1,1,0,[0]]]"#,
            PlanFault::BadIndex(1),
        ),
        (
            r#""two-phase","rounds":[[]],"labels":[[["untagged","older","untagged"]]]"#,
            PlanFault::Shape(Field::Labels, 0),
        ),
        (
            r#""two-phase","rounds":[[]],"labels":[[[4095,"old","untagged"]]]"#,
            PlanFault::Shape(Field::Labels, 0),
        ),
        (
            r#""two-phase","rounds":[[]],"labels":[[],[[1,"old",1],["untagged","new",1]]]"#,
            PlanFault::BadIndex(1),
        ),
        (
            r#""two-phase","rounds":[[]],"labels":[[]],"picks":[[1]]"#,
            PlanFault::Shape(Field::Picks, 0),
        ),
        (
            r#""two-phase","rounds":[[]],"labels":[[]],"picks":[[1,4294967296]]"#,
            PlanFault::BadIndex(0),
        ),
        (
            r#""two-phase","rounds":[[]],"labels":[[]],"picks":[[1,0],[1,0]]"#,
            PlanFault::BadIndex(1),
        ),
        (
            r#""two-phase","rounds":[[]],"labels":[],"picks":[],"tried":[[],[1]]"#,
            PlanFault::Shape(Field::Tried, 0),
        ),
    ];
    are_refused(&rt, r#"{"format":1,"kind":"#, &cases, "}");
}

#[test]
fn refuses_a_damaged_member_of_format_2(rt: HostRuntime) {
    let head = r#"{"format":2,"rules":[{"switch":"a","priority":1,"dst":"0.0.0.0/0","out":1}"#;
    let cases = [
        (
            r#",1],"kind":"ordered"}"#,
            PlanFault::Shape(Field::Rules, 1),
        ),
        (
            r#",{"switch":"c"}],"kind":"ordered"}"#,
            PlanFault::UnknownSwitch(1),
        ),
        (
            r#"],"kind":"ordered","rounds":[[["insert",0]],[["insert"]]]}"#,
            PlanFault::Shape(Field::Rounds, 1),
        ),
        (
            r#"],"kind":"ordered","rounds":[[["insert",0]],[["insert",1]]]}"#,
            PlanFault::BadIndex(1),
        ),
        (
            r#"],"kind":"ordered","rounds":[],"numberings":[[0,0]],"befores":[],"uses":[[0,[]],[0]]}"#,
            PlanFault::Shape(Field::Uses, 1),
        ),
        (
            r#"],"kind":"ordered","rounds":[],"numberings":[[0,0]],"befores":[],"uses":[[1,[]]]}"#,
            PlanFault::BadIndex(0),
        ),
        (
            r#"],"kind":"ordered","rounds":[[]],"numberings":[[0,0]],"befores":[],"uses":[[0,[]]],"picks":[[1,0,0,[]]]}"#,
            PlanFault::Shape(Field::Picks, 0),
        ),
        (
            r#"],"kind":"ordered","rounds":[[]],"numberings":[[0,0]],"befores":[],"uses":[[0,[]]],"picks":[[1,0,1]]}"#,
            PlanFault::BadIndex(0),
        ),
        (
            r#"],"kind":"two-phase","rounds":[[["insert",0]]],"labels":[],"picks":[],"tried":[[["delete",9]]]}"#,
            PlanFault::BadIndex(1),
        ),
    ];
    are_refused(&rt, head, &cases, "");
}

const TWICE: &str =
    r#"{"format":1,"kind":"ordered","rounds":[[]],"numberings":[[0,0],[1,0]],"befores":[[],[0]],"picks":[[1,0,1,[0]],[1,1,0,[]],[1,2,1,[0]],[1,3,1,[1]]]}"#;

/// Equal evidence of picks of format 1 is kept once, in the order of first use.
fn shares(rt: &impl Abort, evidence: &OrderedEvidence) {
    assert!(rt; evidence.uses.list().len() == 3);
    assert!(rt; evidence.picks.list().len() == 4);
    for (pick, want) in evidence.picks.list().iter().zip([0, 1, 0, 2]) {
        assert!(rt; pick.shared == want, "in class {}", pick.class);
    }
}

#[test]
fn picks_of_format_1_share_their_evidence(rt: HostRuntime) {
    let plan = read_plan(rt.alloc(), &pair(&rt, rt.alloc()), TWICE.as_bytes()).expect(
        &rt, "a plan",
    );
    match &plan.evidence {
        Evidence::Ordered(evidence) => shares(&rt, evidence),
        Evidence::TwoPhase(_) => assert!(rt; false, "two-phase"),
    }
}

/// A refusal as it stands in a line on a bad file, by the message of its error type.
fn line_of(rt: &(impl Abort + AllocGlobal), fault: PlanFault) -> String {
    let (number, place) = (fault.number(), fault.place());
    let text = match fault.field() {
        Some(field) => {
            let member = field.name();
            format!(in rt.alloc(); "{number} {fault} {member} at {place}")
        }
        None => format!(in rt.alloc(); "{number} {fault} at {place}"),
    };
    text.expect(rt, "a text")
}

fn has_words(rt: &(impl Abort + AllocGlobal), fault: PlanFault, line: &str) {
    let text = line_of(rt, fault);
    assert!(rt; text.as_str() == line, "{line}");
    assert!(rt; line.contains(fault.name()), "{line}");
}

#[test]
fn each_refusal_has_its_words(rt: HostRuntime) {
    for (fault, line) in [
        (PlanFault::NotJson, "1 NotJson at 0"),
        (PlanFault::Shape(Field::Uses, 3), "2 Shape uses at 3"),
        (PlanFault::BadFormat, "3 BadFormat at 0"),
        (PlanFault::UnknownSwitch(3), "4 UnknownSwitch at 3"),
        (PlanFault::BadRule(3), "5 BadRule at 3"),
        (PlanFault::BadIndex(3), "6 BadIndex at 3"),
        (PlanFault::TooMany(Field::Tried), "7 TooMany tried at 0"),
        (PlanFault::Memory, "0 Memory at 0"),
    ] {
        has_words(&rt, fault, line);
    }
}
