//! The plan of the square network with waits.
use flat_json::parse_tree;
use json::Scratch;
use plan_format::read_plan;
use plan_waits::{WaitsFault, read_waits, write_plan_with_waits};
use std::alloc::Global;
use std::process::Abort;
use topology::Net;
use topology_files::read_net;

/// The switches of the square.
const SQUARE: &str =
    r#"{"switches":[{"name":"s1","capacity":8},{"name":"s2","capacity":8},{"name":"s3","capacity":8},{"name":"s4","capacity":8}],"links":[],"hosts":[],"vlans":["untagged"],"tags":[]}"#;

/// Its plan up to the waits, without picks of the second round.
const PLAN: &str =
    r#"{"befores":[],"format":2,"kind":"ordered","numberings":[[3,2,1,0]],"picks":[[1,0,0],[1,1,0]],"rounds":[[["replace",0]],[["replace",1]]],"rules":[{"dst":"10.0.0.0/24","out":4,"priority":100,"switch":"s1"},{"dst":"10.0.0.0/24","out":3,"priority":100,"switch":"s3"}],"uses":[[0,[]]]"#;

/// The same with a pick at the second round.
const LATER: &str =
    r#"{"befores":[],"format":2,"kind":"ordered","numberings":[[3,2,1,0]],"picks":[[1,0,0],[2,1,0]],"rounds":[[["replace",0]],[["replace",1]]],"rules":[{"dst":"10.0.0.0/24","out":4,"priority":100,"switch":"s1"},{"dst":"10.0.0.0/24","out":3,"priority":100,"switch":"s3"}],"uses":[[0,[]]]"#;

fn square(rt: &impl Abort, alloc: Global) -> Net {
    read_net(alloc, SQUARE.as_bytes())
        .ok()
        .expect(rt, "a network")
}

/// The two parts in a row.
fn joined(rt: &impl Abort, alloc: Global, front: &str, end: &str) -> String {
    let mut text = String::new(alloc);
    text.push_str(front).expect(rt, "memory");
    text.push_str(end).expect(rt, "memory");
    text
}

/// The plan is read with its waits, and written again with the same bytes.
fn is_kept(rt: &impl Abort, alloc: Global, net: &Net, front: &str, end: &str) {
    let text = joined(rt, alloc, front, end);
    let Ok(plan) = read_plan(alloc, net, text.as_bytes()) else {
        return assert!(rt; false);
    };
    let mut scratch = Scratch::new(alloc);
    let Ok(tree) = parse_tree(alloc, text.as_bytes(), &mut scratch) else {
        return assert!(rt; false);
    };
    let Ok(waits) = read_waits(alloc, &plan, &tree, tree.top()) else {
        return assert!(rt; false);
    };
    let again = write_plan_with_waits(alloc, net, &plan, waits.as_ref()).expect(rt, "memory");
    assert!(rt; again.as_slice() == text.as_bytes());
}

#[test]
fn a_plan_is_written_as_it_was_read(rt: HostRuntime) {
    let alloc = rt.alloc();
    let net = square(&rt, alloc);
    is_kept(&rt, alloc, &net, PLAN, "}\n");
    is_kept(&rt, alloc, &net, PLAN, ",\"waits\":[]}\n");
    is_kept(&rt, alloc, &net, PLAN, ",\"waits\":[2]}\n");
    is_kept(&rt, alloc, &net, LATER, ",\"waits\":[2]}\n");
    is_kept(&rt, alloc, &net, LATER, "}\n");
}

/// The waits are refused with this fault.
fn is_refused(rt: &impl Abort, alloc: Global, net: &Net, front: &str, end: &str, want: WaitsFault) {
    let text = joined(rt, alloc, front, end);
    let Ok(plan) = read_plan(alloc, net, text.as_bytes()) else {
        return assert!(rt; false);
    };
    let mut scratch = Scratch::new(alloc);
    let Ok(tree) = parse_tree(alloc, text.as_bytes(), &mut scratch) else {
        return assert!(rt; false);
    };
    match read_waits(alloc, &plan, &tree, tree.top()) {
        Ok(_) => assert!(rt; false),
        Err(fault) => assert!(rt; fault == want),
    }
}

#[test]
fn the_first_fault_is_named(rt: HostRuntime) {
    let alloc = rt.alloc();
    let net = square(&rt, alloc);
    for (end, want) in [
        (",\"waits\":null}", WaitsFault::Shape(0)),
        (",\"waits\":[2,\"2\"]}", WaitsFault::Shape(1)),
        (",\"waits\":[1]}", WaitsFault::BadIndex(0)),
        (",\"waits\":[3]}", WaitsFault::BadIndex(0)),
        (",\"waits\":[2,2,1]}", WaitsFault::BadIndex(1)),
        (",\"waits\":[3,\"2\"]}", WaitsFault::BadIndex(0)),
    ] {
        is_refused(&rt, alloc, &net, PLAN, end, want);
    }
    is_refused(
        &rt,
        alloc,
        &net,
        LATER,
        ",\"waits\":[]}",
        WaitsFault::BadIndex(1),
    );
}

#[test]
fn a_fault_has_the_number_and_the_word_of_a_plans(rt: HostRuntime) {
    let shape = WaitsFault::Shape(7);
    assert!(rt; shape.number() == 2 && shape.name() == "Shape" && shape.place() == 7);
    assert!(rt; shape.field() == Some("waits"));
    let index = WaitsFault::BadIndex(3);
    assert!(rt; index.number() == 6 && index.name() == "BadIndex" && index.place() == 3);
    assert!(rt; index.field().is_none());
}
