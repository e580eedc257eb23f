//! The reader, refusal by refusal, and the duties of a small network's classes.
use demands::{DemandFault, Demands, Duties, no_demands, read_demands};
use dest_classes::class_map;
use net_base::Field;
use std::alloc::Global;
use std::process::Abort;
use topology::Net;
use topology_files::read_net;

const NET: &str =
    r#"{"switches":[{"name":"a","capacity":10},{"name":"b","capacity":10},{"name":"c","capacity":10}],"links":[["a:2","b:2"],["b:3","c:2"]],"hosts":["a:1","c:1"],"vlans":["untagged",10],"tags":[]}"#;

fn net_of(rt: &impl Abort, alloc: Global) -> Net {
    read_net(alloc, NET.as_bytes()).expect(rt, "a network")
}

fn refuses(rt: &impl Abort, alloc: Global, text: &str, want: DemandFault) {
    let net = net_of(rt, alloc);
    let fault = read_demands(alloc, &net, text.as_bytes()).err();
    assert_eq!(rt; fault, Some(want), "in {text}");
}

/// Each member damaged in turn; the first check in the order of the members refuses.
#[test]
fn refuses_the_first_damaged_member(rt: HostRuntime) {
    for (text, want) in [
        ("[", DemandFault::NotJson),
        ("[]", DemandFault::Shape(Field::Top, 0)),
        ("{}", DemandFault::Shape(Field::Demands, 0)),
        (r#"{"demands":{}}"#, DemandFault::Shape(Field::Demands, 0)),
        (r#"{"demands":[1]}"#, DemandFault::Shape(Field::Demands, 0)),
        (
            r#"{"demands":[{"from":1,"vlan":0,"dst":"10.0.0.0/8"}]}"#,
            DemandFault::Shape(Field::From, 0),
        ),
        (
            r#"{"demands":[{"from":"a","dst":"10.0.0.0/8"}]}"#,
            DemandFault::Shape(Field::From, 0),
        ),
        (
            r#"{"demands":[{"from":"a:01","dst":"10.0.0.0/8"}]}"#,
            DemandFault::Shape(Field::From, 0),
        ),
        (
            r#"{"demands":[{"from":"d:1","dst":"10.0.0.0/8"}]}"#,
            DemandFault::UnknownSwitch(0),
        ),
        (
            r#"{"demands":[{"from":"a:2","dst":"10.0.0.0/8"}]}"#,
            DemandFault::NotHost(0),
        ),
        (
            r#"{"demands":[{"from":"a:0","dst":"10.0.0.0/8"}]}"#,
            DemandFault::NotHost(0),
        ),
        (
            r#"{"demands":[{"from":"a:65537","dst":"10.0.0.0/8"}]}"#,
            DemandFault::NotHost(0),
        ),
        (
            r#"{"demands":[{"vlan":"none","dst":"10.0.0.0/8"}]}"#,
            DemandFault::Shape(Field::Vlan, 0),
        ),
        (
            r#"{"demands":[{"vlan":0,"dst":"10.0.0.0/8"}]}"#,
            DemandFault::BadVlan(0),
        ),
        (
            r#"{"demands":[{"vlan":4095,"dst":"10.0.0.0/8"}]}"#,
            DemandFault::BadVlan(0),
        ),
        (
            r#"{"demands":[{"through":1}]}"#,
            DemandFault::Shape(Field::Dst, 0),
        ),
        (
            r#"{"demands":[{"dst":"10.0.0.1/8"}]}"#,
            DemandFault::BadPrefix(0),
        ),
        (
            r#"{"demands":[{"dst":"10.0.0.0/8","through":"a"}]}"#,
            DemandFault::Shape(Field::Through, 0),
        ),
        (
            r#"{"demands":[{"dst":"10.0.0.0/8","through":["a",1]}]}"#,
            DemandFault::Shape(Field::Through, 0),
        ),
        (
            r#"{"demands":[{"dst":"10.0.0.0/8","through":["d"]}]}"#,
            DemandFault::UnknownSwitch(0),
        ),
        (
            r#"{"demands":[{"dst":"10.0.0.0/8","through":["d","a","a","a","a","a","a","a","a","a","a","a","a","a","a","a","a"]}]}"#,
            DemandFault::TooMany(Field::Through, 0),
        ),
        (
            r#"{"demands":[{"dst":"10.0.0.0/8"},{"dst":"10.0.0.0/8","deliver":1}]}"#,
            DemandFault::Shape(Field::Deliver, 1),
        ),
    ] {
        refuses(&rt, rt.alloc(), text, want);
    }
}

/// The same network, wide.
const WIDE: &str =
    r#"{"format":2,"switches":[{"name":"a","capacity":10},{"name":"b","capacity":10},{"name":"c","capacity":10}],"links":[["a:2","b:2"],["b:3","c:2"]],"hosts":["a:1","c:1"],"vlans":["untagged",10],"tags":[]}"#;

fn wide_net(rt: &impl Abort, alloc: Global) -> Net {
    read_net(alloc, WIDE.as_bytes()).expect(rt, "a wide network")
}

/// In a wide network `from` may be a list, whose references are checked in turn. Lists in `through`, and the members `to` and `deny`,
/// aren't there yet.
#[test]
fn a_wide_network_refuses_the_first_damaged_member(rt: HostRuntime) {
    let net = wide_net(&rt, rt.alloc());
    for (text, want) in [
        (
            r#"{"demands":[{"from":[],"dst":"10.0.0.0/8"}]}"#,
            DemandFault::Shape(Field::From, 0),
        ),
        (
            r#"{"demands":[{"from":1,"dst":"10.0.0.0/8"}]}"#,
            DemandFault::Shape(Field::From, 0),
        ),
        (
            r#"{"demands":[{"from":"a","dst":"10.0.0.0/8"}]}"#,
            DemandFault::Shape(Field::From, 0),
        ),
        (
            r#"{"demands":[{"from":["a:1",1],"dst":"10.0.0.0/8"}]}"#,
            DemandFault::Shape(Field::From, 0),
        ),
        (
            r#"{"demands":[{"from":["any"],"dst":"10.0.0.0/8"}]}"#,
            DemandFault::Shape(Field::From, 0),
        ),
        (
            r#"{"demands":[{"from":["a:1","d:1",1],"dst":"10.0.0.0/8"}]}"#,
            DemandFault::UnknownSwitch(0),
        ),
        (
            r#"{"demands":[{"from":["a:1","a:2","d:1"],"dst":"10.0.0.0/8"}]}"#,
            DemandFault::NotHost(0),
        ),
        (
            r#"{"demands":[{"from":["a:1","c:1"],"vlan":0,"dst":"10.0.0.0/8"}]}"#,
            DemandFault::BadVlan(0),
        ),
        (
            r#"{"demands":[{"dst":"10.0.0.0/8","through":[["a"]]}]}"#,
            DemandFault::Shape(Field::Through, 0),
        ),
        (
            r#"{"demands":[{"dst":"10.0.0.0/8","to":[],"deliver":1}]}"#,
            DemandFault::Shape(Field::Deliver, 0),
        ),
        (
            r#"{"demands":[{"dst":"10.0.0.0/8"},{"dst":"10.0.0.0/8","deny":false,"to":["a:1"]}]}"#,
            DemandFault::Shape(Field::To, 1),
        ),
        (
            r#"{"demands":[{"dst":"10.0.0.0/8","deny":false}]}"#,
            DemandFault::Shape(Field::Deny, 0),
        ),
    ] {
        let fault = read_demands(rt.alloc(), &net, text.as_bytes()).err();
        assert_eq!(rt; fault, Some(want), "in {text}");
    }
}

/// A policy whose one demand names one port so many times.
fn policy_with_list(rt: &impl Abort, alloc: Global, count: usize) -> String {
    let mut text = String::new(alloc);
    text.push_str(r#"{"demands":[{"dst":"10.0.0.0/8","from":["c:1""#)
        .expect(rt, "memory");
    for _ in 1..count {
        text.push_str(r#","c:1""#).expect(rt, "memory");
    }
    text.push_str("]}]}").expect(rt, "memory");
    text
}

/// A port may stand in a list more than once.
#[test]
fn a_list_has_at_most_1024_ports(rt: HostRuntime) {
    let net = wide_net(&rt, rt.alloc());
    for (count, want) in [
        (1024, None),
        (1025, Some(DemandFault::TooMany(Field::From, 0))),
    ] {
        let text = policy_with_list(&rt, rt.alloc(), count);
        let fault = read_demands(rt.alloc(), &net, text.as_bytes()).err();
        assert_eq!(rt; fault, want, "with {count}");
    }
}

#[test]
fn a_narrow_network_has_no_lists_and_passes_over_what_it_does_not_name(rt: HostRuntime) {
    refuses(
        &rt,
        rt.alloc(),
        r#"{"demands":[{"from":["a:1"],"dst":"10.0.0.0/8"}]}"#,
        DemandFault::Shape(Field::From, 0),
    );
    let net = net_of(&rt, rt.alloc());
    let text = r#"{"demands":[{"dst":"10.0.0.0/8","to":1,"deny":true}]}"#;
    let demands = read_demands(rt.alloc(), &net, text.as_bytes()).expect(&rt, "demands");
    assert!(rt; demands.count() == 1);
}

/// A wide network with six host ports.
const PORTS: &str =
    r#"{"format":2,"switches":[{"name":"a","capacity":10},{"name":"b","capacity":10}],"links":[],"hosts":["a:1","a:2","a:3","b:1","b:2","b:3"],"vlans":["untagged"],"tags":[]}"#;

/// A demand covers what enters at any of the ports in its list, and at no other.
#[test]
fn a_list_covers_what_enters_at_its_ports(rt: HostRuntime) {
    let net = read_net(rt.alloc(), PORTS.as_bytes()).expect(&rt, "a wide network");
    for (text, want) in [
        (
            r#"{"demands":[{"from":["a:3"],"dst":"0.0.0.0/0","deliver":true}]}"#,
            [false, false, true, false, false, false],
        ),
        (
            r#"{"demands":[{"from":["b:2","a:1","b:2"],"dst":"0.0.0.0/0","deliver":true}]}"#,
            [true, false, false, false, true, false],
        ),
        (
            r#"{"demands":[{"from":"a:2","dst":"0.0.0.0/0","deliver":true}]}"#,
            [false, true, false, false, false, false],
        ),
        (
            r#"{"demands":[{"from":"any","dst":"0.0.0.0/0","deliver":true}]}"#,
            [true, true, true, true, true, true],
        ),
    ] {
        let demands = read_demands(rt.alloc(), &net, text.as_bytes()).expect(&rt, "demands");
        let prefixes = demands.prefixes().expect(&rt, "prefixes");
        let classes = class_map(rt.alloc(), &net, &prefixes).expect(&rt, "classes");
        let duties = Duties::make(rt.alloc(), &net, &demands, &classes).expect(&rt, "duties");
        for class in 0..6 {
            assert!(rt; class < classes.count());
            let covered = want[class as usize];
            assert!(rt;
                demands.cover(classes.class(class)) == covered,
                "at {class} in {text}"
            );
            assert!(rt;
                duties.must_arrive(class) == covered,
                "at {class} in {text}"
            );
        }
    }
}

const POLICY: &str =
    r#"{"demands":[{"dst":"10.0.0.0/8","through":["b","a","b"]},{"from":"a:1","vlan":"untagged","dst":"10.0.0.0/8","through":["b"],"deliver":true},{"from":"any","vlan":"any","dst":"0.0.0.0/0","through":["b","a"]},{"from":"c:1","dst":"10.0.0.0/8","through":[]}]}"#;

fn policy(rt: &impl Abort, alloc: Global, net: &Net) -> Demands {
    read_demands(alloc, net, POLICY.as_bytes()).expect(rt, "demands")
}

/// A repeated name counts once, equal chains stand once, empty ones are left out, and a chain comes before one that goes
/// on from it.
#[test]
fn classes_have_the_duties_of_the_demands_that_cover_them(rt: HostRuntime) {
    let net = net_of(&rt, rt.alloc());
    let demands = policy(&rt, rt.alloc(), &net);
    assert!(rt; demands.count() == 4);
    let prefixes = demands.prefixes().expect(&rt, "prefixes");
    let classes = class_map(rt.alloc(), &net, &prefixes).expect(&rt, "classes");
    assert!(rt; classes.count() == 12);
    let duties = Duties::make(rt.alloc(), &net, &demands, &classes).expect(&rt, "duties");
    for (class, chains, arrive) in [(0, 1, false), (1, 2, true), (4, 1, false), (7, 1, false)] {
        assert!(rt; class < classes.count());
        assert!(rt; duties.chains(class) == chains, "at {class}");
        assert!(rt; duties.must_arrive(class) == arrive, "at {class}");
    }
    for (class, shared) in [(0, true), (1, false), (2, true), (6, true)] {
        assert!(rt; class < classes.count());
        assert!(rt; duties.are_shared(0, class) == shared, "at {class}");
    }
}

#[test]
fn no_demands_ask_nothing(rt: HostRuntime) {
    let demands = no_demands(rt.alloc()).expect(&rt, "demands");
    assert!(rt; demands.count() == 0);
    let copy = demands.copy().expect(&rt, "a copy");
    assert!(rt; copy.count() == 0);
}
