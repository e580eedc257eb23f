//! Topologies that are read, and each refusal.
use net_base::{Field, Place, Port, Stop, SwitchId, Vlan};
use std::alloc::Global;
use std::process::Abort;
use topology::{End, Net, reference_parts};
use topology_files::{NetFault, read_net};

/// The square: four switches in a ring with one chord, and a host at each.
const SWITCHES: &str =
    "{\"switches\":[{\"name\":\"s1\",\"capacity\":8},{\"name\":\"s2\",\"capacity\":8},\
{\"name\":\"s3\",\"capacity\":8},{\"name\":\"s4\",\"capacity\":8}],";

const LINKS: &str =
    "\"links\":[[\"s1:2\",\"s2:1\"],[\"s2:2\",\"s3:1\"],[\"s3:2\",\"s4:1\"],[\"s1:3\",\"s3:3\"],\
[\"s1:4\",\"s4:2\"]],";

const HOSTS: &str = "\"hosts\":[\"s1:1\",\"s2:3\",\"s3:4\",\"s4:3\"],";

const VLANS: &str = "\"vlans\":[\"untagged\",3001],";

const TAGS: &str = "\"tags\":[3000,3009]}";

fn joined(rt: &impl Abort, alloc: Global, parts: &[&str]) -> String {
    let mut text = String::new(alloc);
    for part in parts {
        text.push_str(*part).expect(rt, "room");
    }
    text
}

fn refuses(rt: &impl Abort, alloc: Global, text: &str, fault: NetFault) {
    let found = read_net(alloc, text.as_bytes()).err();
    assert_eq!(rt; found, Some(fault), "{text}");
}

fn refuses_parts(rt: &impl Abort, alloc: Global, parts: &[&str], fault: NetFault) {
    let text = joined(rt, alloc, parts);
    refuses(rt, alloc, text.as_str(), fault);
}

fn stop(switch: u32, port: u16) -> Stop {
    Stop {
        switch: SwitchId(switch),
        port: Port(port),
    }
}

fn square(rt: &impl Abort, alloc: Global) -> Net {
    let text = joined(rt, alloc, &[SWITCHES, LINKS, HOSTS, VLANS, TAGS]);
    read_net(alloc, text.as_bytes()).expect(rt, "a network")
}

#[test]
fn tells_switches_by_name(rt: HostRuntime) {
    let net = square(&rt, rt.alloc());
    assert!(rt; net.switches() == 4);
    assert!(rt; net.find("s5").is_none());
    let found = net.find("s3").expect(&rt, "s3");
    assert!(rt; found == SwitchId(2));
    assert!(rt; net.name(found) == "s3");
    assert!(rt; net.capacity(found) == 8);
}

fn has_end(rt: &impl Abort, net: &Net, at: Stop, end: End) {
    assert_eq!(rt; net.end(at.switch, at.port), end);
    assert!(rt; net.is_used(at.switch, at.port) == (end != End::Nothing));
    assert!(rt; net.is_host(at) == (end == End::Host));
}

#[test]
fn tells_what_is_at_a_port(rt: HostRuntime) {
    let net = square(&rt, rt.alloc());
    for (at, end) in [
        (stop(0, 1), End::Host),
        (stop(2, 4), End::Host),
        (stop(0, 4), End::Link(SwitchId(3), Port(2))),
        (stop(3, 2), End::Link(SwitchId(0), Port(4))),
        (stop(3, 4), End::Nothing),
    ] {
        has_end(&rt, &net, at, end);
    }
}

/// Ports whose numbers have the same last six bits, so that they share a slot.
#[test]
fn tells_ports_apart_that_share_a_slot(rt: HostRuntime) {
    let text = "{\"switches\":[{\"name\":\"a\",\"capacity\":8},{\"name\":\"b\",\"capacity\":8}],\
\"links\":[[\"a:2\",\"b:1\"],[\"a:66\",\"b:65279\"]],\"hosts\":[\"a:130\",\"b:63\"],\"vlans\":[\"untagged\"],\"tags\":[3000,3000]}";
    let net = read_net(rt.alloc(), text.as_bytes()).expect(&rt, "a network");
    for (at, end) in [
        (stop(0, 2), End::Link(SwitchId(1), Port(1))),
        (stop(0, 66), End::Link(SwitchId(1), Port(65279))),
        (stop(0, 130), End::Host),
        (stop(0, 194), End::Nothing),
        (stop(1, 63), End::Host),
        (stop(1, 65279), End::Link(SwitchId(0), Port(66))),
    ] {
        has_end(&rt, &net, at, end);
    }
}

#[test]
fn tells_tags(rt: HostRuntime) {
    let net = square(&rt, rt.alloc());
    for (id, tag) in [
        (2999, false),
        (3000, true),
        (3001, false),
        (3009, true),
        (3010, false),
    ] {
        assert!(rt; net.is_tag(id) == tag, "{id}");
    }
}

fn is_entry(net: &Net, at: Stop, vlan: Vlan) -> bool {
    net.is_entry(Place {
        switch: at.switch,
        port: at.port,
        vlan,
    })
}

#[test]
fn tells_entries(rt: HostRuntime) {
    let net = square(&rt, rt.alloc());
    assert!(rt; net.hosts().len() == 4);
    assert!(rt; net.vlans() == [Vlan::Untagged, Vlan::Id(3001)].as_slice());
    assert!(rt; is_entry(&net, stop(0, 1), Vlan::Id(3001)));
    assert!(rt; !is_entry(&net, stop(0, 1), Vlan::Id(3000)));
    assert!(rt; !is_entry(&net, stop(0, 2), Vlan::Untagged));
}

#[test]
fn reads_the_empty_network(rt: HostRuntime) {
    let text = "{\"switches\":[],\"links\":[],\"hosts\":[],\"vlans\":[],\"tags\":[]}";
    let net = read_net(rt.alloc(), text.as_bytes()).expect(&rt, "a network");
    assert!(rt; net.switches() == 0);
}

#[test]
fn refuses_switches(rt: HostRuntime) {
    for (text, fault) in [
        ("[", NetFault::NotJson),
        ("[]", NetFault::Shape(Field::Top, 0)),
        ("{}", NetFault::Shape(Field::Switches, 0)),
        ("{\"switches\":{}}", NetFault::Shape(Field::Switches, 0)),
        ("{\"switches\":[7]}", NetFault::Shape(Field::Switches, 0)),
        (
            "{\"switches\":[{\"name\":\"a\",\"capacity\":1},{\"name\":1}]}",
            NetFault::Shape(Field::Name, 1),
        ),
        ("{\"switches\":[{\"name\":\"\"}]}", NetFault::BadName(0)),
        ("{\"switches\":[{\"name\":\"a b\"}]}", NetFault::BadName(0)),
        (
            "{\"switches\":[{\"name\":\"abcdefghijklmnopqrstuvwxyz-_01234\"}]}",
            NetFault::BadName(0),
        ),
        (
            "{\"switches\":[{\"name\":\"a\",\"capacity\":1},{\"name\":\"a\"}]}",
            NetFault::DoubleName(1),
        ),
        (
            "{\"switches\":[{\"name\":\"a\",\"capacity\":1.0}]}",
            NetFault::Shape(Field::Capacity, 0),
        ),
        (
            "{\"switches\":[{\"name\":\"a\",\"capacity\":0}]}",
            NetFault::BadCapacity(0),
        ),
        (
            "{\"switches\":[{\"name\":\"a\",\"capacity\":8193}]}",
            NetFault::BadCapacity(0),
        ),
        (
            "{\"switches\":[{\"name\":\"a\",\"capacity\":8192}]}",
            NetFault::Shape(Field::Links, 0),
        ),
    ] {
        refuses(&rt, rt.alloc(), text, fault);
    }
}

#[test]
fn refuses_ports(rt: HostRuntime) {
    for (rest, fault) in [
        ("\"links\":3}", NetFault::Shape(Field::Links, 0)),
        ("\"links\":[[\"s1:2\"]]}", NetFault::Shape(Field::Links, 0)),
        (
            "\"links\":[[\"s1:2\",\"s2:1\"],[\"s1:03\",\"s2:2\"]]}",
            NetFault::Shape(Field::Links, 1),
        ),
        (
            "\"links\":[[\"s12\",\"s2:1\"]]}",
            NetFault::Shape(Field::Links, 0),
        ),
        (
            "\"links\":[[\"s1:100000\",\"s2:1\"]]}",
            NetFault::Shape(Field::Links, 0),
        ),
        (
            "\"links\":[[\"s1:2\",\"s5:1\"]]}",
            NetFault::UnknownSwitch(0),
        ),
        ("\"links\":[[\"s1:0\",\"s2:1\"]]}", NetFault::BadPort(0)),
        ("\"links\":[[\"s1:65280\",\"s2:1\"]]}", NetFault::BadPort(0)),
        ("\"links\":[[\"s1:2\",\"s1:2\"]]}", NetFault::PortTwice(0)),
        (
            "\"links\":[[\"s1:2\",\"s2:1\"],[\"s3:1\",\"s2:1\"]]}",
            NetFault::PortTwice(1),
        ),
        (
            "\"links\":[],\"hosts\":0}",
            NetFault::Shape(Field::Hosts, 0),
        ),
        (
            "\"links\":[],\"hosts\":[\"s1:1\",1]}",
            NetFault::Shape(Field::Hosts, 1),
        ),
        (
            "\"links\":[],\"hosts\":[\"s1:1\",\"s1:1\"]}",
            NetFault::PortTwice(1),
        ),
        (
            "\"links\":[[\"s1:65279\",\"s1:1\"]],\"hosts\":[\"s1:1\"]}",
            NetFault::PortTwice(0),
        ),
        (
            "\"links\":[],\"hosts\":[]}",
            NetFault::Shape(Field::Vlans, 0),
        ),
    ] {
        refuses_parts(&rt, rt.alloc(), &[SWITCHES, rest], fault);
    }
}

#[test]
fn refuses_vlans_and_tags(rt: HostRuntime) {
    for (rest, fault) in [
        ("\"vlans\":[\"any\"]}", NetFault::Shape(Field::Vlans, 0)),
        ("\"vlans\":[1,-1]}", NetFault::Shape(Field::Vlans, 1)),
        ("\"vlans\":[4094,4095]}", NetFault::BadVlan(1)),
        ("\"vlans\":[0]}", NetFault::BadVlan(0)),
        (
            "\"vlans\":[\"untagged\",\"untagged\"]}",
            NetFault::VlanTwice(1),
        ),
        ("\"vlans\":[7,\"untagged\",7]}", NetFault::VlanTwice(2)),
        ("\"vlans\":[]}", NetFault::Shape(Field::Tags, 0)),
        (
            "\"vlans\":[],\"tags\":[1]}",
            NetFault::Shape(Field::Tags, 0),
        ),
        (
            "\"vlans\":[],\"tags\":[5000,\"x\"]}",
            NetFault::Shape(Field::Tags, 0),
        ),
        ("\"vlans\":[],\"tags\":[0,1]}", NetFault::BadTags),
        ("\"vlans\":[],\"tags\":[1,4095]}", NetFault::BadTags),
        ("\"vlans\":[],\"tags\":[10,9]}", NetFault::BadTags),
    ] {
        refuses_parts(&rt, rt.alloc(), &[SWITCHES, LINKS, HOSTS, rest], fault);
    }
}

fn add(rt: &impl Abort, text: &mut String, part: &str) {
    text.push_str(part).expect(rt, "room");
}

/// So many numbers from one on, each between these.
fn add_list(
    rt: &impl Abort,
    alloc: Global,
    text: &mut String,
    open: &str,
    count: u32,
    close: &str,
) {
    let mut before = "[";
    for i in 1..=count {
        let item = format!(in alloc; "{before}{open}{i}{close}").expect(rt, "a text");
        add(rt, text, item.as_str());
        before = ",";
    }
    add(rt, text, "]");
}

#[test]
fn refuses_too_many_switches(rt: HostRuntime) {
    for (count, fault) in [
        (128, NetFault::Shape(Field::Links, 0)),
        (129, NetFault::TooMany(Field::Switches, 128)),
    ] {
        let mut text = joined(&rt, rt.alloc(), &["{\"switches\":"]);
        add_list(
            &rt,
            rt.alloc(),
            &mut text,
            "{\"name\":\"",
            count,
            "\",\"capacity\":1}",
        );
        add(&rt, &mut text, ",\"links\":0}");
        refuses(&rt, rt.alloc(), text.as_str(), fault);
    }
}

#[test]
fn refuses_too_many_hosts(rt: HostRuntime) {
    for (links, count, fault) in [
        ("\"links\":[],", 64, NetFault::Shape(Field::Vlans, 0)),
        ("\"links\":[],", 65, NetFault::TooMany(Field::Hosts, 64)),
        (
            "\"links\":[[\"s2:1\",\"s1:65\"]],",
            64,
            NetFault::TooMany(Field::Hosts, 63),
        ),
    ] {
        let mut text = joined(&rt, rt.alloc(), &[SWITCHES, links, "\"hosts\":"]);
        add_list(&rt, rt.alloc(), &mut text, "\"s1:", count, "\"");
        add(&rt, &mut text, "}");
        refuses(&rt, rt.alloc(), text.as_str(), fault);
    }
}

#[test]
fn refuses_too_many_vlans(rt: HostRuntime) {
    for (count, fault) in [
        (64, NetFault::Shape(Field::Tags, 0)),
        (65, NetFault::TooMany(Field::Vlans, 64)),
    ] {
        let mut text = joined(&rt, rt.alloc(), &[SWITCHES, LINKS, HOSTS, "\"vlans\":"]);
        add_list(&rt, rt.alloc(), &mut text, "", count, "");
        add(&rt, &mut text, ",\"tags\":0}");
        refuses(&rt, rt.alloc(), text.as_str(), fault);
    }
}

fn is_told(rt: &impl Abort, alloc: Global, fault: NetFault, name: &str, number: u32, place: u32) {
    let text = format!(in alloc; "{fault}").expect(rt, "a text");
    assert!(rt; text.as_str() == name, "{name}");
    assert!(rt; fault.name() == name, "{name}");
    assert!(rt; fault.number() == number, "{name}");
    assert!(rt; fault.place() == place, "{name}");
}

#[test]
fn prints_each_fault(rt: HostRuntime) {
    for (fault, name, number, place) in [
        (NetFault::NotJson, "NotJson", 1, 0),
        (NetFault::Shape(Field::Name, 5), "Shape", 2, 5),
        (NetFault::BadName(5), "BadName", 3, 5),
        (NetFault::DoubleName(5), "DoubleName", 4, 5),
        (NetFault::UnknownSwitch(5), "UnknownSwitch", 5, 5),
        (NetFault::BadPort(5), "BadPort", 6, 5),
        (NetFault::PortTwice(5), "PortTwice", 7, 5),
        (NetFault::BadVlan(5), "BadVlan", 8, 5),
        (NetFault::VlanTwice(5), "VlanTwice", 9, 5),
        (NetFault::BadTags, "BadTags", 10, 0),
        (NetFault::BadCapacity(5), "BadCapacity", 11, 5),
        (NetFault::TooMany(Field::Hosts, 5), "TooMany", 12, 5),
        (NetFault::Memory, "Memory", 0, 0),
    ] {
        is_told(&rt, rt.alloc(), fault, name, number, place);
    }
}

#[test]
fn some_faults_name_a_member(rt: HostRuntime) {
    assert!(rt; NetFault::TooMany(Field::Hosts, 5).field() == Some(Field::Hosts));
    assert!(rt; NetFault::BadPort(5).field().is_none());
}

fn has_parts(rt: &impl Abort, text: &str, parts: Option<(&str, u64)>) {
    assert_eq!(rt; reference_parts(text), parts, "{text}");
}

#[test]
fn parts_a_reference_round_its_last_colon(rt: HostRuntime) {
    has_parts(&rt, "a:b:7", Some(("a:b", 7)));
    has_parts(&rt, "a:0", Some(("a", 0)));
    has_parts(&rt, "a:99999", Some(("a", 99999)));
    for text in ["a", "a:", "a:07", "a:100000", "a:+7", "a: 7"] {
        has_parts(&rt, text, None);
    }
}
