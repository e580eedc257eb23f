//! Configurations that are read, and each refusal.
use config_files::{ConfigFault, read_config};
use flow_rules::{Action, Config, Key, Pattern, Rewrite, Rule, VlanTest};
use net_base::{Field, Port, SwitchId, read_prefix};
use std::alloc::Global;
use std::process::Abort;
use topology::Net;
use topology_files::read_net;

const NETWORK: &str =
    "{\"switches\":[{\"name\":\"a\",\"capacity\":2048},{\"name\":\"b\",\"capacity\":1}],\"links\":[],\
\"hosts\":[\"a:1\",\"a:2\",\"b:1\"],\"vlans\":[\"untagged\",3001],\"tags\":[3000,3009]}";

/// 100 10.0.0.0/24 -> 2 at a.
const FIRST: &str = "{\"switch\":\"a\",\"priority\":100,\"dst\":\"10.0.0.0/24\",\"out\":2}";

/// The same at b, with port 1.
const OTHER: &str = "{\"switch\":\"b\",\"priority\":100,\"dst\":\"10.0.0.0/24\",\"out\":1}";

/// 200 port 1 VLAN 3001 10.0.0.0/8 -> drop at a.
const DROP: &str =
    "{\"switch\":\"a\",\"priority\":200,\"in_port\":1,\"vlan\":3001,\"dst\":\"10.0.0.0/8\",\"out\":\"drop\"}";

fn network(rt: &impl Abort, alloc: Global) -> Net {
    read_net(alloc, NETWORK.as_bytes()).expect(rt, "a network")
}

fn add(rt: &impl Abort, text: &mut String, part: &str) {
    text.push_str(part).expect(rt, "room");
}

/// A file of these rules.
fn file_of(rt: &impl Abort, alloc: Global, rules: &[&str]) -> String {
    let mut text = String::new(alloc);
    let mut before = "{\"rules\":[";
    for rule in rules {
        add(rt, &mut text, before);
        add(rt, &mut text, *rule);
        before = ",";
    }
    add(rt, &mut text, "]}");
    text
}

fn has_fault(rt: &impl Abort, alloc: Global, text: &str, want: Option<ConfigFault>) {
    let net = network(rt, alloc);
    let fault = read_config(alloc, &net, text.as_bytes()).err();
    assert_eq!(rt; fault, want, "at {text}");
}

fn rules_have_fault(rt: &impl Abort, alloc: Global, rules: &[&str], want: Option<ConfigFault>) {
    let text = file_of(rt, alloc, rules);
    has_fault(rt, alloc, text.as_str(), want);
}

fn config_of(rt: &impl Abort, alloc: Global, rules: &[&str]) -> Config {
    let text = file_of(rt, alloc, rules);
    let net = network(rt, alloc);
    read_config(alloc, &net, text.as_bytes()).expect(rt, "a configuration")
}

fn first(rt: &impl Abort) -> Rule {
    Rule {
        key: Key {
            priority: 100,
            pattern: Pattern {
                in_port: None,
                vlan: VlanTest::Any,
                dst: read_prefix("10.0.0.0/24").expect(rt, "a prefix"),
            },
        },
        action: Action::Out(Port(2), Rewrite::Keep),
    }
}

fn drop(rt: &impl Abort) -> Rule {
    Rule {
        key: Key {
            priority: 200,
            pattern: Pattern {
                in_port: Some(Port(1)),
                vlan: VlanTest::Id(3001),
                dst: read_prefix("10.0.0.0/8").expect(rt, "a prefix"),
            },
        },
        action: Action::Discard,
    }
}

#[test]
fn keeps_the_order_of_the_file(rt: HostRuntime) {
    let config = config_of(&rt, rt.alloc(), &[FIRST, OTHER, DROP]);
    assert!(rt; config.count() == 2);
    let want = [first(&rt), drop(&rt)];
    assert!(rt; config.table(SwitchId(0)).rules() == want.as_slice());
    assert!(rt; config.table(SwitchId(1)).rules().len() == 1);
}

#[test]
fn names_the_first_fault_of_a_rule(rt: HostRuntime) {
    for (rule, want) in [
        ("5", ConfigFault::Shape(Field::Rules, 1)),
        ("{\"priority\":1}", ConfigFault::Shape(Field::Switch, 1)),
        ("{\"switch\":\"c\"}", ConfigFault::UnknownSwitch(1)),
        (
            "{\"switch\":\"a\",\"priority\":\"1\"}",
            ConfigFault::Shape(Field::Priority, 1),
        ),
        (
            "{\"switch\":\"a\",\"priority\":0}",
            ConfigFault::BadPriority(1),
        ),
        (
            "{\"switch\":\"a\",\"priority\":16384}",
            ConfigFault::BadPriority(1),
        ),
        (
            "{\"switch\":\"a\",\"priority\":16383,\"in_port\":\"all\"}",
            ConfigFault::Shape(Field::InPort, 1),
        ),
        (
            "{\"switch\":\"a\",\"priority\":1,\"in_port\":3}",
            ConfigFault::BadPort(1),
        ),
        (
            "{\"switch\":\"a\",\"priority\":1,\"in_port\":65537}",
            ConfigFault::BadPort(1),
        ),
        (
            "{\"switch\":\"a\",\"priority\":1,\"vlan\":\"none\"}",
            ConfigFault::Shape(Field::Vlan, 1),
        ),
        (
            "{\"switch\":\"a\",\"priority\":1,\"vlan\":0}",
            ConfigFault::BadVlan(1),
        ),
        (
            "{\"switch\":\"a\",\"priority\":1,\"vlan\":4095}",
            ConfigFault::BadVlan(1),
        ),
        (
            "{\"switch\":\"a\",\"priority\":1,\"vlan\":3000}",
            ConfigFault::ReservedVlan(1),
        ),
        (
            "{\"switch\":\"a\",\"priority\":1,\"vlan\":4094,\"dst\":7}",
            ConfigFault::Shape(Field::Dst, 1),
        ),
        (
            "{\"switch\":\"a\",\"priority\":1,\"vlan\":\"untagged\",\"dst\":\"10.0.0.1/24\"}",
            ConfigFault::BadPrefix(1),
        ),
        (
            "{\"switch\":\"a\",\"priority\":1,\"dst\":\"10.0.0.0/24\"}",
            ConfigFault::Shape(Field::Out, 1),
        ),
        (
            "{\"switch\":\"a\",\"priority\":1,\"dst\":\"10.0.0.0/24\",\"out\":\"any\"}",
            ConfigFault::Shape(Field::Out, 1),
        ),
        (
            "{\"switch\":\"b\",\"priority\":1,\"dst\":\"10.0.0.0/24\",\"out\":2}",
            ConfigFault::BadPort(1),
        ),
        (FIRST, ConfigFault::KeyTwice(1)),
        (
            "{\"switch\":\"a\",\"priority\":100,\"in_port\":1,\"vlan\":\"untagged\",\"dst\":\"10.0.0.0/8\",\"out\":\"drop\"}",
            ConfigFault::Overlap(1),
        ),
    ] {
        rules_have_fault(&rt, rt.alloc(), &[FIRST, rule], Some(want));
    }
}

#[test]
fn names_the_first_fault_of_a_file(rt: HostRuntime) {
    for (text, want) in [
        ("", ConfigFault::NotJson),
        ("[]", ConfigFault::Shape(Field::Top, 0)),
        ("{\"rules\":{}}", ConfigFault::Shape(Field::Rules, 0)),
    ] {
        has_fault(&rt, rt.alloc(), text, Some(want));
    }
}

#[test]
fn names_the_switch_with_too_many_rules(rt: HostRuntime) {
    rules_have_fault(&rt, rt.alloc(), &[DROP, OTHER, FIRST], None);
    let second = "{\"switch\":\"b\",\"priority\":101,\"dst\":\"10.0.0.0/24\",\"out\":1}";
    let full = ConfigFault::OverCapacity(SwitchId(1));
    rules_have_fault(&rt, rt.alloc(), &[OTHER, second], Some(full));
}

/// A rule of this priority at a, as it stands in a file.
fn add_rule(rt: &impl Abort, alloc: Global, text: &mut String, priority: u32) {
    let rule = format!(in alloc;
        "{{\"switch\":\"a\",\"priority\":{priority},\"dst\":\"10.0.0.0/24\",\"out\":2}}"
    );
    add(rt, text, rule.expect(rt, "a rule").as_str());
}

/// A file of so many rules.
fn file_of_many(rt: &impl Abort, alloc: Global, count: u32) -> String {
    let mut text = String::new(alloc);
    add(rt, &mut text, "{\"rules\":[");
    for priority in 1..count {
        add_rule(rt, alloc, &mut text, priority);
        add(rt, &mut text, ",");
    }
    add_rule(rt, alloc, &mut text, 9999);
    add(rt, &mut text, "]}");
    text
}

#[test]
fn reads_2048_rules_and_no_more(rt: HostRuntime) {
    let text = file_of_many(&rt, rt.alloc(), 2048);
    has_fault(&rt, rt.alloc(), text.as_str(), None);
    let text = file_of_many(&rt, rt.alloc(), 2049);
    has_fault(
        &rt,
        rt.alloc(),
        text.as_str(),
        Some(ConfigFault::TooMany(2048)),
    );
}
