//! How many ports of a switch links may use, and how long a name may be.
use net_base::Field;
use std::alloc::Global;
use std::process::Abort;
use topology_files::{NetFault, read_net};

/// Why this text isn't read.
fn fault_of(alloc: Global, text: &str) -> Option<NetFault> {
    read_net(alloc, text.as_bytes()).err()
}

/// A topology of the switches a and b, which so many links join by the ports from 1 on.
fn joined(rt: &impl Abort, alloc: Global, count: u32) -> String {
    let mut text = String::new(alloc);
    let mut front =
        "{\"switches\":[{\"name\":\"a\",\"capacity\":1},{\"name\":\"b\",\"capacity\":1}],\"links\":[";
    for port in 1..=count {
        let link = format!(in alloc; "{front}[\"a:{port}\",\"b:{port}\"]");
        text.push_str(&link.expect(rt, "memory"))
            .expect(rt, "memory");
        front = ",";
    }
    text.push_str("],\"hosts\":0}").expect(rt, "memory");
    text
}

#[test]
fn links_use_at_most_64_ports_of_a_switch(rt: HostRuntime) {
    let alloc = rt.alloc();
    for (count, fault) in [
        (64, NetFault::Shape(Field::Hosts, 0)),
        (65, NetFault::TooMany(Field::Links, 64)),
    ] {
        let text = joined(&rt, alloc, count);
        assert_eq!(rt; fault_of(alloc, &text), Some(fault), "{count}");
    }
}

#[test]
fn a_name_has_at_most_32_letters(rt: HostRuntime) {
    let alloc = rt.alloc();
    for (name, fault) in [
        (
            "abcdefghijklmnopqrstuvwxyz-_0123",
            NetFault::Shape(Field::Capacity, 0),
        ),
        ("abcdefghijklmnopqrstuvwxyz-_01234", NetFault::BadName(0)),
    ] {
        let text = format!(in alloc; "{{\"switches\":[{{\"name\":\"{name}\"}}]}}");
        let text = text.expect(&rt, "memory");
        assert_eq!(rt; fault_of(alloc, &text), Some(fault), "{name}");
    }
}
