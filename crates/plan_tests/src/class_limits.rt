//! How many classes there may be.
use dest_classes::{ClassFault, class_map};
use net_base::{Prefix, read_prefix};
use std::alloc::Global;
use std::process::Abort;
use topology::Net;
use topology_files::read_net;

/// A network of so many host ports, 64 at each switch but the last, and one VLAN.
fn network(rt: &impl Abort, alloc: Global, hosts: u32) -> Net {
    let mut switches = String::new(alloc);
    let mut ports = String::new(alloc);
    for host in 0..hosts {
        let (switch, port) = (host / 64, host % 64 + 1);
        let comma = if host == 0 { "" } else { "," };
        let text = format!(in alloc; "{comma}\"s{switch}:{port}\"").expect(rt, "memory");
        ports.push_str(&text).expect(rt, "memory");
        if port == 1 {
            let text = format!(in alloc; "{comma}{{\"name\":\"s{switch}\",\"capacity\":1}}");
            switches
                .push_str(&text.expect(rt, "memory"))
                .expect(rt, "memory");
        }
    }
    let text = format!(in alloc;
        "{{\"switches\":[{switches}],\"links\":[],\"hosts\":[{ports}],\"vlans\":[\"untagged\"],\"tags\":[]}}"
    );
    let net = read_net(alloc, text.expect(rt, "memory").as_bytes());
    net.ok().expect(rt, "a network")
}

/// How many classes there are for one prefix, or why there is no map of them.
fn counted(rt: &impl Abort, alloc: Global, hosts: u32, prefix: Prefix) -> Result<u32, ClassFault> {
    let net = network(rt, alloc, hosts);
    Ok(class_map(alloc, &net, &[prefix])?.count())
}

#[test]
fn there_are_at_most_8192_classes(rt: HostRuntime) {
    let alloc = rt.alloc();
    // The first prefix ends with the addresses, so it makes two ranges; the second makes three.
    for (hosts, prefix, want) in [
        (4096, "128.0.0.0/1", Ok(8192)),
        (2731, "10.0.0.0/24", Err(ClassFault::TooManyClasses(8193))),
        (2730, "10.0.0.0/24", Ok(8190)),
    ] {
        let prefix = read_prefix(prefix).ok().expect(&rt, "a prefix");
        assert_eq!(rt; counted(&rt, alloc, hosts, prefix), want, "{hosts}");
    }
}
