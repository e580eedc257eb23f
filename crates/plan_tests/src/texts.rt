//! Texts that repeat, and a network of two switches.
use std::alloc::Global;
use std::process::Abort;
use topology::Net;
use topology_files::read_net;

/// Port 1 of each of two switches is a host port; their ports 2 are linked.
const PAIR: &str =
    r#"{"switches":[{"name":"a","capacity":10},{"name":"b","capacity":10}],"links":[["a:2","b:2"]],"hosts":["a:1","b:1"],"vlans":["untagged"],"tags":[3000,3000]}"#;

/// The network of two switches.
pub(crate) fn pair(rt: &impl Abort, alloc: Global) -> Net {
    read_net(alloc, PAIR.as_bytes())
        .ok()
        .expect(rt, "a network")
}

/// So many times the item, with a comma between each two.
pub(crate) fn repeated(rt: &impl Abort, alloc: Global, item: &str, count: u32) -> String {
    let mut text = String::new(alloc);
    for i in 0..count {
        let comma = if i == 0 { "" } else { "," };
        text.push_str(comma).expect(rt, "memory");
        text.push_str(item).expect(rt, "memory");
    }
    text
}
