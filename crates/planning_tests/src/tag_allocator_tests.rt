//! The tags of declared VLANs, and too few of them.
use std::process::Abort;
use tag_allocator::{TagFault, allot};
use topology::Net;
use topology_files::read_net;

fn net_with(rt: &(impl Abort + AllocGlobal), vlans_and_tags: &str) -> Net {
    let before = "{\"switches\":[],\"links\":[],\"hosts\":[],";
    let text = format!(in rt.alloc(); "{before}{vlans_and_tags}").expect(rt, "a text");
    read_net(rt.alloc(), text.as_bytes()).expect(rt, "a network")
}

#[test]
fn gives_the_first_available_tags(rt: HostRuntime) {
    let net = net_with(&rt, "\"vlans\":[3001,\"untagged\",7],\"tags\":[3000,3009]}");
    assert!(rt; net.vlans().len() == 3);
    let tags = allot(rt.alloc(), &net).expect(&rt, "tags");
    for (vlan, tag) in [(0, 3000), (1, 3002), (2, 3003)] {
        assert!(rt; tags.tag(vlan) == tag, "{tag}");
    }
}

fn has_too_few(rt: &(impl Abort + AllocGlobal), vlans_and_tags: &str, need: u32, has: u32) {
    let net = net_with(rt, vlans_and_tags);
    let fault = allot(rt.alloc(), &net).err();
    assert!(rt;
        fault == Some(TagFault::TooFew { need, has }),
        "{vlans_and_tags}"
    );
}

#[test]
fn says_how_many_tags_are_wanting(rt: HostRuntime) {
    for (vlans_and_tags, need, has) in [
        ("\"vlans\":[\"untagged\",10],\"tags\":[3000,3000]}", 2, 1),
        ("\"vlans\":[\"untagged\"],\"tags\":[]}", 1, 0),
        ("\"vlans\":[3000,3001],\"tags\":[3000,3002]}", 2, 1),
    ] {
        has_too_few(&rt, vlans_and_tags, need, has);
    }
}
