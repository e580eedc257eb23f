//! A text as flat lists, beside the tree that `serde_json` makes of it.
use flat_json::parse_tree;
use json::Scratch;
use serde_json::Value;
use std::alloc::Global;
use std::process::Abort;

/// Both readers find a tree, or neither, as is wanted.
fn is_read(rt: &impl Abort, alloc: Global, text: &[u8], want: bool) {
    let mut scratch = Scratch::new(alloc);
    assert!(rt; Value::from_slice(alloc, text).is_ok() == want);
    assert!(rt; parse_tree(alloc, text, &mut scratch).is_ok() == want);
}

#[test]
fn reads_the_texts_that_serde_json_reads(rt: HostRuntime) {
    let alloc = rt.alloc();
    for (text, want) in [
        (
            b" [0, -0, -9223372036854775809, 1.5, 1e308] ".as_slice(),
            true,
        ),
        (b"18446744073709551616".as_slice(), true),
        (b"1e400".as_slice(), false),
        (b"01".as_slice(), false),
        (b"[1,]".as_slice(), false),
        (b"[1] 2".as_slice(), false),
        (b"{\"a\":1,\"a\":{}}".as_slice(), true),
        (b"{\"a\"}".as_slice(), false),
        (b"{1:2}".as_slice(), false),
        (b"\"\\u0041\\n\\\"\"".as_slice(), true),
        (b"\"\\ud800\"".as_slice(), false),
        (b"\"\xff\"".as_slice(), false),
        (b"\xef\xbb\xbf[]".as_slice(), false),
        (b"".as_slice(), false),
    ] {
        is_read(&rt, alloc, text, want);
    }
}

fn nests(rt: &impl Abort, alloc: Global, levels: usize, want: bool) {
    let mut text = vec![in alloc; b'['; levels].expect(rt, "memory");
    let rest = vec![in alloc; b']'; levels].expect(rt, "memory");
    text.extend_from_slice(&rest).expect(rt, "memory");
    is_read(rt, alloc, &text, want);
}

#[test]
fn at_most_127_levels_are_open(rt: HostRuntime) {
    nests(&rt, rt.alloc(), 127, true);
    nests(&rt, rt.alloc(), 128, false);
}

/// The member `a` is found as in the tree of `serde_json`, and is this number or this text.
fn has_member(rt: &impl Abort, alloc: Global, text: &str, number: Option<u64>, word: Option<&str>) {
    let mut scratch = Scratch::new(alloc);
    let value = Value::from_slice(alloc, text.as_bytes()).expect(rt, "a tree");
    let tree = parse_tree(alloc, text.as_bytes(), &mut scratch).expect(rt, "a tree");
    assert!(rt; value.get("a").and_then(Value::as_u64) == number);
    assert!(rt; tree.whole_at(tree.top(), "a") == number);
    assert!(rt; value.get("a").and_then(Value::as_str) == word);
    assert!(rt; tree.text_at(tree.top(), "a") == word);
}

#[test]
fn finds_the_members_that_serde_json_finds(rt: HostRuntime) {
    let alloc = rt.alloc();
    for (text, number, word) in [
        ("{\"a\":1,\"b\":2}", Some(1), None),
        ("{\"a\":1,\"b\":2,\"a\":3}", Some(3), None),
        ("{\"a\":1,\"\\u0061\":\"x\"}", None, Some("x")),
        ("{\"a\":18446744073709551615}", Some(u64::MAX), None),
        ("{\"a\":18446744073709551616}", None, None),
        ("{\"a\":-1}", None, None),
        ("{\"a\":-0}", None, None),
        ("{\"a\":7.0}", None, None),
        ("{\"a\":\"\\u00e4\\n\"}", None, Some("ä\n")),
        ("{\"b\":[{\"a\":1}]}", None, None),
        ("[\"a\",1]", None, None),
    ] {
        has_member(&rt, alloc, text, number, word);
    }
}

/// The third item of the list `a` is this number.
fn third_is(rt: &impl Abort, alloc: Global, text: &str, want: u64) {
    let mut scratch = Scratch::new(alloc);
    let tree = parse_tree(alloc, text.as_bytes(), &mut scratch).expect(rt, "a tree");
    let items = tree.list_at(tree.top(), "a").unwrap_or(&[]);
    assert!(rt; items.len() == 3);
    if let [_, _, third] = items {
        assert!(rt; tree.whole(third) == Some(want));
    }
}

#[test]
fn keeps_the_items_of_a_list_together(rt: HostRuntime) {
    third_is(&rt, rt.alloc(), "{\"a\":[[[1],{\"b\":[2]}],[3,4],5]}", 5);
}
