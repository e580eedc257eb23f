//! How many bytes a file of each kind may have.
use command_base::{FileKind, Status, fetch_file};
use example_files::{Answer, answer_of};
use file_access::MemorySource;
use std::alloc::Global;
use std::process::Abort;

const MEBIBYTE: u64 = 1_048_576;

#[test]
fn each_kind_has_its_limit(rt: HostRuntime) {
    for (kind, most) in [
        (FileKind::Topology, 16 * MEBIBYTE),
        (FileKind::Config, 16 * MEBIBYTE),
        (FileKind::Old, 16 * MEBIBYTE),
        (FileKind::New, 16 * MEBIBYTE),
        (FileKind::Policy, 16 * MEBIBYTE),
        (FileKind::Replies, 16 * MEBIBYTE),
        (FileKind::Schedule, 64 * MEBIBYTE),
        (FileKind::Input, 64 * MEBIBYTE),
        (FileKind::Plan, 512 * MEBIBYTE),
    ] {
        assert_eq!(rt; kind.limit(), most, "{most}");
    }
}

/// A source with a file of as many spaces as the kind may have bytes, and then more.
fn holding(rt: &impl Abort, alloc: Global, kind: FileKind, more: &[u8]) -> MemorySource {
    let none = Vec::new(alloc);
    let mut source = MemorySource::make(alloc, 4096, none).expect(rt, "memory");
    let name = String::from_str(alloc, "file").expect(rt, "memory");
    let spaces = vec![in alloc; b' '; kind.limit() as usize];
    let mut bytes = spaces.expect(rt, "memory");
    bytes.extend_from_slice(more).expect(rt, "memory");
    source.add(name, bytes).expect(rt, "memory");
    source
}

/// How many bytes of the longest file are fetched.
fn fetched(rt: &impl Abort, alloc: Global, kind: FileKind) -> Option<u64> {
    let mut source = holding(rt, alloc, kind, b"");
    let bytes = fetch_file(alloc, &mut source, kind, "file").ok()?;
    Some(bytes.len() as u64)
}

/// What is said of a file with one byte more.
fn said(rt: &impl Abort, alloc: Global, kind: FileKind) -> Answer {
    let mut source = holding(rt, alloc, kind, b"x");
    let fetched = fetch_file(alloc, &mut source, kind, "file");
    answer_of(alloc, Err(fetched.err().expect(rt, "a refusal")))
}

/// The longest plan takes more than 1 GB here.
#[test]
fn a_file_is_fetched_up_to_its_limit(rt: HostRuntime) {
    let alloc = rt.alloc();
    let rows: [(FileKind, &str); 9] = [
        (FileKind::Topology, "bad topology: 0 TooLong at 0\n"),
        (FileKind::Config, "bad config: 0 TooLong at 0\n"),
        (FileKind::Old, "bad old: 0 TooLong at 0\n"),
        (FileKind::New, "bad new: 0 TooLong at 0\n"),
        (FileKind::Policy, "bad policy: 0 TooLong at 0\n"),
        (FileKind::Replies, "bad replies: 0 TooLong at 0\n"),
        (FileKind::Schedule, "bad schedule: 0 TooLong at 0\n"),
        (FileKind::Input, "bad input: 0 TooLong at 0\n"),
        (FileKind::Plan, "bad plan: 0 TooLong at 0\n"),
    ];
    for (kind, line) in rows {
        assert_eq!(rt; fetched(&rt, alloc, kind), Some(kind.limit()), "{line}");
        let answer = said(&rt, alloc, kind);
        assert!(rt; answer.is(Status::BadFile, line.as_bytes()), "{line}");
    }
}
