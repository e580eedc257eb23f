//! What no clause says: that calls succeed, and the outside failing at each call in turn.
ghost use Rattle.std.specs.Prelude.{◌≤◌};

use file_access::{FetchFault, FileSource, MemorySink, MemorySource, StdoutSink, fetch, pour};
use std::alloc::Global;
use std::fs;
use std::process::Abort;

/// One file of 40 bytes, given in pieces of 16. The call of this number fails.
fn one_file(rt: &impl Abort, alloc: Global, failing: u64) -> MemorySource {
    let failing = vec![in alloc; failing].expect(rt, "memory");
    let mut source = MemorySource::make(alloc, 16, failing).expect(rt, "memory");
    let name = String::from_str(alloc, "a").expect(rt, "memory");
    let bytes = vec![in alloc; 5u8; 40].expect(rt, "memory");
    source.add(name, bytes).expect(rt, "memory");
    source
}

#[test]
fn fetches_all_or_says_why_not(rt: HostRuntime) {
    let alloc = rt.alloc();
    // A select, three takes of 16, 16 and 8 bytes, and the end.
    for failing in 1..=5u64 {
        let mut source = one_file(&rt, alloc, failing);
        let fetched = fetch(alloc, &mut source, "a", 100);
        assert!(rt; fetched.err() == Some(FetchFault::ReadFault), "{failing}");
    }
    let mut source = one_file(&rt, alloc, 6);
    let bytes = fetch(alloc, &mut source, "a", 40)
        .ok()
        .expect(&rt, "the file");
    assert!(rt; bytes.as_slice() == [5u8; 40].as_slice());
    for (name, limit, want) in [
        ("a", 39, FetchFault::TooLong),
        ("b", 40, FetchFault::ReadFault),
    ] {
        let mut source = one_file(&rt, alloc, 6);
        let fetched = fetch(alloc, &mut source, name, limit);
        assert!(rt; fetched.err() == Some(want), "{name}");
    }
}

/// A sink with this room, which takes pieces, and whose put of this number fails, holds so many bytes of the text at the end.
fn is_poured(rt: &impl Abort, alloc: Global, room: usize, piece: usize, failing: u64, want: usize)
    requires { 1 ≤ piece }
{
    let text = b"holds: 12 classes\n";
    let failing = vec![in alloc; failing].expect(rt, "memory");
    let mut sink = MemorySink::make(alloc, room, piece, failing).expect(rt, "memory");
    let poured = pour(&mut sink, text);
    assert!(rt; poured.is_ok() == (want == text.len()), "{want}");
    assert!(rt; sink.bytes() == text.get(..want).unwrap_or(&[]), "{want}");
}

#[test]
fn pours_all_or_a_front(rt: HostRuntime) {
    is_poured(&rt, rt.alloc(), 100, 7, 0, 18);
    is_poured(&rt, rt.alloc(), 100, 1, 10, 9);
    is_poured(&rt, rt.alloc(), 100, 7, 3, 14);
    is_poured(&rt, rt.alloc(), 5, 7, 0, 5);
}

#[test]
fn the_real_outside_is_reached(rt: HostRuntime) {
    let alloc = rt.alloc();
    fs::write(&rt, "a.txt", b"hello").expect(&rt, "a file");
    let mut source = FileSource::make(&rt, String::new(alloc));
    let bytes = fetch(alloc, &mut source, "a.txt", 10)
        .ok()
        .expect(&rt, "the file");
    assert!(rt; bytes.as_slice() == b"hello".as_slice());
    let fetched = fetch(alloc, &mut source, "a.txt", 4);
    assert!(rt; fetched.err() == Some(FetchFault::TooLong));
    let fetched = fetch(alloc, &mut source, "b.txt", 10);
    assert!(rt; fetched.err() == Some(FetchFault::ReadFault));
    let mut sink = StdoutSink::make(&rt);
    assert!(rt; pour(&mut sink, b"written\n").is_ok());
}
