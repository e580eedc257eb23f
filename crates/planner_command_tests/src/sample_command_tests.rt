//! `sample` for rings of several sizes, and the words that it takes.
use command_base::Status;
use example_files::words;
use sample_command::{RingSize, ring_size, sample};
use std::alloc::Global;
use std::process::Abort;

/// The size that the words name, if they name one.
fn size_of(rt: &impl Abort, alloc: Global, texts: &[&str]) -> Option<RingSize> {
    ring_size(&words(alloc, texts).expect(rt, "memory"))
}

/// The ring of so many switches is summed up by this line.
fn is_summed_up(rt: &impl Abort, alloc: Global, word: &str, line: &[u8]) {
    let size = size_of(rt, alloc, &[word]).expect(rt, "a size");
    let reply = sample(alloc, size).ok().expect(rt, "a reply");
    assert!(rt; reply.status == Status::Done, "{word}");
    assert!(rt; reply.text.as_slice() == line, "{word}");
}

#[test]
fn rings_are_planned_and_accepted(rt: HostRuntime) {
    let rows: [(&str, &[u8]); 2] = [
        (
            "8",
            b"sample 8: ordered, 28 rounds, 48 classes, 53 numberings, 72 picks, accepted\n",
        ),
        (
            "16",
            b"sample 16: ordered, 60 rounds, 96 classes, 117 numberings, 152 picks, accepted\n",
        ),
    ];
    for (word, line) in rows {
        is_summed_up(&rt, rt.alloc(), word, line);
    }
}

#[test]
fn large_rings_are_planned_and_accepted(rt: HostRuntime) {
    let rows: [(&str, &[u8]); 2] = [
        (
            "32",
            b"sample 32: ordered, 124 rounds, 192 classes, 245 numberings, 312 picks, accepted\n",
        ),
        (
            "64",
            b"sample 64: ordered, 252 rounds, 384 classes, 501 numberings, 632 picks, accepted\n",
        ),
    ];
    for (word, line) in rows {
        is_summed_up(&rt, rt.alloc(), word, line);
    }
}

#[test]
fn a_ring_has_from_four_to_128_switches(rt: HostRuntime) {
    let alloc = rt.alloc();
    for word in [
        "3",
        "129",
        "08",
        "",
        "+8",
        "8 ",
        "0",
        "18446744073709551624",
    ] {
        assert!(rt; size_of(&rt, alloc, &[word]).is_none(), "{word}");
    }
    for (word, switches) in [("4", 4u32), ("128", 128)] {
        let size = size_of(&rt, alloc, &[word]).map(|size| size.switches);
        assert!(rt; size == Some(switches), "{word}");
    }
    assert!(rt; size_of(&rt, alloc, &[]).is_none());
    assert!(rt; size_of(&rt, alloc, &["8", "8"]).is_none());
}
