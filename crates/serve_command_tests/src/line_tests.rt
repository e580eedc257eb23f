//! What lines are, and where they end.
use crate::exchanges::add;
use crate::served::{SQUARE_GREETING, said_of_square};
use command_base::Status;
use std::alloc::Global;
use std::process::Abort;

/// These lines are answered by these blocks, behind that of line 0.
fn is_answered(rt: &impl Abort, alloc: Global, lines: &[u8], blocks: &[u8]) {
    let mut wanted = Vec::new(alloc);
    add(rt, &mut wanted, SQUARE_GREETING.as_bytes());
    add(rt, &mut wanted, blocks);
    let answer = said_of_square(rt, alloc, lines);
    let count = lines.len();
    assert!(rt; answer.is(Status::Done, &wanted), "of {count} bytes");
}

#[test]
fn other_lines_are_bad(rt: HostRuntime) {
    let lines: [&[u8]; 30] = [
        b"start ",
        b" start",
        b"START",
        b"start\r",
        b"start 1",
        b"back ",
        b"back s1",
        b"reopen",
        b"reopen ",
        b"reopen s5",
        b"reopen s1 ",
        b"reopen  s1",
        b"dead",
        b"dead ",
        b"dead s5",
        b"dead s1 ",
        b"dead  s1",
        b"dead s1 s2",
        b"feed",
        b"feed s1",
        b"feed s1 ",
        b"feed s1 0",
        b"feed s1 0g",
        b"feed s5 00",
        b"feed  s1 00",
        b"feed s1 00 00",
        b"stop",
        b" ",
        b"\xff\xfe",
        b"\0",
    ];
    let alloc = rt.alloc();
    let mut text = Vec::new(alloc);
    let mut blocks = Vec::new(alloc);
    for line in lines {
        add(&rt, &mut text, line);
        add(&rt, &mut text, b"\nback\n");
        add(&rt, &mut blocks, b"bad line\nno begun\n");
    }
    is_answered(&rt, alloc, &text, &blocks);
}

#[test]
fn the_last_line_may_lack_its_end(rt: HostRuntime) {
    let rows: [(&[u8], &[u8]); 9] = [
        (b"", b""),
        (b"\n", b"ok settled 0 of 2\n"),
        (b"#", b"ok settled 0 of 2\n"),
        (b"# \xff\x00\rstart\n", b"ok settled 0 of 2\n"),
        (b"start", b"no open s1\n"),
        (b"stop", b"bad line\n"),
        (
            b"feed s1 0000000000000000",
            b"failed s1 Version\nok settled 0 of 2\n",
        ),
        (
            b"start\n\n#",
            b"no open s1\nok settled 0 of 2\nok settled 0 of 2\n",
        ),
        (b"feed s2 01000008\nbac", b"ok settled 0 of 2\nbad line\n"),
    ];
    for (lines, blocks) in rows {
        is_answered(&rt, rt.alloc(), lines, blocks);
    }
}

/// A line with this front and then so many zeros, and a line behind it that starts the first round.
fn long_line(rt: &impl Abort, alloc: Global, front: &str, zeros: usize) -> Vec<u8> {
    let mut lines = Vec::new(alloc);
    add(rt, &mut lines, front.as_bytes());
    let zeros = vec![in alloc; b'0'; zeros].expect(rt, "memory");
    add(rt, &mut lines, &zeros);
    add(rt, &mut lines, b"\nstart\n");
    lines
}

#[test]
fn a_line_has_262144_bytes_at_most(rt: HostRuntime) {
    let alloc = rt.alloc();
    let rows: [(&str, usize, &[u8]); 5] = [
        ("#", 262_143, b"ok settled 0 of 2\nno open s1\n"),
        ("#", 262_144, b"bad line\nno open s1\n"),
        (
            "feed s1 ",
            262_136,
            b"failed s1 Version\nok settled 0 of 2\nno open s1\n",
        ),
        ("feed s1 ", 262_138, b"bad line\nno open s1\n"),
        ("#", 300_000, b"bad line\nno open s1\n"),
    ];
    for (front, zeros, blocks) in rows {
        let lines = long_line(&rt, alloc, front, zeros);
        is_answered(&rt, alloc, &lines, blocks);
    }
}
