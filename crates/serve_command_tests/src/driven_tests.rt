//! What `drive` is given, line by line. In the plan of the square s1 is changed in round 1 and s3 in round 2.
use crate::exchanges::{Exchange, add, blocks_of, is_line_end, lines_of};
use crate::served::{SQUARE_GREETING, said_of_square, served};
use command_base::Status;
use example_files::{served_source, square};
use std::alloc::Global;
use std::process::Abort;

/// Nothing is said, and no round runs yet.
const QUIET: &str = "ok settled 0 of 2\n";

/// s1 sends to port 4 from now on, and is asked whether it does.
const ROUND_1: &str =
    "start\nsend s1 010e005000000001003220ef000000000000000000000000000000000000080000000000000000000a0000000000000000000000000000000002000000000064ffffffffffff00000000000800040000\nsend s1 0112000800000002\nok running 1 of 2\n";

/// s3 sends to port 3 from now on, and is asked whether it does.
const ROUND_2: &str =
    "start\nsend s3 010e005000000003003220ef000000000000000000000000000000000000080000000000000000000a0000000000000000000000000000000002000000000064ffffffffffff00000000000800030000\nsend s3 0112000800000004\nok running 2 of 2\n";

/// Courses of an update without turns.
const ROWS: [(&str, &[Exchange]); 5] = [
    (
        "both rounds, where s3 speaks version 4",
        &[
            ("feed s1 0100000800000000", QUIET),
            ("feed s3 04000008000000", QUIET),
            ("feed s3 05", QUIET),
            ("start", ROUND_1),
            (
                "feed s1 0113000800000002",
                "change 0\nsettle\nok settled 1 of 2\n",
            ),
            ("start", ROUND_2),
            (
                "feed s3 0113000800000004",
                "change 0\nsettle\nok settled 2 of 2\n",
            ),
        ],
    ),
    (
        "a number that wasn't asked for",
        &[
            ("feed s1 0100000800000000", QUIET),
            ("feed s3 04000008000000", QUIET),
            ("feed s3 05", QUIET),
            ("start", ROUND_1),
            (
                "feed s1 0113000800000009",
                "failed s1 Xid 9\nok running 1 of 2\n",
            ),
        ],
    ),
    ("no HELLO yet", &[("start", "no open s1\n")]),
    (
        "a message behind the other, and an echo request between",
        &[
            (
                "feed s1 01000008000000000102000c00000007A1b2C3d4",
                "send s1 0103000c00000007a1b2c3d4\nok settled 0 of 2\n",
            ),
            ("start", ROUND_1),
            (
                "feed s1 0102000800000001011300080000000201020009ffffffff00",
                "send s1 0103000800000001\nchange 0\nsettle\nsend s1 01030009ffffffff00\nok settled 1 of 2\n",
            ),
        ],
    ),
    (
        "what comes behind a failure is dropped",
        &[(
            "feed s2 01000008000000000101000c00000001000300020102000800000001",
            "failed s2 Error 3 2\nok settled 0 of 2\n",
        )],
    ),
];

#[test]
fn each_line_has_its_block(rt: HostRuntime) {
    let alloc = rt.alloc();
    for (name, row) in ROWS {
        let answer = said_of_square(&rt, alloc, &lines_of(&rt, alloc, row));
        let blocks = blocks_of(&rt, alloc, SQUARE_GREETING, row);
        assert!(rt; answer.is(Status::Done, &blocks), "{name}");
    }
}

/// What is sent and logged, and which sessions fail: the lines of all blocks but the last of each.
fn told(rt: &impl Abort, alloc: Global, blocks: &[u8]) -> Vec<u8> {
    let mut told = Vec::new(alloc);
    for line in blocks.split(is_line_end) {
        if !line.is_empty() && !line.starts_with(b"ok ") {
            add(rt, &mut told, line);
            add(rt, &mut told, b"\n");
        }
    }
    told
}

/// Adds a line that feeds bytes, as two lines: the first ends behind so many bytes of its text.
fn add_cut(rt: &impl Abort, text: &mut Vec<u8>, line: &str, at: usize) {
    let (first, rest) = line.split_at_checked(at).expect(rt, "a place in the line");
    let (front, _) = line.split_at_checked(8).expect(rt, "a name of two letters");
    add(rt, text, first.as_bytes());
    add(rt, text, b"\n");
    add(rt, text, front.as_bytes());
    add(rt, text, rest.as_bytes());
    add(rt, text, b"\n");
}

/// The lines, of which that of the given number, from 0, is cut.
fn cut_lines(
    rt: &impl Abort,
    alloc: Global,
    row: &[Exchange],
    number: usize,
    at: usize,
) -> Vec<u8> {
    let mut lines = Vec::new(alloc);
    for (i, (line, _)) in row.iter().enumerate() {
        if i == number {
            add_cut(rt, &mut lines, line, at);
        } else {
            add(rt, &mut lines, line.as_bytes());
            add(rt, &mut lines, b"\n");
        }
    }
    lines
}

/// Wherever the piece of this line is cut, the same is told.
fn cuts_tell_the_same(rt: &impl Abort, alloc: Global, row: &[Exchange], number: usize, line: &str) {
    let wanted = told(rt, alloc, &blocks_of(rt, alloc, SQUARE_GREETING, row));
    for at in 10..line.len() {
        if at % 2 == 0 {
            let answer = said_of_square(rt, alloc, &cut_lines(rt, alloc, row, number, at));
            assert!(rt; answer.status == Status::Done);
            let told = told(rt, alloc, &answer.text);
            assert!(rt; told.as_slice() == wanted.as_slice(), "{line} at {at}");
        }
    }
}

/// Wherever a piece of these rows is cut, the same is told.
fn rows_tell_the_same(rt: &impl Abort, alloc: Global, rows: &[(&str, &[Exchange])]) {
    for (_, row) in rows.iter() {
        for (number, (line, _)) in row.iter().enumerate() {
            cuts_tell_the_same(rt, alloc, row, number, line);
        }
    }
}

#[test]
fn pieces_may_be_cut_anywhere(rt: HostRuntime) {
    rows_tell_the_same(&rt, rt.alloc(), &ROWS[..3]);
}

#[test]
fn pieces_of_many_messages_may_be_cut_anywhere(rt: HostRuntime) {
    rows_tell_the_same(&rt, rt.alloc(), &ROWS[3..]);
}

#[test]
fn bytes_may_come_singly(rt: HostRuntime) {
    let alloc = rt.alloc();
    let lines =
        b"feed s1 01\nfeed s1 00\nfeed s1 00\nfeed s1 08\nfeed s1 00\nfeed s1 00\nfeed s1 00\nfeed s1 00\n\
feed s3 04\nfeed s3 00\nfeed s3 00\nfeed s3 08\nfeed s3 00\nfeed s3 00\nfeed s3 00\nfeed s3 05\nstart\n\
feed s1 01\nfeed s1 13\nfeed s1 00\nfeed s1 08\nfeed s1 00\nfeed s1 00\nfeed s1 00\nfeed s1 02\nstart\n\
feed s3 01\nfeed s3 13\nfeed s3 00\nfeed s3 08\nfeed s3 00\nfeed s3 00\nfeed s3 00\nfeed s3 04\n";
    let answer = said_of_square(&rt, alloc, lines);
    let (_, row) = ROWS[0];
    let wanted = told(&rt, alloc, &blocks_of(&rt, alloc, SQUARE_GREETING, row));
    let told = told(&rt, alloc, &answer.text);
    assert!(rt; answer.status == Status::Done && told.as_slice() == wanted.as_slice());
}

#[test]
fn a_line_may_come_in_pieces_of_every_size(rt: HostRuntime) {
    let alloc = rt.alloc();
    let (_, row) = ROWS[0];
    let lines = lines_of(&rt, alloc, row);
    let blocks = blocks_of(&rt, alloc, SQUARE_GREETING, row);
    // No line has more bytes.
    for piece in 1..=34 {
        let source = served_source(alloc, &square::update(), square::plan(), &lines, piece);
        let mut source = source.expect(&rt, "a source");
        let answer = served(&rt, alloc, &mut source);
        assert!(rt; answer.is(Status::Done, &blocks), "{piece}");
    }
}
