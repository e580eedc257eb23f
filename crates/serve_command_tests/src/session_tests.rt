//! Sessions that fail and are opened again, line by line.
use crate::exchanges::Exchange;
use crate::two_switches::{DONE_A, DONE_B, OPEN_A, OPEN_B, START, TURN, is_said};

/// HELLO is sent again while the first round runs, and is answered by one that changes nothing.
const REOPEN_A: Exchange = ("reopen a", "send a 0100000800000000\nok running 1 of 2\n");

const REOPEN_B: Exchange = ("reopen b", "send b 0100000800000000\nok running 1 of 2\n");

/// The turning of the first round is sent to a, when its session opens.
const TURNED_AGAIN_A: Exchange = (
    "feed a 0100000800000000",
    "send a 010e004800000006 0a000100 0004 \nsend a 010e004800000008 0a000000 0004 \nsend a 0112000800000009\nok running 1 of 2\n",
);

#[test]
fn what_is_not_answered_is_sent_again(rt: HostRuntime) {
    let rows: [(&str, &[Exchange]); 3] = [
        (
            "the session failed with messages outstanding",
            &[
                OPEN_A,
                OPEN_B,
                START,
                (
                    "feed a 0213000800000004",
                    "failed a Version\nok running 1 of 2\n",
                ),
                ("feed a 0113000800000004", "ok running 1 of 2\n"),
                REOPEN_A,
                (
                    "feed a 0113000800000004",
                    "failed a NoHello\nok running 1 of 2\n",
                ),
                REOPEN_A,
                (
                    "feed a 0100000800000000",
                    "send a 010e005000000001 0a000000 0000 0000000800020000\nsend a 010e004800000003 0a000100 0000 \nsend a 0112000800000004\nok running 1 of 2\n",
                ),
                DONE_A,
            ],
        ),
        (
            "what is answered isn't sent again",
            &[
                OPEN_A,
                OPEN_B,
                START,
                DONE_B,
                REOPEN_B,
                ("feed b 0100000800000000", "ok running 1 of 2\n"),
                (
                    "feed b 0113000800000005",
                    "failed b Xid 5\nok running 1 of 2\n",
                ),
            ],
        ),
        (
            "what was cut is dropped",
            &[
                OPEN_B,
                ("feed a 01000008", "ok settled 0 of 2\n"),
                ("reopen a", "send a 0100000800000000\nok settled 0 of 2\n"),
                ("feed a 00000000", "ok settled 0 of 2\n"),
                ("start", "no open a\n"),
                ("feed a 01000008", "failed a Version\nok settled 0 of 2\n"),
                ("start", "no open a\n"),
            ],
        ),
    ];
    for (name, exchanges) in rows {
        is_said(&rt, rt.alloc(), name, exchanges);
    }
}

#[test]
fn of_a_turned_round_the_turning_alone_is_sent_again(rt: HostRuntime) {
    let rows: [(&str, &[Exchange]); 3] = [
        (
            "behind an answer out of order",
            &[
                OPEN_A,
                OPEN_B,
                START,
                TURN,
                (
                    "feed a 0113000800000009",
                    "failed a Xid 9\nok running 1 of 2\n",
                ),
                DONE_B,
                REOPEN_A,
                TURNED_AGAIN_A,
                (
                    "feed a 0113000800000004",
                    "failed a Xid 4\nok running 1 of 2\n",
                ),
                REOPEN_A,
                TURNED_AGAIN_A,
                // It isn't known that anything was in force.
                ("feed a 0113000800000009", "ok running 1 of 2\n"),
                (
                    "feed b 011300080000000a",
                    "undo 1\nsettle\nok settled 0 of 2\n",
                ),
            ],
        ),
        (
            "what was in force is taken back all the same",
            &[
                OPEN_A,
                OPEN_B,
                START,
                DONE_A,
                TURN,
                REOPEN_A,
                TURNED_AGAIN_A,
                (
                    "feed a 0113000800000009",
                    "undo 2\nundo 0\nok running 1 of 2\n",
                ),
                REOPEN_A,
                ("feed a 0100000800000000", "ok running 1 of 2\n"),
            ],
        ),
        (
            "a session that isn't open gets the turning with its HELLO",
            &[
                OPEN_A,
                OPEN_B,
                START,
                REOPEN_B,
                (
                    "back",
                    "send a 010e004800000006 0a000100 0004 \nsend a 010e004800000008 0a000000 0004 \nsend a 0112000800000009\nok running 1 of 2\n",
                ),
                (
                    "feed b 0100000800000000",
                    "send b 010e005000000007 0a000000 0002 0000000800020000\nsend b 011200080000000a\nok running 1 of 2\n",
                ),
                ("feed b 011300080000000a", "ok running 1 of 2\n"),
                (
                    "feed a 01130008000000040113000800000009",
                    "change 0\nchange 2\nundo 2\nundo 0\nsettle\nok settled 0 of 2\n",
                ),
            ],
        ),
    ];
    for (name, exchanges) in rows {
        is_said(&rt, rt.alloc(), name, exchanges);
    }
}

#[test]
fn a_settled_round_is_taken_back_over_open_sessions(rt: HostRuntime) {
    is_said(
        &rt,
        rt.alloc(),
        "the least switch that isn't open is named",
        &[
            OPEN_A,
            OPEN_B,
            START,
            DONE_A,
            (
                "feed b 0113000800000005",
                "change 1\nsettle\nok settled 1 of 2\n",
            ),
            ("reopen b", "send b 0100000800000000\nok settled 1 of 2\n"),
            ("back", "no open b\n"),
            ("reopen a", "send a 0100000800000000\nok settled 1 of 2\n"),
            ("back", "no open a\n"),
            ("start", "no open b\n"),
            ("feed b 0100000800000000", "ok settled 1 of 2\n"),
            ("back", "no open a\n"),
            ("feed a 0100000800000000", "ok settled 1 of 2\n"),
            (
                "back",
                "back\nsend a 010e004800000006 0a000100 0004 \nsend b 010e005000000007 0a000000 0002 0000000800020000\nsend a 010e004800000008 0a000000 0004 \nsend a 0112000800000009\nsend b 011200080000000a\nok running 1 of 2\n",
            ),
        ],
    );
}
