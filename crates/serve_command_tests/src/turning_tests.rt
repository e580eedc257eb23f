//! Rounds that are taken back, line by line.
use crate::exchanges::Exchange;
use crate::two_switches::{DONE_A, DONE_B, OPEN_A, OPEN_B, START, TURN, is_said};

/// The first round is settled.
const SETTLED: Exchange = (
    "feed b 0113000800000005",
    "change 1\nsettle\nok settled 1 of 2\n",
);

/// The first round begins again, behind one turn of it.
const AGAIN: Exchange = (
    "start",
    "start\nsend a 010e00500000000b 0a000000 0000 0000000800020000\nsend b 010e00480000000c 0a000000 0002 \nsend a 010e00480000000d 0a000100 0000 \nsend a 011200080000000e\nsend b 011200080000000f\nok running 1 of 2\n",
);

#[test]
fn a_settled_round_is_taken_back(rt: HostRuntime) {
    let rows: [(&str, &[Exchange]); 2] = [
        (
            "the first round",
            &[
                OPEN_A,
                OPEN_B,
                ("back", "no begun\n"),
                START,
                DONE_A,
                SETTLED,
                (
                    "back",
                    "back\nsend a 010e004800000006 0a000100 0004 \nsend b 010e005000000007 0a000000 0002 0000000800020000\nsend a 010e004800000008 0a000000 0004 \nsend a 0112000800000009\nsend b 011200080000000a\nok running 1 of 2\n",
                ),
                ("back", "no running\n"),
                ("start", "no running\n"),
                ("feed b 011300080000000a", "undo 1\nok running 1 of 2\n"),
                (
                    "feed a 0113000800000009",
                    "undo 2\nundo 0\nsettle\nok settled 0 of 2\n",
                ),
                ("back", "no begun\n"),
                AGAIN,
            ],
        ),
        (
            "both rounds, the last one first",
            &[
                OPEN_A,
                OPEN_B,
                START,
                DONE_A,
                SETTLED,
                (
                    "start",
                    "start\nsend b 010e004800000006 0a000000 0004 \nsend b 0112000800000007\nok running 2 of 2\n",
                ),
                (
                    "feed b 0113000800000007",
                    "change 0\nsettle\nok settled 2 of 2\n",
                ),
                ("start", "no finished\n"),
                (
                    "back",
                    "back\nsend b 010e004800000008 0a000000 0000 \nsend b 0112000800000009\nok running 2 of 2\n",
                ),
                (
                    "feed b 0113000800000009",
                    "undo 0\nsettle\nok settled 1 of 2\n",
                ),
                (
                    "back",
                    "back\nsend a 010e00480000000a 0a000100 0004 \nsend b 010e00500000000b 0a000000 0002 0000000800020000\nsend a 010e00480000000c 0a000000 0004 \nsend a 011200080000000d\nsend b 011200080000000e\nok running 1 of 2\n",
                ),
                (
                    "feed a 011300080000000d",
                    "undo 2\nundo 0\nok running 1 of 2\n",
                ),
                (
                    "feed b 011300080000000e",
                    "undo 1\nsettle\nok settled 0 of 2\n",
                ),
            ],
        ),
    ];
    for (name, exchanges) in rows {
        is_said(&rt, rt.alloc(), name, exchanges);
    }
}

#[test]
fn a_running_round_is_turned(rt: HostRuntime) {
    let rows: [(&str, &[Exchange]); 3] = [
        (
            "before any answer",
            &[
                OPEN_A,
                OPEN_B,
                START,
                TURN,
                DONE_A,
                ("back", "no running\n"),
                (
                    "feed a 0113000800000009",
                    "undo 2\nundo 0\nok running 1 of 2\n",
                ),
                (
                    "feed b 0113000800000005011300080000000a",
                    "change 1\nundo 1\nsettle\nok settled 0 of 2\n",
                ),
                ("back", "no begun\n"),
            ],
        ),
        (
            "behind one answer, and begun again when it is taken back",
            &[
                OPEN_A,
                OPEN_B,
                START,
                DONE_B,
                TURN,
                ("start", "no running\n"),
                ("feed b 011300080000000a", "undo 1\nok running 1 of 2\n"),
                ("start", "no running\n"),
                (
                    "feed a 01130008000000040113000800000009",
                    "change 0\nchange 2\nundo 2\nundo 0\nsettle\nok settled 0 of 2\n",
                ),
                AGAIN,
                (
                    "feed a 011300080000000e",
                    "change 0\nchange 2\nok running 1 of 2\n",
                ),
                (
                    "feed b 011300080000000f",
                    "change 1\nsettle\nok settled 1 of 2\n",
                ),
            ],
        ),
        (
            "the turning is turned no more, but its round is again",
            &[
                OPEN_A,
                OPEN_B,
                START,
                TURN,
                (
                    "feed a 01130008000000040113000800000009",
                    "change 0\nchange 2\nundo 2\nundo 0\nok running 1 of 2\n",
                ),
                (
                    "feed b 0113000800000005011300080000000a",
                    "change 1\nundo 1\nsettle\nok settled 0 of 2\n",
                ),
                AGAIN,
                (
                    "back",
                    "send a 010e004800000010 0a000100 0004 \nsend b 010e005000000011 0a000000 0002 0000000800020000\nsend a 010e004800000012 0a000000 0004 \nsend a 0112000800000013\nsend b 0112000800000014\nok running 1 of 2\n",
                ),
            ],
        ),
    ];
    for (name, exchanges) in rows {
        is_said(&rt, rt.alloc(), name, exchanges);
    }
}
