//! Switches that die, line by line.
use crate::exchanges::Exchange;
use crate::two_switches::{DONE_A, OPEN_A, OPEN_B, START, TURN, is_said};

/// The first round is settled by the answer of b.
const SETTLED: Exchange = (
    "feed b 0113000800000005",
    "change 1\nsettle\nok settled 1 of 2\n",
);

/// The first round begins while b is dead: what is for b has its xids all the same.
const START_A: Exchange = (
    "start",
    "start\nsend a 010e005000000001 0a000000 0000 0000000800020000\nsend a 010e004800000003 0a000100 0000 \nsend a 0112000800000004\nok running 1 of 2\n",
);

/// What b is sent of it where its session opens later.
const FIRST_AGAIN_B: Exchange = (
    "feed b 0100000800000000",
    "send b 010e004800000002 0a000000 0002 \nsend b 0112000800000005\nok running 1 of 2\n",
);

/// The answer of a settles the first round while b is dead.
const SETTLED_BY_A: Exchange = (
    "feed a 0113000800000004",
    "change 0\nchange 2\nchange 1\nsettle\nok settled 1 of 2\n",
);

/// One of them dies while the first round runs, and another is waited for.
const DEAD_A: Exchange = ("dead a", "ok running 1 of 2\n");

const DEAD_B: Exchange = ("dead b", "ok running 1 of 2\n");

/// b is there again while the first round runs.
const REOPEN_B: Exchange = ("reopen b", "send b 0100000800000000\nok running 1 of 2\n");

#[test]
fn no_round_waits_for_a_dead_switch(rt: HostRuntime) {
    let rows: [(&str, &[Exchange]); 5] = [
        (
            "it was the last one that was waited for",
            &[
                OPEN_A,
                OPEN_B,
                START,
                DONE_A,
                ("dead b", "change 1\nsettle\nok settled 1 of 2\n"),
                ("dead b", "ok settled 1 of 2\n"),
            ],
        ),
        (
            "another one is waited for",
            &[OPEN_A, OPEN_B, START, DEAD_B, DEAD_B, SETTLED_BY_A],
        ),
        (
            "its changes ascend, behind those of the switch that answers",
            &[
                OPEN_A,
                OPEN_B,
                START,
                DEAD_A,
                (
                    "feed b 0113000800000005",
                    "change 1\nchange 0\nchange 2\nsettle\nok settled 1 of 2\n",
                ),
            ],
        ),
        (
            "what is in force isn't said again",
            &[OPEN_A, OPEN_B, START, DONE_A, DEAD_A, SETTLED],
        ),
        (
            "its session had failed",
            &[
                OPEN_A,
                OPEN_B,
                START,
                (
                    "feed b 0213000800000005",
                    "failed b Version\nok running 1 of 2\n",
                ),
                DEAD_B,
                SETTLED_BY_A,
            ],
        ),
    ];
    for (name, exchanges) in rows {
        is_said(&rt, rt.alloc(), name, exchanges);
    }
}

#[test]
fn rounds_begin_without_a_dead_switch(rt: HostRuntime) {
    let rows: [(&str, &[Exchange]); 3] = [
        (
            "it is passed over by `no open`, and gets nothing",
            &[
                OPEN_A,
                ("start", "no open b\n"),
                ("dead b", "ok settled 0 of 2\n"),
                START_A,
                ("feed b 0100000800000000", "ok running 1 of 2\n"),
                (
                    "feed b 01000008000000000102000800000007ff",
                    "ok running 1 of 2\n",
                ),
                SETTLED_BY_A,
            ],
        ),
        (
            "a round whose only switch is dead settles in the block of its beginning",
            &[
                ("dead b", "ok settled 0 of 2\n"),
                OPEN_A,
                START_A,
                SETTLED_BY_A,
                ("start", "start\nchange 0\nsettle\nok settled 2 of 2\n"),
                ("start", "no finished\n"),
                ("back", "back\nundo 0\nsettle\nok settled 1 of 2\n"),
                ("reopen b", "send b 0100000800000000\nok settled 1 of 2\n"),
                ("back", "no open b\n"),
                ("feed b 0100000800000000", "ok settled 1 of 2\n"),
                (
                    "back",
                    "back\nsend a 010e00480000000a 0a000100 0004 \nsend b 010e00500000000b 0a000000 0002 0000000800020000\nsend a 010e00480000000c 0a000000 0004 \nsend a 011200080000000d\nsend b 011200080000000e\nok running 1 of 2\n",
                ),
            ],
        ),
        (
            "all switches are dead",
            &[
                ("dead a", "ok settled 0 of 2\n"),
                ("dead b", "ok settled 0 of 2\n"),
                (
                    "start",
                    "start\nchange 0\nchange 1\nchange 2\nsettle\nok settled 1 of 2\n",
                ),
                (
                    "back",
                    "back\nundo 2\nundo 1\nundo 0\nsettle\nok settled 0 of 2\n",
                ),
                ("back", "no begun\n"),
            ],
        ),
    ];
    for (name, exchanges) in rows {
        is_said(&rt, rt.alloc(), name, exchanges);
    }
}

#[test]
fn a_round_is_taken_back_without_a_dead_switch(rt: HostRuntime) {
    let rows: [(&str, &[Exchange]); 4] = [
        (
            "its changes that are in force descend",
            &[
                OPEN_A,
                OPEN_B,
                START,
                DONE_A,
                TURN,
                DEAD_A,
                (
                    "feed b 0113000800000005011300080000000a",
                    "change 1\nundo 1\nundo 2\nundo 0\nsettle\nok settled 0 of 2\n",
                ),
            ],
        ),
        (
            "it was the last one that was waited for",
            &[
                OPEN_A,
                OPEN_B,
                START,
                DONE_A,
                TURN,
                (
                    "feed b 0113000800000005011300080000000a",
                    "change 1\nundo 1\nok running 1 of 2\n",
                ),
                ("dead a", "undo 2\nundo 0\nsettle\nok settled 0 of 2\n"),
            ],
        ),
        (
            "what isn't in force isn't taken back",
            &[
                OPEN_A,
                OPEN_B,
                START,
                TURN,
                DEAD_A,
                (
                    "feed b 0113000800000005011300080000000a",
                    "change 1\nundo 1\nsettle\nok settled 0 of 2\n",
                ),
            ],
        ),
        (
            "the round is turned while it is dead, and it is there again before the turning is answered",
            &[
                OPEN_A,
                OPEN_B,
                START,
                DEAD_A,
                (
                    "back",
                    "send b 010e005000000007 0a000000 0002 0000000800020000\nsend b 011200080000000a\nok running 1 of 2\n",
                ),
                ("reopen a", "send a 0100000800000000\nok running 1 of 2\n"),
                (
                    "feed b 0113000800000005011300080000000a",
                    "change 1\nundo 1\nok running 1 of 2\n",
                ),
                (
                    "feed a 0100000800000000",
                    "send a 010e004800000006 0a000100 0004 \nsend a 010e004800000008 0a000000 0004 \nsend a 0112000800000009\nok running 1 of 2\n",
                ),
                ("feed a 0113000800000009", "settle\nok settled 0 of 2\n"),
            ],
        ),
    ];
    for (name, exchanges) in rows {
        is_said(&rt, rt.alloc(), name, exchanges);
    }
}

#[test]
fn a_switch_is_there_again(rt: HostRuntime) {
    let rows: [(&str, &[Exchange]); 4] = [
        (
            "in the round, which waits for it again",
            &[
                OPEN_A,
                OPEN_B,
                START,
                DEAD_B,
                REOPEN_B,
                DONE_A,
                FIRST_AGAIN_B,
                SETTLED,
            ],
        ),
        (
            "behind the round, of which it gets nothing",
            &[
                OPEN_A,
                OPEN_B,
                START,
                DONE_A,
                ("dead b", "change 1\nsettle\nok settled 1 of 2\n"),
                ("reopen b", "send b 0100000800000000\nok settled 1 of 2\n"),
                ("feed b 0100000800000000", "ok settled 1 of 2\n"),
                (
                    "start",
                    "start\nsend b 010e004800000006 0a000000 0004 \nsend b 0112000800000007\nok running 2 of 2\n",
                ),
            ],
        ),
        (
            "and dies again",
            &[
                OPEN_A,
                OPEN_B,
                START,
                DEAD_B,
                REOPEN_B,
                FIRST_AGAIN_B,
                DEAD_B,
                ("feed b 0113000800000005", "ok running 1 of 2\n"),
                SETTLED_BY_A,
            ],
        ),
        (
            "without what was cut",
            &[
                OPEN_A,
                ("feed b 01000008", "ok settled 0 of 2\n"),
                ("dead b", "ok settled 0 of 2\n"),
                ("feed b 00000000", "ok settled 0 of 2\n"),
                ("reopen b", "send b 0100000800000000\nok settled 0 of 2\n"),
                ("feed b 00000000", "ok settled 0 of 2\n"),
                ("start", "no open b\n"),
            ],
        ),
    ];
    for (name, exchanges) in rows {
        is_said(&rt, rt.alloc(), name, exchanges);
    }
}
