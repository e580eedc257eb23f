//! Courses of a driver that turns back and of which switches die, against messages that are spelled by hand from OpenFlow 1.0.0.
//!
//! The first round inserts a rule at s0, which sends out of port 2, and one at s1, which sends out of port 1. The second replaces
//! the rule of s0 by one that sends out of port 1. Of a flow message the header stands here, the command (0 inserts, 2 replaces, 4
//! deletes) and the actions.
use crate::courses::Step::{Back, Dead, Feed, Reopen, Start};
use crate::courses::{Step, course};
use std::process::Abort;

const HELLO: &[u8] = b"\x01\x00\x00\x08\x00\x00\x00\x00";

/// What stands before each course: HELLO is sent to both switches.
const GREETED: &str = "s0 0100000800000000\ns1 0100000800000000\n";

/// Both sessions are opened.
const OPEN_0: Step = Feed(0, HELLO);

const OPEN_1: Step = Feed(1, HELLO);

/// The messages of the first round, and those of its turning behind these.
const FIRST: &str =
    "s0 010e005000000001 0000 0000000800020000\ns1 010e005000000002 0000 0000000800010000\ns0 0112000800000003\ns1 0112000800000004\n";

const FIRST_TURNED: &str =
    "s1 010e004800000005 0004 \ns0 010e004800000006 0004 \ns0 0112000800000007\ns1 0112000800000008\n";

/// Replies to barrier requests.
const REPLY_3: &[u8] = b"\x01\x13\x00\x08\x00\x00\x00\x03";

const REPLY_4: &[u8] = b"\x01\x13\x00\x08\x00\x00\x00\x04";

const REPLY_6: &[u8] = b"\x01\x13\x00\x08\x00\x00\x00\x06";

const REPLY_7: &[u8] = b"\x01\x13\x00\x08\x00\x00\x00\x07";

const REPLY_8: &[u8] = b"\x01\x13\x00\x08\x00\x00\x00\x08";

/// In the course of the steps this is said behind the greeting.
fn is_said(rt: &(impl Abort + AllocGlobal), name: &str, steps: &[Step], lines: &[&str]) {
    let alloc = rt.alloc();
    let mut wanted = GREETED.as_bytes().to_vec(alloc).expect(rt, "memory");
    for line in lines.iter() {
        wanted
            .extend_from_slice(line.as_bytes())
            .expect(rt, "memory");
    }
    let text = course(rt, alloc, steps);
    assert!(rt; text.as_slice() == wanted.as_slice(), "{name}");
}

#[test]
fn a_round_is_taken_back(rt: HostRuntime) {
    let rows: [(&str, &[Step], &[&str]); 4] = [
        (
            "back while all is settled",
            &[
                OPEN_0,
                OPEN_1,
                Start,
                Feed(0, REPLY_3),
                Feed(1, REPLY_4),
                Back,
                Feed(0, REPLY_7),
                Feed(1, REPLY_8),
            ],
            &[
                "start\n",
                FIRST,
                "change 0\nchange 1\nsettle\nback\n",
                FIRST_TURNED,
                "undo 0\nundo 1\nsettle back\nsettled 0\n",
            ],
        ),
        (
            "back while no barrier is answered",
            &[
                OPEN_0,
                OPEN_1,
                Start,
                Back,
                Feed(0, REPLY_3),
                Feed(0, REPLY_7),
                Feed(1, REPLY_4),
                Feed(1, REPLY_8),
            ],
            &[
                "start\n",
                FIRST,
                FIRST_TURNED,
                "change 0\nundo 0\nchange 1\nundo 1\nsettle back\nsettled 0\n",
            ],
        ),
        (
            "back while one barrier is answered",
            &[
                OPEN_0,
                OPEN_1,
                Start,
                Feed(0, REPLY_3),
                Back,
                Feed(0, REPLY_7),
                Feed(1, REPLY_4),
                Feed(1, REPLY_8),
            ],
            &[
                "start\n",
                FIRST,
                "change 0\n",
                FIRST_TURNED,
                "undo 0\nchange 1\nundo 1\nsettle back\nsettled 0\n",
            ],
        ),
        (
            "one round after the other",
            &[
                OPEN_0,
                OPEN_1,
                Start,
                Feed(0, REPLY_3),
                Feed(1, REPLY_4),
                Start,
                Feed(0, REPLY_6),
                Back,
                Feed(0, REPLY_8),
                Back,
            ],
            &[
                "start\n",
                FIRST,
                "change 0\nchange 1\nsettle\n",
                "start\ns0 010e005000000005 0002 0000000800010000\ns0 0112000800000006\nchange 0\nsettle\n",
                "back\ns0 010e005000000007 0002 0000000800020000\ns0 0112000800000008\nundo 0\nsettle back\n",
                "back\ns1 010e004800000009 0004 \ns0 010e00480000000a 0004 \ns0 011200080000000b\ns1 011200080000000c\nundone 0\n",
            ],
        ),
    ];
    for (name, steps, lines) in rows.iter() {
        is_said(&rt, name, steps, lines);
    }
}

#[test]
fn a_call_at_the_wrong_time_is_refused(rt: HostRuntime) {
    let rows: [(&str, &[Step], &[&str]); 6] = [
        (
            "nothing is begun",
            &[OPEN_0, OPEN_1, Back],
            &["no begun\nsettled 0\n"],
        ),
        (
            "a session isn't open",
            &[OPEN_0, Start],
            &["no open\nsettled 0\n"],
        ),
        (
            "a round runs",
            &[OPEN_0, OPEN_1, Start, Start],
            &["start\n", FIRST, "no running\nonward 0\n"],
        ),
        (
            "a round is being taken back",
            &[OPEN_0, OPEN_1, Start, Back, Back],
            &["start\n", FIRST, FIRST_TURNED, "no running\nundone 0\n"],
        ),
        (
            "a start behind a turn waits until the round is taken back, and then sends the round anew",
            &[
                OPEN_0,
                OPEN_1,
                Start,
                Back,
                Start,
                Feed(0, REPLY_3),
                Feed(0, REPLY_7),
                Feed(1, REPLY_4),
                Feed(1, REPLY_8),
                Start,
            ],
            &[
                "start\n",
                FIRST,
                FIRST_TURNED,
                "no running\nchange 0\nundo 0\nchange 1\nundo 1\nsettle back\n",
                "start\ns0 010e005000000009 0000 0000000800020000\ns1 010e00500000000a 0000 0000000800010000\ns0 011200080000000b\ns1 011200080000000c\nonward 0\n",
            ],
        ),
        (
            "all rounds are settled",
            &[
                OPEN_0,
                OPEN_1,
                Start,
                Feed(0, REPLY_3),
                Feed(1, REPLY_4),
                Start,
                Feed(0, REPLY_6),
                Start,
            ],
            &[
                "start\n",
                FIRST,
                "change 0\nchange 1\nsettle\n",
                "start\ns0 010e005000000005 0002 0000000800010000\ns0 0112000800000006\nchange 0\nsettle\nno finished\nsettled 2\n",
            ],
        ),
    ];
    for (name, steps, lines) in rows.iter() {
        is_said(&rt, name, steps, lines);
    }
}

#[test]
fn a_session_is_opened_again(rt: HostRuntime) {
    let rows: [(&str, &[Step], &[&str]); 4] = [
        (
            "what isn't answered of a round is sent again",
            &[
                OPEN_0,
                OPEN_1,
                Start,
                Feed(0, b"\x02\x02\x00\x08\x00\x00\x00\x00"),
                Reopen(0),
                OPEN_0,
                Feed(0, REPLY_3),
            ],
            &[
                "start\n",
                FIRST,
                "failed s0 Version\ns0 0100000800000000\ns0 010e005000000001 0000 0000000800020000\ns0 0112000800000003\nchange 0\nonward 0\n",
            ],
        ),
        (
            "of a round that is being taken back only its turning is sent",
            &[
                OPEN_0,
                OPEN_1,
                Start,
                Feed(1, REPLY_8),
                Back,
                Reopen(1),
                OPEN_1,
                Feed(1, REPLY_8),
                Feed(0, REPLY_3),
                Feed(0, REPLY_7),
            ],
            &[
                "start\n",
                FIRST,
                "failed s1 Xid\ns0 010e004800000006 0004 \ns0 0112000800000007\ns1 0100000800000000\n",
                "s1 010e004800000005 0004 \ns1 0112000800000008\nchange 0\nundo 0\nsettle back\nsettled 0\n",
            ],
        ),
        (
            "an answer out of order ends the session",
            &[OPEN_0, OPEN_1, Start, Back, Feed(0, REPLY_7)],
            &["start\n", FIRST, FIRST_TURNED, "failed s0 Xid\nundone 0\n"],
        ),
        (
            "echo requests are replied to, in whatever pieces they come",
            &[
                Feed(
                    0,
                    b"\x01\x00\x00\x08\x00\x00\x00\x00\x01\x02\x00\x09\x00\x00",
                ),
                Feed(0, b"\x00\x05\xff"),
            ],
            &["s0 0103000900000005ff\nsettled 0\n"],
        ),
    ];
    for (name, steps, lines) in rows.iter() {
        is_said(&rt, name, steps, lines);
    }
}

#[test]
fn a_dead_switch_is_not_waited_for(rt: HostRuntime) {
    let rows: [(&str, &[Step], &[&str]); 5] = [
        (
            "the last one that was waited for",
            &[OPEN_0, OPEN_1, Start, Feed(0, REPLY_3), Dead(1), Dead(1)],
            &["start\n", FIRST, "change 0\nchange 1\nsettle\nsettled 1\n"],
        ),
        (
            "all are dead",
            &[Dead(0), Dead(1), Start, Start, Back, Back],
            &[
                "start\nchange 0\nchange 1\nsettle\nstart\nchange 0\nsettle\n",
                "back\nundo 0\nsettle back\nback\nundo 1\nundo 0\nsettle back\nsettled 0\n",
            ],
        ),
        (
            "it is there again in the round, and dies again",
            &[
                OPEN_0,
                OPEN_1,
                Start,
                Dead(0),
                Reopen(0),
                OPEN_0,
                Dead(0),
                Feed(0, REPLY_3),
                Feed(1, REPLY_4),
            ],
            &[
                "start\n",
                FIRST,
                "s0 0100000800000000\ns0 010e005000000001 0000 0000000800020000\ns0 0112000800000003\n",
                "change 1\nchange 0\nsettle\nsettled 1\n",
            ],
        ),
        (
            "its session had failed, and the next round is its alone",
            &[
                OPEN_0,
                OPEN_1,
                Start,
                Feed(0, b"\x02\x02\x00\x08\x00\x00\x00\x00"),
                Dead(0),
                Feed(1, REPLY_4),
                Start,
            ],
            &[
                "start\n",
                FIRST,
                "failed s0 Version\nchange 1\nchange 0\nsettle\nstart\nchange 0\nsettle\nsettled 2\n",
            ],
        ),
        (
            "what comes from it does nothing",
            &[
                Dead(0),
                Feed(
                    0,
                    b"\x01\x00\x00\x08\x00\x00\x00\x00\x01\x02\x00\x08\x00\x00\x00\x05",
                ),
                Reopen(0),
                OPEN_0,
            ],
            &["s0 0100000800000000\nsettled 0\n"],
        ),
    ];
    for (name, steps, lines) in rows.iter() {
        is_said(&rt, name, steps, lines);
    }
}
