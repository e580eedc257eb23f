//! Two switches a and b, with a link from a to b, and two rounds of every kind of change.
//!
//! The first round inserts at a a rule that sends 10.0.0.0/24 out of port 2, makes b drop these addresses in place of sending
//! them out of port 2, and inserts at a a rule that drops 10.0.1.0/24. The second deletes the rule of b.
use crate::exchanges::{Exchange, add, blocks_of, is_line_end, lines_of};
use crate::served::said_of;
use command_base::Status;
use example_files::{UpdateTexts, none, pair};
use std::alloc::Global;
use std::process::Abort;

fn old() -> &'static [u8] {
    br#"{"rules":[{"switch":"b","priority":100,"dst":"10.0.0.0/24","out":2}]}"#
}

fn new() -> &'static [u8] {
    br#"{"rules":[{"switch":"a","priority":100,"dst":"10.0.0.0/24","out":2},{"switch":"a","priority":100,"dst":"10.0.1.0/24","out":"drop"}]}"#
}

fn plan() -> &'static [u8] {
    br#"{"befores":[],"format":2,"kind":"ordered","numberings":[[1,0]],"picks":[[1,0,0],[1,1,0],[1,2,0],[1,3,0],[1,4,0],[1,5,0],[1,6,0],[1,7,0]],"rounds":[[["insert",0],["replace",1],["insert",2]],[["delete",1]]],"rules":[{"dst":"10.0.0.0/24","out":2,"priority":100,"switch":"a"},{"dst":"10.0.0.0/24","out":"drop","priority":100,"switch":"b"},{"dst":"10.0.1.0/24","out":"drop","priority":100,"switch":"a"}],"uses":[[0,[]]]}"#
}

/// HELLO to both switches.
const GREETING: &str = "send a 0100000800000000\nsend b 0100000800000000\nok settled 0 of 2\n";

/// HELLO comes from them.
pub(crate) const OPEN_A: Exchange = ("feed a 0100000800000000", "ok settled 0 of 2\n");

pub(crate) const OPEN_B: Exchange = ("feed b 0100000800000000", "ok settled 0 of 2\n");

/// The first round begins. Of a flow message the header stands here, the address, the command (0 inserts, 2 replaces, 4
/// deletes) and the actions.
pub(crate) const START: Exchange = (
    "start",
    "start\nsend a 010e005000000001 0a000000 0000 0000000800020000\nsend b 010e004800000002 0a000000 0002 \nsend a 010e004800000003 0a000100 0000 \nsend a 0112000800000004\nsend b 0112000800000005\nok running 1 of 2\n",
);

/// It is turned while it runs.
pub(crate) const TURN: Exchange = (
    "back",
    "send a 010e004800000006 0a000100 0004 \nsend b 010e005000000007 0a000000 0002 0000000800020000\nsend a 010e004800000008 0a000000 0004 \nsend a 0112000800000009\nsend b 011200080000000a\nok running 1 of 2\n",
);

/// The first round is in force at a, and at b.
pub(crate) const DONE_A: Exchange = (
    "feed a 0113000800000004",
    "change 0\nchange 2\nok running 1 of 2\n",
);

pub(crate) const DONE_B: Exchange = ("feed b 0113000800000005", "change 1\nok running 1 of 2\n");

/// Adds a line of a block: of a flow message, to a switch with a name of one letter, what `START` has of it.
fn add_short(rt: &impl Abort, text: &mut Vec<u8>, line: &[u8]) {
    if line.len() < 151 {
        add(rt, text, line);
    } else {
        add(rt, text, &line[0..23]);
        add(rt, text, b" ");
        add(rt, text, &line[87..95]);
        add(rt, text, b" ");
        add(rt, text, &line[119..123]);
        add(rt, text, b" ");
        add(rt, text, &line[151..line.len()]);
    }
    add(rt, text, b"\n");
}

/// Blocks with short lines for flow messages.
fn shortened(rt: &impl Abort, alloc: Global, blocks: &[u8]) -> Vec<u8> {
    let mut short = Vec::new(alloc);
    for line in blocks.split(is_line_end) {
        if !line.is_empty() {
            add_short(rt, &mut short, line);
        }
    }
    short
}

/// Each of these lines is answered by its block.
pub(crate) fn is_said(rt: &impl Abort, alloc: Global, name: &str, exchanges: &[Exchange]) {
    let update = UpdateTexts {
        topology: pair::topology(),
        old: old(),
        new: new(),
        policy: none::no_demands(),
    };
    let lines = lines_of(rt, alloc, exchanges);
    let answer = said_of(rt, alloc, &update, plan(), &lines);
    assert!(rt; answer.status == Status::Done, "{name}");
    let wanted = blocks_of(rt, alloc, GREETING, exchanges);
    let said = shortened(rt, alloc, &answer.text);
    assert!(rt; said.as_slice() == wanted.as_slice(), "{name}");
}
