//! Sources and sinks that fail: blocks are written whole, until one can't be.
ghost use Rattle.std.specs.Prelude.{◌≤◌};

use crate::exchanges::{Exchange, add, blocks_of, lines_of};
use crate::served::{SQUARE_GREETING, said_of, served, served_into};
use command_base::Status;
use example_files::{Answer, UpdateTexts, none, single, square, update_source, wide};
use file_access::{MemorySink, MemorySource};
use net_base::Memory;
use std::alloc::Global;
use std::process::Abort;

/// HELLO to the single switch.
pub(crate) const GREETING: &str = "send a 0100000800000000\nok settled 0 of 2\n";

/// Lines over its update, with their blocks.
pub(crate) const EXCHANGES: [Exchange; 4] = [
    ("# hello", "ok settled 0 of 2\n"),
    ("start", "no open a\n"),
    ("", "ok settled 0 of 2\n"),
    (
        "feed a 0000000000000000",
        "failed a Version\nok settled 0 of 2\n",
    ),
];

/// More calls than any of these runs makes.
pub(crate) const MANY: u64 = 1000;

/// A source with the update of the single switch, its plan and the lines. A take gives at most so many bytes, at least 1; the call
/// of the given number fails, where calls count from 1.
pub(crate) fn source_of(
    alloc: Global,
    lines: &[u8],
    piece: usize,
    failing: u64,
) -> Result<MemorySource, Memory>
    requires { 1 ≤ piece }
{
    let texts = single::untagged_update();
    let mut source = MemorySource::make(alloc, piece, vec![in alloc; failing]?)?;
    source.add(
        String::from_str(alloc, "topology")?,
        texts.topology.to_vec(alloc)?,
    )?;
    source.add(String::from_str(alloc, "old")?, texts.old.to_vec(alloc)?)?;
    source.add(String::from_str(alloc, "new")?, texts.new.to_vec(alloc)?)?;
    source.add(
        String::from_str(alloc, "policy")?,
        texts.policy.to_vec(alloc)?,
    )?;
    let plan = single::narrowing_plan();
    source.add(String::from_str(alloc, "plan")?, plan.to_vec(alloc)?)?;
    source.add(String::from_str(alloc, "/dev/stdin")?, lines.to_vec(alloc)?)?;
    Ok(source)
}

/// A run into a sink whose put of the given number fails, and whose puts take at most so many bytes.
fn written(rt: &impl Abort, alloc: Global, lines: &[u8], piece: usize, failing: u64) -> Answer
    requires { 1 ≤ piece }
{
    let failing = vec![in alloc; failing].expect(rt, "memory");
    let sink = MemorySink::make(alloc, 4096, piece, failing);
    let mut sink = sink.expect(rt, "a sink");
    let source = source_of(alloc, lines, 4096, 0);
    let mut source = source.expect(rt, "a source");
    served_into(rt, alloc, &mut source, &mut sink)
}

#[test]
fn a_put_that_fails_leaves_what_came_before_it(rt: HostRuntime) {
    let alloc = rt.alloc();
    let lines = lines_of(&rt, alloc, &EXCHANGES);
    let blocks = blocks_of(&rt, alloc, GREETING, &EXCHANGES);
    for count in 0..blocks.len() {
        let answer = written(&rt, alloc, &lines, 1, count as u64 + 1);
        assert!(rt; answer.is(Status::WriteFault, &blocks[..count]), "{count}");
    }
    let answer = written(&rt, alloc, &lines, 1, blocks.len() as u64 + 1);
    assert!(rt; answer.is(Status::Done, &blocks));
}

#[test]
fn each_block_is_put_by_itself(rt: HostRuntime) {
    let alloc = rt.alloc();
    let lines = lines_of(&rt, alloc, &EXCHANGES);
    for count in 0..EXCHANGES.len() {
        let blocks = blocks_of(&rt, alloc, GREETING, &EXCHANGES[..count]);
        let answer = written(&rt, alloc, &lines, 4096, count as u64 + 2);
        assert!(rt; answer.is(Status::WriteFault, &blocks), "{count}");
    }
}

/// A run over a source whose call of the given number fails, and whose takes give 16 bytes at most.
fn read(rt: &impl Abort, alloc: Global, lines: &[u8], failing: u64) -> Answer {
    let source = source_of(alloc, lines, 16, failing);
    let mut source = source.expect(rt, "a source");
    served(rt, alloc, &mut source)
}

/// The number of the call that selects the lines: those before it fetch the files, and nothing is written where they fail.
pub(crate) fn call_for_lines(rt: &impl Abort, alloc: Global, lines: &[u8]) -> u64 {
    for failing in 1..MANY {
        let answer = read(rt, alloc, lines, failing);
        assert!(rt; answer.status == Status::ReadFault);
        if !answer.text.is_empty() {
            return failing;
        }
    }
    MANY
}

/// The block of line 0, and those of the lines that so many bytes end.
pub(crate) fn ended_blocks(rt: &impl Abort, alloc: Global, lines: &[u8], bytes: usize) -> Vec<u8> {
    let mut blocks = blocks_of(rt, alloc, GREETING, &[]);
    let mut exchanges = EXCHANGES.iter();
    for byte in lines.iter().take(bytes) {
        if *byte == b'\n' {
            let (_, block) = exchanges.next().expect(rt, "a line");
            add(rt, &mut blocks, block.as_bytes());
        }
    }
    blocks
}

#[test]
fn a_take_that_fails_leaves_the_blocks_of_ended_lines(rt: HostRuntime) {
    let alloc = rt.alloc();
    let mut lines = lines_of(&rt, alloc, &EXCHANGES);
    add(&rt, &mut lines, b"start");
    let select = call_for_lines(&rt, alloc, &lines);
    let answer = read(&rt, alloc, &lines, select);
    assert!(rt; answer.is(Status::ReadFault, GREETING.as_bytes()));
    let mut come = 0_usize;
    for failing in select.saturating_add(1)..MANY {
        let answer = read(&rt, alloc, &lines, failing);
        if answer.status == Status::Done {
            break;
        }
        let blocks = ended_blocks(&rt, alloc, &lines, come);
        assert!(rt; answer.is(Status::ReadFault, &blocks), "{come}");
        come = come.saturating_add(16);
    }
    // The last take that failed was the one that finds the end.
    assert!(rt; come >= lines.len().saturating_add(16), "{come}");
}

#[test]
fn lines_that_are_not_held_are_a_fault_of_reading(rt: HostRuntime) {
    let alloc = rt.alloc();
    let source = update_source(alloc, &square::update(), square::plan(), 4096, 0);
    let mut source = source.expect(&rt, "a source");
    let answer = served(&rt, alloc, &mut source);
    assert!(rt; answer.is(Status::ReadFault, SQUARE_GREETING.as_bytes()));
}

#[test]
fn other_plans_are_answered_as_check_does(rt: HostRuntime) {
    let alloc = rt.alloc();
    let topology = wide::topology(alloc).expect(&rt, "memory");
    let rows: [(UpdateTexts<'_>, &[u8], Status, &[u8]); 3] = [
        (
            square::update(),
            square::both_at_once(),
            Status::Refused,
            b"refused: 7 NotLower round 1 at s1:1 untagged 10.0.0.0 switch s3\n",
        ),
        (
            wide::update(&topology),
            none::no_rounds(),
            Status::BadFile,
            b"too many classes: 12288\n",
        ),
        (
            square::update(),
            b"",
            Status::BadFile,
            b"bad plan: 1 NotJson at 0\n",
        ),
    ];
    for (update, plan, status, line) in rows {
        let answer = said_of(&rt, alloc, &update, plan, b"start\n");
        assert!(rt; answer.is(status, line));
    }
}
