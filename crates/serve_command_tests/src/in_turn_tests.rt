//! Each line is answered before what stands behind it is taken.
ghost use Rattle.std.specs.Prelude.{◌≤◌};

use crate::exchanges::{add, blocks_of, lines_of};
use crate::fault_tests::{EXCHANGES, GREETING, MANY, call_for_lines, ended_blocks, source_of};
use crate::noting::{NotedTake, NotingSource};
use crate::served::served_into;
use command_base::Status;
use example_files::Answer;
use file_access::MemorySink;
use std::alloc::Global;
use std::process::Abort;

/// A run over lines of which a take gives so many bytes at most, with its takes; the call of the given number fails.
fn noted(
    rt: &impl Abort,
    alloc: Global,
    lines: &[u8],
    piece: usize,
    failing: u64,
) -> (Answer, Vec<NotedTake>)
    requires { 1 ≤ piece }
{
    let source = source_of(alloc, lines, piece, failing).expect(rt, "a source");
    let takes = Vec::new(alloc);
    let mut source = NotingSource {
        rt,
        alloc,
        source,
        takes,
    };
    let sink = MemorySink::make(alloc, 65536, 65536, Vec::new(alloc));
    let mut sink = sink.expect(rt, "a sink");
    let answer = served_into(rt, alloc, &mut source, &mut sink);
    let NotingSource {
        rt: _,
        alloc: _,
        source: _files,
        takes,
    } = source;
    (answer, takes)
}

/// At each take exactly the blocks were put of line 0 and of the lines that the bytes taken before end. The count of those bytes.
fn taken_in_turn(rt: &impl Abort, alloc: Global, lines: &[u8], takes: &[NotedTake]) -> usize {
    let mut come = 0_usize;
    for take in takes {
        let due = ended_blocks(rt, alloc, lines, come);
        assert!(rt; take.put.as_slice() == due.as_slice(), "{come}");
        if let Some(given) = &take.given {
            come = come.saturating_add(given.len());
        }
    }
    come
}

/// All lines are answered, and each take of so many bytes at most stands behind the blocks that were due.
fn is_in_turn(rt: &impl Abort, alloc: Global, piece: usize)
    requires { 1 ≤ piece }
{
    let mut lines = lines_of(rt, alloc, &EXCHANGES);
    add(rt, &mut lines, b"start");
    let mut blocks = blocks_of(rt, alloc, GREETING, &EXCHANGES);
    add(rt, &mut blocks, b"no open a\n");
    let (answer, takes) = noted(rt, alloc, &lines, piece, 0);
    assert!(rt; answer.is(Status::Done, &blocks), "{piece}");
    let come = taken_in_turn(rt, alloc, &lines, &takes);
    assert!(rt; come == lines.len(), "{piece}");
}

#[test]
fn a_take_stands_behind_the_blocks_of_all_lines_before_it(rt: HostRuntime) {
    let alloc = rt.alloc();
    is_in_turn(&rt, alloc, 1);
    is_in_turn(&rt, alloc, 7);
    is_in_turn(&rt, alloc, 16);
    is_in_turn(&rt, alloc, 4096);
}

#[test]
fn a_take_that_fails_stands_behind_them_too(rt: HostRuntime) {
    let alloc = rt.alloc();
    let mut lines = lines_of(&rt, alloc, &EXCHANGES);
    add(&rt, &mut lines, b"start");
    let select = call_for_lines(&rt, alloc, &lines);
    for failing in select.saturating_add(1)..MANY {
        let (answer, takes) = noted(&rt, alloc, &lines, 16, failing);
        let come = taken_in_turn(&rt, alloc, &lines, &takes);
        if answer.status == Status::Done {
            break;
        }
        let blocks = ended_blocks(&rt, alloc, &lines, come);
        assert!(rt; answer.is(Status::ReadFault, &blocks), "{come}");
    }
}
