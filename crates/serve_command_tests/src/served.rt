//! What `serve` writes over the files of an update, with lines as the standard input.
use check_base::CheckNames;
use example_files::{Answer, UpdateTexts, served_source, square, update_names};
use file_access::{MemorySink, MemorySource};
use serve_command::{SourceBeside, serve};
use std::alloc::Global;
use std::process::Abort;

/// What is written before any line over the square: HELLO to each switch.
pub(crate) const SQUARE_GREETING: &str =
    "send s1 0100000800000000\nsend s2 0100000800000000\nsend s3 0100000800000000\nsend s4 0100000800000000\nok settled 0 of 2\n";

/// How `serve` ends over a source, and what it writes into a sink.
pub(crate) fn served_into<S: SourceBeside<MemorySink>>(
    rt: &impl Abort,
    alloc: Global,
    source: &mut S,
    sink: &mut MemorySink,
) -> Answer {
    let names = CheckNames {
        update: update_names(),
        plan: "plan",
    };
    let status = serve(alloc, source, sink, &names);
    let text = sink.bytes().to_vec(alloc).expect(rt, "memory");
    Answer { status, text }
}

/// How `serve` ends over a source, and what it writes where no write fails.
pub(crate) fn served(rt: &impl Abort, alloc: Global, source: &mut MemorySource) -> Answer {
    let sink = MemorySink::make(alloc, 65536, 65536, Vec::new(alloc));
    let mut sink = sink.expect(rt, "a sink");
    served_into(rt, alloc, source, &mut sink)
}

/// What `serve` says of lines, over an update and its plan.
pub(crate) fn said_of(
    rt: &impl Abort,
    alloc: Global,
    texts: &UpdateTexts<'_>,
    plan: &[u8],
    lines: &[u8],
) -> Answer {
    let source = served_source(alloc, texts, plan, lines, 4096);
    let mut source = source.expect(rt, "a source");
    served(rt, alloc, &mut source)
}

/// What `serve` says of lines, over the square.
pub(crate) fn said_of_square(rt: &impl Abort, alloc: Global, lines: &[u8]) -> Answer {
    said_of(rt, alloc, &square::update(), square::plan(), lines)
}
