//! Lines with the blocks that answer them.
use std::alloc::Global;
use std::process::Abort;

/// A line, without its line end, and the block that answers it.
pub(crate) type Exchange = (&'static str, &'static str);

pub(crate) fn add(rt: &impl Abort, text: &mut Vec<u8>, more: &[u8]) {
    text.extend_from_slice(more).expect(rt, "memory");
}

/// Whether a line ends with this byte.
pub(crate) fn is_line_end(byte: &u8) -> bool {
    *byte == b'\n'
}

/// The lines, each with its line end.
pub(crate) fn lines_of(rt: &impl Abort, alloc: Global, exchanges: &[Exchange]) -> Vec<u8> {
    let mut lines = Vec::new(alloc);
    for (line, _) in exchanges.iter() {
        add(rt, &mut lines, line.as_bytes());
        add(rt, &mut lines, b"\n");
    }
    lines
}

/// The block of line 0, and then that of each line.
pub(crate) fn blocks_of(
    rt: &impl Abort,
    alloc: Global,
    first: &str,
    exchanges: &[Exchange],
) -> Vec<u8> {
    let mut blocks = Vec::new(alloc);
    add(rt, &mut blocks, first.as_bytes());
    for (_, block) in exchanges.iter() {
        add(rt, &mut blocks, block.as_bytes());
    }
    blocks
}
