//! Sources in memory that hold the files of an update.
use example_files::{UpdateTexts, update_source};
use file_access::MemorySource;
use std::alloc::Global;
use std::process::Abort;

/// A source that holds the files of the update and the plan. The call of the given number fails.
pub(crate) fn held(
    rt: &impl Abort,
    alloc: Global,
    texts: &UpdateTexts<'_>,
    plan: &[u8],
    failing: u64,
) -> MemorySource {
    update_source(alloc, texts, plan, 4096, failing).expect(rt, "a source")
}
