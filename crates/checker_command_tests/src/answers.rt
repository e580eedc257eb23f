//! What the commands answer over the files of an update and a plan, which are held in memory.
use check_base::CheckNames;
use check_command::check;
use example_files::{Answer, UpdateTexts, answer_of, update_names, update_source};
use file_access::MemorySource;
use replay_command::{ReplayNames, replay};
use std::alloc::Global;
use std::process::Abort;

/// A source that holds the files. The call of the given number fails.
pub(crate) fn held(
    rt: &impl Abort,
    alloc: Global,
    texts: &UpdateTexts<'_>,
    plan: &[u8],
    failing: u64,
) -> MemorySource {
    update_source(alloc, texts, plan, 4096, failing).expect(rt, "a source")
}

/// The names by which they are held.
pub(crate) fn check_names() -> CheckNames<'static> {
    CheckNames {
        update: update_names(),
        plan: "plan",
    }
}

/// What `check` answers, where the call of the given number fails.
pub(crate) fn checked(
    rt: &impl Abort,
    alloc: Global,
    texts: &UpdateTexts<'_>,
    plan: &[u8],
    failing: u64,
) -> Answer {
    let mut source = held(rt, alloc, texts, plan, failing);
    answer_of(alloc, check(alloc, &mut source, &check_names()))
}

/// What `replay` answers to the schedule. It is held in the place of the policy, which `replay` doesn't read.
pub(crate) fn replayed(
    rt: &impl Abort,
    alloc: Global,
    texts: &UpdateTexts<'_>,
    plan: &[u8],
    schedule: &[u8],
) -> Answer {
    let texts = UpdateTexts {
        policy: schedule,
        ..*texts
    };
    let mut source = held(rt, alloc, &texts, plan, 0);
    let names = ReplayNames {
        topology: "topology",
        old: "old",
        plan: "plan",
        schedule: "policy",
    };
    answer_of(alloc, replay(alloc, &mut source, &names))
}
