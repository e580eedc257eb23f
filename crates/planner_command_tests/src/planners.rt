//! The commands that plan an update, over files in memory, and `check` of what they planned.
use check_base::CheckNames;
use check_command::check;
use command_base::Status;
use example_files::{Answer, UpdateTexts, answer_of, update_names, update_source};
use pack_command::{PackKind, PackNames, pack};
use plan_command::plan;
use std::alloc::Global;
use std::process::Abort;

/// A command that plans an update: `plan`, or `pack` without KIND or with one.
#[derive(Clone, Copy)]
pub(crate) enum Planner {
    Plan,
    Pack,
    PackOrdered,
    PackTwoPhase,
}

/// The names of an update for `pack`, with a kind.
fn pack_names(kind: PackKind) -> PackNames<'static> {
    PackNames {
        files: update_names(),
        kind,
    }
}

/// What the command answers, where the call of the given number fails.
pub(crate) fn answer_by(
    rt: &impl Abort,
    alloc: Global,
    planner: Planner,
    texts: &UpdateTexts<'_>,
    failing: u64,
) -> Answer {
    let source = update_source(alloc, texts, b"", 4096, failing);
    let mut source = source.expect(rt, "a source");
    let kind = match planner {
        Planner::Plan => return answer_of(alloc, plan(alloc, &mut source, &update_names())),
        Planner::Pack => PackKind::Any,
        Planner::PackOrdered => PackKind::Ordered,
        Planner::PackTwoPhase => PackKind::TwoPhase,
    };
    answer_of(alloc, pack(alloc, &mut source, &pack_names(kind)))
}

/// What `check` answers to the update and the plan.
pub(crate) fn checked(
    rt: &impl Abort,
    alloc: Global,
    texts: &UpdateTexts<'_>,
    plan: &[u8],
) -> Answer {
    let source = update_source(alloc, texts, plan, 4096, 0);
    let mut source = source.expect(rt, "a source");
    let names = CheckNames {
        update: update_names(),
        plan: "plan",
    };
    answer_of(alloc, check(alloc, &mut source, &names))
}

/// For each of the updates the command makes its plan, which is accepted by its line.
pub(crate) fn are_planned(
    rt: &impl Abort,
    alloc: Global,
    planner: Planner,
    rows: &[(UpdateTexts<'_>, &[u8], &[u8])],
) {
    for (i, (texts, text, line)) in rows.iter().enumerate() {
        let answer = answer_by(rt, alloc, planner, texts, 0);
        assert!(rt; answer.is(Status::Done, text), "row {i}");
        let verdict = checked(rt, alloc, texts, text);
        assert!(rt; verdict.is(Status::Done, line), "row {i}");
    }
}
