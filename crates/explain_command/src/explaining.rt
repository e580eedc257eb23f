//! The schedule of a run that breaks the duties of a class, or that there is none.
ghost use Rattle.certificates.specs.Updates.{rollout, task_for};
ghost use Rattle.std.specs.Prelude.{IfOk};
ghost use Rattle.path_walk.specs.UserConfigs.{IsUserConfig};
ghost use Rattle.flow_rules.specs.Tables.{rules_of_all};
ghost use Rattle.certificates.specs.Certified.{classes_for};
ghost use Rattle.certificates.specs.Valid.{IsValidPlan};
ghost use Rattle.plan_checker.specs.Fits.{Fits};
ghost use Rattle.update_model.specs.Mixtures.{AreGoodRounds, AreClearRounds};
ghost use Rattle.counter_run.specs.Explaining.{IsFirstBreakingRun};
ghost use Rattle.counter_run.specs.Showing.{AreFewFor};
ghost use Rattle.command_base.specs.Updates.{meaning_of};
ghost use Rattle.explain_command.specs.Explained.{IsBreakingSchedule, IsExplanation};

use certificates::Plan;
use command_base::UpdateFiles;
use counter_run::{Explained, explain};
use net_base::Memory;
use plan_checker::UpdateRoom;
use schedule_replay::{runs_have_lines, schedule_text};
use std::alloc::Global;
use update_model::Events;

/// The schedule of the events.
fn breaking_schedule(
    alloc: Global,
    files: &UpdateFiles,
    plan: &Plan,
    events: &Events,
) -> Result<Vec<u8>, Memory>
    requires valid { IsValidPlan files.now.net plan.now }
    requires first { let t = task_for (meaning_of files.now) plan.now in IsFirstBreakingRun
        (rollout t) (classes_for t) t.update.demands events.now }
    requires few { AreFewFor files.now.net plan.now.rounds events.now }
    ensures { IfOk result
        (λ text. IsBreakingSchedule (task_for (meaning_of files.now) plan.now) text.items) }
{
    files.net.keeps_rules();
    runs_have_lines(&files.net, &files.old, &plan.rounds, events);
    schedule_text(alloc, &files.net, events)
}

/// What is said of the mixed walks of a plan, in a room for its check.
pub fn explanation(
    alloc: Global,
    files: &UpdateFiles,
    plan: &Plan,
    room: &UpdateRoom,
) -> Result<Vec<u8>, Memory>
    requires old { IsUserConfig files.now.net (rules_of_all files.now.old) }
    requires valid { IsValidPlan files.now.net plan.now }
    requires fits { Fits (task_for (meaning_of files.now) plan.now) room.now }
    requires good { AreGoodRounds (rollout (task_for (meaning_of files.now) plan.now)) }
    requires clear { AreClearRounds (rollout (task_for (meaning_of files.now) plan.now)) }
    ensures { IfOk result
        (λ text. IsExplanation (task_for (meaning_of files.now) plan.now) text.items) }
{
    let (classes, duties) = (&room.classed.map, &room.classed.duties);
    match explain(alloc, &files.net, &files.old, &plan.rounds, duties, classes)? {
        Explained::Run(events) => breaking_schedule(alloc, files, plan, &events),
        Explained::Nothing => Ok(b"no run: every mixed walk is good\n".to_vec(alloc)?),
    }
}
