//! The command that plans and checks a ring.
ghost use Rattle.std.specs.Prelude.{◌≡◌, IfOk, IfErr, ◌*◌, ◌-◌, length};
ghost use Rattle.flow_rules.specs.Tables.{rules_of_all};
ghost use Rattle.path_walk.specs.UserConfigs.{IsUserConfig};
ghost use Rattle.dest_classes.specs.Classes.{class_count};
ghost use Rattle.update_model.specs.Remaining.{remaining_changes};
ghost use Rattle.certificates.specs.Certified.{IsCertified, classes_for};
ghost use Rattle.certificates.specs.Trees.{IsTreeUpdate};
ghost use Rattle.certificates.specs.Updates.{task_for};
ghost use Rattle.certificates.specs.Valid.{IsValidPlan};
ghost use Rattle.round_planner.specs.Ends.{IsPlanOf};
ghost use Rattle.command_base.specs.Replies.{answer_of};
ghost use Rattle.command_base.specs.Updates.{meaning_of};
ghost use Rattle.round_planner.specs.Updates.{update_target, update_count, bare_task, KeepsConsistent};
ghost use Rattle.ring_sample.specs.Ring.{ring_tables, ring_update as the_ring};
ghost use Rattle.sample_command.specs.Summaries.{ring_classes, IsSummary, SaysSummary};

use crate::planning::{checked_classes, tree_plan};
use crate::summary::sample_line;
use certificates::laws::certified_consistent;
use certificates::{Evidence, Plan};
use command_base::{Exit, Reply, Status, UpdateFiles};
use net_base::Memory;
use ring_sample::{RingSize, ring_update};
use std::alloc::Global;

/// The line on a plan of the ring and its classes.
fn summary(alloc: Global, size: RingSize, plan: &Plan, classes: u32) -> Result<Vec<u8>, Memory>
    requires searched { IsPlanOf (update_target (the_ring size.switches))
        (ring_tables size.switches 2) plan.now }
    requires keeps { KeepsConsistent (the_ring size.switches) plan.now }
    requires rounds { length plan.now.rounds ≡ 4 * (size.switches - 1) }
    requires counted { classes ≡ ring_classes size.switches plan.now }
    requires classes { classes ≡ 6 * size.switches }
    ensures { IfOk result (λ t. IsSummary size.switches t.items) }
{
    match &plan.evidence {
        Evidence::Ordered(evidence) => sample_line(
            alloc,
            size.switches,
            plan.rounds.count(),
            classes,
            evidence,
        ),
        Evidence::TwoPhase(_) => unreachable!(),
    }
}

/// Checks the plan of the ring's update, and says so in a line.
fn checked_reply(
    alloc: Global,
    size: RingSize,
    files: &UpdateFiles,
    plan: &Plan,
) -> Result<Reply, Memory>
    requires meaning { meaning_of files.now ≡ the_ring size.switches }
    requires old { IsUserConfig files.now.net (rules_of_all files.now.old) }
    requires new { IsUserConfig files.now.net (rules_of_all files.now.new) }
    requires searched { IsPlanOf (update_target (the_ring size.switches))
        (ring_tables size.switches 2) plan.now }
    requires valid { IsValidPlan files.now.net plan.now }
    requires certified { IsCertified (task_for (meaning_of files.now) plan.now) plan.now.evidence }
    requires rounds { length plan.now.rounds ≡ 4 * (size.switches - 1) }
    requires classes { class_count (classes_for (task_for (meaning_of files.now) plan.now))
        ≡ 6 * size.switches }
    ensures { IfOk result (λ r. SaysSummary size.switches (answer_of r)) }
{
    let classes = checked_classes(alloc, files, plan)?;
    certified_consistent(&files.net, &files.old, &files.new, &files.demands, plan);
    Ok(Reply {
        status: Status::Done,
        text: summary(alloc, size, plan, classes)?,
    })
}

/// Plans the update of the ring, checks the plan, and says so in a line.
fn planned_reply(alloc: Global, size: RingSize, files: &UpdateFiles) -> Result<Reply, Memory>
    requires meaning { meaning_of files.now ≡ the_ring size.switches }
    requires tree { IsTreeUpdate (bare_task (meaning_of files.now)) }
    requires classes { update_count (meaning_of files.now) ≡ 6 * size.switches }
    requires differ { length
        (remaining_changes (rules_of_all files.now.old) (rules_of_all files.now.new))
        ≡ 4 * (size.switches - 1) }
    requires old { IsUserConfig files.now.net (rules_of_all files.now.old) }
    requires new { IsUserConfig files.now.net (rules_of_all files.now.new) }
    ensures { IfOk result (λ r. SaysSummary size.switches (answer_of r)) }
{
    let plan = tree_plan(alloc, files)?;
    let reply = checked_reply(alloc, size, files, &plan);
    drop(plan);
    reply
}

/// Makes the ring of so many switches, plans its update, checks the plan, and says so in a line. It reads no file, so its
/// dialogue ends at once, with the number of the switches.
///
/// # Errors
///
/// `Memory` alone.
pub fn sample(alloc: Global, size: RingSize) -> Result<Reply, Exit>
    ensures said { IfOk result (λ r. SaysSummary size.switches (answer_of r)) }
    ensures stops { IfErr result (λ e. e ≡ Exit.Memory) }
{
    let files = ring_update(alloc, size)?;
    let reply = planned_reply(alloc, size, &files);
    drop(files);
    Ok(reply?)
}
