//! What is said of the plan that is simulated: too many classes, the record of a simulation, or the first reason why the plan isn't certified.
ghost use Rattle.std.specs.Prelude.{◌≤◌, IfOk};
ghost use Rattle.flow_rules.specs.Tables.{rules_of_all};
ghost use Rattle.path_walk.specs.UserConfigs.{IsUserConfig};
ghost use Rattle.dest_classes.specs.Classes.{class_count};
ghost use Rattle.certificates.specs.Valid.{IsValidPlan};
ghost use Rattle.certificates.specs.Certified.{classes_for};
ghost use Rattle.plan_checker.specs.Fits.{Fits};
ghost use Rattle.certificates.specs.Updates.{task_for};
ghost use Rattle.command_base.specs.Updates.{meaning_of};
ghost use Rattle.command_base.specs.Replies.{answer_of};
ghost use Rattle.simulate_command.specs.Simulated.{IsSimulateAnswer};

use crate::names::SimulateNames;
use crate::simulation::simulation_text;
use certificates::Plan;
use check_base::refused_reply;
use command_base::{Reply, Status, UpdateFiles, no_classes_reply};
use net_base::Memory;
use plan_verdict::{PlanVerdict, plan_verdict};
use std::alloc::Global;

/// What is said of the plan of an update that is simulated: too many classes, the record of a simulation, or the first reason
/// why the plan isn't certified.
pub fn simulation_verdict(
    alloc: Global,
    files: &UpdateFiles,
    plan: &Plan,
    names: &SimulateNames<'_>,
) -> Result<Reply, Memory>
    requires old { IsUserConfig files.now.net (rules_of_all files.now.old) }
    requires new { IsUserConfig files.now.net (rules_of_all files.now.new) }
    requires valid { IsValidPlan files.now.net plan.now }
    ensures { IfOk result
        (λ r. IsSimulateAnswer names.now.start names.now.count
        (record { update = meaning_of files.now; plan = plan.now }) (answer_of r)) }
{
    match plan_verdict(alloc, files, plan) {
        Ok(PlanVerdict::Certified(room)) => {
            let text = simulation_text(
                alloc,
                files,
                plan,
                room.classes(),
                names.start,
                names.count,
            );
            drop(room);
            Ok(Reply {
                status: Status::Done,
                text: text?,
            })
        }
        Ok(PlanVerdict::Refused(reason, class)) => {
            refused_reply(alloc, &files.net, class, reason)
        }
        Err(fault) => no_classes_reply(alloc, fault),
    }
}
