//! What is said of a plan and its inputs: too many classes, what the driver does, or the first reason why the plan isn't certified.
ghost use Rattle.certificates.specs.Updates.{rollout, task_for};
ghost use Rattle.std.specs.Prelude.{◌≡◌, ◌≤◌, List, Ok, IfOk};
ghost use Rattle.flow_rules.specs.Tables.{rules_of_all};
ghost use Rattle.path_walk.specs.UserConfigs.{IsUserConfig};
ghost use Rattle.dest_classes.specs.Classes.{class_count};
ghost use Rattle.certificates.specs.Valid.{IsValidPlan};
ghost use Rattle.certificates.specs.Certified.{IsCertified, classes_for};
ghost use Rattle.plan_checker.specs.Fits.{Fits};
ghost use Rattle.driver_input.specs.Inputs.{AreInputs};
ghost use Rattle.command_base.specs.Updates.{meaning_of};
ghost use Rattle.command_base.specs.Replies.{answer_of};
ghost use Rattle.driver_input.specs.declared.inputs.InputLine.{InputLine};
ghost use Rattle.drive_command.specs.Driving.{driven_by};
ghost use Rattle.drive_command.specs.Driven.{IsDriven, IsDriveAnswer, SaysReport};

use crate::driving::{DriveFault, give_all};
use crate::report::report_text;
use certificates::Plan;
use command_base::{Reply, Status, UpdateFiles};
use driver_input::Inputs;
use net_base::Memory;
use plan_verdict::refusal_reply;
use replay_command::not_a_run_reply;
use schedule_pilot::laws::certified_begins_safely;
use std::alloc::Global;
use update_driver::Driver;

/// The report on the driver of a certified plan.
fn report_reply(
    alloc: Global,
    files: &UpdateFiles,
    plan: &Plan,
    driver: &Driver<'_>,
) -> Result<Reply, Memory>
    requires old { IsUserConfig files.now.net (rules_of_all files.now.old) }
    requires new { IsUserConfig files.now.net (rules_of_all files.now.new) }
    requires certified { IsCertified (task_for (meaning_of files.now) plan.now) plan.now.evidence }
    requires net { driver.now.net ≡ files.now.net }
    requires rounds { driver.now.rounds ≡ plan.now.rounds }
    ensures { IfOk result (λ r. (inputs : List InputLine) → AreInputs files.now.net inputs
        → driven_by files.now.net plan.now.rounds inputs ≡ Ok driver.now.state
        → SaysReport (rollout (task_for (meaning_of files.now) plan.now)) inputs (answer_of r)) }
{
    certified_begins_safely(&files.net, &files.old, &files.new, &files.demands, plan);
    files.net.keeps_rules();
    driver.keeps_rules();
    Ok(Reply {
        status: Status::Done,
        text: report_text(alloc, &files.net, driver, plan.rounds.count())?,
    })
}

/// What the driver of a certified plan does with the inputs.
fn driven_reply(
    alloc: Global,
    files: &UpdateFiles,
    plan: &Plan,
    inputs: &Inputs,
) -> Result<Reply, Memory>
    requires old { IsUserConfig files.now.net (rules_of_all files.now.old) }
    requires new { IsUserConfig files.now.net (rules_of_all files.now.new) }
    requires valid { IsValidPlan files.now.net plan.now }
    requires inputs { AreInputs files.now.net inputs.now }
    requires certified { IsCertified (task_for (meaning_of files.now) plan.now) plan.now.evidence }
    ensures { IfOk result
        (λ r. IsDriven (rollout (task_for (meaning_of files.now) plan.now)) inputs.now
        (answer_of r)) }
{
    let mut driver = Driver::make(alloc, &files.net, &plan.rounds)?;
    match give_all(&mut driver, inputs.list()) {
        Ok(()) => report_reply(alloc, files, plan, &driver),
        Err(DriveFault::NotARun(line)) => not_a_run_reply(alloc, line),
        Err(DriveFault::Memory) => Err(Memory),
    }
}

/// What is said of the plan of an update and of inputs: too many classes, what the driver of the plan does with the inputs, or
/// the first reason why the plan isn't certified.
pub fn drive_verdict(
    alloc: Global,
    files: &UpdateFiles,
    plan: &Plan,
    inputs: &Inputs,
) -> Result<Reply, Memory>
    requires old { IsUserConfig files.now.net (rules_of_all files.now.old) }
    requires new { IsUserConfig files.now.net (rules_of_all files.now.new) }
    requires valid { IsValidPlan files.now.net plan.now }
    requires inputs { AreInputs files.now.net inputs.now }
    ensures { IfOk result
        (λ r. IsDriveAnswer
        (record {
          check = record { update = meaning_of files.now; plan = plan.now };
          inputs = inputs.now;
        }) (answer_of r)) }
{
    match refusal_reply(alloc, files, plan)? {
        None => driven_reply(alloc, files, plan, inputs),
        Some(reply) => Ok(reply),
    }
}
