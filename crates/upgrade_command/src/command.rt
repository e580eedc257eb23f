//! The command that writes a plan in format 2.
ghost use Rattle.std.specs.Prelude.{◌≡◌, ◌≤◌, IfOk, IfErr};
ghost use Rattle.certificates.specs.Valid.{IsValidPlan};
ghost use Rattle.command_base.specs.Names.{plan_names_seen};
ghost use Rattle.command_base.specs.Readings.{reading_plan_files};
ghost use Rattle.command_base.specs.Replies.{answer_of, Meets};
ghost use Rattle.command_base.specs.Updates.{plan_meaning_of};
ghost use Rattle.upgrade_command.specs.Texts.{SaysPlan, IsUpgradeAnswer};

use certificates::Plan;
use command_base::{Exit, PlanFiles, PlanNames, Reply, Status, read_plan_files};
use file_access::Source;
use net_base::Memory;
use plan_text::write_plan;
use std::alloc::Global;
use topology::Net;

/// The text of a plan in format 2.
pub fn plan_reply(alloc: Global, net: &Net, plan: &Plan) -> Result<Reply, Memory>
    requires { IsValidPlan net.now plan.now }
    ensures { IfOk result (λ r. SaysPlan net.now plan.now (answer_of r)) }
{
    Ok(Reply {
        status: Status::Done,
        text: write_plan(alloc, net, plan)?,
    })
}

/// The text of the plan as the end of the command.
fn say_plan(alloc: Global, files: &PlanFiles) -> Result<Reply, Exit>
    requires { IsValidPlan files.now.net files.now.plan }
    ensures said { IfOk result (λ r. IsUpgradeAnswer (plan_meaning_of files.now) (answer_of r)) }
    ensures stops { IfErr result (λ e. e ≡ Exit.Memory) }
{
    Ok(plan_reply(alloc, &files.net, &files.plan)?)
}

/// Writes the text of the plan in format 2, whichever format the file has.
pub fn upgrade<S: Source>(
    alloc: Global,
    source: &mut S,
    names: &PlanNames<'_>,
) -> Result<Reply, Exit>
    ensures meets { Meets IsUpgradeAnswer (S.held source.old)
        (reading_plan_files (plan_names_seen names.now))
        (S.faults source.old) (S.faults source.new) result (S.selected source.new)
        (S.taken source.new) }
    ensures held { S.held source.new ≡ S.held source.old }
    ensures later { S.faults source.old ≤ S.faults source.new }
{
    let files = read_plan_files(alloc, source, names)?;
    let reply = say_plan(alloc, &files);
    drop(files);
    reply
}
