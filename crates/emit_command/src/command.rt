//! The command that writes the messages of a plan.
ghost use Rattle.std.specs.Prelude.{◌≡◌, ◌≤◌, IfOk};
ghost use Rattle.certificates.specs.Valid.{IsValidPlan};
ghost use Rattle.command_base.specs.Names.{plan_names_seen};
ghost use Rattle.command_base.specs.Readings.{reading_plan_files};
ghost use Rattle.command_base.specs.Replies.{answer_of, Meets};
ghost use Rattle.emit_command.specs.Answers.{SaysMessages, IsEmitAnswer};

use crate::lines::emit_lines;
use certificates::Plan;
use command_base::{Exit, PlanNames, Reply, Status, read_plan_files};
use file_access::Source;
use net_base::Memory;
use openflow10::each_message_has_its_own_text;
use std::alloc::Global;
use topology::Net;

/// The lines of a plan's messages.
pub fn emit_reply(alloc: Global, net: &Net, plan: &Plan) -> Result<Reply, Memory>
    requires { IsValidPlan net.now plan.now }
    ensures { IfOk result (λ r. SaysMessages net.now plan.now.rounds (answer_of r)) }
{
    net.keeps_rules();
    each_message_has_its_own_text();
    Ok(Reply {
        status: Status::Done,
        text: emit_lines(alloc, net, &plan.rounds)?,
    })
}

/// Writes the OpenFlow 1.0 messages that carry the plan out, one a line. In each round come the changes in order, then one barrier
/// request for each switch with a change, ascending.
pub fn emit<S: Source>(alloc: Global, source: &mut S, names: &PlanNames<'_>) -> Result<Reply, Exit>
    ensures meets { Meets IsEmitAnswer (S.held source.old)
        (reading_plan_files (plan_names_seen names.now))
        (S.faults source.old) (S.faults source.new) result (S.selected source.new)
        (S.taken source.new) }
    ensures held { S.held source.new ≡ S.held source.old }
    ensures later { S.faults source.old ≤ S.faults source.new }
{
    let files = read_plan_files(alloc, source, names)?;
    Ok(emit_reply(alloc, &files.net, &files.plan)?)
}
