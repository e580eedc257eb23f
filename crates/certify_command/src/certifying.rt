//! What is said of the rounds of a plan: too many classes, the text with evidence that certifies them, or why none does.
ghost use Rattle.std.specs.Prelude.{◌≡◌, IfOk, IfErr, OnOk, false};
ghost use Rattle.flow_rules.specs.Tables.{rules_of_all};
ghost use Rattle.path_walk.specs.UserConfigs.{IsUserConfig};
ghost use Rattle.certificates.specs.Valid.{IsValidPlan};
ghost use Rattle.certificates.specs.Certified.{IsCertified, is_two_phase};
ghost use Rattle.certificates.specs.Updates.{task_for, rollout};
ghost use Rattle.certificates.specs.declared.Evidence.TheVariants.{Ordered};
ghost use Rattle.plan_checker.specs.Fits.{Fits};
ghost use Rattle.command_base.specs.Updates.{meaning_of};
ghost use Rattle.command_base.specs.Replies.{answer_of};
ghost use Rattle.round_judge.specs.Evidence.{IsSearchEvidence};
ghost use Rattle.round_certifier.specs.Refusals.{IsFirstRefusal, OfRefusal};
ghost use Rattle.round_certifier.specs.Standing.{target_for};
ghost use Rattle.certify_command.specs.Answers.{IsCertifiable, IsCertifiedText, IsCertifyAnswer, case_in};
ghost use Rattle.certify_command.specs.Lines.{uncertified_line};

use crate::cause_lines::{named_class, uncertified_line};
use certificates::laws::certified_consistent;
use certificates::{OrderedEvidence, Plan};
use check_reasons::Case;
use command_base::{Reply, Status, UpdateFiles, no_classes_reply};
use dest_classes::Class;
use net_base::Memory;
use plan_checker::UpdateRoom;
use round_certifier::{CertifyFault, Refusal, certify, with_evidence};
use std::alloc::Global;
use topology::Net;
use upgrade_command::plan_reply;

/// The reply by the rounds with their evidence.
fn evidence_reply(
    alloc: Global,
    files: &UpdateFiles,
    plan: Plan,
    evidence: OrderedEvidence,
) -> Result<Reply, Memory>
    requires old { IsUserConfig files.now.net (rules_of_all files.now.old) }
    requires new { IsUserConfig files.now.net (rules_of_all files.now.new) }
    requires valid { IsValidPlan files.now.net
        (record { rounds = plan.rounds; evidence = Ordered evidence }) }
    requires searched { IsSearchEvidence (target_for (task_for (meaning_of files.now) plan))
        (rollout (task_for (meaning_of files.now) plan)) evidence }
    requires certified { IsCertified (task_for (meaning_of files.now) plan) (Ordered evidence) }
    ensures status { IfOk result (λ r. (answer_of r).status ≡ Status.Done) }
    ensures text { IfOk result
        (λ r. IsCertifiedText (record { update = meaning_of files.now; plan = plan })
        (answer_of r).text) }
{
    let plan = with_evidence(plan, evidence);
    certified_consistent(&files.net, &files.old, &files.new, &files.demands, &plan);
    let reply = plan_reply(alloc, &files.net, &plan);
    drop(plan);
    reply
}

/// The reply on rounds that no evidence certifies.
fn cause_reply(
    alloc: Global,
    net: &Net,
    class: Option<Class>,
    cause: Refusal,
) -> Result<Reply, Memory>
    ensures { IfOk result
        (λ r. answer_of r
        ≡ record { status = Status.Refused; text = uncertified_line net.now class cause }) }
{
    Ok(Reply {
        status: Status::Refused,
        text: uncertified_line(alloc, net, class, cause)?,
    })
}

/// Evidence that certifies the rounds of the plan, in a room for its check.
fn find_evidence(
    alloc: Global,
    files: &UpdateFiles,
    plan: &Plan,
    room: &mut UpdateRoom,
) -> Result<OrderedEvidence, CertifyFault>
    requires old { IsUserConfig files.now.net (rules_of_all files.now.old) }
    requires new { IsUserConfig files.now.net (rules_of_all files.now.new) }
    requires valid { IsValidPlan files.now.net plan.now }
    requires fits { Fits (task_for (meaning_of files.now) plan.now) room.old }
    ensures searched { IfOk result
        (IsSearchEvidence (target_for (task_for (meaning_of files.now) plan.now))
        (rollout (task_for (meaning_of files.now) plan.now))) }
    ensures certified { IfOk result (λ e.
        IsCertified (task_for (meaning_of files.now) plan.now) (Ordered e)) }
    ensures valid { IfOk result (λ e. IsValidPlan files.now.net
        (record { rounds = plan.now.rounds; evidence = Ordered e })) }
    ensures ordered { OnOk result (is_two_phase plan.now.evidence ≡ false) }
    ensures refused { IfErr result (OfRefusal (IsFirstRefusal
        (case_in (record { update = meaning_of files.now; plan = plan.now })))) }
    ensures none { IfErr result (OfRefusal (λ _.
        ¬ IsCertifiable (record { update = meaning_of files.now; plan = plan.now }))) }
    ensures fits { Fits (task_for (meaning_of files.now) plan.now) room.new }
{
    let case = Case {
        net: &files.net,
        old: &files.old,
        new: &files.new,
        demands: &files.demands,
        plan,
    };
    certify(alloc, &case, room)
}

/// What is said of the rounds of a plan, in a room for the plan's check.
fn judge_rounds(
    alloc: Global,
    files: &UpdateFiles,
    plan: Plan,
    mut room: UpdateRoom,
) -> Result<Reply, Memory>
    requires old { IsUserConfig files.now.net (rules_of_all files.now.old) }
    requires new { IsUserConfig files.now.net (rules_of_all files.now.new) }
    requires valid { IsValidPlan files.now.net plan }
    requires fits { Fits (task_for (meaning_of files.now) plan) room }
    ensures { IfOk result
        (λ r. IsCertifyAnswer (record { update = meaning_of files.now; plan = plan })
        (answer_of r)) }
{
    match find_evidence(alloc, files, &plan, &mut room) {
        Ok(evidence) => {
            drop(room);
            evidence_reply(alloc, files, plan, evidence)
        }
        Err(CertifyFault::Refused(cause)) => {
            let class = named_class(&room.classed.map, cause);
            drop(room);
            drop(plan);
            cause_reply(alloc, &files.net, class, cause)
        }
        Err(CertifyFault::Memory) => {
            drop(room);
            drop(plan);
            Err(Memory)
        }
    }
}

/// What is said of the rounds of the plan of an update: too many classes, their text with evidence that certifies them, or the
/// first cause why none does.
pub(crate) fn rounds_reply(alloc: Global, files: &UpdateFiles, plan: Plan) -> Result<Reply, Memory>
    requires old { IsUserConfig files.now.net (rules_of_all files.now.old) }
    requires new { IsUserConfig files.now.net (rules_of_all files.now.new) }
    requires valid { IsValidPlan files.now.net plan }
    ensures { IfOk result
        (λ r. IsCertifyAnswer (record { update = meaning_of files.now; plan = plan })
        (answer_of r)) }
{
    match UpdateRoom::make(
        alloc,
        &files.net,
        &files.old,
        &files.new,
        &files.demands,
        &plan,
    ) {
        Ok(room) => judge_rounds(alloc, files, plan, room),
        Err(fault) => {
            drop(plan);
            no_classes_reply(alloc, fault)
        }
    }
}
