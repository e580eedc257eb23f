//! What is said of an update that is to be packed.
ghost use Rattle.std.specs.Prelude.{◌≤◌, IfOk};
ghost use Rattle.flow_rules.specs.Tables.{rules_of_all};
ghost use Rattle.path_walk.specs.UserConfigs.{IsUserConfig};
ghost use Rattle.law_packed_rounds.specs.Packing.{PacksOrdered};
ghost use Rattle.round_planner.specs.Updates.{update_count, update_target};
ghost use Rattle.command_base.specs.Judgements.{most_classes};
ghost use Rattle.command_base.specs.Updates.{meaning_of};
ghost use Rattle.command_base.specs.Replies.{answer_of};
ghost use Rattle.plan_command.specs.Ends.{BothEndsAreGood, AreEndsOf};
ghost use Rattle.pack_command.specs.Chosen.{IsPackingStuck};
ghost use Rattle.pack_command.specs.Packed.{SaysChosen, IsPacked};

use crate::names::PackKind;
use crate::packing::packed_plan;
use crate::phasing::{ordered_reply, stuck_reply, two_phase_reply};
use command_base::{Reply, UpdateFiles, no_classes_reply};
use config_check::Classed;
use law_packed_trees::laws::{trees_are_never_stuck, trees_take_few_rounds};
use net_base::Memory;
use plan_command::{EndsVerdict, break_reply, judge_ends};
use round_packer::{Packing, pack};
use round_planner::{Ordered, order};
use std::alloc::Global;
use update_model::Rounds;

/// The reply where packing ends ordered with these rounds. Where an ordered plan may not be written, no evidence is made.
fn packed_reply(
    alloc: Global,
    files: &UpdateFiles,
    rounds: Rounds,
    kind: PackKind,
) -> Result<Reply, Memory>
    requires old { IsUserConfig files.now.net (rules_of_all files.now.old) }
    requires new { IsUserConfig files.now.net (rules_of_all files.now.new) }
    requires packed { PacksOrdered (update_target (meaning_of files.now))
        (rules_of_all files.now.old) rounds }
    requires good { BothEndsAreGood (meaning_of files.now) }
    requires few { update_count (meaning_of files.now) ≤ most_classes }
    ensures { IfOk result (λ r. SaysChosen kind (meaning_of files.now) (answer_of r)) }
{
    match kind {
        PackKind::TwoPhase => {
            drop(rounds);
            two_phase_reply(alloc, files)
        }
        PackKind::Any | PackKind::Ordered => {
            let plan = packed_plan(alloc, files, rounds)?;
            ordered_reply(alloc, files, &plan, kind)
        }
    }
}

/// The reply where packing ends stuck, by the one-by-one search.
fn search_reply(
    alloc: Global,
    files: &UpdateFiles,
    ends: &Classed,
    kind: PackKind,
) -> Result<Reply, Memory>
    requires old { IsUserConfig files.now.net (rules_of_all files.now.old) }
    requires new { IsUserConfig files.now.net (rules_of_all files.now.new) }
    requires ends { AreEndsOf (meaning_of files.now) ends.now }
    requires packing { IsPackingStuck (meaning_of files.now) }
    ensures { IfOk result (λ r. SaysChosen kind (meaning_of files.now) (answer_of r)) }
{
    match order(
        alloc,
        &files.net,
        &files.old,
        &files.new,
        &ends.duties,
        &ends.map,
    )? {
        Ordered::Rounds(plan) => ordered_reply(alloc, files, &plan, kind),
        Ordered::Stuck(tried) => stuck_reply(alloc, files, &tried, kind),
    }
}

/// The reply by the chosen plan, or why there is none.
fn found_reply(
    alloc: Global,
    files: &UpdateFiles,
    ends: &Classed,
    kind: PackKind,
) -> Result<Reply, Memory>
    requires old { IsUserConfig files.now.net (rules_of_all files.now.old) }
    requires new { IsUserConfig files.now.net (rules_of_all files.now.new) }
    requires ends { AreEndsOf (meaning_of files.now) ends.now }
    ensures { IfOk result (λ r. SaysChosen kind (meaning_of files.now) (answer_of r)) }
{
    match pack(
        alloc,
        &files.net,
        &files.old,
        &files.new,
        &ends.duties,
        &ends.map,
    )? {
        Packing::Ordered(rounds) => packed_reply(alloc, files, rounds, kind),
        Packing::Stuck(_) => search_reply(alloc, files, ends, kind),
    }
}

/// The reply where both ends are good.
fn good_reply(
    alloc: Global,
    files: &UpdateFiles,
    ends: &Classed,
    kind: PackKind,
) -> Result<Reply, Memory>
    requires old { IsUserConfig files.now.net (rules_of_all files.now.old) }
    requires new { IsUserConfig files.now.net (rules_of_all files.now.new) }
    requires ends { AreEndsOf (meaning_of files.now) ends.now }
    ensures { IfOk result (λ r. IsPacked kind (meaning_of files.now) (answer_of r)) }
{
    files.net.keeps_rules();
    trees_are_never_stuck();
    trees_take_few_rounds();
    found_reply(alloc, files, ends, kind)
}

/// What is said of an update: too many classes, an end that isn't good, the chosen plan, or why there is none.
pub(crate) fn pack_update(
    alloc: Global,
    files: &UpdateFiles,
    kind: PackKind,
) -> Result<Reply, Memory>
    requires old { IsUserConfig files.now.net (rules_of_all files.now.old) }
    requires new { IsUserConfig files.now.net (rules_of_all files.now.new) }
    ensures { IfOk result (λ r. IsPacked kind (meaning_of files.now) (answer_of r)) }
{
    match judge_ends(alloc, files) {
        Ok(EndsVerdict::Good(ends)) => {
            let reply = good_reply(alloc, files, &ends, kind);
            drop(ends);
            reply
        }
        Ok(EndsVerdict::Broken(end, class)) => break_reply(alloc, files, end, class),
        Err(fault) => no_classes_reply(alloc, fault),
    }
}
