//! The text of plans and of rounds.
ghost use Rattle.std.specs.Prelude.{◌≡◌, ◌<◌, ◌^◌, Ok, IfOk, OnOk, codes, map};
ghost use Rattle.config_files.specs.RuleTrees.{list_tree};
ghost use Rattle.certificates.specs.Valid.{IsValidPlan};
ghost use Rattle.plan_text.specs.PlanText.{rule_tree, numbered_change_tree, numbered_round_tree, numbered_rounds_tree, plan_members, plan_tree, plan_text};
ghost use Rattle.plan_text.specs.PlanText as texts;
ghost use Rattle.plan_text.specs.Tokens.{tokens_of, closed_tokens, member_tokens, ordered_members, two_phase_members, before_count, Adds};
ghost use Rattle.plan_format.specs.Plans.{plan_in};

use crate::write_changes::{word_of, write_rounds, write_rules};
use crate::write_lists::{write_list_at, write_number_at, write_text_at};
use crate::write_used::{UsedRules, plan_rule_of};
use certificates::{Evidence, OrderedEvidence, Plan, TwoPhaseEvidence};
use json::Writer;
use net_base::Memory;
use std::alloc::Global;
use topology::Net;
use update_model::{Change, Rounds};

/// Writes a change: its word and the number of its rule.
fn write_numbered_change(out: &mut Writer, rules: &UsedRules, change: &Change) -> Result<(), Memory>
    ensures { OnOk result
        (Adds out.old out.new (tokens_of (numbered_change_tree rules.now change.now))) }
{
    out.begin_array()?;
    out.string(word_of(change))?;
    out.u64(rules.number(plan_rule_of(change)) as u64)?;
    Ok(out.end_array()?)
}

/// Writes the list of a round's changes.
fn write_numbered_round(out: &mut Writer, rules: &UsedRules, round: &[Change]) -> Result<(), Memory>
    ensures { OnOk result
        (Adds out.old out.new (tokens_of (numbered_round_tree rules.now round.now))) }
{
    out.begin_array()?;
    for change in round {
        write_numbered_change(out, rules, change)?;
    }
    Ok(out.end_array()?)
}

/// Writes the list of rounds, each the list of its changes.
fn write_numbered_rounds(out: &mut Writer, rules: &UsedRules, rounds: &Rounds) -> Result<(), Memory>
    ensures { OnOk result
        (Adds out.old out.new (tokens_of (numbered_rounds_tree rules.now rounds.now))) }
{
    out.begin_array()?;
    for k in 0..rounds.count() {
        write_numbered_round(out, rules, rounds.round(k))?;
    }
    Ok(out.end_array()?)
}

/// Writes a member that is a list of rounds.
fn write_rounds_at(
    out: &mut Writer,
    name: &str,
    rules: &UsedRules,
    rounds: &Rounds,
) -> Result<(), Memory>
    ensures { OnOk result (Adds out.old out.new
        (member_tokens name.now (numbered_rounds_tree rules.now rounds.now))) }
{
    out.key(name)?;
    write_numbered_rounds(out, rules, rounds)
}

/// Writes the member of the rounds that were tried.
fn write_tried(out: &mut Writer, rules: &UsedRules, tried: &Rounds) -> Result<(), Memory>
    ensures { OnOk result (Adds out.old out.new
        (member_tokens (codes "tried") (numbered_rounds_tree rules.now tried.now))) }
{
    write_rounds_at(out, "tried", rules, tried)
}

/// Writes the member of the rules in use, each an object.
fn write_rules_at(
    out: &mut Writer,
    alloc: Global,
    net: &Net,
    rules: &UsedRules,
) -> Result<(), Memory>
    ensures { OnOk result (Adds out.old out.new
        (member_tokens (codes "rules") (list_tree (map (rule_tree net.now) rules.now)))) }
{
    out.key("rules")?;
    write_rules(out, alloc, net, rules.list())
}

/// Writes the members of an ordered plan, in the order of their names, and closes the object.
fn write_ordered(
    out: &mut Writer,
    alloc: Global,
    net: &Net,
    rules: &UsedRules,
    rounds: &Rounds,
    evidence: &OrderedEvidence,
) -> Result<(), Memory>
    ensures { OnOk result (Adds out.old out.new
        (closed_tokens (ordered_members net.now rules.now rounds.now evidence.now))) }
{
    write_list_at(out, "befores", &evidence.befores)?;
    write_number_at(out, "format", 2)?;
    write_text_at(out, "kind", "ordered")?;
    write_list_at(out, "numberings", &evidence.numberings)?;
    write_list_at(out, "picks", &evidence.picks)?;
    write_rounds_at(out, "rounds", rules, rounds)?;
    write_rules_at(out, alloc, net, rules)?;
    write_list_at(out, "uses", &evidence.uses)?;
    Ok(out.end_object()?)
}

/// Writes the members of a two-phase plan, in the order of their names, and closes the object.
fn write_two_phase(
    out: &mut Writer,
    alloc: Global,
    net: &Net,
    rules: &UsedRules,
    rounds: &Rounds,
    evidence: &TwoPhaseEvidence,
) -> Result<(), Memory>
    ensures { OnOk result (Adds out.old out.new
        (closed_tokens (two_phase_members net.now rules.now rounds.now evidence.now))) }
{
    write_number_at(out, "format", 2)?;
    write_text_at(out, "kind", "two-phase")?;
    write_list_at(out, "labels", &evidence.labels)?;
    write_list_at(out, "picks", &evidence.picks)?;
    write_rounds_at(out, "rounds", rules, rounds)?;
    write_rules_at(out, alloc, net, rules)?;
    write_tried(out, rules, &evidence.tried)?;
    Ok(out.end_object()?)
}

/// Writes the members of a plan, and closes the object.
fn write_members(
    out: &mut Writer,
    alloc: Global,
    net: &Net,
    rules: &UsedRules,
    plan: &Plan,
) -> Result<(), Memory>
    ensures { OnOk result (Adds out.old out.new
        (closed_tokens (plan_members net.now rules.now plan.now))) }
{
    match &plan.evidence {
        Evidence::Ordered(evidence) => {
            write_ordered(out, alloc, net, rules, &plan.rounds, evidence)
        }
        Evidence::TwoPhase(evidence) => {
            write_two_phase(out, alloc, net, rules, &plan.rounds, evidence)
        }
    }
}

/// Writes the object of a plan.
fn write_object(out: &mut Writer, alloc: Global, net: &Net, plan: &Plan) -> Result<(), Memory>
    ensures { OnOk result (Adds out.old out.new (tokens_of (plan_tree net.now plan.now))) }
{
    let rules = UsedRules::of_plan(alloc, plan)?;
    out.begin_object()?;
    write_members(out, alloc, net, &rules, plan)
}

/// The before sets lie in memory, so the number of each fits 64 bits and is read as a whole number.
fn befores_fit(evidence: &Evidence)
    ensures { before_count evidence.now < 2 ^ 64 }
{
    let _count = match evidence {
        Evidence::Ordered(evidence) => evidence.befores.list().len(),
        Evidence::TwoPhase(_) => 0,
    };
}

/// The text of a plan, in format 2: compact JSON, members in ascending byte order, and a line end. Reading it gives the same
/// plan. Takes a time that is proportional to the plan, and beside the text memory for its rules.
pub fn write_plan(alloc: Global, net: &Net, plan: &Plan) -> Result<Vec<u8>, Memory>
    requires valid { IsValidPlan net.now plan.now }
    ensures text { IfOk result (λ b. b.items ≡ plan_text net.now plan.now) }
    // What was written is read as the same plan.
    ensures again { IfOk result (λ b. plan_in net.now b.items ≡ Ok plan.now) }
{
    net.keeps_rules();
    befores_fit(&plan.evidence);
    let mut out = Writer::new(Vec::new(alloc));
    write_object(&mut out, alloc, net, plan)?;
    let mut text = out.into_inner();
    text.push(b'\n')?;
    Ok(text)
}

/// The compact JSON list of the rounds, without a line end.
pub fn rounds_text(alloc: Global, net: &Net, rounds: &Rounds) -> Result<Vec<u8>, Memory>
    ensures { IfOk result (λ b. b.items ≡ texts.rounds_text net.now rounds.now) }
{
    let mut out = Writer::new(Vec::new(alloc));
    write_rounds(&mut out, alloc, net, rounds)?;
    Ok(out.into_inner())
}
