//! The text of plans with waits.
ghost use Rattle.std.specs.Prelude.{◌≡◌, ◌++◌, ◌∷◌, [], Ok, codes, option_map, IfOk, OnOk};
ghost use Rattle.serde_json.specs.Data.{object, put};
ghost use Rattle.serde_json.specs.Written.{compact_text};
ghost use Rattle.certificates.specs.Valid.{IsValidPlan};
ghost use Rattle.plan_format.specs.Plans.{plan_at};
ghost use Rattle.plan_text.specs.PlanText.{numbers_tree, used_rules, plan_members, plan_text};
ghost use Rattle.plan_text.specs.Tokens.{tokens_of, Adds};
ghost use Rattle.plan_waits.specs.Waits.{waits_in};
ghost use Rattle.plan_waits.specs.PlanWaits.{MayHave};
ghost use Rattle.plan_waits.specs.WaitsText.{tree_with_waits, text_with_waits};

use certificates::{IndexList, Plan};
use json::Writer;
use net_base::Memory;
use plan_text::write_plan;
use std::alloc::Global;
use topology::Net;

/// Writes the list of the numbers.
fn write_numbers(out: &mut Writer, numbers: &[u64]) -> Result<(), Memory>
    ensures { OnOk result (Adds out.old out.new (tokens_of (numbers_tree numbers.now))) }
{
    out.begin_array()?;
    for number in numbers {
        out.u64(*number)?;
    }
    Ok(out.end_array()?)
}

/// The compact list of the numbers.
fn numbers_text(alloc: Global, numbers: &[u64]) -> Result<Vec<u8>, Memory>
    ensures { IfOk result (λ b. b.items ≡ compact_text (numbers_tree numbers.now)) }
{
    let mut out = Writer::new(Vec::new(alloc));
    write_numbers(&mut out, numbers)?;
    Ok(out.into_inner())
}

/// The text of a plan with the member behind the others, which it follows in the order of their names.
fn with_member(
    alloc: Global,
    net: &Net,
    plan: &Plan,
    mut text: Vec<u8>,
    waits: &[u64],
) -> Result<Vec<u8>, Memory>
    requires { text.items ≡ plan_text net.now plan.now }
    ensures { IfOk result (λ b. b.items
        ≡ compact_text (object (put (codes "waits") (numbers_tree waits.now)
        (plan_members net.now (used_rules plan.now) plan.now))) ++ 10 ∷ []) }
{
    let list = numbers_text(alloc, waits)?;
    // (a brace and a line end stand last)
    text.truncate(text.len() - 2);
    text.extend_from_slice(b",\"waits\":")?;
    text.extend_from_slice(&list)?;
    text.extend_from_slice(b"}\n")?;
    Ok(text)
}

/// The text of a plan, with the member where there are waits.
fn text_of_plan(
    alloc: Global,
    net: &Net,
    plan: &Plan,
    waits: Option<&IndexList>,
) -> Result<Vec<u8>, Memory>
    requires { IsValidPlan net.now plan.now }
    ensures { IfOk result (λ b.
        b.items ≡ text_with_waits net.now plan.now (option_map (λ w. w.now) waits.entry)) }
{
    let text = write_plan(alloc, net, plan)?;
    match waits {
        None => Ok(text),
        Some(waits) => with_member(alloc, net, plan, text, waits.list()),
    }
}

/// The text of a plan, as `write_plan` gives it, with the member `waits` exactly where there are waits to write. Takes a time
/// that is proportional to the plan and its waits.
pub fn write_plan_with_waits(
    alloc: Global,
    net: &Net,
    plan: &Plan,
    waits: Option<&IndexList>,
) -> Result<Vec<u8>, Memory>
    requires valid { IsValidPlan net.now plan.now }
    requires may { MayHave plan.now (option_map (λ w. w.now) waits) }
    ensures text { IfOk result (λ b.
        b.items ≡ text_with_waits net.now plan.now (option_map (λ w. w.now) waits.entry)) }
    // Of the tree whose text this is the same plan and the same waits are read.
    ensures plan_again { plan_at net.now
        (tree_with_waits net.now plan.now (option_map (λ w. w.now) waits.entry)) ≡ Ok plan.now }
    ensures waits_again { waits_in plan.now
        (tree_with_waits net.now plan.now (option_map (λ w. w.now) waits.entry))
        ≡ Ok (option_map (λ w. w.now) waits.entry) }
{
    net.keeps_rules();
    text_of_plan(alloc, net, plan, waits)
}
