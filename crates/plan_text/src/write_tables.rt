//! The text of tables, also in the middle of a round.
ghost use Rattle.std.specs.Prelude.{◌≡◌, IfOk, OnOk};
ghost use Rattle.plan_text.specs.TablesText.{tables_tree};
ghost use Rattle.plan_text.specs.TablesText as texts;
ghost use Rattle.plan_text.specs.Tokens.{tokens_of, Adds};

use crate::write_changes::{write_round, write_rules};
use json::Writer;
use net_base::Memory;
use plan_format::PlanRule;
use std::alloc::Global;
use topology::Net;
use update_model::Change;

/// Writes the object of rules and of the changes that aren't made yet.
fn write_tables(
    out: &mut Writer,
    alloc: Global,
    net: &Net,
    rules: &[PlanRule],
    pending: &[Change],
) -> Result<(), Memory>
    ensures { OnOk result (Adds out.old out.new
        (tokens_of (tables_tree net.now rules.now pending.now))) }
{
    out.begin_object()?;
    out.key("pending")?;
    write_round(out, alloc, net, pending)?;
    out.key("rules")?;
    write_rules(out, alloc, net, rules)?;
    Ok(out.end_object()?)
}

/// The text of the rules that stand in tables, and of the changes of a running round that aren't made yet: compact JSON, the
/// members of each object in ascending byte order, and a line end. Takes a time that is proportional to the text.
pub fn tables_text(
    alloc: Global,
    net: &Net,
    rules: &[PlanRule],
    pending: &[Change],
) -> Result<Vec<u8>, Memory>
    ensures { IfOk result (λ b. b.items ≡ texts.tables_text net.now rules.now pending.now) }
{
    let mut out = Writer::new(Vec::new(alloc));
    write_tables(&mut out, alloc, net, rules, pending)?;
    let mut text = out.into_inner();
    text.push(b'\n')?;
    Ok(text)
}
