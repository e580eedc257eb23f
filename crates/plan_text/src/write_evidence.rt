//! The evidence of plans, as JSON tokens.
ghost use Rattle.std.specs.Prelude.{◌≡◌, ◌++◌, OnOk, map};
ghost use Rattle.waypoint_evidence.specs.Befores.{marked_from};
ghost use Rattle.plan_text.specs.PlanText.{numbers_tree, use_tree, pick_tree, vlan_tree, version_text, label_tree, table_tree, label_pick_tree};
ghost use Rattle.plan_text.specs.Tokens.{tokens_of, Adds};

use crate::write_lists::{Written, write_list};
use acyclic_numbering::Numbering;
use certificates::{IndexList, Label, LabelPick, Labels, OrderedPick, Shared};
use json::Writer;
use net_base::{Memory, Vlan};
use waypoint_evidence::Before;

/// Writes the list of the numbers of the marked places.
fn write_marked(out: &mut Writer, marks: &[bool]) -> Result<(), Memory>
    ensures { OnOk result
        (Adds out.old out.new (tokens_of (numbers_tree (marked_from 0 marks.now)))) }
{
    out.begin_array()?;
    for (number, marked) in marks.iter().enumerate() {
        if *marked {
            out.u64(number as u64)?;
        }
    }
    Ok(out.end_array()?)
}

/// Writes a VLAN: its id, or the word for none.
fn write_vlan(out: &mut Writer, vlan: Vlan) -> Result<(), Memory>
    ensures { OnOk result (Adds out.old out.new (tokens_of (vlan_tree vlan))) }
{
    match vlan {
        Vlan::Untagged => Ok(out.string("untagged")?),
        Vlan::Id(id) => Ok(out.u64(u64::from(id))?),
    }
}

fn version_text(new: bool) -> &'static str
    ensures { result.now ≡ version_text new }
{
    if new { "new" } else { "old" }
}

impl Written for Numbering {
    ghost tree = { numbers_tree };

    fn write(&self, out: &mut Writer) -> Result<(), Memory> {
        write_list(out, self.list())
    }
}

impl Written for IndexList {
    ghost tree = { numbers_tree };

    fn write(&self, out: &mut Writer) -> Result<(), Memory> {
        write_list(out, self.list())
    }
}

impl Written for Before {
    ghost tree = { numbers_tree };

    fn write(&self, out: &mut Writer) -> Result<(), Memory> {
        write_marked(out, &self.marks())
    }
}

impl Written for Shared {
    ghost tree = { use_tree };

    fn write(&self, out: &mut Writer) -> Result<(), Memory> {
        out.begin_array()?;
        out.u64(u64::from(self.numbering))?;
        self.befores.write(out)?;
        Ok(out.end_array()?)
    }
}

impl Written for OrderedPick {
    ghost tree = { pick_tree };

    fn write(&self, out: &mut Writer) -> Result<(), Memory> {
        write_list(out, &[self.round, self.class, self.shared])
    }
}

impl Written for Label {
    ghost tree = { label_tree };

    fn write(&self, out: &mut Writer) -> Result<(), Memory> {
        out.begin_array()?;
        write_vlan(out, self.vlan)?;
        out.string(version_text(self.new))?;
        write_vlan(out, self.user)?;
        Ok(out.end_array()?)
    }
}

impl Written for Labels {
    ghost tree = { table_tree };

    fn write(&self, out: &mut Writer) -> Result<(), Memory> {
        write_list(out, self.list())
    }
}

impl Written for LabelPick {
    ghost tree = { label_pick_tree };

    fn write(&self, out: &mut Writer) -> Result<(), Memory> {
        write_list(out, &[self.round, self.labels])
    }
}
