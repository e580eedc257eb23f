//! Lists and members, as JSON tokens.
ghost use Rattle.std.specs.Prelude.{◌≡◌, OnOk, map};
ghost use Rattle.serde_json.specs.Data.{Data, string};
ghost use Rattle.config_files.specs.RuleTrees.{whole_tree, list_tree};
ghost use Rattle.plan_text.specs.Tokens.{tokens_of, member_tokens, Adds};

use json::Writer;
use net_base::{ListOf, Memory};

/// What plan files hold as a value of its own.
pub trait Written {
    ghost tree: { Self → Data };

    /// Writes the value.
    fn write(&self, out: &mut Writer) -> Result<(), Memory>
        ensures { OnOk result (Adds out.old out.new (tokens_of (tree self.now))) };
}

impl Written for u16 {
    ghost tree = { whole_tree };

    fn write(&self, out: &mut Writer) -> Result<(), Memory> {
        Ok(out.u64(u64::from(*self))?)
    }
}

impl Written for u32 {
    ghost tree = { whole_tree };

    fn write(&self, out: &mut Writer) -> Result<(), Memory> {
        Ok(out.u64(u64::from(*self))?)
    }
}

impl Written for u64 {
    ghost tree = { whole_tree };

    fn write(&self, out: &mut Writer) -> Result<(), Memory> {
        Ok(out.u64(*self)?)
    }
}

/// Writes the list of the values, in order.
pub fn write_list<T: Written>(out: &mut Writer, items: &[T]) -> Result<(), Memory>
    ensures { OnOk result (Adds out.old out.new (tokens_of (list_tree (map T.tree items.now)))) }
{
    out.begin_array()?;
    for item in items {
        item.write(out)?;
    }
    Ok(out.end_array()?)
}

/// Writes a member that is a list.
pub fn write_list_at<T: Written + Drop>(
    out: &mut Writer,
    name: &str,
    items: &ListOf<T>,
) -> Result<(), Memory>
    ensures { OnOk result (Adds out.old out.new
        (member_tokens name.now (list_tree (map T.tree items.now)))) }
{
    out.key(name)?;
    write_list(out, items.list())
}

/// Writes a member that is a whole number.
pub fn write_number_at(out: &mut Writer, name: &str, number: u64) -> Result<(), Memory>
    ensures { OnOk result (Adds out.old out.new (member_tokens name.now (whole_tree number))) }
{
    out.key(name)?;
    Ok(out.u64(number)?)
}

/// Writes a member that is a text.
pub fn write_text_at(out: &mut Writer, name: &str, text: &str) -> Result<(), Memory>
    ensures { OnOk result (Adds out.old out.new (member_tokens name.now (string text.now))) }
{
    out.key(name)?;
    Ok(out.string(text)?)
}
