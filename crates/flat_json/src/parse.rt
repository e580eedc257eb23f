//! The reader of a whole text.
ghost use Rattle.std.specs.Prelude.{◌≡◌, IfOk, None, Some, Err};
ghost use Rattle.serde_json.specs.Read.{read as read_json};
ghost use Rattle.net_base.specs.Reading.{Gives, need};
ghost use Rattle.flat_json.specs.JsonTree.{tree_in};
ghost use Rattle.flat_json.specs.declared.fault.JsonFault.TheVariants.{NotJson, Memory};
ghost use Rattle.flat_json.specs.Trees.{top_of};

use crate::fault::JsonFault;
use crate::read::read;
use crate::store::no_nodes;
use crate::tree::Tree;
use json::{Reader, Scratch};
use std::alloc::Global;

const MAX_DEPTH: usize = 127;

/// Reads a text that holds one value.
fn read_whole<'a>(
    alloc: Global,
    text: &'a str,
    scratch: &'a mut Scratch,
) -> Result<Tree<'a>, JsonFault>
    ensures ok { IfOk result (λ t. read_json text.now ≡ Some (top_of t)) }
    ensures err { result ≡ Err NotJson → read_json text.now ≡ None }
{
    let mut reader = Reader::new(text, scratch)?;
    let mut store = no_nodes(alloc);
    let top = read(alloc, &mut reader, &mut store, MAX_DEPTH)?;
    if reader.next().is_some() {
        return Err(JsonFault::NotJson);
    }
    Ok(Tree { store, top })
}

/// The tree that the bytes are, as `serde_json` reads them: one JSON text in UTF-8, with nothing but white space round it.
/// Texts with escapes are kept in `scratch`, the others in the bytes. `NotJson` says that they are none, and `Memory` that
/// memory was wanting before that was known, or that more than 2 ^ 32 values stand in them.
pub fn parse_tree<'a>(
    alloc: Global,
    bytes: &'a [u8],
    scratch: &'a mut Scratch,
) -> Result<Tree<'a>, JsonFault>
    ensures { Gives Memory top_of result (need (tree_in bytes.now) NotJson) }
{
    let Ok(text) = simdutf8::compat::from_utf8(bytes) else {
        return Err(JsonFault::NotJson);
    };
    read_whole(alloc, text, scratch)
}
