//! The line of a JSON tree that `serde_json` holds.
ghost use Rattle.std.specs.Prelude.{◌≡◌, ◌≤◌, ◌++◌, ◌∷◌, [], false, Some, IfOk};
ghost use Rattle.serde_json.specs.Data.{depth};
ghost use Rattle.serde_json.specs.View.{view};
ghost use Rattle.serde_json.specs.Written.{compact_text, has_float};
ghost use Rattle.flat_json.specs.JsonTree as tree;

use net_base::Memory;
use serde_json::Value;
use std::alloc::Global;

/// The compact text of a tree, without white space between its parts, and a line end (byte 10) behind it. It reads back as
/// the same tree. The tree has no number of a floating point, and at most 127 levels. Err says that memory was wanting.
pub fn write_line(alloc: Global, value: &Value) -> Result<Vec<u8>, Memory>
    requires no_float { has_float (view value.now) ≡ false }
    requires shallow { depth (view value.now) ≤ 127 }
    ensures text { IfOk result (λ b. b.items ≡ compact_text (view value.now) ++ 10 ∷ []) }
    ensures reads_back { IfOk result (λ b. tree.tree_in b.items ≡ Some (view value.now)) }
{
    let mut bytes = value.to_vec(alloc)?;
    bytes.push(b'\n')?;
    Ok(bytes)
}
