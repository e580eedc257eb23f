//! Parts of the lists of a tree.
ghost use Rattle.std.specs.Prelude.{◌≡◌, map, option_map};
ghost use Rattle.serde_json.specs.Data.{Data, no_members};
ghost use Rattle.serde_json.specs.Find.{get_member};
ghost use Rattle.flat_json.specs.Nodes.{part, with_members};
ghost use Rattle.flat_json.specs.declared.node.Node.{Node as NodeOf};

use crate::node::Node;

/// So many from a place on, as far as the list goes.
pub(crate) fn part_of<T>(list: &[T], first: u32, count: u32) -> &[T]
    ensures { result.now ≡ part first count list.now }
{
    let rest = &list[list.len().min(first as usize)..];
    &rest[..rest.len().min(count as usize)]
}

/// The value of the last of the keys that is the name.
pub(crate) fn last_named<'t>(keys: &[&str], values: &'t [Node], name: &str) -> Option<&'t Node>
    ensures { (f : NodeOf → Data) → option_map (λ v. f v.now) result
        ≡ get_member name.now (with_members (map (λ k. k.now) keys.now) (map f values.now)
        no_members) }
{
    let mut found = None;
    for i in 0..keys.len().min(values.len()) {
        if keys[i] == name {
            found = Some(&values[i]);
        }
    }
    found
}
