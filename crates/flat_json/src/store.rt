//! The lists of a tree while it is read.
ghost use Rattle.std.specs.Prelude.{◌≡◌, [], ◌∷◌, IfOk, IfErr, true, vec_len, map};
ghost use Rattle.serde_json.specs.Data.{string, array, object, no_members};
ghost use Rattle.serde_json.specs.View.{items_of};
ghost use Rattle.flat_json.specs.Nodes.{with_members};
ghost use Rattle.flat_json.specs.Stores.{data_in, is_ordered, are_known, Keeps};
ghost use Rattle.flat_json.specs.declared.fault.JsonFault.TheVariants.{Memory};

use crate::fault::JsonFault;
use crate::node::Node;
use std::alloc::Global;

/// The nodes and the texts of a tree.
#[derive(Drop)]
pub(crate) struct Store<'a> {
    pub(crate) nodes: Vec<Node>,
    pub(crate) texts: Vec<&'a str>,
}

/// No nodes and no texts.
pub(crate) fn no_nodes<'a>(alloc: Global) -> Store<'a>
    ensures { is_ordered result ≡ true }
{
    Store {
        nodes: Vec::new(alloc),
        texts: Vec::new(alloc),
    }
}

/// A place or a count as a node has it. More than 32 bits are taken for want of memory.
fn place(n: usize) -> Result<u32, JsonFault>
    ensures ok { IfOk result (λ p. p ≡ n) }
    ensures err { IfErr result (λ e. e ≡ Memory) }
{
    if n > u32::MAX as usize {
        return Err(JsonFault::Memory);
    }
    Ok(n as u32)
}

/// Adds a text.
pub(crate) fn add_text<'a>(store: &mut Store<'a>, text: &'a str) -> Result<Node, JsonFault>
    requires { is_ordered store.old ≡ true }
    ensures kept { IfOk result (λ n. Keeps store.old store.new (n ∷ [])) }
    ensures means { IfOk result (λ n. data_in store.new n ≡ string text.now) }
    ensures err { IfErr result (λ e. e ≡ Memory) }
{
    let at = place(store.texts.len())?;
    store.texts.push(text)?;
    Ok(Node::Text(at))
}

/// Adds a list of these items.
pub(crate) fn add_list(store: &mut Store<'_>, items: &[Node]) -> Result<Node, JsonFault>
    requires ordered { is_ordered store.old ≡ true }
    requires known { are_known store.old items.now ≡ true }
    ensures kept { IfOk result (λ n. Keeps store.old store.new (n ∷ [])) }
    ensures means { IfOk result (λ n. data_in store.new n
        ≡ array (items_of (map (data_in store.old) items.now))) }
    ensures err { IfErr result (λ e. e ≡ Memory) }
{
    let first = place(store.nodes.len())?;
    let count = place(items.len())?;
    store.nodes.extend_from_slice(items)?;
    Ok(Node::List(first, count))
}

/// The keys and the values of an object, as many of each.
#[derive(Drop)]
pub(crate) struct Members<'a> {
    pub(crate) keys: Vec<&'a str>,
    pub(crate) values: Vec<Node>,
}

/// Adds an object of these members.
pub(crate) fn add_object<'a>(
    store: &mut Store<'a>,
    members: &Members<'a>,
) -> Result<Node, JsonFault>
    requires ordered { is_ordered store.old ≡ true }
    requires known { are_known store.old members.now.values.items ≡ true }
    requires paired { vec_len members.now.keys ≡ vec_len members.now.values }
    ensures kept { IfOk result (λ n. Keeps store.old store.new (n ∷ [])) }
    ensures means { IfOk result (λ n. data_in store.new n
        ≡ object (with_members (map (λ k. k.now) members.now.keys.items)
        (map (data_in store.old) members.now.values.items) no_members)) }
    ensures err { IfErr result (λ e. e ≡ Memory) }
{
    let key = place(store.texts.len())?;
    let first = place(store.nodes.len())?;
    let count = place(members.values.len())?;
    store.texts.extend_from_slice(&members.keys)?;
    store.nodes.extend_from_slice(&members.values)?;
    Ok(Node::Object(key, first, count))
}
