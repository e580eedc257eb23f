//! From the tokens of a text to the lists of a tree.
ghost use Rattle.std.specs.Prelude.{◌≡◌, ◌<◌, [], ◌∷◌, length, vec_len, map, Some, None, Err, IfOk, OnOk, true};
ghost use Rattle.json.specs.Json.{value, items, members};
ghost use Rattle.serde_json.specs.Data.{no_members};
ghost use Rattle.serde_json.specs.Read.{of_json, of_items, of_members, converted};
ghost use Rattle.serde_json.specs.View.{items_of};
ghost use Rattle.flat_json.specs.Nodes.{with_members};
ghost use Rattle.flat_json.specs.Stores.{data_in, is_ordered, Keeps};
ghost use Rattle.flat_json.specs.declared.fault.JsonFault.TheVariants.{NotJson};

use crate::fault::JsonFault;
use crate::node::Node;
use crate::number::{node_of, read_number};
use crate::store::{Members, Store, add_list, add_object, add_text};
use json::{Reader, Token};
use std::alloc::Global;

/// Reads a value. Lists and objects in it may nest `depth` deep.
#[cycle(read)]
pub(crate) fn read<'a>(
    alloc: Global,
    reader: &mut Reader<'a>,
    store: &mut Store<'a>,
    depth: usize,
) -> Result<Node, JsonFault>
    requires { is_ordered store.old ≡ true }
    ensures kept { IfOk result (λ n. Keeps store.old store.new (n ∷ [])) }
    ensures ok { IfOk result (λ n. converted of_json (value depth reader.old)
        ≡ Some (data_in store.new n, reader.new)) }
    ensures shorter { OnOk result (length reader.new < length reader.old) }
    ensures err { result ≡ Err NotJson → converted of_json (value depth reader.old) ≡ None }
{
    let token = reader.next().ok_or(JsonFault::NotJson)?;
    match token {
        Token::String(text) => Ok(add_text(store, text)?),
        Token::Number(text) => match read_number(text) {
            Some(number) => Ok(node_of(number)),
            None => Err(JsonFault::NotJson),
        },
        Token::Bool(b) => Ok(Node::Bool(b)),
        Token::Null => Ok(Node::Null),
        Token::EndObject | Token::EndArray | Token::Key(_) | Token::Bad => Err(JsonFault::NotJson),
        Token::BeginArray => {
            if depth == 0 {
                return Err(JsonFault::NotJson);
            }
            let items = read_items(alloc, reader, store, depth - 1)?;
            Ok(add_list(store, &items)?)
        }
        Token::BeginObject => {
            if depth == 0 {
                return Err(JsonFault::NotJson);
            }
            let members = read_members(alloc, reader, store, depth - 1)?;
            Ok(add_object(store, &members)?)
        }
    }
}

/// Reads the items of a list, up to its end.
#[cycle(read)]
fn read_items<'a>(
    alloc: Global,
    reader: &mut Reader<'a>,
    store: &mut Store<'a>,
    depth: usize,
) -> Result<Vec<Node>, JsonFault>
    requires { is_ordered store.old ≡ true }
    ensures kept { IfOk result (λ v. Keeps store.old store.new v.items) }
    ensures ok { IfOk result (λ v. converted of_items
        (items (value depth) (length reader.old) reader.old)
        ≡ Some (items_of (map (data_in store.new) v.items), reader.new)) }
    ensures shorter { OnOk result (length reader.new < length reader.old) }
    ensures err { result ≡ Err NotJson
        → converted of_items (items (value depth) (length reader.old) reader.old) ≡ None }
{
    let mut found = Vec::new(alloc);
    'items: while !reader.take_end_array() {
        let item = read(alloc, reader, store, depth)?;
        found.push(item)?;
    }
    Ok(found)
}

/// Reads the members of an object, up to its end.
#[cycle(read)]
fn read_members<'a>(
    alloc: Global,
    reader: &mut Reader<'a>,
    store: &mut Store<'a>,
    depth: usize,
) -> Result<Members<'a>, JsonFault>
    requires { is_ordered store.old ≡ true }
    ensures kept { IfOk result (λ m. Keeps store.old store.new m.values.items) }
    ensures paired { IfOk result (λ m. vec_len m.keys ≡ vec_len m.values) }
    ensures ok { IfOk result (λ m. converted (λ ms. of_members ms no_members)
        (members (value depth) (length reader.old) reader.old)
        ≡ Some (
          with_members (map (λ k. k.now) m.keys.items)
              (map (data_in store.new) m.values.items) no_members,
          reader.new,
        )) }
    ensures shorter { OnOk result (length reader.new < length reader.old) }
    ensures err { result ≡ Err NotJson
        → converted (λ ms. of_members ms no_members)
        (members (value depth) (length reader.old) reader.old) ≡ None }
{
    let mut keys = Vec::new(alloc);
    let mut values = Vec::new(alloc);
    'members: while let Some(key) = reader.next_key()? {
        let value = read(alloc, reader, store, depth)?;
        keys.push(key)?;
        values.push(value)?;
    }
    Ok(Members { keys, values })
}
