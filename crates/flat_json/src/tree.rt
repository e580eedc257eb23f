//! A JSON text as flat lists.
ghost use Rattle.std.specs.Prelude.{◌≡◌, true};
ghost use Rattle.flat_json.specs.Stores.{is_ordered};

use crate::node::Node;
use crate::store::Store;

/// A JSON text as flat lists: its nodes, of which each stands behind its parts, and its texts.
#[derive(Drop)]
pub struct Tree<'a> {
    pub(crate) store: Store<'a>,
    pub(crate) top: Node,
    ghost ordered: { is_ordered store ≡ true },
}
