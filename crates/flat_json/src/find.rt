//! Looking into a tree.
ghost use Rattle.std.specs.Prelude.{◌≡◌, option_map, map};
ghost use Rattle.serde_json.specs.Find.{get, as_str, as_bool};
ghost use Rattle.flat_json.specs.JsonTree as json;
ghost use Rattle.flat_json.specs.Trees.{data_of, top_of};

use crate::node::Node;
use crate::parts::{last_named, part_of};
use crate::tree::Tree;

impl<'a> Tree<'a> {
    /// The node of the whole text.
    #[tactic(auto, unfolding(crate::specs::Trees::data_of, crate::specs::Trees::top_of, crate::specs::Stores::data_in))]
    pub fn top(&self) -> &Node
        ensures { data_of self.now result.now ≡ top_of self.now }
    {
        &self.top
    }

    /// Whether a node is an object.
    #[tactic(auto, unfolding(crate::specs::Trees::data_of, crate::specs::Trees::top_of, crate::specs::Stores::data_in))]
    pub fn is_object(&self, node: &Node) -> bool
        ensures { result ≡ json.is_object (data_of self.now node.now) }
    {
        matches!(node, Node::Object(..))
    }

    /// The whole number that a node is.
    #[tactic(auto, unfolding(crate::specs::Trees::data_of, crate::specs::Trees::top_of, crate::specs::Stores::data_in))]
    pub fn whole(&self, node: &Node) -> Option<u64>
        ensures { result ≡ json.whole_in (data_of self.now node.now) }
    {
        match *node {
            Node::Whole(n) => Some(n),
            _ => None,
        }
    }

    /// The boolean that a node is.
    #[tactic(auto, unfolding(crate::specs::Trees::data_of, crate::specs::Trees::top_of, crate::specs::Stores::data_in))]
    pub fn as_bool(&self, node: &Node) -> Option<bool>
        ensures { result ≡ as_bool (data_of self.now node.now) }
    {
        match *node {
            Node::Bool(b) => Some(b),
            _ => None,
        }
    }

    /// The text that a node is.
    #[tactic(auto, unfolding(crate::specs::Trees::data_of, crate::specs::Stores::data_in))]
    pub fn as_str(&self, node: &Node) -> Option<&'a str>
        ensures { option_map (λ t. t.now) result ≡ as_str (data_of self.now node.now) }
    {
        match *node {
            Node::Text(place) => self.store.texts.get(place as usize).copied(),
            _ => None,
        }
    }

    /// The items of a node that is a list.
    #[tactic(auto, unfolding(crate::specs::Trees::data_of, crate::specs::Stores::data_in))]
    pub fn list_in(&self, node: &Node) -> Option<&[Node]>
        ensures { option_map (λ l. map (data_of self.now) l.now) result
            ≡ json.list_in (data_of self.now node.now) }
    {
        match *node {
            Node::List(first, count) => Some(part_of(&self.store.nodes, first, count)),
            _ => None,
        }
    }

    /// The member with a name. Of equal names it is the last. It looks at each member.
    #[tactic(auto, unfolding(crate::specs::Trees::data_of, crate::specs::Stores::data_in))]
    pub fn get(&self, node: &Node, name: &str) -> Option<&Node>
        ensures { option_map (λ n. data_of self.now n.now) result
            ≡ get name.now (data_of self.now node.now) }
    {
        match *node {
            Node::Object(key, first, count) => {
                let keys = part_of(&self.store.texts, key, count);
                let values = part_of(&self.store.nodes, first, count);
                last_named(keys, values, name)
            }
            _ => None,
        }
    }

    /// The text of a member.
    pub fn text_at(&self, node: &Node, name: &str) -> Option<&'a str>
        ensures { option_map (λ t. t.now) result
            ≡ json.text_at name.now (data_of self.now node.now) }
    {
        self.as_str(self.get(node, name)?)
    }

    /// The whole number of a member.
    pub fn whole_at(&self, node: &Node, name: &str) -> Option<u64>
        ensures { result ≡ json.whole_at name.now (data_of self.now node.now) }
    {
        self.whole(self.get(node, name)?)
    }

    /// The items of a member that is a list.
    pub fn list_at(&self, node: &Node, name: &str) -> Option<&[Node]>
        ensures { option_map (λ l. map (data_of self.now) l.now) result
            ≡ json.list_at name.now (data_of self.now node.now) }
    {
        self.list_in(self.get(node, name)?)
    }
}
