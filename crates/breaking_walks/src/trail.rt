//! The nodes of a search, each once, in the order in which they are found, and which of them led to which.
ghost use Rattle.std.specs.Prelude.{◌≡◌, ◌∷◌, ◌<◌, ◌^◌, [], length, slice_get, Some, IsTrue, ◌↔◌, IfOk, OnOk};
ghost use Rattle.net_base.specs.Members.{IsIn};
ghost use Rattle.breaking_walks.specs.Trails.{nodes_of, IsPut, IsWayTo};

use indexmap::IndexMap;
use net_base::{ListOf, Memory, Place};
use std::alloc::Global;
use std::marker::Model;

/// A place, and how many switches of a chain are met on the way to it, its own among them.
#[derive(Clone, Copy, Debug, PartialEq, Eq, Hash)]
pub(crate) struct Node {
    pub(crate) place: Place,
    pub(crate) met: usize,
}

/// Nodes, each once, in the order in which they were found. Each has the number of the node that led to it; the first has
/// its own.
#[derive(Drop)]
pub(crate) struct Trail {
    nodes: IndexMap<Node, usize>,
}

impl Model for Trail {
    ghost use Rattle.std.specs.Prelude.{List, ℕ};
    ghost use Rattle.breaking_walks.specs.declared.trail.Node.{Node};
    ghost use Rattle.breaking_walks.specs.Trails.{AreLedByEarlier};

    ghost Value = { List (Node × ℕ) };

    ghost view = { λ t. t.nodes.entries };

    ghost invariant = { λ t. AreLedByEarlier t.nodes.entries };
}

impl Trail {
    /// The first node alone.
    pub(crate) fn start(alloc: Global, node: Node) -> Result<Trail, Memory>
        ensures { IfOk result (λ trail. trail ≡ (node, 0) ∷ []) }
    {
        let mut nodes = IndexMap::new(alloc);
        nodes.insert(node, 0)?;
        Ok(Trail { nodes })
    }

    /// How many nodes there are.
    pub(crate) fn count(&self) -> usize
        ensures count { result ≡ length self.now }
        ensures small { result < 2 ^ 63 }
    {
        self.nodes.len()
    }

    /// A node by its number from 0, and the number of the node that led to it.
    pub(crate) fn at(&self, number: usize) -> (Node, usize)
        requires { number < length self.now }
        ensures at { slice_get self.now number ≡ Some result }
        ensures earlier { 0 < number → result.1 < number }
    {
        let (node, from) = self.nodes.get_index(number).unwrap();
        (*node, *from)
    }

    /// Whether the node stands there.
    fn has(&self, node: Node) -> bool
        ensures { IsTrue result ↔ IsIn node (nodes_of self.now) }
    {
        self.nodes.contains_key(&node)
    }

    /// Puts a node, if it doesn't stand there, with the number of the node that led to it.
    pub(crate) fn put(&mut self, node: Node, from: usize) -> Result<(), Memory>
        requires { from < length self.old }
        ensures { OnOk result (IsPut self.old node from self.new) }
    {
        if !self.has(node) {
            self.nodes.insert(node, from)?;
        }
        Ok(())
    }

    /// The places of the nodes from the first to that with the number, without the first one's: each node was led to by the
    /// one before. It takes time by how many they are.
    pub(crate) fn way_to(&self, alloc: Global, number: usize) -> Result<ListOf<Place>, Memory>
        requires { number < length self.now }
        ensures { IfOk result (λ rest. IsWayTo self.now number 0 rest) }
    {
        let mut places = Vec::new(alloc);
        let mut at = number;
        'back: while at > 0 {
            let (node, from) = self.at(at);
            places.push(node.place)?;
            at = from;
        }
        places.reverse();
        Ok(ListOf::of(places))
    }
}
