//! Steps between switches, each of them once, with a mark for each that may stand there.
ghost use Rattle.std.specs.Prelude.{◌≡◌, ◌↔◌, ◌⊎◌, ◌<◌, [], ℕ, length, map, true, false, slice_index_or, All, IfOk};
ghost use Rattle.net_base.specs.Members.{IsIn};
ghost use Rattle.acyclic_numbering.specs.declared.Edge.{Edge};
ghost use Rattle.mixed_walks.specs.Marked.{edge_number, IsNear};

use acyclic_numbering::Edge;
use net_base::{MAX_SWITCHES, Memory};
use std::alloc::Global;
use std::marker::Model;

/// Steps between the switches of a network, each once.
#[derive(Drop)]
pub(crate) struct EdgeSet {
    list: Vec<Edge>,
    marks: Vec<bool>,
}

impl Model for EdgeSet {
    ghost use Rattle.std.specs.Prelude.{List, vec_capacity};
    ghost use Rattle.std.specs.List.{AllByRecursion};
    ghost use Rattle.acyclic_numbering.specs.declared.Edge.{Edge};
    ghost use Rattle.mixed_walks.specs.Marked.{IsMarked, edge_number, IsNear};

    ghost Value = { List Edge };

    ghost view = { λ a. a.list.items };

    ghost invariant = { λ a. IsMarked edge_number 16384 a.list.items (vec_capacity a.list) a.marks.items × AllByRecursion IsNear a.list.items };
}

/// The number of a step: each two of 128 switches have one of their own.
fn edge_number(edge: &Edge) -> usize
    requires { IsNear edge.now }
    ensures number { result ≡ edge_number edge.now }
    ensures within { result < 16384 }
{
    edge.from.0 as usize * MAX_SWITCHES as usize + edge.to.0 as usize
}

/// Takes the marks of steps away.
fn unmark_edges(list: &[Edge], marks: &mut Vec<bool>)
    requires near { All IsNear list.now }
    requires count { length marks.old.items ≡ 16384 }
    ensures count { length marks.new.items ≡ length marks.old.items }
    ensures taken { (n : ℕ) → slice_index_or marks.new.items n false ≡ true
        → (slice_index_or marks.old.items n false ≡ true) × ¬ IsIn n (map edge_number list.now) }
{
    for edge in list {
        marks[edge_number(edge)] = false;
    }
}

impl EdgeSet {
    /// No steps.
    pub(crate) fn make(alloc: Global) -> Result<EdgeSet, Memory>
        ensures { IfOk result (λ list. list ≡ []) }
    {
        Ok(EdgeSet {
            list: Vec::with_capacity(alloc, 16384)?,
            marks: vec![in alloc; false; 16384]?,
        })
    }

    /// The steps, in the order in which they were put.
    pub(crate) fn list(&self) -> &[Edge]
        ensures { result.now ≡ self.now }
    {
        &self.list
    }

    /// Puts a step, if it doesn't stand there.
    pub(crate) fn put(&mut self, edge: Edge)
        requires { IsNear edge }
        ensures { (e : Edge) → IsIn e self.new ↔ (IsIn e self.old ⊎ (e ≡ edge)) }
    {
        let number = edge_number(&edge);
        if !self.marks[number] {
            self.marks[number] = true;
            self.list.push_reserved(edge);
        }
    }

    /// Forgets the steps, in time by how many there are.
    pub(crate) fn clear(&mut self)
        ensures { self.new ≡ [] }
    {
        unmark_edges(&self.list, &mut self.marks);
        self.list.clear();
    }
}
