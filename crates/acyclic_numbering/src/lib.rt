//! Numberings of switches that fall along edges.
#![tactic(auto)]

ghost use Rattle.std.specs.Prelude.{◌≡◌, ◌↔◌, ◌<◌, ◌≤◌, ◌+◌, ◌++◌, ◌∷◌, [], length, IsTrue, All, MatchOption, IfOk, OnOk, OnErr, slice_get, Some};
ghost use Rattle.acyclic_numbering.specs.Heights.{IsLower, IsEdge, AreHeights, number_of};
ghost use Rattle.acyclic_numbering.specs.Numbered.{IsOpen, open_count, IsNumberable, IsNextNumber, IsRaised, IsRaisedAlong, AreReached, AreHeightsSoFar, IsNumbered, IsStuck, IsWalkedSoFar, IsClosedAt, IsClosedWalk};
ghost use Rattle.net_base.specs.Members.{IsIn};
ghost use Rattle.net_base.specs.declared.ids.SwitchId.{SwitchId};
ghost use Rattle.net_base.specs.Switches.{most_switches};

use net_base::{ListOf, Memory, SwitchId};
use std::alloc::Global;
use std::marker::Model;

/// An edge between switches.
#[derive(Clone, Copy, Debug, PartialEq, Eq)]
pub struct Edge {
    pub from: SwitchId,
    pub to: SwitchId,
}

/// One number for each switch.
#[derive(Drop)]
pub struct Numbering {
    numbers: Vec<u16>,
}

impl Model for Numbering {
    ghost use Rattle.std.specs.Prelude.{List, ℕ};

    ghost Value = { List ℕ };

    ghost view = { λ n. n.numbers.items };
}

/// A list of switches.
pub type SwitchList = ListOf<SwitchId>;

/// The heights of the switches, or a closed walk of edges.
#[derive(Drop)]
pub enum Numbered {
    Heights(Numbering),
    Cycle(SwitchList),
}

impl Numbering {
    /// No numbers.
    pub fn make(alloc: Global) -> Result<Numbering, Memory>
        ensures { IfOk result (λ list. list ≡ []) }
    {
        Ok(Numbering {
            numbers: Vec::new(alloc),
        })
    }

    /// One more number. After a refusal the list is as before.
    pub fn add(&mut self, number: u16) -> Result<(), Memory>
        ensures ok { OnOk result (self.new ≡ self.old ++ number ∷ []) }
        ensures err { OnErr result (self.new ≡ self.old) }
    {
        self.numbers.push(number)?;
        Ok(())
    }

    /// The numbers, switch by switch.
    pub fn list(&self) -> &[u16]
        ensures { result.now ≡ self.now }
    {
        &self.numbers
    }
}

/// Whether the second switch has a lower number.
pub fn lowers(numbering: &Numbering, from: SwitchId, to: SwitchId) -> bool
    requires from { from.0 < length numbering.now }
    requires to { to.0 < length numbering.now }
    ensures { IsTrue result ↔ IsLower numbering.now from to }
{
    numbering.numbers[to.0 as usize] < numbering.numbers[from.0 as usize]
}

/// Whether no edge of the switch leads to one without a number.
fn is_ready(edges: &[Edge], pending: &[bool], s: SwitchId) -> bool
    requires { All (λ e. (e.from.0 < length pending.now) × (e.to.0 < length pending.now))
        edges.now }
    ensures { IsTrue result ↔ All (λ e. (e.from ≡ s) → ¬ IsOpen pending.now e.to) edges.now }
{
    for edge in edges {
        if edge.from.0 == s.0 && pending[edge.to.0 as usize] {
            return false;
        }
    }
    true
}

/// Whether the switch has no number and its edges lead to switches that have one.
fn is_next(edges: &[Edge], pending: &[bool], s: SwitchId) -> bool
    requires within { s.0 < length pending.now }
    requires edges { All (λ e. (e.from.0 < length pending.now) × (e.to.0 < length pending.now))
        edges.now }
    ensures { IsTrue result
        ↔ (IsOpen pending.now s × IsNumberable (IsEdge edges.now) pending.now s) }
{
    pending[s.0 as usize] && is_ready(edges, pending, s)
}

/// A switch without a number whose edges lead to switches that have one.
fn next_ready(edges: &[Edge], pending: &[bool]) -> Option<SwitchId>
    requires few { length pending.now ≤ most_switches }
    requires edges { All (λ e. (e.from.0 < length pending.now) × (e.to.0 < length pending.now))
        edges.now }
    ensures { MatchOption result ((s : SwitchId) → IsOpen pending.now s
        → ¬ IsNumberable (IsEdge edges.now) pending.now s)
        (λ s. IsOpen pending.now s × IsNumberable (IsEdge edges.now) pending.now s) }
{
    for i in 0..pending.len() {
        let s = SwitchId(i as u32);
        if is_next(edges, pending, s) {
            return Some(s);
        }
    }
    None
}

/// The number, or one more than that to which the edge leads, if it is an edge of the switch.
fn raised(number: u16, edge: &Edge, numbers: &[u16], s: SwitchId) -> u16
    requires within { edge.now.to.0 < length numbers.now }
    requires low { (edge.now.from ≡ s) → number_of numbers.now edge.now.to < 65535 }
    ensures { IsRaised numbers.now s edge.now number result }
{
    let to = edge.to.0 as usize;
    if edge.from.0 == s.0 && number <= numbers[to] {
        return numbers[to] + 1;
    }
    number
}

/// One more than the greatest number that an edge of the switch leads to.
fn next_number(edges: &[Edge], numbers: &[u16], s: SwitchId) -> u16
    requires edges { All (λ e. (e.from.0 < length numbers.now) × (e.to.0 < length numbers.now))
        edges.now }
    requires low { All (λ e. (e.from ≡ s) → number_of numbers.now e.to < 65535) edges.now }
    ensures { IsNextNumber (IsEdge edges.now) numbers.now s result }
{
    let mut number = 0;
    for edge in edges {
        number = raised(number, edge, numbers, s);
    }
    number
}

/// Gives a switch its number.
fn give_number(edges: &[Edge], numbers: &mut [u16], pending: &mut [bool], s: SwitchId)
    requires few { length pending.old ≤ most_switches }
    requires within { s.0 < length pending.old }
    requires edges { All (λ e. (e.from.0 < length pending.old) × (e.to.0 < length pending.old))
        edges.now }
    requires so_far { AreHeightsSoFar (IsEdge edges.now) pending.old numbers.old }
    requires next { IsOpen pending.old s × IsNumberable (IsEdge edges.now) pending.old s }
    ensures so_far { AreHeightsSoFar (IsEdge edges.now) pending.new numbers.new }
    ensures fewer { open_count pending.new + 1 ≡ open_count pending.old }
{
    let number = next_number(edges, numbers, s);
    numbers[s.0 as usize] = number;
    pending[s.0 as usize] = false;
}

/// A switch without a number to which an edge of the switch leads.
fn open_successor(edges: &[Edge], pending: &[bool], s: SwitchId) -> Option<SwitchId>
    requires { All (λ e. (e.from.0 < length pending.now) × (e.to.0 < length pending.now))
        edges.now }
    ensures { MatchOption result (All (λ e. (e.from ≡ s) → ¬ IsOpen pending.now e.to) edges.now)
        (λ t. IsEdge edges.now s t × IsOpen pending.now t) }
{
    for edge in edges {
        if edge.from.0 == s.0 && pending[edge.to.0 as usize] {
            return Some(edge.to);
        }
    }
    None
}

/// The place of a switch in a walk that has it.
fn place_in(walk: &[SwitchId], s: SwitchId) -> usize
    requires { IsIn s walk.now }
    ensures { slice_get walk.now result ≡ Some s }
{
    for (i, other) in walk.iter().enumerate() {
        if other.0 == s.0 {
            return i;
        }
    }
    unreachable!()
}

/// The walk from the place of the switch on, and then the switch once more.
fn close_at(alloc: Global, walk: &[SwitchId], s: SwitchId) -> Result<Vec<SwitchId>, Memory>
    requires { IsIn s walk.now }
    ensures { IfOk result (λ closed. IsClosedAt s walk.now closed.items) }
{
    let mut closed = Vec::from_slice(alloc, &walk[place_in(walk, s)..])?;
    closed.push(s)?;
    Ok(closed)
}

/// A closed walk, where each switch without a number has an edge to one without a number.
fn closed_walk(
    alloc: Global,
    edges: &[Edge],
    pending: &[bool],
    left: &mut [bool],
    start: SwitchId,
) -> Result<Vec<SwitchId>, Memory>
    requires edges { All (λ e. (e.from.0 < length pending.now) × (e.to.0 < length pending.now))
        edges.now }
    requires stuck { IsStuck (IsEdge edges.now) pending.now }
    requires start { IsOpen pending.now start }
    requires left { left.old ≡ pending.now }
    ensures { IfOk result (λ walk. IsClosedWalk (IsEdge edges.now) walk.items) }
{
    let mut walk = Vec::new(alloc);
    walk.push(start)?;
    let mut at = start;
    'walking: while let Some(next) = open_successor(edges, pending, at) {
        if !left[next.0 as usize] {
            return close_at(alloc, &walk, next);
        }
        left[next.0 as usize] = false;
        walk.push(next)?;
        at = next;
    }
    unreachable!()
}

/// The first switch without a number.
fn first_open(pending: &[bool]) -> Option<SwitchId>
    requires { length pending.now ≤ most_switches }
    ensures { MatchOption result ((s : SwitchId) → ¬ IsOpen pending.now s)
        (λ s. IsOpen pending.now s) }
{
    for i in 0..pending.len() {
        if pending[i] {
            return Some(SwitchId(i as u32));
        }
    }
    None
}

/// A closed walk from a switch without a number, where each such switch has an edge to one without a number.
fn cycle_from(
    alloc: Global,
    edges: &[Edge],
    pending: &[bool],
    start: SwitchId,
) -> Result<SwitchList, Memory>
    requires edges { All (λ e. (e.from.0 < length pending.now) × (e.to.0 < length pending.now))
        edges.now }
    requires stuck { IsStuck (IsEdge edges.now) pending.now }
    requires start { IsOpen pending.now start }
    ensures { IfOk result (λ walk. IsClosedWalk (IsEdge edges.now) walk) }
{
    let mut left = Vec::from_slice(alloc, pending)?;
    let walk = closed_walk(alloc, edges, pending, &mut left, start)?;
    Ok(SwitchList::of(walk))
}

/// The heights, found switch by switch, each after those to which its edges lead; or a closed walk of edges.
/// It looks at each edge once for each pair of switches at most.
fn number_each(alloc: Global, switches: u32, edges: &[Edge]) -> Result<Numbered, Memory>
    requires switches { switches ≤ most_switches }
    requires edges { All (λ e. (e.from.0 < switches) × (e.to.0 < switches)) edges.now }
    ensures { IfOk result (λ found. IsNumbered (IsEdge edges.now) switches found) }
{
    let count = switches as usize;
    let mut numbers = vec![in alloc; 0u16; count]?;
    let mut pending = vec![in alloc; true; count]?;
    'numbering: while let Some(s) = next_ready(edges, &pending) {
        give_number(edges, &mut numbers, &mut pending, s);
    }
    match first_open(&pending) {
        None => Ok(Numbered::Heights(Numbering { numbers })),
        Some(start) => Ok(Numbered::Cycle(cycle_from(alloc, edges, &pending, start)?)),
    }
}

/// Raises the number of the switch that an edge leaves to one more than that to which it leads, where it isn't higher already.
/// The result is false, and the numbers stay, where it would reach the count of switches. It would only where there is a cycle.
fn raise(numbers: &mut [u16], edge: &Edge) -> bool
    requires few { length numbers.old ≤ most_switches }
    requires from { edge.now.from.0 < length numbers.old }
    requires to { edge.now.to.0 < length numbers.old }
    ensures { IsRaisedAlong edge.now numbers.old numbers.new }
{
    let from = edge.from.0 as usize;
    let below = numbers[edge.to.0 as usize];
    if below < numbers[from] {
        return true;
    }
    if below as usize + 1 >= numbers.len() {
        return false;
    }
    numbers[from] = below + 1;
    true
}

/// Raises the numbers along each edge, from the last to the first. The result is false where one would reach the count of
/// switches.
fn raise_once(numbers: &mut [u16], edges: &[Edge]) -> bool
    requires few { length numbers.old ≤ most_switches }
    requires edges { All (λ e. (e.from.0 < length numbers.old) × (e.to.0 < length numbers.old))
        edges.now }
    requires reached { AreReached (IsEdge edges.now) numbers.old }
    ensures { AreReached (IsEdge edges.now) numbers.new }
{
    for edge in edges.iter().rev() {
        if !raise(numbers, edge) {
            return false;
        }
    }
    true
}

/// Whether the numbers fall along each edge.
fn fall_along(numbers: &[u16], edges: &[Edge]) -> bool
    requires { All (λ e. (e.from.0 < length numbers.now) × (e.to.0 < length numbers.now))
        edges.now }
    ensures { IsTrue result ↔ All (λ e. IsLower numbers.now e.from e.to) edges.now }
{
    for edge in edges {
        if numbers[edge.from.0 as usize] <= numbers[edge.to.0 as usize] {
            return false;
        }
    }
    true
}

/// Raises the numbers until they fall along each edge, and so are the heights. The result is false where they don't after a
/// pass for each switch, or where one would reach the count of switches.
fn raise_all(numbers: &mut [u16], edges: &[Edge]) -> bool
    requires few { length numbers.old ≤ most_switches }
    requires edges { All (λ e. (e.from.0 < length numbers.old) × (e.to.0 < length numbers.old))
        edges.now }
    requires reached { AreReached (IsEdge edges.now) numbers.old }
    ensures { IsTrue result → AreHeights (IsEdge edges.now) (length numbers.old) numbers.new }
{
    for _ in 0..numbers.len() {
        if !raise_once(numbers, edges) {
            return false;
        }
        if fall_along(numbers, edges) {
            return true;
        }
    }
    false
}

/// The heights of the switches, where the edges have no cycle, or a closed walk of edges.
/// It looks at each edge twice where the edges that leave a switch stand after those that lead to it, as in the order of a walk;
/// in another order at most twice for each switch. Where there is a cycle, it looks at each edge once more for each pair of
/// switches at most.
pub fn number(alloc: Global, switches: u32, edges: &[Edge]) -> Result<Numbered, Memory>
    requires switches { switches ≤ most_switches }
    requires edges { All (λ e. (e.from.0 < switches) × (e.to.0 < switches)) edges.now }
    ensures { IfOk result (λ found. IsNumbered (IsEdge edges.now) switches found) }
{
    let mut numbers = vec![in alloc; 0u16; switches as usize]?;
    if raise_all(&mut numbers, edges) {
        return Ok(Numbered::Heights(Numbering { numbers }));
    }
    number_each(alloc, switches, edges)
}
