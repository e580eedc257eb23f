//! Flags in a row with a tree of counts above them: how many are on, and which of them is the k-th.
ghost use Rattle.std.specs.Prelude.{◌≡◌, ℕ, suc, ◌+◌, ◌<◌, ◌≤◌, ◌^◌, ◌++◌, ◌∷◌, [], true, false, length, map, sum, Some, slice_get, slice_set, slice_index, slice_index_or, IfOk, OnOk};
ghost use Rattle.schedule_pilot.specs.Agendas.{numbers_on};
ghost use Rattle.schedule_pilot.specs.Counts.{one_if_on, pair_sums, AreSumRows, IsTreeOf, last_row, with_one_less, CountsUpFrom, AreLowered, IsCountedAt};

use net_base::Memory;
use std::alloc::Global;
use std::marker::Model;

/// Rows of numbers.
#[derive(Drop)]
struct Rows {
    list: Vec<Vec<usize>>,
}

impl Model for Rows {
    ghost use Rattle.std.specs.Prelude.{ℕ, List, map};

    ghost Value = { List (List ℕ) };

    ghost view = { λ r. map (λ row. row.items) r.list.items };
}

/// Takes 1 from a number of a row.
fn lower_in(row: &mut Vec<usize>, i: usize)
    requires { 1 ≤ slice_index row.old.items i }
    ensures { row.new.items ≡ with_one_less i row.old.items }
{
    row[i] -= 1;
}

impl Rows {
    /// No rows.
    fn new(alloc: Global) -> Rows
        ensures { result ≡ [] }
    {
        Rows {
            list: Vec::new(alloc),
        }
    }

    /// How many rows there are.
    fn count(&self) -> usize
        ensures value { result ≡ length self.now }
        ensures small { result < 2 ^ 63 }
    {
        self.list.len()
    }

    /// Row j.
    fn row(&self, j: usize) -> &[usize]
        requires { j < length self.now }
        ensures { result.now ≡ slice_index_or self.now j [] }
    {
        &self.list[j]
    }

    /// The last row.
    fn top(&self) -> &[usize]
        requires { 1 ≤ length self.now }
        ensures { result.now ≡ last_row self.now }
    {
        self.row(self.count() - 1)
    }

    /// One more row.
    fn push(&mut self, row: Vec<usize>) -> Result<(), Memory>
        ensures { OnOk result (self.new ≡ self.old ++ row.items ∷ []) }
    {
        self.list.push(row)?;
        Ok(())
    }

    /// Takes 1 from a number of row j.
    fn lower(&mut self, j: usize, i: usize)
        requires row { j < length self.old }
        requires some { 1 ≤ slice_index (slice_index_or self.old j []) i }
        ensures { self.new ≡ slice_set self.old j
            (with_one_less i (slice_index_or self.old j [])) }
    {
        lower_in(&mut self.list[j], i);
    }
}

/// The number at a position, 0 behind the last.
fn number_at(row: &[usize], i: usize) -> usize
    ensures { result ≡ slice_index row.now i }
{
    match row.get(i) {
        Some(number) => *number,
        None => 0,
    }
}

/// The sum of the numbers at a position and behind it.
fn pair_sum(row: &[usize], i: usize) -> usize
    requires within { i < length row.now }
    requires few { sum row.now < 2 ^ 64 }
    ensures { result ≡ slice_index row.now i + slice_index row.now (suc i) }
{
    let number = row[i];
    if row.len() - i > 1 {
        number + row[i + 1]
    } else {
        number
    }
}

/// The sums of neighbours.
fn pair_sums(alloc: Global, row: &[usize]) -> Result<Vec<usize>, Memory>
    requires { sum row.now < 2 ^ 64 }
    ensures { IfOk result (λ v. v.items ≡ pair_sums row.now) }
{
    let mut sums = Vec::new(alloc);
    for i in 0..row.len().div_ceil(2) {
        sums.push(pair_sum(row, 2 * i))?;
    }
    Ok(sums)
}

/// For each flag 1 where it is on, otherwise 0.
fn ones_of(alloc: Global, flags: &[bool]) -> Result<Vec<usize>, Memory>
    ensures { IfOk result (λ v. v.items ≡ map one_if_on flags.now) }
{
    let mut ones = Vec::new(alloc);
    for on in flags {
        ones.push(usize::from(*on))?;
    }
    Ok(ones)
}

/// The rows above a lowest one, up to one that has at most one number.
fn rows_above(alloc: Global, lowest: Vec<usize>) -> Result<Rows, Memory>
    requires { sum lowest.items < 2 ^ 64 }
    ensures rows { IfOk result (λ r. AreSumRows lowest.items r) }
    ensures top { IfOk result (λ r. length (last_row r) ≤ 1) }
{
    let mut rows = Rows::new(alloc);
    rows.push(lowest)?;
    'rising: while rows.top().len() > 1 {
        let sums = pair_sums(alloc, rows.top())?;
        rows.push(sums)?;
    }
    Ok(rows)
}

/// Takes 1 from each number on the way up from a position of the lowest row.
fn lower_up(rows: &mut Rows, i: usize)
    requires { CountsUpFrom i rows.old }
    ensures { AreLowered i (length rows.old) rows.old rows.new }
{
    let mut position = i;
    for j in 0..rows.count() {
        rows.lower(j, position);
        position /= 2;
    }
}

/// A position of a row, and which of what is counted there is meant.
#[derive(Clone, Copy)]
struct CountedAt {
    position: usize,
    rest: usize,
}

/// What a position of the sums of neighbours counts, in the row of the neighbours.
fn spot_below(row: &[usize], spot: CountedAt) -> CountedAt
    requires { spot.rest < slice_index (pair_sums row.now) spot.position }
    ensures { (k : ℕ) → IsCountedAt (pair_sums row.now) k spot.position spot.rest
        → IsCountedAt row.now k result.position result.rest }
{
    let position = 2 * spot.position;
    let first = row[position];
    if spot.rest < first {
        CountedAt {
            position,
            rest: spot.rest,
        }
    } else {
        CountedAt {
            position: position + 1,
            rest: spot.rest - first,
        }
    }
}

/// The position in the lowest row where number k of what the rows count is counted.
fn position_of(rows: &Rows, k: usize) -> usize
    requires some { 1 ≤ length rows.now }
    requires top { IsCountedAt (last_row rows.now) k 0 k }
    requires above { (j : ℕ) → suc j < length rows.now
        → slice_index_or rows.now (suc j) [] ≡ pair_sums (slice_index_or rows.now j []) }
    ensures { (rest : ℕ) × IsCountedAt (slice_index_or rows.now 0 []) k result rest }
{
    let mut spot = CountedAt {
        position: 0,
        rest: k,
    };
    let mut j = rows.count() - 1;
    'falling: while j > 0 {
        j -= 1;
        spot = spot_below(rows.row(j), spot);
    }
    spot.position
}

/// Flags in a row, of which those that are on are counted in a tree.
#[derive(Drop)]
pub(crate) struct FlagTree {
    flags: Vec<bool>,
    rows: Rows,
}

impl Model for FlagTree {
    ghost use Rattle.std.specs.Prelude.{List, Bool};
    ghost use Rattle.schedule_pilot.specs.Counts.{IsTreeOf};

    ghost Value = { List Bool };

    ghost view = { λ t. t.flags.items };

    ghost invariant = { λ t. IsTreeOf t.flags.items t.rows };
}

impl FlagTree {
    /// A tree of these flags. Takes time by their number.
    pub(crate) fn of(alloc: Global, flags: &[bool]) -> Result<FlagTree, Memory>
        ensures { IfOk result (λ t. t ≡ flags.now) }
    {
        let ones = ones_of(alloc, flags)?;
        let rows = rows_above(alloc, ones)?;
        Ok(FlagTree {
            flags: Vec::from_slice(alloc, flags)?,
            rows,
        })
    }

    /// Puts other flags in place of all. Takes time by their number.
    pub(crate) fn renew(&mut self, flags: &[bool]) -> Result<(), Memory>
        ensures { OnOk result (self.new ≡ flags.now) }
    {
        *self = FlagTree::of(*self.flags.allocator(), flags)?;
        Ok(())
    }

    /// How many flags are on. Takes the same time for any number of flags.
    pub(crate) fn count(&self) -> usize
        ensures value { result ≡ length (numbers_on 0 self.now) }
        ensures small { result < 2 ^ 63 }
    {
        number_at(self.rows.top(), 0)
    }

    /// The number of the k-th of the flags that are on, from 0. Takes time by the logarithm of the number of flags.
    pub(crate) fn kth(&self, k: usize) -> usize
        requires { k < length (numbers_on 0 self.now) }
        ensures { slice_get (numbers_on 0 self.now) k ≡ Some result }
    {
        position_of(&self.rows, k)
    }

    /// Turns off a flag that is on. Takes time by the logarithm of the number of flags.
    pub(crate) fn turn_off(&mut self, i: usize)
        requires { slice_get self.old i ≡ Some true }
        ensures { self.new ≡ slice_set self.old i false }
    {
        lower_up(&mut self.rows, i);
        self.flags[i] = false;
    }
}
