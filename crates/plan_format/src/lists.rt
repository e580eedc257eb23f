//! Lists of numbers, and what stands beside them.
ghost use Rattle.std.specs.Prelude.{◌≡◌, ◌≤◌, ◌<◌, [], Ok, true, map, nat_lt, nat_le, option_map, IfOk, OnOk, MatchResult};
ghost use Rattle.flat_json.specs.Trees.{data_of};
ghost use Rattle.net_base.specs.Reading.{Gives, Fails, in_turn};
ghost use Rattle.plan_format.specs.declared.fault.PlanFault.TheVariants.{Memory};
ghost use Rattle.plan_format.specs.Evidence as plan;

use crate::fault::PlanFault;
use certificates::IndexList;
use flat_json::{Node, Tree};
use net_base::Field;
use std::alloc::Global;

/// How many rounds, numberings and before sets a plan has.
#[derive(Clone, Copy)]
pub(crate) struct Counts {
    pub(crate) rounds: usize,
    pub(crate) numberings: usize,
    pub(crate) befores: usize,
}

/// Which item is read: the member that it stands in, and its number there.
#[derive(Clone, Copy)]
pub(crate) struct ItemPlace {
    pub(crate) field: Field,
    pub(crate) place: u32,
}

/// Reads one more number.
#[tactic(auto, unfolding(crate::specs::Evidence::number_at))]
fn read_number(
    field: Field,
    place: u32,
    numbers: &mut IndexList,
    tree: &Tree<'_>,
    item: &Node,
) -> Result<(), PlanFault>
    ensures { MatchResult result
        (λ _. plan.number_at field place numbers.old (data_of tree.now item.now) ≡ Ok numbers.new)
        (λ e. Fails Memory e (plan.number_at field place numbers.old (data_of tree.now item.now))) }
{
    let number = tree.whole(item).ok_or(PlanFault::Shape(field, place))?;
    numbers.add(number)?;
    Ok(())
}

/// Reads a list of whole numbers, in the item at this place of the member.
#[tactic(auto, using(crate::proofs::TurnLaws::turns), unfolding(crate::specs::Evidence::numbers_in))]
pub(crate) fn read_numbers(
    alloc: Global,
    field: Field,
    place: u32,
    tree: &Tree<'_>,
    item: &Node,
) -> Result<IndexList, PlanFault>
    ensures { Gives Memory (λ l. l) result
        (plan.numbers_in field place (data_of tree.now item.now)) }
{
    let items = tree.list_in(item).ok_or(PlanFault::Shape(field, place))?;
    let mut numbers = IndexList::make(alloc)?;
    for number in items {
        read_number(field, place, &mut numbers, tree, number)?;
    }
    Ok(numbers)
}

/// Whether all numbers are below a limit.
#[tactic(auto, unfolding(crate::specs::Evidence::all_below))]
pub(crate) fn are_below(numbers: &IndexList, limit: usize) -> bool
    ensures { result ≡ plan.all_below limit numbers.now }
{
    numbers.list().iter().all(|n| *n < limit as u64)
}

fn are_ascending(numbers: &[u64]) -> bool
    ensures { result ≡ plan.ascends nat_lt numbers.now }
{
    for k in 1..numbers.len() {
        if numbers[k - 1] >= numbers[k] {
            return false;
        }
    }
    true
}

/// Whether each number is below the next.
pub(crate) fn ascends(numbers: &IndexList) -> bool
    ensures { result ≡ plan.ascends nat_lt numbers.now }
{
    are_ascending(numbers.list())
}

/// Whether it is the number of a round, from 1.
pub(crate) fn is_round(rounds: usize, number: u64) -> bool
    ensures value { result ≡ plan.is_round rounds number }
    ensures within { result ≡ true → number ≤ rounds }
{
    1 <= number && number <= rounds as u64
}

/// Whether it is the number of one of so many, of 32 bits.
pub(crate) fn is_index(count: usize, number: u64) -> bool
    ensures value { result ≡ plan.is_index count number }
    ensures small { result ≡ true → number ≤ 4294967295 }
{
    number < count as u64 && number <= u32::MAX as u64
}

/// Three whole numbers.
pub(crate) fn three_numbers(
    tree: &Tree<'_>,
    a: &Node,
    b: &Node,
    c: &Node,
) -> Option<(u64, u64, u64)>
    ensures { result
        ≡ plan.three_numbers (data_of tree.now a.now) (data_of tree.now b.now)
        (data_of tree.now c.now) }
{
    Some((tree.whole(a)?, tree.whole(b)?, tree.whole(c)?))
}
