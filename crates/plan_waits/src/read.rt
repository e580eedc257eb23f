//! The reader of the member `waits`.
ghost use Rattle.std.specs.Prelude.{◌≡◌, ◌==◌, ◌<◌, ℕ, List, Option, Ok, nat_lt, position, option_map, IfOk, IfErr, MatchResult};
ghost use Rattle.std.specs.List.{list_any};
ghost use Rattle.flat_json.specs.Trees.{data_of};
ghost use Rattle.net_base.specs.Reading.{Gives, Fails};
ghost use Rattle.certificates.specs.Valid.{IsChain};
ghost use Rattle.plan_format.specs.Evidence.{follows};
ghost use Rattle.plan_waits.specs.declared.fault.WaitsFault.TheVariants.{Memory};
ghost use Rattle.plan_waits.specs.Waits.{is_later_round, wait_at, wait_list_in, is_astray, first_astray, plan_waits_in, waits_member, waits_in};
ghost use Rattle.plan_waits.specs.PlanWaits.{SaysWaits, MayHave};

use crate::fault::WaitsFault;
use certificates::{Evidence, IndexList, OrderedPick, Plan};
use flat_json::{Node, Tree};
use net_base::place_of;
use std::alloc::Global;

/// Whether it is the number of a round from the second to the last.
fn is_later_round(rounds: usize, number: u64) -> bool
    ensures { result ≡ is_later_round rounds number }
{
    2 <= number && number <= rounds as u64
}

/// Whether the last of the numbers, if there is one, is below this one.
fn comes_next(before: &[u64], number: u64) -> bool
    ensures { result ≡ follows nat_lt before.now number }
{
    match before.last() {
        None => true,
        Some(last) => *last < number,
    }
}

/// Reads one more wait.
#[tactic(auto, unfolding(crate::specs::Waits::wait_at))]
fn read_wait(
    rounds: usize,
    before: &mut IndexList,
    place: u32,
    tree: &Tree<'_>,
    item: &Node,
) -> Result<(), WaitsFault>
    ensures { MatchResult result
        (λ _. wait_at rounds place before.old (data_of tree.now item.now) ≡ Ok before.new)
        (λ e. Fails Memory e (wait_at rounds place before.old (data_of tree.now item.now))) }
{
    let number = tree.whole(item).ok_or(WaitsFault::Shape(place))?;
    if !is_later_round(rounds, number) {
        return Err(WaitsFault::BadIndex(place));
    }
    if !comes_next(before.list(), number) {
        return Err(WaitsFault::BadIndex(place));
    }
    before.add(number)?;
    Ok(())
}

/// Reads the list of waits.
#[tactic(auto, using(crate::proofs::WaitTurns::turns), unfolding(crate::specs::Waits::wait_list_in))]
fn read_wait_list(
    alloc: Global,
    rounds: usize,
    tree: &Tree<'_>,
    member: &Node,
) -> Result<IndexList, WaitsFault>
    ensures { Gives Memory (λ l. l) result
        (wait_list_in rounds (data_of tree.now member.now)) }
{
    let items = tree.list_in(member).ok_or(WaitsFault::Shape(0))?;
    let mut numbers = IndexList::make(alloc)?;
    for (i, item) in items.iter().enumerate() {
        read_wait(rounds, &mut numbers, place_of(i), tree, item)?;
    }
    Ok(numbers)
}

/// Whether a number is one of the waits, which ascend.
fn has_round(waits: &[u64], round: u64) -> bool
    requires { IsChain (λ v w. v < w) waits.now }
    ensures { result ≡ list_any (λ w. w == round) waits.now }
{
    waits.binary_search(&round).is_ok()
}

/// Whether the pick stands at a round above the first that is no wait.
fn is_astray(waits: &[u64], pick: OrderedPick) -> bool
    requires { IsChain (λ v w. v < w) waits.now }
    ensures { result ≡ is_astray waits.now pick }
{
    !(pick.round <= 1 || has_round(waits, u64::from(pick.round)))
}

/// The place of the first pick that stands so.
fn place_astray(waits: &[u64], picks: &[OrderedPick]) -> Option<usize>
    requires { IsChain (λ v w. v < w) waits.now }
    ensures { result ≡ position (is_astray waits.now) picks.now }
{
    picks.iter().position(|pick| is_astray(waits, *pick))
}

/// The place of the first pick of an ordered plan that stands so.
fn first_astray(waits: &[u64], evidence: &Evidence) -> Option<usize>
    requires { IsChain (λ v w. v < w) waits.now }
    ensures { result ≡ first_astray waits.now evidence.now }
{
    match evidence {
        Evidence::Ordered(evidence) => place_astray(waits, evidence.picks.list()),
        Evidence::TwoPhase(_) => None,
    }
}

/// Reads the waits of a plan: the list, and then whether each pick stands where it may.
#[tactic(auto, unfolding(crate::specs::Waits::plan_waits_in))]
fn read_plan_waits(
    alloc: Global,
    plan: &Plan,
    tree: &Tree<'_>,
    member: &Node,
) -> Result<IndexList, WaitsFault>
    ensures { Gives Memory (λ l. l) result
        (plan_waits_in plan.now (data_of tree.now member.now)) }
{
    let numbers = read_wait_list(alloc, plan.rounds.count(), tree, member)?;
    match first_astray(numbers.list(), &plan.evidence) {
        Some(place) => Err(WaitsFault::BadIndex(place_of(place))),
        None => Ok(numbers),
    }
}

/// The member `waits` of a plan of format 2.
fn waits_member<'t>(tree: &'t Tree<'_>, top: &Node) -> Option<&'t Node>
    ensures { option_map (λ n. data_of tree.now n.now) result
        ≡ waits_member (data_of tree.now top.now) }
{
    match tree.whole_at(top, "format") {
        Some(2) => tree.get(top, "waits"),
        _ => None,
    }
}

/// Reads the waits of a plan's tree.
#[tactic(auto, unfolding(crate::specs::Waits::waits_in))]
fn read_top(
    alloc: Global,
    plan: &Plan,
    tree: &Tree<'_>,
    top: &Node,
) -> Result<Option<IndexList>, WaitsFault>
    ensures { Gives Memory (λ w. w) result (waits_in plan.now (data_of tree.now top.now)) }
{
    match waits_member(tree, top) {
        None => Ok(None),
        Some(member) => Ok(Some(read_plan_waits(alloc, plan, tree, member)?)),
    }
}

/// The waits of a plan: the numbers of the rounds, from 1, before which packets are waited for. None where the plan hasn't
/// the member or is of format 1: it then waits before each round. The plan is the one that was read of the tree. It takes
/// time and memory in proportion to the list and the picks, with a search in the list for each pick.
pub fn read_waits(
    alloc: Global,
    plan: &Plan,
    tree: &Tree<'_>,
    top: &Node,
) -> Result<Option<IndexList>, WaitsFault>
    // The waits, or the first refusal of the table.
    ensures exact { Gives Memory (λ w. w) result
        (waits_in plan.now (data_of tree.now top.now)) }
    // They are what the member says, and the plan may have them.
    ensures said { IfOk result (λ w. SaysWaits (waits_member (data_of tree.now top.now)) w) }
    ensures may { IfOk result (λ w. MayHave plan.now w) }
    // Waits that the member says and the plan may have aren't refused.
    ensures err { (w : Option (List ℕ)) → SaysWaits (waits_member (data_of tree.now top.now)) w
        → MayHave plan.now w → IfErr result (λ e. e ≡ Memory) }
{
    read_top(alloc, plan, tree, top)
}
