//! The reader of plans.
ghost use Rattle.std.specs.Prelude.{◌≡◌, ◌≤◌, IfOk, length};
ghost use Rattle.flat_json.specs.Trees.{data_of};
ghost use Rattle.net_base.specs.Reading.{Gives};
ghost use Rattle.plan_format.specs.declared.fault.PlanFault.TheVariants.{Memory};
ghost use Rattle.plan_format.specs.Plans as plan;
ghost use Rattle.certificates.specs.Valid.{IsValidPlan};

use crate::changes::{ChangeList, CountedRounds, Spelling, read_rounds, read_rules};
use crate::evidence::{read_befores, read_numberings};
use crate::fault::PlanFault;
use crate::full_picks::read_full_picks;
use crate::labels::{read_label_picks, read_labels};
use crate::lists::Counts;
use crate::picks::{PickTable, read_uses_and_picks};
use certificates::{Evidence, OrderedEvidence, Plan, TwoPhaseEvidence};
use flat_json::{Node, Tree, parse_tree};
use json::Scratch;
use net_base::Field;
use std::alloc::Global;
use topology::Net;

const MAX_ROUNDS: usize = 4200;

const MAX_TRIED: usize = 4096;

/// The format of a plan.
#[derive(Clone, Copy)]
enum Format {
    One,
    Two,
}

/// The kind of a plan.
#[derive(Clone, Copy)]
enum PlanKind {
    Ordered,
    TwoPhase,
}

/// What a plan says of itself first.
#[derive(Clone, Copy)]
struct Head {
    format: Format,
    kind: PlanKind,
}

/// What stands in a plan before its evidence: what it says of itself, how its changes are spelled, and its rounds, for a
/// network.
#[derive(Clone, Copy)]
struct PlanStart<'a> {
    net: &'a Net,
    head: Head,
    spelling: &'a Spelling,
    rounds: &'a CountedRounds,
}

/// The format of this number.
fn format_of(number: u64) -> Option<Format>
    ensures { result ≡ plan.format_of number }
{
    if number == 1 {
        return Some(Format::One);
    }
    if number == 2 {
        return Some(Format::Two);
    }
    None
}

/// The kind of plan of this word.
fn kind_of(word: &str) -> Option<PlanKind>
    ensures { result ≡ plan.kind_of word.now }
{
    match word {
        "ordered" => Some(PlanKind::Ordered),
        "two-phase" => Some(PlanKind::TwoPhase),
        _ => None,
    }
}

/// Reads how changes are spelled: the member `rules` in format 2.
#[tactic(auto, unfolding(crate::specs::Plans::spelling_in))]
fn read_spelling(
    alloc: Global,
    net: &Net,
    format: Format,
    tree: &Tree<'_>,
    top: &Node,
) -> Result<Spelling, PlanFault>
    ensures { Gives Memory (λ s. s) result
        (plan.spelling_in net.now format (data_of tree.now top.now)) }
{
    match format {
        Format::One => Ok(Spelling::Objects),
        Format::Two => {
            let rules = read_rules(alloc, net, tree, top)?;
            Ok(Spelling::Numbers(rules))
        }
    }
}

/// Reads the picks and their evidence.
fn read_pick_table(
    alloc: Global,
    format: Format,
    counts: Counts,
    tree: &Tree<'_>,
    top: &Node,
) -> Result<PickTable, PlanFault>
    requires { counts.rounds ≤ 4200 }
    ensures { Gives Memory (λ t. t) result
        (plan.pick_table_in format counts.rounds counts.numberings counts.befores
        (data_of tree.now top.now)) }
{
    match format {
        Format::One => read_full_picks(alloc, counts, tree, top),
        Format::Two => read_uses_and_picks(alloc, counts, tree, top),
    }
}

/// Reads the members of an ordered plan.
#[tactic(auto, unfolding(crate::specs::Plans::ordered_in))]
fn read_ordered(
    alloc: Global,
    net: &Net,
    format: Format,
    rounds: usize,
    tree: &Tree<'_>,
    top: &Node,
) -> Result<OrderedEvidence, PlanFault>
    requires { rounds ≤ 4200 }
    ensures { Gives Memory (λ e. e) result
        (plan.ordered_in net.now format rounds (data_of tree.now top.now)) }
{
    let numberings = read_numberings(alloc, net, tree, top)?;
    let befores = read_befores(alloc, net, tree, top)?;
    let counts = Counts {
        rounds,
        numberings: numberings.list().len(),
        befores: befores.list().len(),
    };
    let table = read_pick_table(alloc, format, counts, tree, top)?;
    Ok(OrderedEvidence {
        numberings,
        befores,
        uses: table.uses,
        picks: table.picks,
    })
}

/// Reads the members of a two-phase plan.
#[tactic(auto, unfolding(crate::specs::Plans::two_phase_in))]
fn read_two_phase(
    alloc: Global,
    start: PlanStart,
    tree: &Tree<'_>,
    top: &Node,
) -> Result<TwoPhaseEvidence, PlanFault>
    requires { length start.rounds.now ≤ 4200 }
    ensures { Gives Memory (λ e. e) result
        (plan.two_phase_in start.entry.net.now start.entry.spelling.now start.entry.rounds.now
        (data_of tree.now top.now)) }
{
    let rounds = start.rounds;
    let labels = read_labels(alloc, tree, top)?;
    let picks = read_label_picks(alloc, rounds.count(), labels.list().len(), tree, top)?;
    let list = ChangeList {
        net: start.net,
        spelling: start.spelling,
        name: Field::Tried,
        first: rounds.changes(),
    };
    let tried = read_rounds(alloc, list, MAX_TRIED, tree, top)?;
    Ok(TwoPhaseEvidence {
        labels,
        picks,
        tried: tried.rounds(),
    })
}

/// Reads the evidence of a plan of this kind.
#[tactic(auto, unfolding(crate::specs::Plans::evidence_in))]
fn read_evidence(
    alloc: Global,
    start: PlanStart,
    tree: &Tree<'_>,
    top: &Node,
) -> Result<Evidence, PlanFault>
    requires { length start.rounds.now ≤ 4200 }
    ensures { Gives Memory (λ e. e) result
        (plan.evidence_in start.entry.net.now start.entry.head.format start.entry.head.kind
        start.entry.spelling.now start.entry.rounds.now (data_of tree.now top.now)) }
{
    match start.head.kind {
        PlanKind::Ordered => {
            let rounds = start.rounds.count();
            let evidence = read_ordered(alloc, start.net, start.head.format, rounds, tree, top)?;
            Ok(Evidence::Ordered(evidence))
        }
        PlanKind::TwoPhase => {
            let evidence = read_two_phase(alloc, start, tree, top)?;
            Ok(Evidence::TwoPhase(evidence))
        }
    }
}

/// Reads the plan of a tree.
#[tactic(auto, unfolding(crate::specs::Plans::plan_at))]
fn read_top(alloc: Global, net: &Net, tree: &Tree<'_>, top: &Node) -> Result<Plan, PlanFault>
    ensures { Gives Memory (λ p. p) result (plan.plan_at net.now (data_of tree.now top.now)) }
{
    if !tree.is_object(top) {
        return Err(PlanFault::Shape(Field::Top, 0));
    }
    let number = tree
        .whole_at(top, "format")
        .ok_or(PlanFault::Shape(Field::Format, 0))?;
    let format = format_of(number).ok_or(PlanFault::BadFormat)?;
    let kind = tree
        .text_at(top, "kind")
        .and_then(kind_of)
        .ok_or(PlanFault::Shape(Field::Kind, 0))?;
    let spelling = read_spelling(alloc, net, format, tree, top)?;
    let list = ChangeList {
        net,
        spelling: &spelling,
        name: Field::Rounds,
        first: 0,
    };
    let rounds = read_rounds(alloc, list, MAX_ROUNDS, tree, top)?;
    let start = PlanStart {
        net,
        head: Head { format, kind },
        spelling: &spelling,
        rounds: &rounds,
    };
    let evidence = read_evidence(alloc, start, tree, top)?;
    Ok(Plan {
        rounds: rounds.rounds(),
        evidence,
    })
}

#[tactic(auto, unfolding(crate::specs::Plans::plan_in))]
fn read_file(alloc: Global, net: &Net, bytes: &[u8]) -> Result<Plan, PlanFault>
    ensures { Gives Memory (λ p. p) result (plan.plan_in net.now bytes.now) }
{
    let mut scratch = Scratch::new(alloc);
    let tree = parse_tree(alloc, bytes, &mut scratch)?;
    read_top(alloc, net, &tree, tree.top())
}

/// The plan that the bytes describe, of format 1 or 2, or the first refusal of the table of members. It takes time and
/// memory in proportion to the bytes.
pub fn read_plan(alloc: Global, net: &Net, bytes: &[u8]) -> Result<Plan, PlanFault>
    ensures exact { Gives Memory (λ p. p) result (plan.plan_in net.now bytes.now) }
    ensures valid { IfOk result (λ p. IsValidPlan net.now p) }
{
    read_file(alloc, net, bytes)
}
