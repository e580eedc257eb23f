//! Which changes of a round give a place an outcome.
#![tactic(auto)]

ghost use Rattle.std.specs.Prelude.{◌≡◌, ◌↔◌, IsTrue, IfOk, MatchOption};
ghost use Rattle.update_model.specs.Changes.{changes_at};
ghost use Rattle.update_model.specs.Mixtures.{MayBe};
ghost use Rattle.round_mix.specs.Prepared.{AreGood, AreClear};
ghost use Rattle.outcome_changes.specs.Giving.{GiveOutcome};
ghost use Rattle.outcome_changes.specs.Trials.{outcome_after, FailsWith};

mod trying;

use flow_rules::Table;
use net_base::{ListOf, Memory, Place};
use path_walk::Outcome;
use path_walk::following::outcome;
use std::alloc::Global;
use topology::Net;
use trying::Trial;
use update_model::Change;

/// What changes are sought for: the table of a switch before a round, the round, and the outcome that is wanted.
#[derive(Clone, Copy)]
pub struct Search<'a> {
    pub net: &'a Net,
    pub table: &'a Table,
    pub round: &'a [Change],
    pub wanted: Outcome,
}

/// Whether two outcomes are the same.
fn is_same(a: Outcome, b: Outcome) -> bool
    ensures { IsTrue result ↔ (a ≡ b) }
{
    a == b
}

/// The numbers of the changes of the round that a trial takes, if after them a packet has the outcome.
fn found_by(
    alloc: Global,
    search: Search<'_>,
    trial: &Trial,
) -> Result<Option<ListOf<usize>>, Memory>
    requires { AreGood search.table.now.rules (changes_at trial.now.place.switch search.round.now) }
    ensures { IfOk result
        (λ found. MatchOption found
        (¬ (outcome_after search.entry.net.now search.entry.table.now.rules
        search.entry.round.now trial.now ≡ search.entry.wanted))
        (λ numbers. GiveOutcome search.entry.net.now search.entry.table.now.rules
        search.entry.round.now trial.now.place trial.now.dst search.entry.wanted numbers)) }
{
    let tried = trial.table_after(search.table, search.round)?;
    let found = outcome(search.net, &tried, trial.place, trial.dst);
    if !is_same(found, search.wanted) {
        return Ok(None);
    }
    let numbers = trial.numbers(alloc, search.round)?;
    Ok(Some(numbers))
}

/// The same for the trial that turns the key of a change, if the change is at the switch and covers the packet.
fn found_with(
    alloc: Global,
    search: Search<'_>,
    deletes: &Trial,
    change: &Change,
) -> Result<Option<ListOf<usize>>, Memory>
    requires { AreGood search.table.now.rules
        (changes_at deletes.now.place.switch search.round.now) }
    ensures { IfOk result
        (λ found. MatchOption found
        (FailsWith search.entry.net.now search.entry.table.now.rules search.entry.round.now
        deletes.now.place deletes.now.dst search.entry.wanted change.now)
        (λ numbers. GiveOutcome search.entry.net.now search.entry.table.now.rules
        search.entry.round.now deletes.now.place deletes.now.dst search.entry.wanted
        numbers)) }
{
    if !deletes.is_here(change) || !deletes.is_covered(change) {
        return Ok(None);
    }
    let trial = Trial {
        turned: Some(change.rule().key),
        ..*deletes
    };
    found_by(alloc, search, &trial)
}

/// Numbers of changes of a round at the switch of a place, ascending, after which a packet to the address has the outcome
/// there: none, where it has it in the table. The outcome is possible while the round is carried out.
///
/// Tried are the deletes that cover the packet; and then, for each change that covers it, those of greater priority, with that
/// change too if it doesn't delete. Each trial costs a copy of the table, a look at the round, and a look-up for each change
/// that it makes.
pub fn changes_for(
    alloc: Global,
    search: Search<'_>,
    place: Place,
    dst: u32,
) -> Result<ListOf<usize>, Memory>
    requires good { AreGood search.table.now.rules (changes_at place.switch search.round.now) }
    requires clear { AreClear search.table.now.rules (changes_at place.switch search.round.now) }
    requires possible { MayBe search.net.now search.table.now.rules
        (changes_at place.switch search.round.now) place dst search.wanted }
    ensures { IfOk result
        (λ numbers. GiveOutcome search.entry.net.now search.entry.table.now.rules
        search.entry.round.now place dst search.entry.wanted numbers) }
{
    if outcome(search.net, search.table, place, dst) == search.wanted {
        return ListOf::make(alloc);
    }
    let deletes = Trial {
        place,
        dst,
        turned: None,
    };
    if let Some(numbers) = found_by(alloc, search, &deletes)? {
        return Ok(numbers);
    }
    for change in search.round {
        if let Some(numbers) = found_with(alloc, search, &deletes, change)? {
            return Ok(numbers);
        }
    }
    unreachable!()
}
