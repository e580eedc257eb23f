//! Runs that show a breaking walk.
ghost use Rattle.std.specs.Prelude.{◌≡◌, ◌^◌, ◌<◌, ◌≤◌, ◌++◌, ◌∷◌, [], None, length, map, take, IfOk, IfSome, OnOk};
ghost use Rattle.net_base.specs.Walks.{end_of};
ghost use Rattle.topology.specs.Networks.{switch_count, IsEntry};
ghost use Rattle.flow_rules.specs.Tables.{rules_of_all};
ghost use Rattle.demands.specs.Duties.{duties_of};
ghost use Rattle.update_model.specs.Changes.{round_after};
ghost use Rattle.update_model.specs.Mixtures.{AreGoodRounds, AreClearRounds, IsPossible, IsMixedWalk, tables_before};
ghost use Rattle.net_base.specs.Numbers.{numbers_from};
ghost use Rattle.breaking_walks.specs.Breaking.{IsBreakingWalk};
ghost use Rattle.counter_run.specs.Showing.{IsBreakingRun, AreFewFor, shown_rollout, whole_round, whole_rounds};
ghost use Rattle.counter_run.specs.Steps.{IsStage, GoOnAlong, GoOnBy};

use breaking_walks::{BreakingWalk, PreparedRound};
use demands::Duties;
use dest_classes::Class;
use flow_rules::Config;
use net_base::{Memory, Place};
use outcome_changes::{Search, changes_for};
use path_walk::Outcome;
use std::alloc::Global;
use update_model::{Change, Event, Events, Rounds};

/// A round of an update, prepared, with the tables before it.
#[derive(Clone, Copy)]
pub(crate) struct ShownRound<'a> {
    pub(crate) round: PreparedRound<'a>,
    pub(crate) tables: &'a Config,
}

/// Adds changes by their numbers, so many from 0 on.
fn add_every(events: &mut Events, count: usize) -> Result<(), Memory>
    ensures { OnOk result (events.new ≡ events.old ++ map Event.Change (numbers_from 0 count)) }
{
    for i in 0..count {
        events.add(Event::Change(i))?;
    }
    Ok(())
}

/// Adds a round that is carried out whole.
fn add_whole_round(events: &mut Events, round: &[Change]) -> Result<(), Memory>
    ensures { OnOk result (events.new ≡ events.old ++ whole_round round.now) }
{
    events.add(Event::Start)?;
    add_every(events, round.len())?;
    events.add(Event::Settle)?;
    Ok(())
}

/// Adds the first rounds, so many, each carried out whole.
fn add_whole_rounds(events: &mut Events, rounds: &Rounds, number: usize) -> Result<(), Memory>
    requires { number ≤ length rounds.now }
    ensures { OnOk result (events.new ≡ events.old ++ whole_rounds (take number rounds.now)) }
{
    for k in 0..number {
        add_whole_round(events, rounds.round(k))?;
    }
    Ok(())
}

/// Adds the start of a round and the entry of a packet, whose address has 32 bits.
fn add_entry(events: &mut Events, entry: Place, dst: u32) -> Result<(), Memory>
    ensures added { OnOk result
        (events.new ≡ events.old ++ Event.Start ∷ Event.Enter entry dst ∷ []) }
    ensures small { OnOk result (dst < 2 ^ 32) }
{
    events.add(Event::Start)?;
    events.add(Event::Enter(entry, dst))?;
    Ok(())
}

/// Adds changes by these numbers.
fn add_changes(events: &mut Events, numbers: &[usize]) -> Result<(), Memory>
    ensures { OnOk result (events.new ≡ events.old ++ map Event.Change numbers.now) }
{
    for i in numbers {
        events.add(Event::Change(*i))?;
    }
    Ok(())
}

/// Adds a hop of packet 0 at a place, and before it changes at its switch that give the place the outcome. None of them has
/// been made before: each hop is at another switch.
fn add_hop(
    alloc: Global,
    events: &mut Events,
    stage: ShownRound<'_>,
    dst: u32,
    place: Place,
    wanted: Outcome,
) -> Result<(), Memory>
    requires stage { IsStage stage }
    requires inside { place.switch.0 < switch_count stage.round.net.now }
    requires possible { IsPossible (shown_rollout stage) stage.round.number dst place wanted }
    ensures { OnOk result
        (GoOnBy (shown_rollout stage.entry) stage.entry.round.number dst place wanted events.old
        events.new) }
{
    let table = stage.tables.table(place.switch);
    let round = stage.round.rounds.round(stage.round.number);
    let search = Search {
        net: stage.round.net,
        table,
        round,
        wanted,
    };
    let changes = changes_for(alloc, search, place, dst)?;
    add_changes(events, changes.list())?;
    events.add(Event::Hop(0))?;
    Ok(())
}

/// Adds a hop to each next place of a walk, and answers the last of its places.
fn add_hops(
    alloc: Global,
    events: &mut Events,
    stage: ShownRound<'_>,
    class: Class,
    rest: &[Place],
) -> Result<Place, Memory>
    requires stage { IsStage stage }
    requires entry { IsEntry stage.round.net.now class.entry }
    requires walk { IsMixedWalk (shown_rollout stage) stage.round.number class.first class.entry
        rest.now }
    ensures last { IfOk result (λ place. place ≡ end_of class.entry rest.now) }
    ensures along { OnOk result
        (GoOnAlong (shown_rollout stage.entry) stage.entry.round.number class rest.now None
        events.old events.new) }
{
    stage.round.net.keeps_rules();
    let mut place = class.entry;
    for next in rest {
        add_hop(alloc, events, stage, class.first, place, Outcome::Go(*next))?;
        place = *next;
    }
    Ok(place)
}

/// Adds the hops along a walk, and one at its end, if the packet is to end there.
fn add_walk(
    alloc: Global,
    events: &mut Events,
    stage: ShownRound<'_>,
    class: Class,
    walk: &BreakingWalk,
) -> Result<(), Memory>
    requires stage { IsStage stage }
    requires entry { IsEntry stage.round.net.now class.entry }
    requires walk { IsMixedWalk (shown_rollout stage) stage.round.number class.first class.entry
        walk.now.rest }
    requires end { IfSome walk.now.end
        (λ found. IsPossible (shown_rollout stage) stage.round.number class.first
        (end_of class.entry walk.now.rest) found) }
    ensures { OnOk result
        (GoOnAlong (shown_rollout stage.entry) stage.entry.round.number class walk.now.rest
        walk.now.end events.old events.new) }
{
    stage.round.net.keeps_rules();
    let last = add_hops(alloc, events, stage, class, walk.rest.list())?;
    match walk.end {
        Some(end) => add_hop(alloc, events, stage, class.first, last, end),
        None => Ok(()),
    }
}

/// The run that carries out the rounds before, lets a packet of the class enter while the round is carried out, and leads it
/// along a breaking walk.
pub(crate) fn breaking_run(
    alloc: Global,
    stage: ShownRound<'_>,
    duties: &Duties,
    class: Class,
    walk: &BreakingWalk,
) -> Result<Events, Memory>
    requires tables { length stage.round.old.now ≡ switch_count stage.round.net.now }
    requires within { stage.round.number < length stage.round.rounds.now }
    requires before { rules_of_all stage.tables.now
        ≡ tables_before (shown_rollout stage) stage.round.number }
    requires good { AreGoodRounds (shown_rollout stage) }
    requires clear { AreClearRounds (shown_rollout stage) }
    requires entry { IsEntry stage.round.net.now class.entry }
    requires walk { IsBreakingWalk (shown_rollout stage) stage.round.number class.first class.entry
        (duties_of duties.now.demands class.entry class.first) walk.now.rest walk.now.end }
    ensures run { IfOk result
        (λ events. IsBreakingRun (shown_rollout stage.entry) duties.now.demands
        stage.entry.round.number class events) }
    ensures few { IfOk result
        (λ events. AreFewFor stage.entry.round.net.now stage.entry.round.rounds.now events) }
{
    // A network keeps its links at its switches, so that the packet hops at no more switches than there are.
    stage.round.net.keeps_rules();
    let mut events = Events::make(alloc)?;
    add_whole_rounds(&mut events, stage.round.rounds, stage.round.number)?;
    add_entry(&mut events, class.entry, class.first)?;
    add_walk(alloc, &mut events, stage, class, walk)?;
    Ok(events)
}
