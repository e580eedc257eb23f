//! Where a packet may stray from a path in a round.
ghost use Rattle.certificates.specs.Updates.{rollout};
ghost use Rattle.std.specs.Prelude.{◌≡◌, ◌≢◌, ◌+◌, ◌<◌, ℕ, IfSome, IfNone, length};
ghost use Rattle.std.specs.Bool.{MatchBool};
ghost use Rattle.std.specs.List.{AllWithin, HoldsAt};
ghost use Rattle.topology.specs.Networks.{IsNetwork, switch_count};
ghost use Rattle.flow_rules.specs.Tables.{rules_of_all};
ghost use Rattle.net_base.specs.declared.ids.Place.{Place};
ghost use Rattle.path_walk.specs.Paths.{outcome_in};
ghost use Rattle.path_walk.specs.declared.Outcome.TheVariants.{Go};
ghost use Rattle.dest_classes.specs.Classes.{class_count, IsClass};
ghost use Rattle.dest_classes.specs.declared.Class.{Class};
ghost use Rattle.update_model.specs.Changes.{round_after};
ghost use Rattle.check_reasons.specs.AtomMarks.{AreTouched};
ghost use Rattle.check_reasons.specs.Touched.{touches};
ghost use Rattle.certificates.specs.TwoPhase.{outcome_carrying, tables_of, KeepsPath};
ghost use Rattle.two_phase_check.specs.Agreements.{AreAllFound, HasOutcomeAlone, HasOtherOutcome, EndsSoon, IsFirstStray};

use certificates::Label;
use check_reasons::{Case, TouchedAtoms};
use dest_classes::ClassMap;
use flow_rules::Config;
use net_base::{Place, SwitchId, Vlan};
use path_walk::Outcome;
use path_walk::following::outcome;
use round_mix::{Mixed, Outcomes};
use std::marker::Model;

/// A round of a case, by its number from 0, each switch prepared for it.
#[derive(Drop)]
pub(crate) struct RoundCase<'a> {
    pub(crate) case: &'a Case<'a>,
    pub(crate) mixes: &'a [Mixed],
    pub(crate) number: usize,
    /// The label table in force.
    pub(crate) labels: &'a [Label],
    /// Whether a class keeps the versions apart where no change of the round covers its address.
    pub(crate) stands: bool,
    /// The atoms that the changes of the round touch.
    pub(crate) touched: &'a TouchedAtoms,
}

impl<'a> Model for RoundCase<'a> {
    ghost use Rattle.certificates.specs.Updates.{rollout};
    ghost use Rattle.two_phase_check.specs.Agreements.{RoundView};
    ghost use Rattle.check_reasons.specs.Loaded.{AreLoaded};

    ghost Value = { RoundView };

    ghost view = { λ r. record { task = r.case.now.task; number = r.number; labels = r.labels.now; stands = r.stands; touched = r.touched.now } };

    ghost invariant = { λ r. AreLoaded (rollout r.case.now.task) r.number r.mixes.now };
}

/// Puts the possible outcomes of a place into the room.
pub(crate) fn find_outcomes(round: &RoundCase, place: Place, dst: u32, room: &mut Outcomes)
    requires switch { place.switch.0 < switch_count round.now.task.update.net }
    requires room { 8192 < length room.old.list + room.old.spare }
    ensures all { AreAllFound (rollout round.now.task) round.now.number dst place room.new.list }
    ensures room { 8192 < length room.new.list + room.new.spare }
{
    let case = round.case;
    round.mixes[place.switch.0 as usize].possible(case.net, place, dst, room);
}

/// Whether each outcome of a list is this one.
fn are_all(list: &[Outcome], expected: Outcome) -> bool
    ensures { MatchBool result (AllWithin (λ found. found ≡ expected) list.now 0 (length list.now))
        ((i : ℕ) × (i < length list.now) × HoldsAt (λ found. found ≢ expected) list.now i) }
{
    list.iter().all(|found| *found == expected)
}

/// The tables of a version.
pub(crate) fn tables_of<'a>(round: &RoundCase<'a>, new: bool) -> &'a Config
    ensures rules { rules_of_all result.now
        ≡ tables_of (rollout round.now.task) round.now.task.update.new new }
    ensures count { length result.now ≡ switch_count round.now.task.update.net }
{
    let case = round.case;
    if new { case.new } else { case.old }
}

impl<'a> RoundCase<'a> {
    /// Does nothing: its contract says what every network keeps.
    pub(crate) fn keeps_network(&self)
        ensures { IsNetwork self.now.task.update.net }
    {
        let case = self.case;
        case.net.keeps_rules();
    }

    /// Whether a change of the round covers the address of the class with this number.
    pub(crate) fn is_touched(&self, classes: &ClassMap, number: u32) -> bool
        requires number { number < class_count classes.now }
        requires touched { AreTouched classes.now (round_after self.now.number self.now.task.rounds)
            self.now.touched }
        ensures { (class : Class) → IsClass classes.now number class → result
            ≡ touches (round_after self.now.number self.now.task.rounds) class.first }
    {
        self.touched.has(number % classes.atoms())
    }

    /// How many host ports there are.
    pub(crate) fn ports(&self) -> u32
        ensures { result ≡ length self.now.task.update.net.hosts }
    {
        let case = self.case;
        case.net.keeps_rules();
        case.net.hosts().len() as u32
    }

    /// How many switches there are.
    pub(crate) fn switches(&self) -> u32
        ensures { result ≡ switch_count self.now.task.update.net }
    {
        let case = self.case;
        case.net.switches()
    }
}

/// Whether a packet at the place may have this outcome alone.
pub(crate) fn stays(
    round: &RoundCase,
    place: Place,
    dst: u32,
    expected: Outcome,
    room: &mut Outcomes,
) -> bool
    requires switch { place.switch.0 < switch_count round.now.task.update.net }
    requires room { 8192 < length room.old.list + room.old.spare }
    ensures exact { MatchBool result
        (HasOutcomeAlone (rollout round.now.task) round.now.number dst place expected)
        (HasOtherOutcome (rollout round.now.task) round.now.number dst place expected) }
    ensures room { 8192 < length room.new.list + room.new.spare }
{
    find_outcomes(round, place, dst, room);
    are_all(room.list(), expected)
}

/// The outcome of a place in tables of the network.
pub(crate) fn outcome_at(round: &RoundCase, tables: &Config, place: Place, dst: u32) -> Outcome
    requires tables { length tables.now ≡ switch_count round.now.task.update.net }
    requires switch { place.switch.0 < switch_count round.now.task.update.net }
    ensures value { result
        ≡ outcome_in round.now.task.update.net (rules_of_all tables.now) place dst }
    ensures within { (next : Place) → result ≡ Go next
        → next.switch.0 < switch_count round.now.task.update.net }
{
    let case = round.case;
    case.net.keeps_rules();
    outcome(case.net, tables.table(place.switch), place, dst)
}

/// The outcome for a packet that carries another VLAN while it is in the network.
pub(crate) fn carry(tag: Vlan, expected: Outcome) -> Outcome
    ensures { result ≡ outcome_carrying tag expected }
{
    match expected {
        Outcome::Go(next) => Outcome::Go(Place { vlan: tag, ..next }),
        _ => expected,
    }
}

/// The switch of the first place of the path of the tables, from the first one on, where a packet that carries the VLAN
/// may have another outcome than the path. Takes time by the length of the path.
pub(crate) fn first_stray(
    round: &RoundCase,
    tables: &Config,
    dst: u32,
    first: Place,
    tag: Vlan,
    room: &mut Outcomes,
) -> Option<SwitchId>
    requires tables { length tables.now ≡ switch_count round.now.task.update.net }
    requires switch { first.switch.0 < switch_count round.now.task.update.net }
    requires soon { EndsSoon round.now.task.update.net (rules_of_all tables.now) dst first }
    requires room { 8192 < length room.old.list + room.old.spare }
    ensures none { IfNone result
        (KeepsPath (rollout round.now.task) round.now.number dst (rules_of_all tables.now) first
        tag) }
    ensures some { IfSome result
        (IsFirstStray (rollout round.now.task) round.now.number dst (rules_of_all tables.now) first
        tag) }
    ensures room { 8192 < length room.new.list + room.new.spare }
{
    let mut place = first;
    for _step in 0..round.switches() {
        let expected = outcome_at(round, tables, place, dst);
        let carried = Place { vlan: tag, ..place };
        if !stays(round, carried, dst, carry(tag, expected), room) {
            return Some(place.switch);
        }
        match expected {
            Outcome::Go(next) => place = next,
            _ => return None,
        }
    }
    // The path has ended before.
    None
}
