//! The classes of a round of a two-phase plan.
ghost use Rattle.certificates.specs.Updates.{rollout};
ghost use Rattle.std.specs.Prelude.{◌≡◌, suc, true, false, ◌+◌, ◌<◌, ◌≤◌, IfOk, IfSome, IfNone, length};
ghost use Rattle.topology.specs.Networks.{Network, switch_count};
ghost use Rattle.demands.specs.Good.{HasGoodPath, HasGoodPaths};
ghost use Rattle.certificates.specs.TwoPhase.{tables_of};
ghost use Rattle.certificates.specs.Certified.{classes_for};
ghost use Rattle.dest_classes.specs.Classes.{class_count};
ghost use Rattle.certificates.specs.declared.TwoPhaseEvidence.{TwoPhaseEvidence};
ghost use Rattle.certificates.specs.declared.Evidence.TheVariants.{TwoPhase};
ghost use Rattle.two_phase_check.specs.InForce.{LabelsStand};
ghost use Rattle.check_reasons.specs.Least.{IsLeastSwitch};
ghost use Rattle.check_reasons.specs.Loaded.{AreLoaded};
ghost use Rattle.check_reasons.specs.Ranks.{classes_start};
ghost use Rattle.check_reasons.specs.Passed.{IsFirstFrom, ChangesPass, ClassesPass, RoundsPass};
ghost use Rattle.two_phase_check.specs.Agreements.{Tells, IsVersionKept, MixesBy, MixesAt, KeepsVersions};
ghost use Rattle.two_phase_check.specs.Agreements as seen;
ghost use Rattle.two_phase_check.specs.Kept.{AreKept, number_at};
ghost use Rattle.two_phase_check.specs.Judged.{AllKeepVersions, AreReady, IsFirstMixed, IsMixed, KeepsVersionsAt};

use crate::keeping::{KeptPlace, MOST_KNOWN, Way, forget, keeps_way};
use crate::labels::{LabelsInForce, agrees};
use crate::straying::{RoundCase, find_outcomes, first_stray, outcome_at, tables_of};
use certificates::TwoPhaseEvidence;
use check_reasons::{Case, Reason, TouchedAtoms, lesser};
use dest_classes::{Class, ClassMap};
use net_base::{Memory, SwitchId};
use path_walk::Outcome;
use round_mix::{Mixed, Outcomes};
use std::alloc::Global;
use std::marker::Model;

/// The most marked rules of a switch and a round.
const MOST_MARKS: usize = 8192;

/// A class that mixes the versions, by its number, and the least switch where it does.
#[derive(Clone, Copy)]
struct MixedClass {
    class: u32,
    switch: SwitchId,
}

/// What an outcome of the entry tells of a version: it isn't that version's, or a packet keeps to the version's path after
/// it, or may stray from it first at a switch.
#[derive(Clone, Copy)]
enum Follow {
    Differs,
    Keeps,
    Astray(SwitchId),
}

impl Follow {
    /// The switch where a packet may stray.
    fn astray(self) -> Option<SwitchId>
        ensures { result ≡ seen.astray_at self }
    {
        match self {
            Follow::Astray(switch) => Some(switch),
            _ => None,
        }
    }

    /// Whether the outcome isn't that version's.
    fn differs(self) -> bool
        ensures { result ≡ seen.differs self }
    {
        match self {
            Follow::Differs => true,
            _ => false,
        }
    }
}

/// The least switch at which the entry's outcome mixes the versions, by what it tells of each.
fn least_of(entry: SwitchId, old: Follow, new: Follow) -> Option<SwitchId>
    ensures { result ≡ seen.least_of entry old new }
{
    if old.differs() && new.differs() {
        Some(entry)
    } else {
        lesser(old.astray(), new.astray())
    }
}

/// What an outcome of the entry of a class tells of a version.
fn follow_version(
    round: &RoundCase,
    class: Class,
    version: bool,
    found: Outcome,
    room: &mut Outcomes,
    known: &mut [Option<KeptPlace>],
) -> Follow
    requires entry { class.entry.switch.0 < switch_count round.now.task.update.net }
    requires good { HasGoodPath round.now.task.update.net
        (tables_of (rollout round.now.task) round.now.task.update.new version)
        round.now.task.update.demands class.entry class.first }
    requires room { 8192 < length room.old.list + room.old.spare }
    requires known { AreKept round.now.task round.now.number known.old }
    ensures tells { Tells round.now.task round.now.number class round.now.labels version found
        result }
    ensures room { 8192 < length room.new.list + room.new.spare }
    ensures known { AreKept round.now.task round.now.number known.new }
{
    round.keeps_network();
    let tables = tables_of(round, version);
    let expected = outcome_at(round, tables, class.entry, class.first);
    if !agrees(found, expected, round.labels, version, class.entry.vlan) {
        return Follow::Differs;
    }
    let Outcome::Go(next) = found else {
        return Follow::Keeps;
    };
    let Outcome::Go(first) = expected else {
        return Follow::Keeps;
    };
    let way = Way {
        new: version,
        dst: class.first,
        tag: next.vlan,
    };
    if keeps_way(round, way, first, round.switches(), room, known) {
        return Follow::Keeps;
    }
    match first_stray(round, tables, class.first, first, next.vlan, room) {
        Some(switch) => Follow::Astray(switch),
        None => Follow::Keeps,
    }
}

/// The least switch at which an outcome of the entry of a class mixes the versions, where it does.
fn mixed_by(
    round: &RoundCase,
    class: Class,
    found: Outcome,
    room: &mut Outcomes,
    known: &mut [Option<KeptPlace>],
) -> Option<SwitchId>
    requires entry { class.entry.switch.0 < switch_count round.now.task.update.net }
    requires old_good { HasGoodPath round.now.task.update.net round.now.task.update.old
        round.now.task.update.demands class.entry class.first }
    requires new_good { HasGoodPath round.now.task.update.net round.now.task.update.new
        round.now.task.update.demands class.entry class.first }
    requires room { 8192 < length room.old.list + room.old.spare }
    requires known { AreKept round.now.task round.now.number known.old }
    ensures none { IfNone result
        (IsVersionKept round.now.task round.now.number class round.now.labels found) }
    ensures some { IfSome result
        (IsLeastSwitch (MixesBy round.now.task round.now.number class round.now.labels found)) }
    ensures room { 8192 < length room.new.list + room.new.spare }
    ensures known { AreKept round.now.task round.now.number known.new }
{
    let old = follow_version(round, class, false, found, room, known);
    let new = follow_version(round, class, true, found, room, known);
    least_of(class.entry.switch, old, new)
}

/// The least switch at which a class mixes the versions, where it does. Takes time by the possible outcomes of the entry
/// and, for each, by the lengths of both paths.
fn least_mixed(
    round: &RoundCase,
    class: Class,
    at_entry: &mut Outcomes,
    on_path: &mut Outcomes,
    known: &mut [Option<KeptPlace>],
) -> Option<SwitchId>
    requires entry { class.entry.switch.0 < switch_count round.now.task.update.net }
    requires old_good { HasGoodPath round.now.task.update.net round.now.task.update.old
        round.now.task.update.demands class.entry class.first }
    requires new_good { HasGoodPath round.now.task.update.net round.now.task.update.new
        round.now.task.update.demands class.entry class.first }
    requires entry_room { 8192 < length at_entry.old.list + at_entry.old.spare }
    requires path_room { 8192 < length on_path.old.list + on_path.old.spare }
    requires known { AreKept round.now.task round.now.number known.old }
    ensures none { IfNone result
        (KeepsVersions round.now.task round.now.number class round.now.labels) }
    ensures some { IfSome result
        (IsLeastSwitch (MixesAt round.now.task round.now.number class round.now.labels)) }
    ensures entry_room { 8192 < length at_entry.new.list + at_entry.new.spare }
    ensures path_room { 8192 < length on_path.new.list + on_path.new.spare }
    ensures known { AreKept round.now.task round.now.number known.new }
{
    find_outcomes(round, class.entry, class.first, at_entry);
    let outcomes = at_entry.list();
    let mut least = None;
    for found in outcomes {
        least = lesser(least, mixed_by(round, class, *found, on_path, known));
    }
    least
}

/// The class with this number and the least switch where it mixes the versions, where it does. Where the classes stand that
/// the round doesn't touch, such a class isn't looked at again.
fn judge_class(
    round: &RoundCase,
    classes: &ClassMap,
    number: u32,
    at_entry: &mut Outcomes,
    on_path: &mut Outcomes,
    known: &mut [Option<KeptPlace>],
) -> Option<MixedClass>
    requires number { number < class_count classes.now }
    requires classes { AreReady round.now classes.now }
    requires entry_room { 8192 < length at_entry.old.list + at_entry.old.spare }
    requires path_room { 8192 < length on_path.old.list + on_path.old.spare }
    requires known { AreKept round.now.task round.now.number known.old }
    ensures none { IfNone result (KeepsVersionsAt round.now classes.now number) }
    ensures some { IfSome result
        (IsMixed round.now.task round.now.number classes.now round.now.labels) }
    ensures number { IfSome result (λ mixed. mixed.class ≡ number) }
    ensures entry_room { 8192 < length at_entry.new.list + at_entry.new.spare }
    ensures path_room { 8192 < length on_path.new.list + on_path.new.spare }
    ensures known { AreKept round.now.task round.now.number known.new }
{
    round.keeps_network();
    if round.stands && !round.is_touched(classes, number) {
        return None;
    }
    let switch = least_mixed(round, classes.class(number), at_entry, on_path, known)?;
    Some(MixedClass {
        class: number,
        switch,
    })
}

/// The least class that mixes the versions, with the least switch where it does.
fn first_mixed(
    round: &RoundCase,
    classes: &ClassMap,
    at_entry: &mut Outcomes,
    on_path: &mut Outcomes,
    known: &mut [Option<KeptPlace>],
) -> Option<MixedClass>
    requires classes { AreReady round.now classes.now }
    requires entry_room { 8192 < length at_entry.old.list + at_entry.old.spare }
    requires path_room { 8192 < length on_path.old.list + on_path.old.spare }
    requires known { AreKept round.now.task round.now.number known.old }
    ensures none { IfNone result
        (AllKeepVersions round.now.task round.now.number classes.now round.now.labels) }
    ensures some { IfSome result
        (IsFirstMixed round.now.task round.now.number classes.now round.now.labels) }
    ensures entry_room { 8192 < length at_entry.new.list + at_entry.new.spare }
    ensures path_room { 8192 < length on_path.new.list + on_path.new.spare }
    ensures known { AreKept round.now.task round.now.number known.new }
{
    for number in 0..classes.count() {
        if let Some(mixed) = judge_class(round, classes, number, at_entry, on_path, known) {
            return Some(mixed);
        }
    }
    None
}

/// The number of the class that comes at this place, from 0, where those with one VLAN and address come one after the
/// other, a class for each host port.
fn number_at(i: u32, ports: u32, count: u32) -> u32
    requires some { 0 < ports }
    requires within { i < count }
    requires few { count ≤ 8192 }
    ensures { result ≡ number_at i ports count }
{
    i % ports * (count / ports) + i / ports
}

/// Whether each class keeps the versions apart. Classes whose paths may meet come one after the other.
fn all_keep(
    round: &RoundCase,
    classes: &ClassMap,
    at_entry: &mut Outcomes,
    on_path: &mut Outcomes,
    known: &mut [Option<KeptPlace>],
) -> bool
    requires classes { AreReady round.now classes.now }
    requires entry_room { 8192 < length at_entry.old.list + at_entry.old.spare }
    requires path_room { 8192 < length on_path.old.list + on_path.old.spare }
    requires known { AreKept round.now.task round.now.number known.old }
    ensures keep { result ≡ true
        → AllKeepVersions round.now.task round.now.number classes.now round.now.labels }
    ensures entry_room { 8192 < length at_entry.new.list + at_entry.new.spare }
    ensures path_room { 8192 < length on_path.new.list + on_path.new.spare }
    ensures known { AreKept round.now.task round.now.number known.new }
{
    let ports = round.ports();
    let count = classes.count();
    for i in 0..count {
        let number = number_at(i, ports, count);
        if let Some(_mixed) = judge_class(round, classes, number, at_entry, on_path, known) {
            return false;
        }
    }
    true
}

/// The least class that mixes the versions, with the least switch where it does. At first no place is known.
fn judge_classes(
    round: &RoundCase,
    classes: &ClassMap,
    at_entry: &mut Outcomes,
    on_path: &mut Outcomes,
    known: &mut [Option<KeptPlace>],
) -> Option<MixedClass>
    requires classes { AreReady round.now classes.now }
    requires entry_room { 8192 < length at_entry.old.list + at_entry.old.spare }
    requires path_room { 8192 < length on_path.old.list + on_path.old.spare }
    ensures none { IfNone result
        (AllKeepVersions round.now.task round.now.number classes.now round.now.labels) }
    ensures some { IfSome result
        (IsFirstMixed round.now.task round.now.number classes.now round.now.labels) }
    ensures entry_room { 8192 < length at_entry.new.list + at_entry.new.spare }
    ensures path_room { 8192 < length on_path.new.list + on_path.new.spare }
{
    forget(known);
    if all_keep(round, classes, at_entry, on_path, known) {
        return None;
    }
    first_mixed(round, classes, at_entry, on_path, known)
}

/// Whether round k, from 0, isn't the first one and has the label table of the round before it, by how many picks had
/// begun before and have begun now.
fn keeps_labels(k: usize, before: usize, now: usize) -> bool
    ensures { result ≡ true → (0 < k) × (before ≡ now) }
{
    k > 0 && before == now
}

/// Room to judge the rounds of a two-phase plan, and the label table in force.
#[derive(Drop)]
pub struct TwoPhaseRoom {
    at_entry: Outcomes,
    on_path: Outcomes,
    known: Vec<Option<KeptPlace>>,
    touched: TouchedAtoms,
    labels: LabelsInForce,
}

impl Model for TwoPhaseRoom {
    ghost use Rattle.std.specs.Prelude.{length, ◌+◌, ◌<◌};
    ghost use Rattle.two_phase_check.specs.declared.labels.LabelsInForce.{LabelsInForce};

    ghost Value = { LabelsInForce };

    ghost view = { λ r. r.labels };

    ghost invariant = { λ r. (8192 < length r.at_entry.list + r.at_entry.spare) × (8192 < length r.on_path.list + r.on_path.spare) };
}

impl TwoPhaseRoom {
    /// Room for the rounds of a plan, before the first of them.
    pub fn make(alloc: Global) -> Result<TwoPhaseRoom, Memory>
        ensures { IfOk result
            (λ room. (net : Network) (e : TwoPhaseEvidence) → LabelsStand net e 0 room) }
    {
        Ok(TwoPhaseRoom {
            at_entry: Outcomes::with_room(alloc, MOST_MARKS + 1)?,
            on_path: Outcomes::with_room(alloc, MOST_MARKS + 1)?,
            known: vec![in alloc; None; MOST_KNOWN]?,
            touched: TouchedAtoms::make(alloc)?,
            labels: LabelsInForce::none(),
        })
    }

    /// Goes back before the first round of a plan.
    pub fn start(&mut self)
        ensures { (net : Network) (e : TwoPhaseEvidence) → LabelsStand net e 0 self.new }
    {
        self.labels = LabelsInForce::none();
    }

    /// The first reason of the classes of a round, by its number from 0, where there is one. Goes on to the next round.
    /// The rounds are judged in their order, each once. Where the label table stays the same, a class is looked at only
    /// where a change of the round covers its address.
    pub fn judge_round(
        &mut self,
        case: &Case,
        evidence: &TwoPhaseEvidence,
        classes: &ClassMap,
        mixes: &[Mixed],
        k: usize,
    ) -> Option<Reason>
        requires evidence { case.now.evidence ≡ TwoPhase evidence.now }
        requires classes { classes.now ≡ classes_for case.now.task }
        requires loaded { AreLoaded (rollout case.now.task) k mixes.now }
        requires round { k < length case.now.task.rounds }
        requires old_good { HasGoodPaths case.now.task.update.net case.now.task.update.old
            case.now.task.update.demands (classes_for case.now.task) }
        requires new_good { HasGoodPaths case.now.task.update.net case.now.task.update.new
            case.now.task.update.demands (classes_for case.now.task) }
        requires before { RoundsPass case.now.task case.now.evidence k }
        requires pass { ChangesPass case.now.task case.now.evidence k }
        requires stands { LabelsStand case.now.task.update.net evidence.now k self.old }
        ensures none { IfNone result (ClassesPass case.now.task (TwoPhase evidence.now) k) }
        ensures some { IfSome result
            (IsFirstFrom case.now.task (TwoPhase evidence.now) (classes_start k)) }
        ensures stands { LabelsStand case.now.task.update.net evidence.now (suc k) self.new }
    {
        let begun = self.labels.begun;
        self.labels.advance(case.net, evidence, k + 1);
        let stands = keeps_labels(k, begun, self.labels.begun);
        if classes.count() == 0 {
            return None;
        }
        let number = k as u32 + 1;
        let Some(table) = self.labels.table else {
            return Some(Reason::BadLabels { round: number });
        };
        let tables = evidence.labels.list();
        let labels = tables[table as usize].list();
        self.touched.mark(case, classes, k);
        let round = RoundCase {
            case,
            mixes,
            number: k,
            labels,
            stands,
            touched: &self.touched,
        };
        let mixed = judge_classes(
            &round,
            classes,
            &mut self.at_entry,
            &mut self.on_path,
            &mut self.known,
        )?;
        Some(Reason::MixedPath {
            round: number,
            class: mixed.class,
            switch: mixed.switch,
        })
    }
}
