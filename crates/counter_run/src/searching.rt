//! A search through all rounds, class by class.
ghost use Rattle.std.specs.Prelude.{◌≡◌, ◌<◌, suc, false, true, length, IfOk, OnOk, IfSome, IfNone};
ghost use Rattle.flow_rules.specs.Tables.{rules_of_all};
ghost use Rattle.dest_classes.specs.Classes.{class_count};
ghost use Rattle.update_model.specs.Mixtures.{tables_before};
ghost use Rattle.check_reasons.specs.Touched.{touches};
ghost use Rattle.check_reasons.specs.Loaded.{AreLoaded};
ghost use Rattle.round_tables.specs.PreparedTables.{HasRoomForAll};
ghost use Rattle.round_tables.specs.Loading.{ArePrepared};
ghost use Rattle.round_survey.specs.Keeping.{KeepVlans};
ghost use Rattle.round_survey.specs.Rounds.{IsPreparedRound};
ghost use Rattle.class_watch.specs.Walks.{WalksStand};
ghost use Rattle.round_survey.specs.Surveys.{AreGood, HasSurveyRoom};
ghost use Rattle.counter_run.specs.Showing.{AreFewFor, shown_rollout};
ghost use Rattle.counter_run.specs.Explaining.{NoneBreaks, IsExplained, HasFewEvents, IsFirstBreakingRun};
ghost use Rattle.counter_run.specs.Stages.{NoneBefore};
ghost use Rattle.counter_run.specs.Steps.{IsStage};
ghost use Rattle.counter_run.specs.Updates.{IsClassed, NoneBreaksBefore, rollout_of};

use crate::Explained;
use crate::finding::round_run;
use crate::preparing::{apply, load, make, need_few, start};
use crate::showing::ShownRound;
use crate::update::ClassedUpdate;
use breaking_walks::PreparedRound;
use check_reasons::is_touched;
use class_watch::ClassRounds;
use demands::Duties;
use dest_classes::ClassMap;
use net_base::Memory;
use round_survey::{keep_vlans, survey_round};
use round_tables::PreparedTables;
use std::alloc::Global;
use update_model::{Change, Events};

/// Whether the walks to an address are those at the end of the round before: no change of the round covers it.
fn is_unchanged(number: usize, round: &[Change], address: u32) -> bool
    ensures { result ≡ true → (0 < number) × (touches round.now address ≡ false) }
{
    number > 0 && !is_touched(round, address)
}

/// Marks the classes whose addresses no change of the round covers, and no others.
fn mark_unchanged(good: &mut [bool], stage: ShownRound<'_>, duties: &Duties, classes: &ClassMap)
    requires stage { IsStage stage }
    requires before { NoneBefore stage classes.now duties.now.demands }
    requires count { length good.old ≡ class_count classes.now }
    ensures count { length good.new ≡ length good.old }
    ensures good { AreGood (shown_rollout stage.entry) duties.now.demands stage.entry.round.number
        classes.now good.new }
{
    let _ = duties;
    let round = stage.round.rounds.round(stage.round.number);
    for number in 0..classes.count() {
        let class = classes.class(number);
        good[number as usize] = is_unchanged(stage.round.number, round, class.first);
    }
}

/// Marks classes that don't break in a round: by a survey, or else those whose addresses no change of the round covers.
fn mark_good(
    alloc: Global,
    stage: ShownRound<'_>,
    duties: &Duties,
    classes: &ClassMap,
    survey: &mut ClassRounds,
    by_survey: bool,
) -> Result<(), Memory>
    requires stage { IsStage stage }
    requires prepared { by_survey ≡ true → IsPreparedRound stage.round }
    requires hosts { classes.now.hosts ≡ stage.round.net.now.hosts }
    requires duties { duties.now.classes ≡ classes.now }
    requires room { HasSurveyRoom classes.now survey.old.classes.items survey.old.came.items
        survey.old.good.items }
    requires walks { by_survey ≡ true → WalksStand (shown_rollout stage) stage.round.number
        survey.old.classes.items survey.old.came.items }
    requires before { NoneBefore stage classes.now duties.now.demands }
    ensures room { OnOk result (HasSurveyRoom classes.now survey.new.classes.items
        survey.new.came.items survey.new.good.items) }
    ensures walks { OnOk result (by_survey ≡ true
        → WalksStand (shown_rollout stage.entry) (suc stage.entry.round.number)
        survey.new.classes.items survey.new.came.items) }
    ensures good { OnOk result (AreGood (shown_rollout stage.entry) duties.now.demands
        stage.entry.round.number classes.now survey.new.good.items) }
{
    if by_survey {
        return survey_round(survey, alloc, stage.round, duties, classes);
    }
    mark_unchanged(&mut survey.good, stage, duties, classes);
    Ok(())
}

/// A run that shows how the first class breaks that does so in round k, if one does. Only classes are searched that may break
/// by what a survey shows, or else those whose addresses a change of the round covers.
fn search_round(
    alloc: Global,
    update: ClassedUpdate<'_>,
    k: usize,
    tables: &PreparedTables,
    survey: &mut ClassRounds,
    by_survey: bool,
) -> Result<Option<Events>, Memory>
    requires classed { IsClassed update }
    requires round { k < length update.rounds.now }
    requires prepared { ArePrepared (rollout_of update) k tables.now }
    requires loaded { by_survey ≡ true → AreLoaded (rollout_of update) k tables.now.mixes }
    requires keeps { by_survey ≡ true
        → KeepVlans (rules_of_all update.old.now) update.rounds.now }
    requires room { HasSurveyRoom update.classes.now survey.old.classes.items
        survey.old.came.items survey.old.good.items }
    requires walks { by_survey ≡ true → WalksStand (rollout_of update) k
        survey.old.classes.items survey.old.came.items }
    requires before { NoneBreaksBefore update k }
    ensures room { OnOk result (HasSurveyRoom update.entry.classes.now survey.new.classes.items
        survey.new.came.items survey.new.good.items) }
    ensures walks { OnOk result (by_survey ≡ true → WalksStand (rollout_of update.entry) (suc k)
        survey.new.classes.items survey.new.came.items) }
    ensures some { IfOk result
        (λ found. IfSome found
        (λ events. IsFirstBreakingRun (rollout_of update.entry) update.entry.classes.now
        update.entry.duties.now.demands events
        × AreFewFor update.entry.net.now update.entry.rounds.now events)) }
    ensures none { IfOk result
        (λ found. IfNone found
        (NoneBreaks (rollout_of update.entry) update.entry.classes.now
        update.entry.duties.now.demands k)) }
{
    let round = PreparedRound {
        net: update.net,
        old: update.old,
        rounds: update.rounds,
        number: k,
        mixes: tables.mixes(),
    };
    let stage = ShownRound {
        round,
        tables: tables.tables(),
    };
    mark_good(
        alloc,
        stage,
        update.duties,
        update.classes,
        survey,
        by_survey,
    )?;
    round_run(alloc, stage, update.duties, update.classes, &survey.good)
}

/// Whether rounds are still surveyed in round k: they were before, and no switch needs too many entries for it.
fn goes_on(update: ClassedUpdate<'_>, k: usize, tables: &PreparedTables, before: bool) -> bool
    requires classed { IsClassed update }
    requires prepared { ArePrepared (rollout_of update) k tables.now }
    ensures before { result ≡ true → before ≡ true }
    ensures loaded { result ≡ true → AreLoaded (rollout_of update.entry) k tables.now.mixes }
{
    before && need_few(update, k, tables)
}

/// What is found among the mixed walks of all rounds and classes, with room for the tables and the classes. The rounds are
/// surveyed up to the first in which a switch needs too many entries, if packets keep the VLANs with which they came.
fn search_each(
    alloc: Global,
    update: ClassedUpdate<'_>,
    tables: &mut PreparedTables,
    survey: &mut ClassRounds,
    keeps_vlans: bool,
) -> Result<Explained, Memory>
    requires classed { IsClassed update }
    requires keeps { keeps_vlans ≡ true
        → KeepVlans (rules_of_all update.old.now) update.rounds.now }
    requires tables { HasRoomForAll (rollout_of update) tables.old }
    requires room { HasSurveyRoom update.classes.now survey.old.classes.items
        survey.old.came.items survey.old.good.items }
    ensures answer { IfOk result
        (λ found. IsExplained (rollout_of update.entry) update.entry.classes.now
        update.entry.duties.now.demands found) }
    ensures few { IfOk result
        (λ found. HasFewEvents update.entry.net.now update.entry.rounds.now found) }
{
    start(update, tables);
    let mut by_survey = keeps_vlans;
    for k in 0..update.rounds.count() {
        load(update, k, tables);
        by_survey = goes_on(update, k, tables, by_survey);
        if let Some(events) = search_round(alloc, update, k, tables, survey, by_survey)? {
            return Ok(Explained::Run(events));
        }
        apply(update, k, tables);
    }
    Ok(Explained::Nothing)
}

/// What is found among the mixed walks of all rounds and classes.
pub(crate) fn search_rounds(alloc: Global, update: ClassedUpdate<'_>) -> Result<Explained, Memory>
    requires { IsClassed update }
    ensures answer { IfOk result
        (λ found. IsExplained (rollout_of update.entry) update.entry.classes.now
        update.entry.duties.now.demands found) }
    ensures few { IfOk result
        (λ found. HasFewEvents update.entry.net.now update.entry.rounds.now found) }
{
    let keeps_vlans = keep_vlans(update.net, update.old, update.rounds);
    let mut tables = make(alloc, update)?;
    let mut survey = ClassRounds::make(alloc, update.classes)?;
    let found = search_each(alloc, update, &mut tables, &mut survey, keeps_vlans);
    drop(survey);
    drop(tables);
    found
}
