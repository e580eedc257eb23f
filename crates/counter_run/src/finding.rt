//! The first class that breaks in a round.
ghost use Rattle.std.specs.Prelude.{◌≡◌, ◌<◌, length, IfOk, IfSome, IfNone};
ghost use Rattle.topology.specs.Networks.{IsEntry};
ghost use Rattle.dest_classes.specs.Classes.{class_count};
ghost use Rattle.dest_classes.specs.Numbered.{IsNumbered};
ghost use Rattle.breaking_walks.specs.Rounds.{SwitchesArePrepared};
ghost use Rattle.round_survey.specs.Surveys.{AreGood};
ghost use Rattle.counter_run.specs.Showing.{shown_rollout};
ghost use Rattle.counter_run.specs.Explaining.{ClassBreaks, NoneBreaks};
ghost use Rattle.counter_run.specs.Stages.{IsShownAt, IsFirstAt, NoneBefore};
ghost use Rattle.counter_run.specs.Steps.{IsStage};

use crate::showing::{ShownRound, breaking_run};
use breaking_walks::breaking_walk;
use demands::Duties;
use dest_classes::{ClassMap, NumberedClass};
use net_base::Memory;
use std::alloc::Global;
use update_model::Events;

/// A run that shows how a class breaks in a round, if it does.
fn class_run(
    alloc: Global,
    stage: ShownRound<'_>,
    duties: &Duties,
    numbered: NumberedClass,
) -> Result<Option<Events>, Memory>
    requires stage { IsStage stage }
    requires prepared { SwitchesArePrepared stage.round }
    requires number { numbered.number < class_count duties.now.classes }
    requires class { IsNumbered duties.now.classes numbered }
    requires entry { IsEntry stage.round.net.now numbered.class.entry }
    ensures some { IfOk result
        (λ found. IfSome found
        (λ events. IsShownAt stage.entry duties.now.demands numbered.class events)) }
    ensures none { IfOk result
        (λ found. IfNone found
        (¬ ClassBreaks (shown_rollout stage.entry) duties.now.demands stage.entry.round.number
        numbered.class)) }
{
    stage.round.net.keeps_rules();
    match breaking_walk(alloc, stage.round, duties, numbered)? {
        Some(walk) => Ok(Some(breaking_run(alloc, stage, duties, numbered.class, &walk)?)),
        None => Ok(None),
    }
}

/// A run that shows how the first class breaks that does so in a round, if one does. Classes that are marked don't break in it.
pub(crate) fn round_run(
    alloc: Global,
    stage: ShownRound<'_>,
    duties: &Duties,
    classes: &ClassMap,
    good: &[bool],
) -> Result<Option<Events>, Memory>
    requires stage { IsStage stage }
    requires prepared { SwitchesArePrepared stage.round }
    requires hosts { classes.now.hosts ≡ stage.round.net.now.hosts }
    requires vlans { classes.now.vlans ≡ stage.round.net.now.vlans }
    requires duties { duties.now.classes ≡ classes.now }
    requires before { NoneBefore stage classes.now duties.now.demands }
    requires count { length good.now ≡ class_count classes.now }
    requires good { AreGood (shown_rollout stage) duties.now.demands stage.round.number classes.now
        good.now }
    ensures some { IfOk result
        (λ found. IfSome found
        (λ events. IsFirstAt stage.entry classes.now duties.now.demands events)) }
    ensures none { IfOk result
        (λ found. IfNone found
        (NoneBreaks (shown_rollout stage.entry) classes.now duties.now.demands
        stage.entry.round.number)) }
{
    for number in 0..classes.count() {
        let known = good[number as usize];
        if known {
            continue;
        }
        let class = classes.class(number);
        let numbered = NumberedClass { number, class };
        if let Some(events) = class_run(alloc, stage, duties, numbered)? {
            return Ok(Some(events));
        }
    }
    Ok(None)
}
