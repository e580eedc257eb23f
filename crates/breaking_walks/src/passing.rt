//! Whether walks along steps between places come to a switch twice.
ghost use Rattle.std.specs.Prelude.{◌≡◌, ◌⊎◌, ◌<◌, true, false, slice_index_or, All, IfOk};
ghost use Rattle.net_base.specs.declared.ids.SwitchId.{SwitchId as SwitchOf};
ghost use Rattle.breaking_walks.specs.PlaceSteps.{IsBehind, LeadsOn, NeverBack};

use net_base::{Memory, SwitchId};
use std::alloc::Global;

/// A place by its number from 0, with its switch.
#[derive(Clone, Copy)]
pub struct NumberedPlace {
    pub number: usize,
    pub switch: SwitchId,
}

/// A step from a place to another.
#[derive(Clone, Copy)]
pub struct PlaceStep {
    pub from: NumberedPlace,
    pub to: NumberedPlace,
}

/// Whether a place is marked.
fn is_marked(marks: &[bool], place: NumberedPlace) -> bool
    ensures { result ≡ slice_index_or marks.now place.number false }
{
    match marks.get(place.number) {
        Some(mark) => *mark,
        None => false,
    }
}

/// Whether a place is at the switch, or marked: one to which walks come from the switch.
fn is_behind(marks: &[bool], switch: SwitchId, place: NumberedPlace) -> bool
    ensures { result ≡ false → ¬ IsBehind marks.now switch place }
{
    place.switch.0 == switch.0 || is_marked(marks, place)
}

/// Marks the place to which a step leads from the switch or a marked place.
fn mark_next(marks: &mut Vec<bool>, switch: SwitchId, step: &PlaceStep) {
    if !is_behind(marks, switch, step.from) {
        return;
    }
    if let Some(mark) = marks.get_mut(step.to.number) {
        *mark = true;
    }
}

/// Marks along the steps, the first ones first.
fn mark_from_first(marks: &mut Vec<bool>, switch: SwitchId, steps: &[PlaceStep]) {
    for step in steps {
        mark_next(marks, switch, step);
    }
}

/// Marks along the steps, the last ones first.
fn mark_from_last(marks: &mut Vec<bool>, switch: SwitchId, steps: &[PlaceStep]) {
    for step in steps.iter().rev() {
        mark_next(marks, switch, step);
    }
}

/// Whether a step leads back to the switch, from it or from a marked place. Only the speed rests on it.
fn is_back(marks: &[bool], switch: SwitchId, steps: &[PlaceStep]) -> bool {
    for step in steps {
        if step.to.switch.0 == switch.0 && is_behind(marks, switch, step.from) {
            return true;
        }
    }
    false
}

/// Whether a step, if it leads from the switch or a marked place, leads to a marked place of another switch.
fn leads_on(marks: &[bool], switch: SwitchId, step: &PlaceStep) -> bool
    ensures { result ≡ true → LeadsOn marks.now switch step.now }
{
    if !is_behind(marks, switch, step.from) {
        return true;
    }
    step.to.switch.0 != switch.0 && is_marked(marks, step.to)
}

/// Whether all steps do.
fn all_lead_on(marks: &[bool], switch: SwitchId, steps: &[PlaceStep]) -> bool
    ensures { result ≡ true → All (LeadsOn marks.now switch) steps.now }
{
    for step in steps {
        if !leads_on(marks, switch, step) {
            return false;
        }
    }
    true
}

/// Whether no walk along the steps comes back to the switch. It marks the places to which walks come from there, in so many
/// passes at most over all steps in both directions; one is enough where each step leads to a place that was found just
/// before or behind its own.
fn is_passed_once(marks: &mut Vec<bool>, switch: SwitchId, steps: &[PlaceStep], passes: u32) -> bool
    ensures { result ≡ true → NeverBack steps.now switch }
{
    marks.fill(false);
    for _ in 0..passes {
        mark_from_first(marks, switch, steps);
        mark_from_last(marks, switch, steps);
        if all_lead_on(marks, switch, steps) {
            return true;
        }
        if is_back(marks, switch, steps) {
            return false;
        }
    }
    false
}

/// Whether no walk along steps between so many places comes back to one of so many switches. It takes time by the product of
/// the switches and the steps; where walks go up and down among the numbers of the places, by that of the turns besides, as
/// many as there are switches at most. With more of them it isn't told.
pub(crate) fn are_passed_once(
    alloc: Global,
    switches: u32,
    places: usize,
    steps: &[PlaceStep],
) -> Result<bool, Memory>
    ensures { IfOk result
        (λ once. once ≡ true → (s : SwitchOf) → s.0 < switches → NeverBack steps.now s) }
{
    let mut marks = vec![in alloc; false; places]?;
    for i in 0..switches {
        if !is_passed_once(&mut marks, SwitchId(i), steps, switches) {
            return Ok(false);
        }
    }
    Ok(true)
}
