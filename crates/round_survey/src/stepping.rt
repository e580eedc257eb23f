//! Whether packets of classes that are walked together come to a switch twice, by the steps between places.
ghost use Rattle.std.specs.Prelude.{◌≡◌, ℕ, ◌+◌, ◌<◌, ◌≤◌, [], true, length, IfOk, OnOk};
ghost use Rattle.net_base.specs.Members.{IsIn};
ghost use Rattle.net_base.specs.Places.{stop_of};
ghost use Rattle.net_base.specs.declared.ids.Place.{Place as PlaceOf};
ghost use Rattle.topology.specs.Networks.{IsUsed};
ghost use Rattle.dest_classes.specs.declared.NumberedClass.{NumberedClass as NumberedClassOf};
ghost use Rattle.breaking_walks.specs.Surveys.{NeverRepeats};
ghost use Rattle.breaking_walks.specs.PlaceSteps.{NotesSteps};
ghost use Rattle.round_survey.specs.Rounds.{round_rollout, IsPreparedRound};
ghost use Rattle.round_survey.specs.Surveys.{IsAlike, AreAlike};

use breaking_walks::{PlaceSteps, PreparedRound};
use dest_classes::{Class, NumberedClass};
use net_base::Memory;
use round_mix::Outcomes;
use std::alloc::Global;

/// Puts the places where the walks of these classes begin.
fn put_entries(noted: &mut PlaceSteps, members: &[NumberedClass]) -> Result<(), Memory>
    requires none { (noted.old.places ≡ []) × (noted.old.steps ≡ []) }
    ensures begins { OnOk result ((m : NumberedClassOf) → IsIn m members.now
        → IsIn m.class.entry noted.new.places) }
    ensures each { OnOk result ((p : PlaceOf) → IsIn p noted.new.places
        → (m : NumberedClassOf) × IsIn m members.now × (p ≡ m.class.entry)) }
    ensures steps { OnOk result (noted.new.steps ≡ []) }
{
    for member in members {
        noted.put(member.class.entry)?;
    }
    Ok(())
}

/// Adds the steps that packets of a class may take from the place with this number.
fn add_steps(
    noted: &mut PlaceSteps,
    outcomes: &mut Outcomes,
    round: PreparedRound<'_>,
    class: Class,
    number: usize,
) -> Result<(), Memory>
    requires round { IsPreparedRound round }
    requires room { 8193 ≤ length outcomes.old.list + outcomes.old.spare }
    requires number { number < length noted.old.places }
    requires so_far { NotesSteps (round_rollout round) round.number class.first number noted.old }
    ensures room { 8193 ≤ length outcomes.new.list + outcomes.new.spare }
    ensures kept { OnOk result ((p : PlaceOf) → IsIn p noted.old.places
        → IsIn p noted.new.places) }
    ensures so_far { OnOk result
        (NotesSteps (round_rollout round.entry) round.entry.number class.first
        (number + 1) noted.new) }
{
    round.net.keeps_rules();
    let place = noted.at(number);
    let mixed = &round.mixes[place.switch.0 as usize];
    mixed.possible(round.net, place, class.first, outcomes);
    noted.add(number, outcomes.list())
}

/// Adds the steps from each place, and from those to which they lead.
fn walk_on(
    noted: &mut PlaceSteps,
    outcomes: &mut Outcomes,
    round: PreparedRound<'_>,
    class: Class,
) -> Result<(), Memory>
    requires round { IsPreparedRound round }
    requires room { 8193 ≤ length outcomes.old.list + outcomes.old.spare }
    requires so_far { NotesSteps (round_rollout round) round.number class.first 0 noted.old }
    ensures whole { OnOk result
        (NotesSteps (round_rollout round.entry) round.entry.number class.first
        (length noted.new.places) noted.new) }
    ensures kept { OnOk result ((p : PlaceOf) → IsIn p noted.old.places
        → IsIn p noted.new.places) }
{
    let mut next = 0;
    'walking: while next < noted.count() {
        add_steps(noted, outcomes, round, class, next)?;
        next += 1;
    }
    Ok(())
}

/// Whether no packet of these classes comes to a switch twice, all of which are alike to this one.
fn come_once(
    alloc: Global,
    round: PreparedRound<'_>,
    members: &[NumberedClass],
    class: Class,
) -> Result<bool, Memory>
    requires round { IsPreparedRound round }
    requires entries { (m : NumberedClassOf) → IsIn m members.now
        → IsUsed round.net.now (stop_of m.class.entry) }
    requires alike { (m : NumberedClassOf) → IsIn m members.now → IsAlike class m.class }
    ensures { IfOk result (λ once. once ≡ true → (m : NumberedClassOf) → IsIn m members.now
        → NeverRepeats (round_rollout round.entry) round.entry.number m.class.first m.class.entry) }
{
    round.net.keeps_rules();
    let mut outcomes = Outcomes::with_room(alloc, 8193)?;
    let mut noted = PlaceSteps::make(alloc);
    put_entries(&mut noted, members)?;
    walk_on(&mut noted, &mut outcomes, round, class)?;
    noted.are_passed_once(alloc, round.net.switches())
}

/// Whether it is shown that no packet of these classes comes to a switch twice, though there may be cycles of switches: by the
/// steps between the places where the packets come. Beside the walks it takes time by the product of the switches and these
/// steps.
pub(crate) fn never_repeat(
    alloc: Global,
    round: PreparedRound<'_>,
    members: &[NumberedClass],
) -> Result<bool, Memory>
    requires round { IsPreparedRound round }
    requires entries { (m : NumberedClassOf) → IsIn m members.now
        → IsUsed round.net.now (stop_of m.class.entry) }
    requires alike { AreAlike members.now }
    ensures { IfOk result (λ once. once ≡ true → (m : NumberedClassOf) → IsIn m members.now
        → NeverRepeats (round_rollout round.entry) round.entry.number m.class.first m.class.entry) }
{
    match members {
        [] => Ok(false),
        [first, ..] => come_once(alloc, round, members, first.class),
    }
}
