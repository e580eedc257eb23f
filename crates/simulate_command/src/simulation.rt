//! A driven run of a plan, and its record.
ghost use Rattle.std.specs.Prelude.{◌≡◌, ◌+◌, ◌*◌, ◌≤◌, IfOk, length, sum_by};
ghost use Rattle.flow_rules.specs.Tables.{rules_of_all};
ghost use Rattle.path_walk.specs.UserConfigs.{IsUserConfig};
ghost use Rattle.certificates.specs.Certified.{IsCertified, classes_for};
ghost use Rattle.certificates.specs.Valid.{IsValidPlan};
ghost use Rattle.topology.specs.Networks.{switch_count};
ghost use Rattle.std.specs.List.{AllByRecursion};
ghost use Rattle.certificates.specs.Updates.{task_for};
ghost use Rattle.command_base.specs.Updates.{meaning_of};
ghost use Rattle.schedule_replay.specs.EventTexts.{HasLine};
ghost use Rattle.schedule_pilot.specs.Driving.{IsRunFrom, IsOverAfter, BeginsSafely, world_rollout};
ghost use Rattle.schedule_pilot.specs.Ends.{AreEntries};
ghost use Rattle.schedule_pilot.specs.Offered.{full_budget};
ghost use Rattle.simulate_command.specs.Simulations.{IsRecord, Names, place_named};

use crate::traffic::entries_of;
use certificates::Plan;
use command_base::UpdateFiles;
use dest_classes::ClassMap;
use net_base::Memory;
use schedule_pilot::laws::certified_begins_safely;
use schedule_pilot::{Driven, Entry, Pilot, drive_safely};
use schedule_replay::record_text;
use std::alloc::Global;
use topology::Net;
use update_model::{Rounds, World};

/// Which of so many offered events is made at a step.
fn place_at(start: u64, step: u64, count: u64) -> u64
    requires { 1 ≤ count }
    ensures { result ≡ place_named start step count }
{
    start.wrapping_add(step.wrapping_mul(7)) % count
}

/// How many changes the rounds have in all.
fn change_count(rounds: &Rounds) -> u64
    requires { sum_by length rounds.now ≤ 2200000 }
    ensures { result ≡ sum_by length rounds.now }
{
    let mut changes = 0;
    for k in 0..rounds.count() {
        changes += rounds.round(k).len() as u64;
    }
    changes
}

/// A number of events within which the run is over.
fn budget_of(net: &Net, rounds: &Rounds, entries: &[Entry]) -> u64
    requires rounds { length rounds.now ≤ 4200 }
    requires changes { sum_by length rounds.now ≤ 2200000 }
    requires entries { length entries.now ≤ 1000 }
    ensures is { result
        ≡ length entries.now * (switch_count net.now + 1) + sum_by length rounds.now + 2 * length
        rounds.now }
    ensures few { result ≤ 4000000 }
{
    let visits = entries.len() as u64 * (u64::from(net.switches()) + 1);
    visits + change_count(rounds) + 2 * rounds.count() as u64
}

/// Drives the world over the entries, to its end.
fn driven_by<'a>(
    alloc: Global,
    world: World<'a>,
    start: u64,
    entries: &[Entry],
) -> Result<Driven<'a>, Memory>
    requires safely { BeginsSafely world }
    requires rounds { length world.rounds ≤ 4200 }
    requires changes { sum_by length world.rounds ≤ 2200000 }
    requires entries { AreEntries world.net entries.now }
    requires few { length entries.now ≤ 1000 }
    ensures run { IfOk result
        (λ d. IsRunFrom world.entry (Names start) entries.now d.events d.world) }
    ensures within { IfOk result
        (λ d. length d.events ≤ full_budget (world_rollout world.entry) entries.now) }
    ensures short { IfOk result (λ d. length d.events ≤ 4000000) }
    ensures lines { IfOk result (λ d. AllByRecursion (HasLine world.entry.net) d.events) }
    ensures over { IfOk result (λ d. IsOverAfter world.entry entries.now d.events) }
{
    world.net().keeps_rules();
    let budget = budget_of(world.net(), world.rounds(), entries);
    let pilot = Pilot::new(
        move |step: u64, count: u64| -> u64
            requires { 1 ≤ count }
            ensures { result ≡ place_named start step count }
        { place_at(start, step, count) },
    );
    drive_safely(alloc, world, &pilot, entries, budget)
}

/// The record of a simulation of a certified plan, over so many packets of the classes.
pub fn simulation_text(
    alloc: Global,
    files: &UpdateFiles,
    plan: &Plan,
    classes: &ClassMap,
    start: u64,
    count: u64,
) -> Result<Vec<u8>, Memory>
    requires old { IsUserConfig files.now.net (rules_of_all files.now.old) }
    requires new { IsUserConfig files.now.net (rules_of_all files.now.new) }
    requires valid { IsValidPlan files.now.net plan.now }
    requires certified { IsCertified (task_for (meaning_of files.now) plan.now) plan.now.evidence }
    requires classes { classes.now ≡ classes_for (task_for (meaning_of files.now) plan.now) }
    requires few { count ≤ 1000 }
    ensures { IfOk result
        (λ t. IsRecord start count (task_for (meaning_of files.now) plan.now) t.items) }
{
    certified_begins_safely(&files.net, &files.old, &files.new, &files.demands, plan);
    let entries = entries_of(alloc, classes, count)?;
    let world = World::begin(alloc, &files.net, &files.old, &plan.rounds)?;
    let driven = driven_by(alloc, world, start, &entries)?;
    record_text(alloc, &files.net, &driven.events, &driven.world)
}
