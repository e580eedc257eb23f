//! A driven run of rounds that are known to be good: the offered events are counted, and only the one that is named is found.
ghost use Rattle.std.specs.Prelude.{◌≡◌, ◌≤◌, [], IfOk, OnOk};
ghost use Rattle.topology.specs.Networks.{IsNetwork};
ghost use Rattle.schedule_pilot.specs.Counted.{IsCounted};
ghost use Rattle.schedule_pilot.specs.Driving.{IsPilot, world_rollout, IsRunFrom, HasEnding, BeginsSafely};
ghost use Rattle.schedule_pilot.specs.Ends.{AreEntries};
ghost use Rattle.schedule_pilot.specs.Offered.{full_budget};

use crate::counted::{Counted, due_in, offered_count, offered_event};
use crate::driving::{Driven, ending_of};
use crate::offers::{entries_past, is_over};
use crate::{Ending, Entry, Pilot};
use net_base::Memory;
use std::alloc::Global;
use update_model::{Events, World};

/// Makes events until the run ends, where none was made before. What is under way in the world is counted.
fn run_on<F: Fn(u64, u64) -> u64>(
    world: &mut World,
    counted: &mut Counted,
    events: &mut Events,
    pilot: &Pilot<F>,
    entries: &[Entry],
    budget: u64,
) -> Result<Ending, Memory>
    requires names_one { IsPilot (F.pre pilot.now) (F.post pilot.now) }
    requires net { IsNetwork world.old.net }
    requires safely { BeginsSafely world.old }
    requires entries { AreEntries world.old.net entries.now }
    requires counted { IsCounted world.old.state counted.old.pending counted.old.under_way.items }
    requires none { events.old ≡ [] }
    ensures run { OnOk result
        (IsRunFrom world.old (F.post pilot.now) entries.now events.new world.new) }
    ensures ends { IfOk result (HasEnding world.old entries.now budget events.new) }
{
    let mut rest = entries;
    let mut made = 0;
    'steps: loop {
        let due = due_in(world);
        let offered = offered_count(due, counted, rest);
        let over = is_over(world, &counted.under_way, rest);
        if let Some(ending) = ending_of(over, offered, made, budget) {
            return Ok(ending);
        }
        let named = pilot.ask(made, offered as u64);
        let event = offered_event(due, counted, rest, named as usize);
        counted.make_event(world, event)?;
        events.add(event)?;
        rest = entries_past(event, rest);
        made += 1;
    }
}

/// Drives a world, as [`drive`](crate::drive) does: the same events are made, and it ends in the same way. The world is just
/// begun, its rounds are good, and no packet visits a switch twice. Then a pending change may be made whatever was made before
/// it, so the pending changes are counted and none of them is looked at.
///
/// A step takes time by the logarithm of the number of changes of its round, and by what is made: a look-up of its key for a
/// change, of the packet for a hop. The start of a round also takes time by the number of its changes.
pub fn drive_safely<'a, F: Fn(u64, u64) -> u64>(
    alloc: Global,
    world: World<'a>,
    pilot: &Pilot<F>,
    entries: &[Entry],
    budget: u64,
) -> Result<Driven<'a>, Memory>
    requires names_one { IsPilot (F.pre pilot.now) (F.post pilot.now) }
    requires safely { BeginsSafely world }
    requires entries { AreEntries world.net entries.now }
    ensures run { IfOk result
        (λ d. IsRunFrom world.entry (F.post pilot.now) entries.now d.events d.world) }
    ensures ends { IfOk result (λ d. HasEnding world.entry entries.now budget d.events d.ending) }
    ensures unblocked { IfOk result (λ d. ¬ (d.ending ≡ Ending.Blocked)) }
    ensures finished { full_budget (world_rollout world.entry) entries.now ≤ budget
        → IfOk result (λ d. d.ending ≡ Ending.Finished) }
{
    // A network keeps its links at its switches, so a packet visits no more switches than there are.
    world.net().keeps_rules();
    let mut counted = Counted::of(alloc, &world)?;
    let mut now = world;
    let mut events = Events::make(alloc)?;
    let ending = run_on(&mut now, &mut counted, &mut events, pilot, entries, budget)?;
    Ok(Driven {
        events,
        world: now,
        ending,
    })
}
