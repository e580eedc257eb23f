//! A driven run: at each step the pilot names one of the offered events, and it is made.
ghost use Rattle.std.specs.Prelude.{◌≡◌, ◌≢◌, ◌≤◌, ◌++◌, ◌∷◌, [], IfNone, IfOk, OnErr, OnOk, Err, Ok};
ghost use Rattle.update_model.specs.States.{IsEnabled};
ghost use Rattle.update_model.specs.Worlds.{world_after};
ghost use Rattle.schedule_pilot.specs.Offered.{full_budget};
ghost use Rattle.schedule_pilot.specs.Agendas.{IsAgenda};
ghost use Rattle.schedule_pilot.specs.Ends.{AreEntries};
ghost use Rattle.schedule_pilot.specs.Driving.{IsPilot, world_rollout, IsRunFrom, HasEnding, BeginsSafely, ending_at};

use crate::agenda::Agenda;
use crate::offers::{entries_past, is_over, offered_of};
use crate::{Ending, Entry, Pilot};
use net_base::Memory;
use std::alloc::Global;
use update_model::{Events, World};

/// The events of a driven run, the world after them, and how it ended.
#[derive(Drop)]
pub struct Driven<'a> {
    pub events: Events,
    pub world: World<'a>,
    pub ending: Ending,
}

/// How a driven run ends, if it ends here.
pub(crate) fn ending_of(over: bool, offered: usize, made: u64, budget: u64) -> Option<Ending>
    ensures is { result ≡ ending_at over offered made budget }
    ensures goes_on { IfNone result ((1 ≤ offered) × (made ≢ budget)) }
{
    if over {
        Some(Ending::Finished)
    } else if offered == 0 {
        Some(Ending::Blocked)
    } else if made == budget {
        Some(Ending::OutOfBudget)
    } else {
        None
    }
}

/// Makes events until the run ends, where none was made before. What is under way in the world is on the agenda.
fn run_on<F: Fn(u64, u64) -> u64>(
    alloc: Global,
    world: &mut World,
    agenda: &mut Agenda,
    events: &mut Events,
    pilot: &Pilot<F>,
    entries: &[Entry],
    budget: u64,
) -> Result<Ending, Memory>
    requires names_one { IsPilot (F.pre pilot.now) (F.post pilot.now) }
    requires entries { AreEntries world.old.net entries.now }
    requires agenda { IsAgenda world.old.state agenda.old.pending.items agenda.old.under_way.items }
    requires none { events.old ≡ [] }
    ensures run { OnOk result
        (IsRunFrom world.old (F.post pilot.now) entries.now events.new world.new) }
    ensures ends { IfOk result (HasEnding world.old entries.now budget events.new) }
{
    let mut rest = entries;
    let mut made = 0;
    'steps: loop {
        let offered = offered_of(alloc, world, agenda, rest)?;
        let over = is_over(world, &agenda.under_way, rest);
        if let Some(ending) = ending_of(over, offered.len(), made, budget) {
            return Ok(ending);
        }
        let named = pilot.ask(made, offered.len() as u64);
        let event = offered[named as usize];
        agenda.make_event(world, event)?;
        events.add(event)?;
        rest = entries_past(event, rest);
        made += 1;
    }
}

/// Drives a world: at step n, from 0, the pilot is asked with n and with how many events are offered, and the event at the
/// position that it names is made. Offered are, of these and in this order, the events that may happen: the start of the
/// next round; the settling of the running one; its pending changes, ascending; the next of the entries; a hop of each
/// packet under way, ascending. No packet is lost.
///
/// Where rounds are good and no packet visits a switch twice, a budget of `entries * (switches + 1) + changes + 2 * rounds`
/// events is enough. The only error is want of memory; then the world is given up.
///
/// A step costs what it offers, with a look-up of its key for each pending change; the start and the settling of a round
/// also cost a look at all packets and at the changes of the round.
pub fn drive<'a, F: Fn(u64, u64) -> u64>(
    alloc: Global,
    world: World<'a>,
    pilot: &Pilot<F>,
    entries: &[Entry],
    budget: u64,
) -> Result<Driven<'a>, Memory>
    requires names_one { IsPilot (F.pre pilot.now) (F.post pilot.now) }
    requires entries { AreEntries world.net entries.now }
    ensures run { IfOk result
        (λ d. IsRunFrom world.entry (F.post pilot.now) entries.now d.events d.world) }
    ensures ends { IfOk result (λ d. HasEnding world.entry entries.now budget d.events d.ending) }
    ensures unblocked { BeginsSafely world.entry
        → IfOk result (λ d. ¬ (d.ending ≡ Ending.Blocked)) }
    ensures finished { BeginsSafely world.entry
        → full_budget (world_rollout world.entry) entries.now ≤ budget
        → IfOk result (λ d. d.ending ≡ Ending.Finished) }
{
    // A network keeps its links at its switches, so a packet visits no more switches than there are.
    world.net().keeps_rules();
    let mut agenda = Agenda::of(alloc, &world)?;
    let mut now = world;
    let mut events = Events::make(alloc)?;
    let ending = run_on(
        alloc,
        &mut now,
        &mut agenda,
        &mut events,
        pilot,
        entries,
        budget,
    )?;
    Ok(Driven {
        events,
        world: now,
        ending,
    })
}
