//! The events that are offered at a step of a driven run.
ghost use Rattle.std.specs.Prelude.{◌≡◌, ℕ, ◌≤◌, ◌++◌, ◌∷◌, [], map, IfOk, OnOk, IsTrue, ◌↔◌, slice_get, Some};
ghost use Rattle.std.specs.List.{AllByRecursion};
ghost use Rattle.update_model.specs.States.{IsEnabled, IsUnderWay};
ghost use Rattle.schedule_pilot.specs.Offered.{next_entry, AreOffered, entries_after, IsOver};
ghost use Rattle.schedule_pilot.specs.Agendas.{numbers_on, numbers_under_way, IsAgenda, AddsThose};
ghost use Rattle.schedule_pilot.specs.Ends.{AreEntries};
ghost use Rattle.schedule_pilot.specs.Driving.{world_rollout};

use crate::Entry;
use crate::agenda::Agenda;
use net_base::Memory;
use std::alloc::Global;
use update_model::{Event, Packet, Phase, World};

/// Whether there is no packet i that entered when fewer than k rounds were settled.
fn is_young(packets: &[Packet], i: usize, k: u32) -> bool
    ensures { IsTrue result ↔ ((p : _) → slice_get packets.now i ≡ Some p → k ≤ p.born) }
{
    match packets.get(i) {
        Some(packet) => packet.born >= k,
        None => true,
    }
}

/// Whether none of the packets of these numbers entered when fewer than k rounds were settled.
fn are_young_at(packets: &[Packet], numbers: &[usize], k: u32) -> bool
    ensures { IsTrue result
        ↔ AllByRecursion (λ i. (p : _) → slice_get packets.now i ≡ Some p → k ≤ p.born)
        numbers.now }
{
    numbers.iter().all(|i| is_young(packets, *i, k))
}

/// Whether none of the packets under way entered when fewer than k rounds were settled.
fn are_young(packets: &[Packet], under_way: &[usize], k: u32) -> bool
    requires { under_way.now ≡ numbers_under_way packets.now }
    ensures { IsTrue result ↔ AllByRecursion (λ p. IsUnderWay p → k ≤ p.born) packets.now }
{
    are_young_at(packets, under_way, k)
}

/// Whether the next round may start.
fn may_start(world: &World, under_way: &[usize]) -> bool
    requires { under_way.now ≡ numbers_under_way world.now.state.packets }
    ensures { IsTrue result ↔ IsEnabled world.now.net world.now.rounds world.now.state Event.Start }
{
    match world.phase() {
        Phase::Settled(k) => {
            (k as usize) < world.rounds().count() && are_young(world.packets(), under_way, k)
        }
        Phase::Running(_) => false,
    }
}

/// Whether a round is running.
fn is_running(phase: Phase) -> bool
    ensures { IsTrue result ↔ ((k : ℕ) × (phase ≡ Phase.Running k)) }
{
    matches!(phase, Phase::Running(_))
}

/// Whether the running round may be settled.
fn may_settle(world: &World, pending: &[usize]) -> bool
    requires { pending.now ≡ numbers_on 0 world.now.state.pending }
    ensures { IsTrue result
        ↔ IsEnabled world.now.net world.now.rounds world.now.state Event.Settle }
{
    is_running(world.phase()) && pending.is_empty()
}

/// Adds an event if it may happen.
fn add_if(offered: &mut Vec<Event>, may: bool, event: Event) -> Result<(), Memory>
    ensures { OnOk result
        (AddsThose (λ _. IsTrue may) (event ∷ []) offered.old.items offered.new.items) }
{
    if may {
        offered.push(event)?;
    }
    Ok(())
}

/// Adds a change if it may be made.
fn add_change(offered: &mut Vec<Event>, world: &World, i: usize) -> Result<(), Memory>
    ensures { OnOk result
        (AddsThose (IsEnabled world.now.net world.now.rounds world.now.state) (Event.Change i ∷ [])
        offered.old.items offered.new.items) }
{
    let change = Event::Change(i);
    add_if(offered, world.enabled(&change), change)
}

/// Adds those of the pending changes that may be made.
fn add_changes(offered: &mut Vec<Event>, world: &World, pending: &[usize]) -> Result<(), Memory>
    ensures { OnOk result
        (AddsThose (IsEnabled world.now.net world.now.rounds world.now.state)
        (map Event.Change pending.now) offered.old.items offered.new.items) }
{
    for i in pending {
        add_change(offered, world, *i)?;
    }
    Ok(())
}

/// Adds the next entry, if one is still to come.
fn add_entry(offered: &mut Vec<Event>, entries: &[Entry]) -> Result<(), Memory>
    ensures { OnOk result (offered.new.items ≡ offered.old.items ++ next_entry entries.now) }
{
    if let Some(entry) = entries.first() {
        offered.push(Event::Enter(entry.place, entry.dst))?;
    }
    Ok(())
}

/// Adds the hops of these packets.
fn add_hops(offered: &mut Vec<Event>, under_way: &[usize]) -> Result<(), Memory>
    ensures { OnOk result (offered.new.items ≡ offered.old.items ++ map Event.Hop under_way.now) }
{
    for i in under_way {
        offered.push(Event::Hop(*i))?;
    }
    Ok(())
}

/// The offered events.
pub(crate) fn offered_of(
    alloc: Global,
    world: &World,
    agenda: &Agenda,
    entries: &[Entry],
) -> Result<Vec<Event>, Memory>
    requires kept { IsAgenda world.now.state agenda.now.pending.items agenda.now.under_way.items }
    requires entries { AreEntries world.now.net entries.now }
    ensures { IfOk result
        (λ v. AreOffered (world_rollout world.now) world.now.state entries.now v.items) }
{
    let mut offered = Vec::new(alloc);
    add_if(
        &mut offered,
        may_start(world, &agenda.under_way),
        Event::Start,
    )?;
    add_if(
        &mut offered,
        may_settle(world, &agenda.pending),
        Event::Settle,
    )?;
    add_changes(&mut offered, world, &agenda.pending)?;
    add_entry(&mut offered, entries)?;
    add_hops(&mut offered, &agenda.under_way)?;
    Ok(offered)
}

/// Whether the last of so many rounds is settled.
fn is_settled(phase: Phase, count: usize) -> bool
    ensures { IsTrue result ↔ phase ≡ Phase.Settled count }
{
    match phase {
        Phase::Settled(k) => k as usize == count,
        Phase::Running(_) => false,
    }
}

/// Whether no entry is to come and no packet under way.
fn are_none(entries: &[Entry], under_way: &[usize]) -> bool
    ensures { IsTrue result ↔ ((entries.now ≡ []) × (under_way.now ≡ [])) }
{
    entries.is_empty() && under_way.is_empty()
}

/// Whether the run is over. The packets under way are told by their numbers.
pub(crate) fn is_over(world: &World, under_way: &[usize], entries: &[Entry]) -> bool
    requires { under_way.now ≡ numbers_under_way world.now.state.packets }
    ensures { IsTrue result ↔ IsOver (world_rollout world.now) world.now.state entries.now }
{
    is_settled(world.phase(), world.rounds().count()) && are_none(entries, under_way)
}

/// The entries that are still to come after an event.
pub(crate) fn entries_past<'a>(event: Event, entries: &'a [Entry]) -> &'a [Entry]
    ensures { result.now ≡ entries_after event entries.now }
{
    match event {
        Event::Enter(_, _) => match entries.split_first() {
            Some((_, rest)) => rest,
            None => entries,
        },
        _ => entries,
    }
}
