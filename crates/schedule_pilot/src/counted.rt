//! What is under way in a driven run whose pending changes may all be made: they are counted, and none of them is looked at.
ghost use Rattle.std.specs.Prelude.{◌≡◌, ◌<◌, ◌≤◌, ◌^◌, ◌++◌, length, map, Some, slice_get, IfOk, OnOk};
ghost use Rattle.update_model.specs.States.{IsEnabled};
ghost use Rattle.update_model.specs.Worlds.{world_after};
ghost use Rattle.update_model.specs.declared.Event.TheVariants as event;
ghost use Rattle.schedule_pilot.specs.Offered.{next_entry};
ghost use Rattle.schedule_pilot.specs.Agendas.{numbers_on};
ghost use Rattle.schedule_pilot.specs.Counted.{IsCounted, IsDue, first_events, offered_events};

use crate::Entry;
use crate::agenda::{add_last, flags_of, happen, numbers_of, take_ended};
use crate::flag_tree::FlagTree;
use net_base::Memory;
use std::alloc::Global;
use update_model::{Event, World};

/// Which changes are pending, and the numbers of the packets that are under way, ascending.
#[derive(Drop)]
pub(crate) struct Counted {
    pub(crate) pending: FlagTree,
    pub(crate) under_way: Vec<usize>,
}

impl Counted {
    /// What is under way in a world.
    pub(crate) fn of(alloc: Global, world: &World) -> Result<Counted, Memory>
        ensures { IfOk result (λ c. IsCounted world.now.state c.pending c.under_way.items) }
    {
        let pending = FlagTree::of(alloc, world.flags())?;
        let flags = flags_of(alloc, world.packets())?;
        let under_way = numbers_of(alloc, &flags)?;
        Ok(Counted { pending, under_way })
    }

    /// Makes an event that may happen, and keeps what is under way after it.
    pub(crate) fn make_event(&mut self, world: &mut World, event: Event) -> Result<(), Memory>
        requires may { IsEnabled world.old.net world.old.rounds world.old.state event }
        requires kept { IsCounted world.old.state self.old.pending self.old.under_way.items }
        ensures world { OnOk result (world.new ≡ world_after world.old event) }
        ensures kept { OnOk result
            (IsCounted world.new.state self.new.pending self.new.under_way.items) }
    {
        happen(world, event)?;
        match event {
            Event::Start => self.pending.renew(world.flags())?,
            Event::Settle => {}
            Event::Change(i) => self.pending.turn_off(i),
            Event::Enter(_, _) => add_last(&mut self.under_way, world.packets())?,
            Event::Hop(i) => take_ended(&mut self.under_way, world.packets(), i),
            Event::Lose(i) => take_ended(&mut self.under_way, world.packets(), i),
        }
        Ok(())
    }
}

/// The start or the settling of a round, if it may happen.
pub(crate) fn due_in(world: &World) -> Option<Event>
    ensures { IsDue world.now result }
{
    if world.enabled(&Event::Start) {
        Some(Event::Start)
    } else if world.enabled(&Event::Settle) {
        Some(Event::Settle)
    } else {
        None
    }
}

/// How many events come first.
fn first_count(due: Option<Event>, pending: &FlagTree) -> usize
    ensures value { result ≡ length (first_events due (numbers_on 0 pending.now)) }
    ensures small { result < 2 ^ 63 }
{
    match due {
        Some(_) => 1,
        None => pending.count(),
    }
}

/// How many events are offered.
pub(crate) fn offered_count(due: Option<Event>, counted: &Counted, entries: &[Entry]) -> usize
    ensures { result ≡ length
        (offered_events due (numbers_on 0 counted.now.pending) entries.now
        counted.now.under_way.items) }
{
    let first = first_count(due, &counted.pending);
    let hops = counted.under_way.len();
    if entries.is_empty() {
        first + hops
    } else {
        first + hops + 1
    }
}

/// One of the events that come first.
fn first_event(due: Option<Event>, pending: &FlagTree, place: usize) -> Event
    requires { place < length (first_events due (numbers_on 0 pending.now)) }
    ensures { slice_get (first_events due (numbers_on 0 pending.now)) place ≡ Some result }
{
    match due {
        Some(event) => event,
        None => Event::Change(pending.kth(place)),
    }
}

/// The hop of one of the packets under way.
fn hop_of(under_way: &[usize], place: usize) -> Event
    requires { place < length under_way.now }
    ensures { slice_get (map event.Hop under_way.now) place ≡ Some result }
{
    Event::Hop(under_way[place])
}

/// The next entry, or one of the hops.
fn later_event(entries: &[Entry], under_way: &[usize], place: usize) -> Event
    requires { place < length (next_entry entries.now ++ map event.Hop under_way.now) }
    ensures { slice_get (next_entry entries.now ++ map event.Hop under_way.now) place
        ≡ Some result }
{
    match entries.first() {
        Some(entry) if place == 0 => Event::Enter(entry.place, entry.dst),
        Some(_) => hop_of(under_way, place - 1),
        None => hop_of(under_way, place),
    }
}

/// The offered event at a position, from 0. Takes time by the logarithm of the number of changes.
pub(crate) fn offered_event(
    due: Option<Event>,
    counted: &Counted,
    entries: &[Entry],
    place: usize,
) -> Event
    requires { place < length
        (offered_events due (numbers_on 0 counted.now.pending) entries.now
        counted.now.under_way.items) }
    ensures { slice_get
        (offered_events due (numbers_on 0 counted.now.pending) entries.now
        counted.now.under_way.items) place ≡ Some result }
{
    let first = first_count(due, &counted.pending);
    if place < first {
        first_event(due, &counted.pending, place)
    } else {
        later_event(entries, &counted.under_way, place - first)
    }
}
