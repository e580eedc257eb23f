//! What is under way in a driven run. It is kept from step to step, so that no step looks at all packets and changes.
ghost use Rattle.std.specs.Prelude.{◌≡◌, ◌≤◌, ◌-◌, ◌⊎◌, ◌++◌, ◌∷◌, [], length, map, cond, IfOk, OnOk, IsTrue, ◌↔◌};
ghost use Rattle.update_model.specs.States.{IsEnabled, IsHopping};
ghost use Rattle.update_model.specs.Worlds.{world_after};
ghost use Rattle.update_model.specs.Worlds.{goes_on};
ghost use Rattle.schedule_pilot.specs.Agendas.{numbers_on, numbers_under_way, IsAgenda, numbers_without};

use net_base::Memory;
use path_walk::Ended;
use std::alloc::Global;
use update_model::{Event, Packet, World};

/// The changes that are pending and the packets that are under way, by their numbers, ascending.
#[derive(Drop)]
pub(crate) struct Agenda {
    pub(crate) pending: Vec<usize>,
    pub(crate) under_way: Vec<usize>,
}

/// Adds a number, where the flag is on.
fn add_if_on(numbers: &mut Vec<usize>, number: usize, on: bool) -> Result<(), Memory>
    ensures { OnOk result (numbers.new.items ≡ numbers.old.items ++ cond on (number ∷ []) []) }
{
    if on {
        numbers.push(number)?;
    }
    Ok(())
}

/// The numbers of the flags that are on.
pub(crate) fn numbers_of(alloc: Global, flags: &[bool]) -> Result<Vec<usize>, Memory>
    ensures { IfOk result (λ v. v.items ≡ numbers_on 0 flags.now) }
{
    let mut numbers = Vec::new(alloc);
    for (i, on) in flags.iter().enumerate() {
        add_if_on(&mut numbers, i, *on)?;
    }
    Ok(numbers)
}

/// Whether a packet has no end yet.
fn is_under_way(packet: &Packet) -> bool
    ensures { result ≡ goes_on packet.now.ended }
{
    matches!(packet.ended, Ended::UnderWay)
}

/// For each packet, whether it is under way.
pub(crate) fn flags_of(alloc: Global, packets: &[Packet]) -> Result<Vec<bool>, Memory>
    ensures { IfOk result (λ v. v.items ≡ map (λ p. goes_on p.ended) packets.now) }
{
    let mut flags = Vec::new(alloc);
    for packet in packets {
        flags.push(is_under_way(packet))?;
    }
    Ok(flags)
}

/// Whether there is packet i and it is under way.
fn is_hopping(packets: &[Packet], i: usize) -> bool
    ensures { IsTrue result ↔ IsHopping packets.now i }
{
    match packets.get(i) {
        Some(packet) => is_under_way(packet),
        None => false,
    }
}

/// Takes a number out.
fn take_out(numbers: &mut Vec<usize>, i: usize)
    ensures { numbers.new.items ≡ numbers_without i numbers.old.items }
{
    numbers.retain(|number| *number != i);
}

/// Takes packet i out, if it has ended.
pub(crate) fn take_ended(numbers: &mut Vec<usize>, packets: &[Packet], i: usize)
    ensures { (IsHopping packets.now i × (numbers.new.items ≡ numbers.old.items))
        ⊎ ((¬ IsHopping packets.now i)
        × (numbers.new.items ≡ numbers_without i numbers.old.items)) }
{
    if !is_hopping(packets, i) {
        take_out(numbers, i);
    }
}

/// Adds the last packet.
pub(crate) fn add_last(numbers: &mut Vec<usize>, packets: &[Packet]) -> Result<(), Memory>
    requires { 1 ≤ length packets.now }
    ensures { OnOk result (numbers.new.items ≡ numbers.old.items ++ (length packets.now - 1) ∷ []) }
{
    numbers.push(packets.len() - 1)?;
    Ok(())
}

/// Makes an event that may happen.
pub(crate) fn happen(world: &mut World, event: Event) -> Result<(), Memory>
    requires { IsEnabled world.old.net world.old.rounds world.old.state event }
    ensures { OnOk result (world.new ≡ world_after world.old event) }
{
    match world.step(event) {
        Ok(()) => Ok(()),
        Err(_) => Err(Memory),
    }
}

/// Puts the numbers of the flags that are on in place of the numbers.
fn renew(numbers: &mut Vec<usize>, flags: &[bool]) -> Result<(), Memory>
    ensures { OnOk result (numbers.new.items ≡ numbers_on 0 flags.now) }
{
    *numbers = numbers_of(*numbers.allocator(), flags)?;
    Ok(())
}

impl Agenda {
    /// What is under way in a world.
    pub(crate) fn of(alloc: Global, world: &World) -> Result<Agenda, Memory>
        ensures { IfOk result (λ a. IsAgenda world.now.state a.pending.items a.under_way.items) }
    {
        let pending = numbers_of(alloc, world.flags())?;
        let flags = flags_of(alloc, world.packets())?;
        let under_way = numbers_of(alloc, &flags)?;
        Ok(Agenda { pending, under_way })
    }

    /// Makes an event that may happen, and keeps what is under way after it.
    pub(crate) fn make_event(&mut self, world: &mut World, event: Event) -> Result<(), Memory>
        requires may { IsEnabled world.old.net world.old.rounds world.old.state event }
        requires kept { IsAgenda world.old.state self.old.pending.items self.old.under_way.items }
        ensures world { OnOk result (world.new ≡ world_after world.old event) }
        ensures kept { OnOk result
            (IsAgenda world.new.state self.new.pending.items self.new.under_way.items) }
    {
        happen(world, event)?;
        match event {
            Event::Start => renew(&mut self.pending, world.flags())?,
            Event::Settle => {}
            Event::Change(i) => take_out(&mut self.pending, i),
            Event::Enter(_, _) => add_last(&mut self.under_way, world.packets())?,
            Event::Hop(i) => take_ended(&mut self.under_way, world.packets(), i),
            Event::Lose(i) => take_ended(&mut self.under_way, world.packets(), i),
        }
        Ok(())
    }
}
