//! The packets of a network whose update may be turned back, and how many of them are under way.
ghost use Rattle.std.specs.Prelude.{◌≡◌, ℕ, suc, ◌<◌, ◌≤◌, ◌^◌, ◌++◌, ◌∷◌, [], true, false, Some, slice_get, IfOk, OnErr, IsTrue, ◌↔◌, vec_len};
ghost use Rattle.std.specs.List.{AllByRecursion};
ghost use Rattle.net_base.specs.Places.{stop_of};
ghost use Rattle.path_walk.specs.Paths.{ended_by};
ghost use Rattle.update_model.specs.States.{with_packet, hopped_packet, entered_packet, IsUnderWay, IsHopping};
ghost use Rattle.update_model.specs.Worlds.{goes_on};

use net_base::{Memory, Place, Stop};
use path_walk::{Ended, Outcome};
use std::alloc::Global;
use std::marker::Model;

/// A packet, on its way or ended: where it entered and to which address, where it is, how often a round was settled before
/// its entry, the stops that it visited, and its end.
#[derive(Drop)]
pub(crate) struct Traveller {
    entry: Place,
    dst: u32,
    at: Place,
    born: u64,
    visits: Vec<Stop>,
    ended: Ended,
}

impl Model for Traveller {
    ghost use Rattle.update_model.specs.declared.Packet.{Packet};

    ghost Value = { Packet };

    ghost view = { λ t. record {
      entry = t.entry;
      dst = t.dst;
      at = t.at;
      born = t.born;
      visits = t.visits.items;
      ended = t.ended;
    } };
}

impl Traveller {
    /// A packet that enters at a place when rounds were settled so often.
    fn enter(alloc: Global, place: Place, dst: u32, born: u64) -> Result<Traveller, Memory>
        ensures { IfOk result (λ p. p ≡ entered_packet place dst born) }
    {
        let mut visits = Vec::new(alloc);
        visits.push(Stop {
            switch: place.switch,
            port: place.port,
        })?;
        Ok(Traveller {
            entry: place,
            dst,
            at: place,
            born,
            visits,
            ended: Ended::UnderWay,
        })
    }

    /// Whether it has no end yet.
    fn is_under_way(&self) -> bool
        ensures { IsTrue result ↔ IsUnderWay self.now }
    {
        matches!(self.ended, Ended::UnderWay)
    }

    /// Where it is.
    pub(crate) fn place(&self) -> Place
        ensures { result ≡ self.now.at }
    {
        self.at
    }

    /// Its address.
    pub(crate) fn address(&self) -> u32
        ensures { result ≡ self.now.dst }
    {
        self.dst
    }

    /// How often a round was settled before its entry.
    fn birth(&self) -> u64
        ensures { result ≡ self.now.born }
    {
        self.born
    }

    /// It goes on to the next place. After a refusal it is as before.
    fn go_on(&mut self, next: Place) -> Result<(), Memory>
        ensures ok { IfOk result (λ _. self.new ≡ hopped_packet self.old (Outcome.Go next)) }
        ensures err { OnErr result (self.new ≡ self.old) }
    {
        self.visits.push(Stop {
            switch: next.switch,
            port: next.port,
        })?;
        self.at = next;
        Ok(())
    }

    /// It ends.
    fn end(&mut self, ended: Ended)
        ensures { self.new ≡ record self.old { ended = ended } }
    {
        self.ended = ended;
    }
}

/// The packets in the order of entry, and how often a round was settled when the next one enters. Beside them stand how many
/// are under way, and how many of these entered before a round was settled last.
#[derive(Drop)]
pub(crate) struct Travellers {
    packets: Vec<Traveller>,
    settled: u64,
    under_way: usize,
    older: usize,
}

impl Model for Travellers {
    ghost use Rattle.update_model.specs.Worlds.{TrafficState, AreCounted};

    ghost Value = { TrafficState };

    ghost view = { λ t. record { packets = t.packets.items; settled = t.settled } };

    ghost invariant = { λ t. AreCounted t.packets.items t.settled t.under_way t.older };
}

/// Whether there is packet i and it is under way.
fn is_hopping(packets: &[Traveller], i: usize) -> bool
    ensures { IsTrue result ↔ IsHopping packets.now i }
{
    match packets.get(i) {
        Some(packet) => packet.is_under_way(),
        None => false,
    }
}

/// Ends packet i.
fn end_packet(packets: &mut Vec<Traveller>, i: usize, ended: Ended)
    requires { i < vec_len packets.old }
    ensures { packets.new.items ≡ with_packet (λ p. record p { ended = ended }) i
        packets.old.items }
{
    packets[i].end(ended);
}

/// Packet i goes on to the next place. After a refusal all is as before.
fn move_packet(packets: &mut Vec<Traveller>, i: usize, next: Place) -> Result<(), Memory>
    requires { i < vec_len packets.old }
    ensures ok { IfOk result (λ _. packets.new.items
        ≡ with_packet (λ p. hopped_packet p (Outcome.Go next)) i packets.old.items) }
    ensures err { OnErr result (packets.new.items ≡ packets.old.items) }
{
    packets[i].go_on(next)
}

impl Travellers {
    /// No packets, and no settled rounds.
    pub(crate) fn none(alloc: Global) -> Travellers
        ensures { result ≡ record { packets = []; settled = 0 } }
    {
        Travellers {
            packets: Vec::new(alloc),
            settled: 0,
            under_way: 0,
            older: 0,
        }
    }

    /// Packet i.
    pub(crate) fn packet(&self, i: usize) -> &Traveller
        requires { IsHopping self.now.packets i }
        ensures { slice_get self.now.packets i ≡ Some result.now }
    {
        &self.packets[i]
    }

    /// Whether there is packet i and it is under way.
    pub(crate) fn can_hop(&self, i: usize) -> bool
        ensures { IsTrue result ↔ IsHopping self.now.packets i }
    {
        is_hopping(&self.packets, i)
    }

    /// Whether no packet is under way that entered before a round was settled last.
    pub(crate) fn has_none_older(&self) -> bool
        ensures { IsTrue result ↔ AllByRecursion (λ p. IsUnderWay p → self.now.settled ≤ p.born)
            self.now.packets }
    {
        self.older == 0
    }

    /// One more round is settled.
    pub(crate) fn settle(&mut self)
        requires { suc self.old.settled < 2 ^ 64 }
        ensures { self.new ≡ record self.old { settled = suc self.old.settled } }
    {
        self.settled += 1;
        self.older = self.under_way;
    }

    /// A packet enters. After a refusal all is as before.
    pub(crate) fn enter(&mut self, place: Place, dst: u32) -> Result<(), Memory>
        ensures ok { IfOk result (λ _. self.new
            ≡ record self.old {
              packets = self.old.packets ++ entered_packet place dst
                  self.old.settled ∷ [];
            }) }
        ensures err { OnErr result (self.new ≡ self.old) }
    {
        let packet = Traveller::enter(*self.packets.allocator(), place, dst, self.settled)?;
        self.packets.push(packet)?;
        self.under_way += 1;
        Ok(())
    }

    /// Packet i, which is under way, goes on to the next place. After a refusal all is as before.
    fn go_on(&mut self, i: usize, next: Place) -> Result<(), Memory>
        requires { IsHopping self.old.packets i }
        ensures ok { IfOk result (λ _. self.new
            ≡ record self.old {
              packets = with_packet (λ p. hopped_packet p (Outcome.Go next)) i
                  self.old.packets;
            }) }
        ensures err { OnErr result (self.new ≡ self.old) }
    {
        move_packet(&mut self.packets, i, next)
    }

    /// Packet i, which is under way, ends.
    pub(crate) fn end(&mut self, i: usize, ended: Ended)
        requires hopping { IsHopping self.old.packets i }
        requires ends { goes_on ended ≡ false }
        ensures { self.new ≡ record self.old
            { packets = with_packet (λ p. record p { ended = ended }) i self.old.packets } }
    {
        self.older -= usize::from(self.packets[i].birth() < self.settled);
        self.under_way -= 1;
        end_packet(&mut self.packets, i, ended);
    }

    /// Packet i, which is under way, moves by an outcome at its place. After a refusal all is as before.
    pub(crate) fn hop(&mut self, i: usize, found: Outcome) -> Result<(), Memory>
        requires { IsHopping self.old.packets i }
        ensures ok { IfOk result (λ _. self.new
            ≡ record self.old {
              packets
                  = with_packet (λ p. hopped_packet p found) i self.old.packets;
            }) }
        ensures err { OnErr result (self.new ≡ self.old) }
    {
        let switch = self.packets[i].place().switch;
        match found {
            Outcome::Go(next) => self.go_on(i, next)?,
            Outcome::Discard => self.end(i, Ended::Dropped(switch)),
            Outcome::Leave(port, vlan) => self.end(i, Ended::Left(switch, port, vlan)),
        }
        Ok(())
    }
}
