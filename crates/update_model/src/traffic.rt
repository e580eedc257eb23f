//! The packets of a network, and how many of them are under way.
ghost use Rattle.std.specs.Prelude.{◌≡◌, ℕ, suc, ◌<◌, ◌≤◌, ◌^◌, ◌++◌, ◌∷◌, [], true, false, Some, slice_get, IfOk, OnErr, IsTrue, ◌↔◌, vec_len};
ghost use Rattle.std.specs.List.{AllByRecursion};
ghost use Rattle.update_model.specs.States.{with_packet, hopped_packet, entered_packet, IsUnderWay, IsHopping};
ghost use Rattle.update_model.specs.Worlds.{goes_on};

use crate::{Packet, add_packet, end_packet, enter_packet, is_under_way, move_packet};
use net_base::{Memory, Place};
use path_walk::{Ended, Outcome};
use std::alloc::Global;
use std::marker::Model;

/// The packets in the order of entry, and how many rounds were settled when the next one enters. Beside them stand how many
/// are under way, and how many of these entered when fewer rounds were settled.
#[derive(Drop)]
pub(crate) struct Traffic {
    packets: Vec<Packet>,
    settled: u32,
    under_way: usize,
    older: usize,
}

impl Model for Traffic {
    ghost use Rattle.update_model.specs.Worlds.{TrafficState, AreCounted};

    ghost Value = { TrafficState };

    ghost view = { λ t. record { packets = t.packets.items; settled = t.settled } };

    ghost invariant = { λ t. AreCounted t.packets.items t.settled t.under_way t.older };
}

/// Whether there is packet i and it is under way.
fn can_hop(packets: &[Packet], i: usize) -> bool
    ensures { IsTrue result ↔ IsHopping packets.now i }
{
    match packets.get(i) {
        Some(packet) => is_under_way(packet),
        None => false,
    }
}

impl Traffic {
    /// No packets, and no settled rounds.
    pub(crate) fn none(alloc: Global) -> Traffic
        ensures { result ≡ record { packets = []; settled = 0 } }
    {
        Traffic {
            packets: Vec::new(alloc),
            settled: 0,
            under_way: 0,
            older: 0,
        }
    }

    /// The packets.
    pub(crate) fn packets(&self) -> &[Packet]
        ensures { result.now ≡ self.now.packets }
    {
        &self.packets
    }

    /// Whether there is packet i and it is under way.
    pub(crate) fn can_hop(&self, i: usize) -> bool
        ensures { IsTrue result ↔ IsHopping self.now.packets i }
    {
        can_hop(&self.packets, i)
    }

    /// Whether no packet is under way that entered when fewer rounds were settled.
    pub(crate) fn has_none_older(&self) -> bool
        ensures { IsTrue result ↔ AllByRecursion (λ p. IsUnderWay p → self.now.settled ≤ p.born)
            self.now.packets }
    {
        self.older == 0
    }

    /// One more round is settled.
    pub(crate) fn settle(&mut self)
        requires { suc self.old.settled < 2 ^ 32 }
        ensures { self.new ≡ record self.old { settled = suc self.old.settled } }
    {
        self.settled += 1;
        self.older = self.under_way;
    }

    /// A packet enters. After a refusal all is as before.
    pub(crate) fn enter(&mut self, place: Place, dst: u32) -> Result<(), Memory>
        ensures ok { IfOk result (λ _. self.new
            ≡ record self.old {
              packets = self.old.packets ++ entered_packet place dst
                  self.old.settled ∷ [];
            }) }
        ensures err { OnErr result (self.new ≡ self.old) }
    {
        let packet = enter_packet(*self.packets.allocator(), place, dst, self.settled)?;
        add_packet(&mut self.packets, packet)?;
        self.under_way += 1;
        Ok(())
    }

    /// Packet i, which is under way, goes on to the next place. After a refusal all is as before.
    fn go_on(&mut self, i: usize, next: Place) -> Result<(), Memory>
        requires { IsHopping self.old.packets i }
        ensures ok { IfOk result (λ _. self.new
            ≡ record self.old {
              packets = with_packet (λ p. hopped_packet p (Outcome.Go next)) i
                  self.old.packets;
            }) }
        ensures err { OnErr result (self.new ≡ self.old) }
    {
        move_packet(&mut self.packets, i, next)
    }

    /// Packet i, which is under way, ends.
    pub(crate) fn end(&mut self, i: usize, ended: Ended)
        requires hopping { IsHopping self.old.packets i }
        requires ends { goes_on ended ≡ false }
        ensures { self.new ≡ record self.old
            { packets = with_packet (λ p. record p { ended = ended }) i self.old.packets } }
    {
        self.older -= usize::from(self.packets[i].born < self.settled);
        self.under_way -= 1;
        end_packet(&mut self.packets, i, ended);
    }

    /// Packet i, which is under way, moves by an outcome at its place. After a refusal all is as before.
    pub(crate) fn hop(&mut self, i: usize, found: Outcome) -> Result<(), Memory>
        requires { IsHopping self.old.packets i }
        ensures ok { IfOk result (λ _. self.new
            ≡ record self.old {
              packets
                  = with_packet (λ p. hopped_packet p found) i self.old.packets;
            }) }
        ensures err { OnErr result (self.new ≡ self.old) }
    {
        let switch = self.packets[i].at.switch;
        match found {
            Outcome::Go(next) => self.go_on(i, next)?,
            Outcome::Discard => self.end(i, Ended::Dropped(switch)),
            Outcome::Leave(port, vlan) => self.end(i, Ended::Left(switch, port, vlan)),
        }
        Ok(())
    }
}
