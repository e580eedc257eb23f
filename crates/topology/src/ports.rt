//! The used ports and what is at each.
ghost use Rattle.std.specs.Prelude.{◌≡◌, ◌<◌, ◌^◌, ◌++◌, ◌∷◌, [], count_by, map, unwrap_or, IfSome, Some, OnOk, OnErr, false};
ghost use Rattle.std.specs.List.{list_any};
ghost use Rattle.std.specs.Map.{lookup};
ghost use Rattle.topology.specs.Networks.{stop_eq, is_on};
ghost use Rattle.topology.specs.declared.net.End.TheVariants as at;
ghost use Rattle.net_base.specs.Switches.{most_switches};

use crate::net::End;
use indexmap::IndexMap;
use net_base::{MAX_SWITCHES, Stop, SwitchId};
use std::alloc::{AllocError, Global};
use std::marker::Model;

/// The used ports, each with what is there, in the order of their use, and for each switch how many of its ports are
/// used. A port's slot names the entry of the port that was last put there, so that most ports are found without a hash.
#[derive(Drop)]
pub struct Ports {
    ends: IndexMap<Stop, End>,
    counts: [u16; MAX_SWITCHES as usize],
    slots: Vec<u16>,
}

/// The slot of a port: 64 for each switch, the port's by the last six bits of its number.
fn slot_of(stop: Stop) -> usize
    ensures { result < 2 ^ 39 }
{
    stop.switch.0 as usize * 64 + stop.port.0 as usize % 64
}

/// Has the slot of a port name the entry at a place.
fn point_slot(slots: &mut Vec<u16>, stop: Stop, place: usize) -> Result<(), AllocError> {
    let slot = slot_of(stop);
    if slots.len() <= slot {
        slots.resize(slot + 1, 0)?;
    }
    slots[slot] = u16::try_from(place).unwrap_or(u16::MAX);
    Ok(())
}

impl Model for Ports {
    ghost use Rattle.std.specs.Prelude.{List, map};
    ghost use Rattle.net_base.specs.declared.ids.Stop.{Stop};
    ghost use Rattle.topology.specs.Ends.{AreCounts};
    ghost use Rattle.topology.specs.declared.net.End.{End};

    ghost Value = { List (Stop × End) };

    ghost view = { λ p. p.ends.entries };

    ghost invariant = { λ p. AreCounts p.counts (map (λ e. e.0) p.ends.entries) };
}

impl Ports {
    /// No port is used.
    pub fn new(alloc: Global) -> Self
        ensures { result ≡ [] }
    {
        Ports {
            ends: IndexMap::new(alloc),
            counts: [0; MAX_SWITCHES as usize],
            slots: Vec::new(alloc),
        }
    }

    /// What is at the port, where its slot names it.
    fn at_slot(&self, stop: Stop) -> Option<End>
        ensures { IfSome result (λ end. lookup (stop_eq stop) self.now ≡ Some end) }
    {
        let place = *self.slots.get(slot_of(stop))?;
        let (port, end) = self.ends.as_slice().get_index(place as usize)?;
        if *port == stop { Some(*end) } else { None }
    }

    /// What is at the port. The cost is that of one look-up by number, or of one in a hash table where its slot doesn't
    /// name it.
    pub fn end(&self, stop: Stop) -> End
        ensures { result ≡ unwrap_or (lookup (stop_eq stop) self.now) at.Nothing }
    {
        if let Some(end) = self.at_slot(stop) {
            return end;
        }
        match self.ends.get(&stop) {
            Some(end) => *end,
            None => End::Nothing,
        }
    }

    /// Whether the port is used.
    pub fn contains(&self, stop: Stop) -> bool
        ensures { result ≡ list_any (stop_eq stop) (map (λ p. p.0) self.now) }
    {
        self.ends.contains_key(&stop)
    }

    /// How many ports of the switch are used. The cost is that of one look-up by number.
    pub fn count_on(&self, switch: SwitchId) -> usize
        ensures value { result ≡ count_by (is_on switch) (map (λ p. p.0) self.now) }
        ensures few { result < 2 ^ 63 }
    {
        match self.counts.get(switch.0 as usize) {
            Some(count) => *count as usize,
            None => 0,
        }
    }

    /// Adds a port that isn't used. Where memory is wanting the ports stay as they were.
    pub fn add(&mut self, stop: Stop, end: End) -> Result<(), AllocError>
        requires free { list_any (stop_eq stop) (map (λ p. p.0) self.old) ≡ false }
        requires within { stop.switch.0 < most_switches }
        requires room { count_by (is_on stop.switch) (map (λ p. p.0) self.old) < 64 }
        ensures ok { OnOk result (self.new ≡ self.old ++ (stop, end) ∷ []) }
        ensures err { OnErr result (self.new ≡ self.old) }
    {
        point_slot(&mut self.slots, stop, self.ends.len())?;
        self.ends.insert(stop, end)?;
        self.counts[stop.switch.0 as usize] += 1;
        Ok(())
    }

    /// Adds two ports that aren't used. Where memory is wanting the ports stay as they were.
    pub fn add_both(&mut self, a: Stop, at_a: End, b: Stop, at_b: End) -> Result<(), AllocError>
        requires a_free { list_any (stop_eq a) (map (λ p. p.0) self.old) ≡ false }
        requires b_free { list_any (stop_eq b) (map (λ p. p.0) self.old ++ a ∷ []) ≡ false }
        requires within { (a.switch.0 < most_switches) × (b.switch.0 < most_switches) }
        requires a_room { count_by (is_on a.switch) (map (λ p. p.0) self.old) < 64 }
        requires b_room { count_by (is_on b.switch) (map (λ p. p.0) self.old ++ a ∷ []) < 64 }
        ensures ok { OnOk result (self.new ≡ (self.old ++ (a, at_a) ∷ []) ++ (b, at_b) ∷ []) }
        ensures err { OnErr result (self.new ≡ self.old) }
    {
        let place = self.ends.len();
        point_slot(&mut self.slots, a, place)?;
        point_slot(&mut self.slots, b, place + 1)?;
        // With room for both, neither is added without the other.
        self.ends.reserve(2)?;
        self.ends.insert(a, at_a)?;
        self.ends.insert(b, at_b)?;
        self.counts[a.switch.0 as usize] += 1;
        self.counts[b.switch.0 as usize] += 1;
        Ok(())
    }
}
