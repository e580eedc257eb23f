//! A network while its rounds run: which events may happen, and what each does.
ghost use Rattle.std.specs.Prelude.{◌≡◌, ◌≢◌, ℕ, zero, suc, ◌<◌, ◌≤◌, ◌^◌, ◌++◌, ◌∷◌, [], length, Some, slice_get, IfOk, OnErr, OnOk, Err, IsTrue, ◌↔◌, true, false, vec_len};
ghost use Rattle.std.specs.List.{AllByRecursion};
ghost use Rattle.topology.specs.Networks.{IsEntry, switch_count};
ghost use Rattle.flow_rules.specs.Tables.{rules_of_all, rules_at};
ghost use Rattle.path_walk.specs.Paths.{outcome_in};
ghost use Rattle.update_model.specs.Changes.{Applies, round_after};
ghost use Rattle.update_model.specs.States.{first_state, with_packet, hopped_packet, settled_count, IsUnderWay, IsHopping, IsEnabled, MayStart, MayChange, MaySettle};
ghost use Rattle.update_model.specs.Worlds.{IsPending, running_round, world_after, StartsFrom, AppliesAt};

use crate::pending::Pending;
use crate::traffic::Traffic;
use crate::{Change, Event, Packet, Phase, Rounds, applies, change_tables};
use flow_rules::{Config, Table};
use net_base::{Memory, Place, SwitchId};
use path_walk::following::outcome;
use path_walk::{Ended, Outcome};
use std::alloc::Global;
use std::marker::Model;
use topology::Net;

/// A network while its rounds run.
#[derive(Drop)]
pub struct World<'a> {
    net: &'a Net,
    rounds: &'a Rounds,
    tables: Config,
    phase: Phase,
    pending: Pending,
    traffic: Traffic,
}

impl<'a> Model for World<'a> {
    ghost use Rattle.std.specs.Prelude.{◌≡◌};
    ghost use Rattle.flow_rules.specs.Tables.{rules_of_all};
    ghost use Rattle.update_model.specs.States.{settled_count};
    ghost use Rattle.update_model.specs.Worlds.{WorldState, IsWorld};

    ghost Value = { WorldState };

    ghost view = { λ w. record {
      net = w.net.now;
      rounds = w.rounds.now;
      state = record { phase = w.phase; tables = rules_of_all w.tables; pending = w.pending; packets = w.traffic.packets };
    } };

    ghost invariant = { λ w. IsWorld (record {
      net = w.net.now;
      rounds = w.rounds.now;
      state = record { phase = w.phase; tables = rules_of_all w.tables; pending = w.pending; packets = w.traffic.packets };
    }) × (settled_count w.phase ≡ w.traffic.settled) };
}

/// Why an event was refused.
#[derive(Clone, Copy, PartialEq, Eq)]
pub enum StepFault {
    /// The event can't happen now.
    NotEnabled,
    /// Memory ran out.
    Memory,
}

impl From<Memory> for StepFault {
    ghost use Rattle.update_model.specs.declared.world.StepFault.{StepFault};

    ghost from_gives = { λ _ fault. fault ≡ StepFault.Memory };

    fn from(_: Memory) -> StepFault {
        StepFault::Memory
    }
}

/// Whether a round is running.
fn is_running(phase: Phase) -> bool
    ensures { IsTrue result ↔ ((k : ℕ) × (phase ≡ Phase.Running k)) }
{
    matches!(phase, Phase::Running(_))
}

/// The changes of the running round; none where no round is running.
fn round_of(phase: Phase, rounds: &Rounds) -> &[Change]
    ensures { result.now ≡ running_round phase rounds.now }
{
    match phase {
        Phase::Running(k) if k > 0 && k as usize <= rounds.count() => rounds.round(k as usize - 1),
        _ => &[],
    }
}

/// Whether the next round may start.
fn can_start(phase: Phase, rounds: &Rounds, traffic: &Traffic) -> bool
    requires { settled_count phase ≡ traffic.now.settled }
    ensures { IsTrue result ↔ StartsFrom phase rounds.now traffic.now.packets }
{
    match phase {
        Phase::Settled(k) => (k as usize) < rounds.count() && traffic.has_none_older(),
        Phase::Running(_) => false,
    }
}

/// Whether there is change i and it applies.
fn can_apply(tables: &Config, round: &[Change], i: usize) -> bool
    ensures { IsTrue result ↔ AppliesAt (rules_of_all tables.now) round.now i }
{
    match round.get(i) {
        Some(change) => applies(tables, change),
        None => false,
    }
}

/// Whether a packet to an address may enter at a place.
fn can_enter(net: &Net, place: Place, _dst: u32) -> bool
    ensures { IsTrue result ↔ IsEntry net.now place × (_dst < 2 ^ 32) }
{
    net.is_entry(place)
}

/// The outcome of a place in the tables of all switches.
fn outcome_among(net: &Net, tables: &Config, at: Place, dst: u32) -> Outcome
    ensures { result ≡ outcome_in net.now (rules_of_all tables.now) at dst }
{
    if (at.switch.0 as usize) < tables.count() {
        outcome(net, tables.table(at.switch), at, dst)
    } else {
        Outcome::Discard
    }
}

impl<'a> World<'a> {
    /// A network before the first round, with a copy of the old tables and no packets.
    pub fn begin(
        alloc: Global,
        net: &'a Net,
        old: &Config,
        rounds: &'a Rounds,
    ) -> Result<World<'a>, Memory>
        requires tables { length old.now ≡ switch_count net.now }
        requires few { length rounds.now < 2 ^ 32 }
        ensures { IfOk result (λ w. w ≡ record
            { net = net.now; rounds = rounds.now; state = first_state (rules_of_all old.now) }) }
    {
        let tables = old.copy()?;
        Ok(World {
            net,
            rounds,
            tables,
            phase: Phase::Settled(0),
            pending: Pending::none(alloc),
            traffic: Traffic::none(alloc),
        })
    }

    /// The phase.
    pub fn phase(&self) -> Phase
        ensures { result ≡ self.now.state.phase }
    {
        self.phase
    }

    /// The packets, in the order of entry.
    pub fn packets(&self) -> &[Packet]
        ensures { result.now ≡ self.now.state.packets }
    {
        self.traffic.packets()
    }

    /// The network.
    pub fn net(&self) -> &'a Net
        ensures { result.now ≡ self.now.net }
    {
        self.net
    }

    /// The rounds with which the world was begun.
    pub fn rounds(&self) -> &'a Rounds
        ensures { result.now ≡ self.now.rounds }
    {
        self.rounds
    }

    /// The table of a switch.
    pub fn table(&self, switch: SwitchId) -> &Table
        requires { switch.0 < switch_count self.now.net }
        ensures { result.now.rules ≡ rules_at self.now.state.tables switch }
    {
        self.tables.table(switch)
    }

    /// For each change of the running round, or of the last one, whether it is pending.
    pub fn flags(&self) -> &[bool]
        ensures { result.now ≡ self.now.state.pending }
    {
        self.pending.flags()
    }

    /// Whether change i of the running round is pending; false where no round is running, or where it has no change i.
    pub fn pending(&self, i: usize) -> bool
        ensures { IsTrue result ↔ IsPending self.now.state i }
    {
        is_running(self.phase) && self.pending.has(i)
    }

    /// Whether an event may happen.
    pub fn enabled(&self, event: &Event) -> bool
        ensures { IsTrue result ↔ IsEnabled self.now.net self.now.rounds self.now.state event.now }
    {
        match event {
            Event::Start => can_start(self.phase, self.rounds, &self.traffic),
            Event::Settle => is_running(self.phase) && self.pending.is_over(),
            Event::Change(i) => {
                self.pending.has(*i)
                    && can_apply(&self.tables, round_of(self.phase, self.rounds), *i)
            }
            Event::Enter(place, dst) => can_enter(self.net, *place, *dst),
            Event::Hop(i) => self.traffic.can_hop(*i),
            Event::Lose(i) => self.traffic.can_hop(*i),
        }
    }

    /// The next round starts.
    fn start(&mut self) -> Result<(), Memory>
        requires { IsEnabled self.old.net self.old.rounds self.old.state Event.Start }
        ensures ok { IfOk result (λ _. self.new ≡ world_after self.old Event.Start) }
        ensures err { OnErr result (self.new ≡ self.old) }
    {
        match self.phase {
            Phase::Settled(k) => {
                self.pending.begin(self.rounds.round(k as usize).len())?;
                self.phase = Phase::Running(k + 1);
                Ok(())
            }
            Phase::Running(_) => unreachable!(),
        }
    }

    /// The running round is settled.
    fn settle(&mut self)
        requires { IsEnabled self.old.net self.old.rounds self.old.state Event.Settle }
        ensures { self.new ≡ world_after self.old Event.Settle }
    {
        if let Phase::Running(k) = self.phase {
            self.traffic.settle();
            self.phase = Phase::Settled(k);
        }
    }

    /// Change i of the running round is made.
    fn change(&mut self, i: usize) -> Result<(), Memory>
        requires { IsEnabled self.old.net self.old.rounds self.old.state (Event.Change i) }
        ensures ok { IfOk result (λ _. self.new ≡ world_after self.old (Event.Change i)) }
        ensures err { OnErr result (self.new ≡ self.old) }
    {
        let round = round_of(self.phase, self.rounds);
        change_tables(&mut self.tables, &round[i])?;
        self.pending.make(i);
        Ok(())
    }

    /// A packet enters.
    fn enter(&mut self, place: Place, dst: u32) -> Result<(), Memory>
        ensures ok { IfOk result (λ _. self.new ≡ world_after self.old (Event.Enter place dst)) }
        ensures err { OnErr result (self.new ≡ self.old) }
    {
        self.traffic.enter(place, dst)
    }

    /// Packet i goes on by its outcome.
    fn hop(&mut self, i: usize) -> Result<(), Memory>
        requires { IsEnabled self.old.net self.old.rounds self.old.state (Event.Hop i) }
        ensures ok { IfOk result (λ _. self.new ≡ world_after self.old (Event.Hop i)) }
        ensures err { OnErr result (self.new ≡ self.old) }
    {
        let packet = &self.traffic.packets()[i];
        let found = outcome_among(self.net, &self.tables, packet.at, packet.dst);
        self.traffic.hop(i, found)
    }

    /// Packet i is lost.
    fn lose(&mut self, i: usize)
        requires { IsEnabled self.old.net self.old.rounds self.old.state (Event.Lose i) }
        ensures { self.new ≡ world_after self.old (Event.Lose i) }
    {
        self.traffic.end(i, Ended::Lost);
    }

    /// An event that may happen.
    fn happen(&mut self, event: Event) -> Result<(), Memory>
        requires { IsEnabled self.old.net self.old.rounds self.old.state event }
        ensures ok { IfOk result (λ _. self.new ≡ world_after self.old event) }
        ensures err { OnErr result (self.new ≡ self.old) }
    {
        match event {
            Event::Start => self.start(),
            Event::Settle => {
                self.settle();
                Ok(())
            }
            Event::Change(i) => self.change(i),
            Event::Enter(place, dst) => self.enter(place, dst),
            Event::Hop(i) => self.hop(i),
            Event::Lose(i) => {
                self.lose(i);
                Ok(())
            }
        }
    }

    /// An event happens, if it may. After a refusal the world is as before.
    ///
    /// A hop costs one lookup in the table where the packet is, a change a look-up of its key in the table of its switch,
    /// and a start a flag for each change of its round. Packets under way and pending changes are counted, not looked for.
    pub fn step(&mut self, event: Event) -> Result<(), StepFault>
        ensures ok { IfOk result (λ _. self.new ≡ world_after self.old event) }
        ensures err { OnErr result (self.new ≡ self.old) }
        ensures enabled { IfOk result (λ _. IsEnabled self.old.net self.old.rounds self.old.state
            event) }
        ensures not_enabled { result ≡ Err StepFault.NotEnabled
            ↔ ¬ IsEnabled self.old.net self.old.rounds self.old.state event }
    {
        if !self.enabled(&event) {
            return Err(StepFault::NotEnabled);
        }
        self.happen(event)?;
        Ok(())
    }
}
