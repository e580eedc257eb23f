//! Changes of flow tables in rounds, and the events and packets of a run of them.
#![tactic(auto)]

ghost use Rattle.std.specs.Prelude.{◌≡◌, ◌≢◌, ℕ, zero, suc, ◌<◌, ◌≤◌, ◌^◌, ◌++◌, ◌∷◌, [], length, map, replicate, not, true, false, Some, slice_get, slice_set, slice_index_or, IfOk, OnErr, OnOk, IsErr, Err, vec_len, IsTrue, ◌↔◌};
ghost use Rattle.std.specs.List.{AllByRecursion, list_any};
ghost use Rattle.net_base.specs.Places.{stop_of};
ghost use Rattle.topology.specs.Networks.{IsEntry, switch_count};
ghost use Rattle.flow_rules.specs.Tables.{rules_at, rules_of_all};
ghost use Rattle.path_walk.specs.Paths.{ended_by, outcome_in};
ghost use Rattle.update_model.specs.Changes.{with_change, rule_of, Applies, AppliesTo, switch_of, rules_after_change, spare_after_change, tables_after_change, round_after};
ghost use Rattle.update_model.specs.Mixtures.{is_insert, is_delete, is_replace};
ghost use Rattle.update_model.specs.States.{with_packet, hopped_packet, entered_packet, settled_count, first_state, IsUnderWay, IsHopping, IsEnabled, MayStart, MayChange, MaySettle};

pub mod laws;
mod pending;
mod traffic;
mod world;

use flow_rules::{Config, Rule, Table};
use net_base::{ListOf, Memory, Place, Stop, SwitchId};
use path_walk::{Ended, Outcome};
use std::alloc::Global;
use std::marker::Model;
pub use world::{StepFault, World};

/// One rule change at one switch: what a flow-mod does that adds an entry, or that deletes or modifies strictly
/// (OpenFlow 1.0.0, section 4.6).
#[derive(Clone, Copy, PartialEq, Eq)]
pub enum Change {
    /// Adds a rule, whose key is absent before.
    Insert(SwitchId, Rule),
    /// Takes out a rule, which is present with the same action before.
    Delete(SwitchId, Rule),
    /// Gives the rule's action to the entry with its key, which is present before.
    Replace(SwitchId, Rule),
}

/// The rounds of an update, in order. Each is a list of changes, which may be made in any order, and may be empty.
#[derive(Drop)]
pub struct Rounds {
    list: Vec<Vec<Change>>,
}

impl Model for Rounds {
    ghost use Rattle.std.specs.Prelude.{List, map};
    ghost use Rattle.update_model.specs.declared.Change.{Change};

    ghost Value = { List (List Change) };

    ghost view = { λ r. map (λ round. round.items) r.list.items };
}

/// An atomic step of a network while an update runs.
#[derive(Clone, Copy, PartialEq, Eq)]
pub enum Event {
    /// The controller begins to send the next round.
    Start,
    /// The last barrier reply of the running round has come.
    Settle,
    /// The change of this number in the running round, from 0, is carried out at its switch.
    Change(usize),
    /// A packet to the address enters at the place.
    Enter(Place, u32),
    /// The packet of this number, from 0 in the order of entry, is looked up in the table where it is, and moves.
    Hop(usize),
    /// The packet of this number is lost on a link or in a queue.
    Lose(usize),
}

/// How far an update is: so many rounds are settled, or the round of this number, from 1, is running.
#[derive(Clone, Copy, PartialEq, Eq)]
pub enum Phase {
    Settled(u32),
    Running(u32),
}

/// The stops of a packet, in the order of visit. The first is that of its entry.
#[derive(Drop)]
pub struct Visits {
    list: Vec<Stop>,
}

impl Model for Visits {
    ghost use Rattle.std.specs.Prelude.{List};
    ghost use Rattle.net_base.specs.declared.ids.Stop.{Stop};

    ghost Value = { List Stop };

    ghost view = { λ v. v.list.items };
}

/// A packet, on its way or ended: where it entered and to which address, where it is, how many rounds were settled at its
/// entry, the stops that it visited, and its end.
#[derive(Drop)]
pub struct Packet {
    pub entry: Place,
    pub dst: u32,
    pub at: Place,
    pub born: u32,
    pub visits: Visits,
    pub ended: Ended,
}

/// Ends packet i.
fn end_packet(packets: &mut Vec<Packet>, i: usize, ended: Ended)
    requires { i < vec_len packets.old }
    ensures { packets.new.items ≡ with_packet (λ p. record p { ended = ended }) i
        packets.old.items }
{
    packets[i].ended = ended;
}

impl Visits {
    /// The stops, in the order of visit.
    pub fn stops(&self) -> &[Stop]
        ensures { result.now ≡ self.now }
    {
        &self.list
    }

    /// One more stop.
    fn add(&mut self, stop: Stop) -> Result<(), Memory>
        ensures ok { IfOk result (λ _. self.new ≡ self.old ++ stop ∷ []) }
        ensures err { OnErr result (self.new ≡ self.old) }
    {
        self.list.push(stop)?;
        Ok(())
    }
}

/// Packet i goes on to the next place.
fn move_packet(packets: &mut Vec<Packet>, i: usize, next: Place) -> Result<(), Memory>
    requires { i < vec_len packets.old }
    ensures ok { IfOk result (λ _. packets.new.items
        ≡ with_packet (λ p. hopped_packet p (Outcome.Go next)) i packets.old.items) }
    ensures err { OnErr result (packets.new.items ≡ packets.old.items) }
{
    let packet = &mut packets[i];
    packet.visits.add(Stop {
        switch: next.switch,
        port: next.port,
    })?;
    packet.at = next;
    Ok(())
}

/// A packet that enters at a place when so many rounds are settled.
fn enter_packet(alloc: Global, place: Place, dst: u32, born: u32) -> Result<Packet, Memory>
    ensures { IfOk result (λ p. p ≡ entered_packet place dst born) }
{
    let mut visits = Visits {
        list: Vec::new(alloc),
    };
    visits.add(Stop {
        switch: place.switch,
        port: place.port,
    })?;
    Ok(Packet {
        entry: place,
        dst,
        at: place,
        born,
        visits,
        ended: Ended::UnderWay,
    })
}

/// One more packet.
fn add_packet(packets: &mut Vec<Packet>, packet: Packet) -> Result<(), Memory>
    ensures ok { IfOk result (λ _. packets.new.items ≡ packets.old.items ++ packet ∷ []) }
    ensures err { OnErr result (packets.new.items ≡ packets.old.items) }
{
    packets.push(packet)?;
    Ok(())
}

/// Whether a packet has no end yet.
fn is_under_way(packet: &Packet) -> bool
    ensures { IsTrue result ↔ IsUnderWay packet.now }
{
    matches!(packet.ended, Ended::UnderWay)
}

/// The events of a run.
pub type Events = ListOf<Event>;

impl Rounds {
    /// No rounds.
    pub fn make(alloc: Global) -> Result<Rounds, Memory>
        ensures { IfOk result (λ r. r ≡ []) }
    {
        Ok(Rounds {
            list: Vec::new(alloc),
        })
    }

    /// One more round, without changes. After a refusal the rounds are as before.
    pub fn add_round(&mut self) -> Result<(), Memory>
        ensures ok { IfOk result (λ _. self.new ≡ self.old ++ [] ∷ []) }
        ensures err { OnErr result (self.new ≡ self.old) }
    {
        let round = Vec::new(*self.list.allocator());
        self.list.push(round)?;
        Ok(())
    }

    /// One more change of the last round. After a refusal the rounds are as before.
    pub fn add_change(&mut self, change: Change) -> Result<(), Memory>
        requires { 1 ≤ length self.old }
        ensures ok { IfOk result (λ _. self.new ≡ with_change change self.old) }
        ensures err { OnErr result (self.new ≡ self.old) }
    {
        let last = self.list.len() - 1;
        self.list[last].push(change)?;
        Ok(())
    }

    /// One more round, with these changes. After a refusal the rounds are as before.
    pub fn push_round(&mut self, round: Vec<Change>) -> Result<(), Memory>
        ensures ok { IfOk result (λ _. self.new ≡ self.old ++ round.items ∷ []) }
        ensures err { OnErr result (self.new ≡ self.old) }
    {
        self.list.push(round)?;
        Ok(())
    }

    /// How many rounds there are.
    pub fn count(&self) -> usize
        ensures { result ≡ length self.now }
    {
        self.list.len()
    }

    /// The changes of round k, from 0.
    pub fn round(&self, k: usize) -> &[Change]
        requires { k < length self.now }
        ensures { result.now ≡ round_after k self.now }
    {
        &self.list[k]
    }
}

impl Change {
    /// The switch that the change names.
    pub fn switch(&self) -> SwitchId
        ensures { result ≡ switch_of self.now }
    {
        match self {
            Change::Insert(switch, _) => *switch,
            Change::Delete(switch, _) => *switch,
            Change::Replace(switch, _) => *switch,
        }
    }

    /// The rule that the change inserts, deletes, or puts in the place of the one with its key.
    pub fn rule(&self) -> Rule
        ensures { result ≡ rule_of self.now }
    {
        match self {
            Change::Insert(_, rule) => *rule,
            Change::Delete(_, rule) => *rule,
            Change::Replace(_, rule) => *rule,
        }
    }

    /// Whether it inserts a rule.
    pub fn is_insert(&self) -> bool
        ensures { result ≡ is_insert self.now }
    {
        matches!(self, Change::Insert(_, _))
    }

    /// Whether it deletes a rule.
    pub fn is_delete(&self) -> bool
        ensures { result ≡ is_delete self.now }
    {
        matches!(self, Change::Delete(_, _))
    }

    /// Whether it replaces a rule.
    pub fn is_replace(&self) -> bool
        ensures { result ≡ is_replace self.now }
    {
        matches!(self, Change::Replace(_, _))
    }

    /// Whether the change applies to the table of its switch: an insert where its key is absent, a delete where its rule
    /// is present with the same action, a replace where its key is present.
    pub fn applies_to(&self, table: &Table) -> bool
        ensures { IsTrue result ↔ AppliesTo table.now.rules self.now }
    {
        match self {
            Change::Insert(_, rule) => !table.has_key(&rule.key),
            Change::Delete(_, rule) => table.has_rule(rule),
            Change::Replace(_, rule) => table.has_key(&rule.key),
        }
    }

    /// Makes the change in the table of its switch. An insert is appended, and needs room for one rule; a delete and a
    /// replace keep the order of the other rules. It takes no memory, and costs one look-up of the key.
    pub fn apply_to(&self, table: &mut Table)
        requires applies { AppliesTo table.old.rules self.now }
        requires room { is_insert self.now ≡ true → 1 ≤ table.old.spare }
        ensures rules { table.new.rules ≡ rules_after_change self.now table.old.rules }
        ensures spare { table.new.spare ≡ spare_after_change self.now table.old.spare }
    {
        match self {
            Change::Insert(_, rule) => table.insert(*rule),
            Change::Delete(_, rule) => table.delete(&rule.key),
            Change::Replace(_, rule) => table.set_action(&rule.key, rule.action),
        }
    }
}

/// Whether a change applies to the tables.
pub fn applies(config: &Config, change: &Change) -> bool
    ensures { IsTrue result ↔ Applies (rules_of_all config.now) change.now }
{
    let switch = change.switch();
    (switch.0 as usize) < config.count() && change.applies_to(config.table(switch))
}

/// Makes a change in the table of its switch, with room for what it inserts.
fn change_table(table: &mut Table, change: &Change) -> Result<(), Memory>
    requires { AppliesTo table.old.rules change.now }
    ensures ok { IfOk result (λ _. table.new.rules
        ≡ rules_after_change change.now table.old.rules) }
    ensures err { OnErr result (table.new.rules ≡ table.old.rules) }
{
    if let Change::Insert(_, _) = change {
        table.reserve(1)?;
    }
    change.apply_to(table);
    Ok(())
}

/// Makes a change in the tables, with room for what it inserts. After a refusal the rules are as before.
pub fn change_tables(config: &mut Config, change: &Change) -> Result<(), Memory>
    requires { Applies (rules_of_all config.old) change.now }
    ensures ok { IfOk result (λ _. rules_of_all config.new
        ≡ tables_after_change change.now (rules_of_all config.old)) }
    ensures err { OnErr result (rules_of_all config.new ≡ rules_of_all config.old) }
{
    change_table(config.table_mut(change.switch()), change)
}
