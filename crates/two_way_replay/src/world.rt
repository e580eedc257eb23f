//! A network while its rounds are carried out and turned back: which steps may happen, and what each does.
ghost use Rattle.std.specs.Prelude.{◌≡◌, ◌⊎◌, ℕ, suc, ◌<◌, ◌^◌, List, length, Some, slice_get, IfOk, OnErr, OnOk, IsTrue, ◌↔◌, true, unwrap_or};
ghost use Rattle.std.specs.List.{AllByRecursion};
ghost use Rattle.topology.specs.Networks.{IsEntry, switch_count};
ghost use Rattle.flow_rules.specs.Tables.{action_of, rules_of_all, rules_at};
ghost use Rattle.path_walk.specs.Paths.{outcome_in};
ghost use Rattle.update_model.specs.Changes.{rule_of, switch_of};
ghost use Rattle.update_model.specs.Mixtures.{tables_before};
ghost use Rattle.update_model.specs.States.{settled_count, IsHopping};
ghost use Rattle.update_model.specs.Worlds.{running_round, AppliesAt};
ghost use Rattle.law_two_way_runs.specs.Inverse.{inverse_of};
ghost use Rattle.law_two_way_runs.specs.States.{MayStart, MayChange, MayUndo, MayTurnBack};
ghost use Rattle.two_way_replay.specs.Courses.{first_course, GoesForward, IsStepEnabled, MaySettleEither};
ghost use Rattle.two_way_replay.specs.CourseWorlds.{world_after_step};
ghost use Rattle.two_way_replay.specs.Entries.{action_named};
ghost use Rattle.two_way_replay.specs.declared.schedule.TwoWayStep.TheVariants as step;

use crate::earlier::{EarlierActions, give_entry_at};
use crate::schedule::TwoWayStep;
use crate::travellers::Travellers;
use flow_rules::{Action, Config, Rule, Table};
use net_base::{Memory, Place, SwitchId};
use path_walk::following::outcome;
use path_walk::{Ended, Outcome};
use std::alloc::Global;
use std::marker::Model;
use topology::Net;
use update_model::{Change, Event, Phase, Rounds, applies, change_tables};

/// A network while its rounds are carried out and turned back.
#[derive(Drop)]
pub struct TwoWayWorld<'a> {
    net: &'a Net,
    before: &'a Config,
    rounds: &'a Rounds,
    tables: Config,
    phase: Phase,
    is_undone: bool,
    in_force: Vec<bool>,
    taken_back: Vec<bool>,
    travellers: Travellers,
    earlier: Option<EarlierActions>,
}

impl<'a> Model for TwoWayWorld<'a> {
    ghost use Rattle.flow_rules.specs.Tables.{rules_of_all};
    ghost use Rattle.two_way_replay.specs.CourseWorlds.{CourseWorld, IsCourseWorld, AreKnown};

    ghost Value = { CourseWorld };

    ghost view = { λ w. record {
      update = record { net = w.net.now; old = rules_of_all w.before.now; rounds = w.rounds.now };
      course = record {
        state = record {
          phase = w.phase;
          tables = rules_of_all w.tables;
          in_force = w.in_force.items;
          settles = w.travellers.settled;
          packets = w.travellers.packets;
        };
        is_undone = w.is_undone;
        taken_back = w.taken_back.items;
      };
    } };

    ghost invariant = { λ w. IsCourseWorld (record {
      update = record { net = w.net.now; old = rules_of_all w.before.now; rounds = w.rounds.now };
      course = record {
        state = record {
          phase = w.phase;
          tables = rules_of_all w.tables;
          in_force = w.in_force.items;
          settles = w.travellers.settled;
          packets = w.travellers.packets;
        };
        is_undone = w.is_undone;
        taken_back = w.taken_back.items;
      };
    }) × AreKnown (rules_of_all w.before.now) w.rounds.now w.is_undone w.earlier };
}

/// Whether a round is running.
fn is_running(phase: Phase) -> bool
    ensures { IsTrue result ↔ ((k : ℕ) × (phase ≡ Phase.Running k)) }
{
    matches!(phase, Phase::Running(_))
}

/// The changes of the running round; none where no round is running.
fn round_of(phase: Phase, rounds: &Rounds) -> &[Change]
    ensures { result.now ≡ running_round phase rounds.now }
{
    match phase {
        Phase::Running(k) if k > 0 && k as usize <= rounds.count() => rounds.round(k as usize - 1),
        _ => &[],
    }
}

/// Whether flag i is there, and is like this.
fn has_flag(flags: &[bool], i: usize, on: bool) -> bool
    ensures { IsTrue result ↔ (slice_get flags.now i ≡ Some on) }
{
    match flags.get(i) {
        Some(flag) => *flag == on,
        None => false,
    }
}

/// Whether all flags are like this. It looks at each.
fn are_all(flags: &[bool], on: bool) -> bool
    ensures { IsTrue result ↔ AllByRecursion (λ b. b ≡ on) flags.now }
{
    for flag in flags {
        if *flag != on {
            return false;
        }
    }
    true
}

/// Whether there is change i and it applies.
fn can_apply(tables: &Config, round: &[Change], i: usize) -> bool
    ensures { IsTrue result ↔ AppliesAt (rules_of_all tables.now) round.now i }
{
    match round.get(i) {
        Some(change) => applies(tables, change),
        None => false,
    }
}

/// Whether a packet to an address may enter at a place.
fn can_enter(net: &Net, place: Place, _dst: u32) -> bool
    ensures { IsTrue result ↔ IsEntry net.now place × (_dst < 2 ^ 32) }
{
    net.is_entry(place)
}

/// The outcome of a place in the tables of all switches.
fn outcome_among(net: &Net, tables: &Config, at: Place, dst: u32) -> Outcome
    ensures { result ≡ outcome_in net.now (rules_of_all tables.now) at dst }
{
    if (at.switch.0 as usize) < tables.count() {
        outcome(net, tables.table(at.switch), at, dst)
    } else {
        Outcome::Discard
    }
}

/// A rule of the same key with an action, or the rule itself.
fn with_action(rule: &Rule, action: Option<Action>) -> Rule
    ensures { result ≡ record { key = rule.now.key; action = unwrap_or action rule.now.action } }
{
    Rule {
        key: rule.key,
        action: action.unwrap_or(rule.action),
    }
}

/// The change that takes a change back, where the entry that it names had this action before.
fn inverse_by(change: &Change, action: Option<Action>) -> Change
    ensures { (before : List Rule) → action ≡ action_of (rule_of change.now).key before
        → result ≡ inverse_of before change.now }
{
    match change {
        Change::Insert(switch, rule) => Change::Delete(*switch, *rule),
        Change::Delete(switch, rule) => Change::Insert(*switch, *rule),
        Change::Replace(switch, rule) => Change::Replace(*switch, with_action(rule, action)),
    }
}

impl<'a> TwoWayWorld<'a> {
    /// A network before the first round, with a copy of the old tables and no packets.
    pub fn begin(
        alloc: Global,
        net: &'a Net,
        old: &'a Config,
        rounds: &'a Rounds,
    ) -> Result<TwoWayWorld<'a>, Memory>
        requires tables { length old.now ≡ switch_count net.now }
        requires few { length rounds.now < 2 ^ 32 }
        ensures { IfOk result (λ w. w ≡ record {
          update = record { net = net.now; old = rules_of_all old.now; rounds = rounds.now };
          course = first_course (rules_of_all old.now);
        }) }
    {
        let tables = old.copy()?;
        Ok(TwoWayWorld {
            net,
            before: old,
            rounds,
            tables,
            phase: Phase::Settled(0),
            is_undone: false,
            in_force: Vec::new(alloc),
            taken_back: Vec::new(alloc),
            travellers: Travellers::none(alloc),
            earlier: None,
        })
    }

    /// The network.
    pub fn net(&self) -> &'a Net
        ensures { result.now ≡ self.now.update.net }
    {
        self.net
    }

    /// The table of a switch.
    pub fn table(&self, switch: SwitchId) -> &Table
        requires { switch.0 < switch_count self.now.update.net }
        ensures { result.now.rules ≡ rules_at self.now.course.state.tables switch }
    {
        self.tables.table(switch)
    }

    /// The changes of the running round; none where no round is running.
    pub fn running_round(&self) -> &'a [Change]
        ensures { result.now
            ≡ running_round self.now.course.state.phase self.now.update.rounds }
    {
        round_of(self.phase, self.rounds)
    }

    /// Whether the running round is being undone.
    pub fn is_undone(&self) -> bool
        ensures { result ≡ self.now.course.is_undone }
    {
        self.is_undone
    }

    /// For each change of the running round, or of the last one, whether it is in force.
    pub fn in_force(&self) -> &[bool]
        ensures value { result.now ≡ self.now.course.state.in_force }
        ensures count { 0 < length
            (running_round self.now.course.state.phase self.now.update.rounds) → length result.now
            ≡ length (running_round self.now.course.state.phase self.now.update.rounds) }
    {
        &self.in_force
    }

    /// For each change of the running round, or of the last one, whether it was taken back since the round was begun.
    pub fn taken_back(&self) -> &[bool]
        ensures { result.now ≡ self.now.course.taken_back }
    {
        &self.taken_back
    }

    /// The action that the entry that change i of the running round names had before that round.
    fn earlier_action(&self, i: usize) -> Option<Action>
        requires undone { self.now.course.is_undone ≡ true }
        requires change { i < length
            (running_round self.now.course.state.phase self.now.update.rounds) }
        ensures { (c : Change) → slice_get
            (running_round self.now.course.state.phase self.now.update.rounds) i ≡ Some c → result
            ≡ action_named (tables_before self.now.update
            (settled_count self.now.course.state.phase)) c }
    {
        match &self.earlier {
            Some(earlier) => match self.phase {
                Phase::Running(k) => earlier.action(k as usize - 1, i),
                Phase::Settled(_) => unreachable!(),
            },
            None => unreachable!(),
        }
    }

    /// The change that takes change i of the running round, which is being undone, back.
    pub fn inverse(&self, i: usize) -> Change
        requires undone { self.now.course.is_undone ≡ true }
        requires change { i < length
            (running_round self.now.course.state.phase self.now.update.rounds) }
        ensures { (c : Change) → slice_get
            (running_round self.now.course.state.phase self.now.update.rounds) i ≡ Some c → result
            ≡ inverse_of (rules_at (tables_before self.now.update
            (settled_count self.now.course.state.phase)) (switch_of c)) c }
    {
        inverse_by(&self.running_round()[i], self.earlier_action(i))
    }

    /// Whether the next round may start.
    fn can_start(&self) -> bool
        ensures { IsTrue result ↔ MayStart self.now.update self.now.course.state }
    {
        match self.phase {
            Phase::Settled(k) => {
                (k as usize) < self.rounds.count() && self.travellers.has_none_older()
            }
            Phase::Running(_) => false,
        }
    }

    /// Whether the running round may be settled, the way that it goes.
    fn can_settle(&self) -> bool
        ensures { IsTrue result
            ↔ MaySettleEither self.now.course.is_undone self.now.course.state }
    {
        is_running(self.phase) && are_all(&self.in_force, !self.is_undone)
    }

    /// Whether change i of the running round may be made.
    fn can_change(&self, i: usize) -> bool
        ensures { IsTrue result ↔ MayChange self.now.update self.now.course.state i }
    {
        has_flag(&self.in_force, i, false)
            && can_apply(&self.tables, round_of(self.phase, self.rounds), i)
    }

    /// Whether change i of the running round may be taken back.
    fn can_undo(&self, i: usize) -> bool
        ensures { IsTrue result ↔ (self.now.course.is_undone ≡ true)
            × MayUndo self.now.update self.now.course.state i }
    {
        self.is_undone && is_running(self.phase) && has_flag(&self.in_force, i, true)
    }

    /// Whether the running round may be turned, or the last one may begin to be taken back.
    fn can_turn(&self) -> bool
        ensures { IsTrue result
            ↔ (GoesForward self.now.course ⊎ MayTurnBack self.now.course.state) }
    {
        match self.phase {
            Phase::Running(_) => !self.is_undone,
            Phase::Settled(k) => k > 0 && self.travellers.has_none_older(),
        }
    }

    /// Whether an event may happen.
    fn has_enabled(&self, event: &Event) -> bool
        ensures { IsTrue result ↔ IsStepEnabled self.now.update self.now.course
            (step.Event event.now) }
    {
        match event {
            Event::Start => self.can_start(),
            Event::Settle => self.can_settle(),
            Event::Change(i) => self.can_change(*i),
            Event::Enter(place, dst) => can_enter(self.net, *place, *dst),
            Event::Hop(i) => self.travellers.can_hop(*i),
            Event::Lose(i) => self.travellers.can_hop(*i),
        }
    }

    /// Whether a step may happen.
    pub fn enabled(&self, step: &TwoWayStep) -> bool
        ensures { IsTrue result ↔ IsStepEnabled self.now.update self.now.course step.now }
    {
        match step {
            TwoWayStep::Event(event) => self.has_enabled(event),
            TwoWayStep::Undo(i) => self.can_undo(*i),
            TwoWayStep::Back => self.can_turn(),
        }
    }

    /// The next round starts.
    fn start(&mut self) -> Result<(), Memory>
        requires { MayStart self.old.update self.old.course.state }
        ensures ok { IfOk result
            (λ _. self.new ≡ world_after_step self.old (step.Event Event.Start)) }
        ensures err { OnErr result (self.new ≡ self.old) }
    {
        let alloc = *self.in_force.allocator();
        match self.phase {
            Phase::Settled(k) => {
                let count = self.rounds.round(k as usize).len();
                let in_force = vec![in alloc; false; count]?;
                let taken_back = vec![in alloc; false; count]?;
                self.in_force = in_force;
                self.taken_back = taken_back;
                self.is_undone = false;
                self.phase = Phase::Running(k + 1);
                Ok(())
            }
            Phase::Running(_) => unreachable!(),
        }
    }

    /// The running round is settled, the way that it goes.
    fn settle(&mut self)
        requires may { MaySettleEither self.old.course.is_undone self.old.course.state }
        requires few { suc self.old.course.state.settles < 2 ^ 64 }
        ensures { self.new ≡ world_after_step self.old (step.Event Event.Settle) }
    {
        if let Phase::Running(k) = self.phase {
            self.travellers.settle();
            self.phase = Phase::Settled(if self.is_undone { k - 1 } else { k });
        }
    }

    /// Change i of the running round is made.
    fn change(&mut self, i: usize) -> Result<(), Memory>
        requires { MayChange self.old.update self.old.course.state i }
        ensures ok { IfOk result
            (λ _. self.new ≡ world_after_step self.old (step.Event (Event.Change i))) }
        ensures err { OnErr result (self.new ≡ self.old) }
    {
        let round = round_of(self.phase, self.rounds);
        change_tables(&mut self.tables, &round[i])?;
        self.in_force[i] = true;
        Ok(())
    }

    /// Change i of the running round is taken back.
    fn undo(&mut self, i: usize) -> Result<(), Memory>
        requires undone { self.old.course.is_undone ≡ true }
        requires may { MayUndo self.old.update self.old.course.state i }
        ensures ok { IfOk result (λ _. self.new ≡ world_after_step self.old (step.Undo i)) }
        ensures err { OnErr result (self.new ≡ self.old) }
    {
        let action = self.earlier_action(i);
        let change = &round_of(self.phase, self.rounds)[i];
        let key = change.rule().key;
        give_entry_at(&mut self.tables, change.switch(), &key, action)?;
        self.in_force[i] = false;
        self.taken_back[i] = true;
        Ok(())
    }

    /// The way is that of a round that is being undone.
    fn turn(&mut self) -> Result<(), Memory>
        ensures ok { OnOk result (self.new ≡ record self.old
            { course = record self.old.course { is_undone = true } }) }
        ensures err { OnErr result (self.new ≡ self.old) }
    {
        if self.earlier.is_none() {
            let alloc = *self.in_force.allocator();
            self.earlier = Some(EarlierActions::make(alloc, self.before, self.rounds)?);
        }
        self.is_undone = true;
        Ok(())
    }

    /// The round that was settled last begins to be taken back.
    fn take_back(&mut self, k: u32) -> Result<(), Memory>
        requires settled { self.old.course.state.phase ≡ Phase.Settled k }
        requires some { 0 < k }
        ensures ok { IfOk result (λ _. self.new ≡ world_after_step self.old step.Back) }
        ensures err { OnErr result (self.new ≡ self.old) }
    {
        let alloc = *self.in_force.allocator();
        let count = self.rounds.round(k as usize - 1).len();
        let in_force = vec![in alloc; true; count]?;
        let taken_back = vec![in alloc; false; count]?;
        self.turn()?;
        self.in_force = in_force;
        self.taken_back = taken_back;
        self.phase = Phase::Running(k);
        Ok(())
    }

    /// The running round is turned, or the last one begins to be taken back.
    fn back(&mut self) -> Result<(), Memory>
        requires { GoesForward self.old.course ⊎ MayTurnBack self.old.course.state }
        ensures ok { IfOk result (λ _. self.new ≡ world_after_step self.old step.Back) }
        ensures err { OnErr result (self.new ≡ self.old) }
    {
        match self.phase {
            Phase::Running(_) => self.turn(),
            Phase::Settled(k) => self.take_back(k),
        }
    }

    /// A packet enters.
    fn enter(&mut self, place: Place, dst: u32) -> Result<(), Memory>
        ensures ok { IfOk result (λ _. self.new
            ≡ world_after_step self.old (step.Event (Event.Enter place dst))) }
        ensures err { OnErr result (self.new ≡ self.old) }
    {
        self.travellers.enter(place, dst)
    }

    /// Packet i goes on by its outcome.
    fn hop(&mut self, i: usize) -> Result<(), Memory>
        requires { IsHopping self.old.course.state.packets i }
        ensures ok { IfOk result
            (λ _. self.new ≡ world_after_step self.old (step.Event (Event.Hop i))) }
        ensures err { OnErr result (self.new ≡ self.old) }
    {
        let packet = self.travellers.packet(i);
        let found = outcome_among(self.net, &self.tables, packet.place(), packet.address());
        self.travellers.hop(i, found)
    }

    /// Packet i is lost.
    fn lose(&mut self, i: usize)
        requires { IsHopping self.old.course.state.packets i }
        ensures { self.new ≡ world_after_step self.old (step.Event (Event.Lose i)) }
    {
        self.travellers.end(i, Ended::Lost);
    }

    /// An event that may happen.
    fn happen(&mut self, event: Event) -> Result<(), Memory>
        requires may { IsStepEnabled self.old.update self.old.course (step.Event event) }
        requires few { suc self.old.course.state.settles < 2 ^ 64 }
        ensures ok { IfOk result
            (λ _. self.new ≡ world_after_step self.old (step.Event event)) }
        ensures err { OnErr result (self.new ≡ self.old) }
    {
        match event {
            Event::Start => self.start(),
            Event::Settle => {
                self.settle();
                Ok(())
            }
            Event::Change(i) => self.change(i),
            Event::Enter(place, dst) => self.enter(place, dst),
            Event::Hop(i) => self.hop(i),
            Event::Lose(i) => {
                self.lose(i);
                Ok(())
            }
        }
    }

    /// A step that may happen. After a refusal the world is as before.
    ///
    /// A hop costs one look-up in the table where the packet is, a change and its taking back a look-up of its key in the table
    /// of its switch, and what begins or settles a round a flag for each change of it. The first `back` of all looks at all
    /// changes of the rounds.
    pub fn step(&mut self, step: TwoWayStep) -> Result<(), Memory>
        requires may { IsStepEnabled self.old.update self.old.course step }
        requires few { suc self.old.course.state.settles < 2 ^ 64 }
        ensures ok { IfOk result (λ _. self.new ≡ world_after_step self.old step) }
        ensures err { OnErr result (self.new ≡ self.old) }
    {
        match step {
            TwoWayStep::Event(event) => self.happen(event),
            TwoWayStep::Undo(i) => self.undo(i),
            TwoWayStep::Back => self.back(),
        }
    }
}
