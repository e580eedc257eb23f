//! What a packet may meet at a switch while the changes of a round are made.
#![tactic(auto)]

ghost use Rattle.std.specs.Prelude.{ℕ, ◌≡◌, ◌+◌, ◌^◌, ◌≤◌, ◌<◌, ◌∷◌, [], ◌++◌, List, true, false, Some, None, length, map, drop, vec_len, vec_capacity, IfOk, IfErr, IsTrue, OnOk, OnErr, IfSome, IsSome, IsSomeAnd};
ghost use Rattle.std.specs.Option.{ForSome};
ghost use Rattle.path_walk.specs.Outcomes.{action_outcome, header_at};
ghost use Rattle.flow_rules.specs.Tables.{IsTable};
ghost use Rattle.round_mix.specs.Faults.{AreUnclear, IsAmbiguous, IsFault, IsMixRefusal};
ghost use Rattle.update_model.specs.Changes.{rules_after, rules_after_change};
ghost use Rattle.update_model.specs.Mixtures.{entries_needed, is_insert, is_delete};
ghost use Rattle.round_mix.specs.Marks.{all_rules};
ghost use Rattle.round_mix.specs.Found.{AreAllOutcomes};
ghost use Rattle.round_mix.specs.Prepared.{AreClear, AreGood, IsPrepared};
ghost use Rattle.table_index.specs.Candidates.{AreCandidates, IsAscending};
ghost use Rattle.round_mix.specs.Among.{AreOutcomesAmong, ArePositionsBelow, HoldCandidates, blocks_of, picked_marks};
ghost use Rattle.round_mix.specs.Nearest.{patterns_back};
ghost use Rattle.round_mix.specs.Scan.{actions_by, is_kept, scan};

mod apart;
mod changes;
mod clashes;
mod kinds;
mod leading;
mod marking;
mod named;
mod nearest;
mod priorities;
mod sorting;
mod tried;

use apart::sort_apart;
use changes::{MANY_CHANGES, first_bad};
use clashes::least_clash;
use flow_rules::{Action, Rule, Table, TupleSpace, VlanTest};
use marking::fill;
use named::mix_by_key;
use nearest::{Packet, fill_space, nearest};
use net_base::{Memory, Place};
use path_walk::Outcome;
use path_walk::following::act;
use sorting::sort_by_key;
use std::alloc::Global;
use std::marker::Model;
use table_index::Index;
use topology::Net;
use tried::{make, take_back, try_next};
use update_model::Change;

/// In which mixtures a rule stands: in all, in some, or in all with its action or another.
#[derive(Clone, Copy)]
pub enum Mark {
    Sure,
    Possible,
    Replaced(Action),
}

/// A rule that stands in the table before the round or is inserted, with its mark.
#[derive(Clone, Copy)]
pub struct MarkedRule {
    pub rule: Rule,
    pub mark: Mark,
}

/// Why a switch and a round are not prepared.
#[derive(Clone, Copy, PartialEq, Eq)]
pub enum MixFault {
    /// The position, from 0, of the first change that doesn't apply or names a key that was named before.
    BadChange(usize),
    /// The least positions, from 0, of two rules that make a mixture unclear: among the table's rules and the inserted ones
    /// behind them.
    Ambiguous(usize, usize),
}

/// Why a switch and a round are not prepared, where no one asks which rules clash.
#[derive(Clone, Copy, PartialEq, Eq)]
pub enum MixRefusal {
    /// The position, from 0, of the first change that doesn't apply or names a key that was named before.
    BadChange(usize),
    /// All changes are good, and some mixture isn't clear.
    Unclear,
}

/// The marked rules of one switch and round, in descending priority.
#[derive(Drop)]
pub struct Mixed {
    rules: Vec<MarkedRule>,
    is_prepared: bool,
    /// For how many rules there is room, in the list and in the index.
    room: usize,
    /// The rules whose prefix holds the aimed address.
    index: Index,
    /// The aimed address.
    aimed: Option<u32>,
    /// The patterns of the rules, while they are indexed.
    space: TupleSpace,
    is_indexed: bool,
}

impl Model for Mixed {
    ghost use Rattle.std.specs.Prelude.{vec_capacity, vec_len, cond, Some, None, true, ◌≡◌, ◌≤◌, IfSome};
    ghost use Rattle.table_index.specs.Candidates.{AreCandidates};
    ghost use Rattle.round_mix.specs.Among.{blocks_of};
    ghost use Rattle.round_mix.specs.Nearest.{patterns_back};
    ghost use Rattle.round_mix.specs.Prepared.{IsFalling, MixedState};

    ghost Value = { MixedState };

    ghost view = { λ m. record { prepared = cond m.is_prepared (Some m.rules.items) None; room = m.room; aimed = m.aimed } };

    ghost invariant = { λ m. (m.room ≤ vec_capacity m.rules) × (m.room ≤ m.index.room) × (m.is_prepared ≡ true → vec_len m.rules ≤ m.room)
        × IfSome m.aimed (λ dst. AreCandidates (blocks_of m.rules.items) dst m.index.candidates)
        × (m.is_indexed ≡ true → m.space.patterns ≡ patterns_back m.rules.items)
        × IsFalling m.rules.items };
}

/// Outcomes of a place.
#[derive(Drop)]
pub struct Outcomes {
    outcomes: Vec<Outcome>,
}

impl Model for Outcomes {
    ghost use Rattle.std.specs.Prelude.{vec_capacity, vec_len, ◌-◌};
    ghost use Rattle.round_mix.specs.Found.{OutcomesState};

    ghost Value = { OutcomesState };

    ghost view = { λ o. record { list = o.outcomes.items; spare = vec_capacity o.outcomes - vec_len o.outcomes } };
}

impl Outcomes {
    /// No outcomes, with room for so many.
    pub fn with_room(alloc: Global, entries: usize) -> Result<Outcomes, Memory>
        ensures { IfOk result (λ o. o ≡ record { list = []; spare = entries }) }
    {
        Ok(Outcomes {
            outcomes: Vec::with_capacity(alloc, entries)?,
        })
    }

    /// The outcomes.
    pub fn list(&self) -> &[Outcome]
        ensures { result.now ≡ self.now.list }
    {
        &self.outcomes
    }
}

impl Mark {
    /// Whether the rule stands in every mixture, with one action or another.
    fn is_kept(self) -> bool
        ensures { result ≡ is_kept self }
    {
        match self {
            Mark::Possible => false,
            Mark::Sure | Mark::Replaced(_) => true,
        }
    }
}

/// Puts the outcomes by the actions that a marked rule may have.
fn put_actions(net: &Net, place: Place, marked: &MarkedRule, outcomes: &mut Vec<Outcome>)
    requires { vec_len outcomes.old + 1 < vec_capacity outcomes.old }
    ensures items { outcomes.new.items
        ≡ outcomes.old.items ++ map (action_outcome net.now place)
        (actions_by marked.now.mark marked.now.rule.action) }
    ensures few { is_kept marked.now.mark ≡ false
        → vec_len outcomes.new ≡ vec_len outcomes.old + 1 }
    ensures room { vec_capacity outcomes.old ≤ vec_capacity outcomes.new }
{
    outcomes.push_reserved(act(net, place, marked.rule.action));
    if let Mark::Replaced(action) = marked.mark {
        outcomes.push_reserved(act(net, place, action));
    }
}

/// Puts the outcomes that the marked scan finds.
fn put_scan(net: &Net, place: Place, dst: u32, rules: &[MarkedRule], outcomes: &mut Vec<Outcome>)
    requires { vec_len outcomes.old + length rules.now < vec_capacity outcomes.old }
    ensures items { outcomes.new.items
        ≡ outcomes.old.items ++ map (action_outcome net.now place)
        (scan (header_at place dst) rules.now) }
    ensures room { vec_capacity outcomes.old ≤ vec_capacity outcomes.new }
{
    for marked in rules {
        if marked.rule.key.pattern.covers(place.port, place.vlan, dst) {
            put_actions(net, place, marked, outcomes);
            if marked.mark.is_kept() {
                return;
            }
        }
    }
    outcomes.push_reserved(Outcome::Discard);
}

/// Puts the outcomes by the nearest rule, from a position on, that covers the packet; where the scan goes on, if it does.
fn put_nearest(
    net: &Net,
    packet: Packet,
    rules: &[MarkedRule],
    space: &TupleSpace,
    from: usize,
    outcomes: &mut Vec<Outcome>,
) -> Option<usize>
    requires fresh { space.now.patterns ≡ patterns_back rules.now }
    requires within { from ≤ length rules.now }
    requires room { vec_len outcomes.old + length rules.now < vec_capacity outcomes.old + from }
    ensures ends { result ≡ None → outcomes.new.items
        ≡ outcomes.old.items ++ map (action_outcome net.now packet.place)
        (scan (header_at packet.place packet.dst) (drop from rules.now)) }
    ensures goes_on { (next : ℕ) → result ≡ Some next
        → outcomes.new.items ++ map (action_outcome net.now packet.place)
        (scan (header_at packet.place packet.dst) (drop next rules.now))
        ≡ outcomes.old.items ++ map (action_outcome net.now packet.place)
        (scan (header_at packet.place packet.dst) (drop from rules.now)) }
    ensures within { (next : ℕ) → result ≡ Some next → next ≤ length rules.now }
    ensures left { (next : ℕ) → result ≡ Some next
        → vec_len outcomes.new + length rules.now < vec_capacity outcomes.new + next }
    ensures room { vec_capacity outcomes.old ≤ vec_capacity outcomes.new }
{
    match nearest(rules, space, packet, from) {
        None => {
            outcomes.push_reserved(Outcome::Discard);
            None
        }
        Some(position) => {
            let covering = &rules[position];
            put_actions(net, packet.place, covering, outcomes);
            if covering.mark.is_kept() {
                return None;
            }
            Some(position + 1)
        }
    }
}

/// How many covering rules are found in a space before the others are found by a look at each. So many rules that cover one
/// packet and may all be missing are rare.
const MOST_SEARCHES: usize = 4;

/// Puts the outcomes that the marked scan finds, by a space of the patterns.
fn put_found(
    net: &Net,
    packet: Packet,
    rules: &[MarkedRule],
    space: &TupleSpace,
    outcomes: &mut Vec<Outcome>,
)
    requires fresh { space.now.patterns ≡ patterns_back rules.now }
    requires room { vec_len outcomes.old + length rules.now < vec_capacity outcomes.old }
    ensures items { outcomes.new.items
        ≡ outcomes.old.items ++ map (action_outcome net.now packet.place)
        (scan (header_at packet.place packet.dst) rules.now) }
    ensures room { vec_capacity outcomes.old ≤ vec_capacity outcomes.new }
{
    let mut from = 0;
    for _ in 0..MOST_SEARCHES {
        match put_nearest(net, packet, rules, space, from, outcomes) {
            None => return,
            Some(next) => from = next,
        }
    }
    put_scan(net, packet.place, packet.dst, &rules[from..], outcomes);
}

/// Puts the outcomes that the marked scan finds among the rules at the positions.
fn put_among(
    net: &Net,
    place: Place,
    dst: u32,
    rules: &[MarkedRule],
    positions: &[u32],
    outcomes: &mut Vec<Outcome>,
)
    requires empty { vec_len outcomes.old ≡ 0 }
    requires within { ArePositionsBelow positions.now (length rules.now) }
    requires room { length positions.now < vec_capacity outcomes.old }
    ensures items { outcomes.new.items
        ≡ map (action_outcome net.now place)
        (scan (header_at place dst) (picked_marks rules.now positions.now)) }
    ensures room { vec_capacity outcomes.old ≤ vec_capacity outcomes.new }
{
    for i in 0..positions.len() {
        let candidate = &rules[positions[i] as usize];
        let pattern = &candidate.rule.key.pattern;
        if pattern.covers(place.port, place.vlan, dst) {
            put_actions(net, place, candidate, outcomes);
            if candidate.mark.is_kept() {
                return;
            }
        }
    }
    outcomes.push_reserved(Outcome::Discard);
}

/// Has an index hold the positions of the rules whose prefix holds the address.
fn find_candidates(index: &mut Index, rules: &[MarkedRule], dst: u32)
    requires few { length rules.now < 2 ^ 32 }
    requires room { length rules.now ≤ index.old.room }
    ensures exact { AreCandidates (blocks_of rules.now) dst index.new.candidates }
    ensures room { index.old.room ≤ index.new.room }
{
    index.clear();
    for position in 0..rules.len() {
        index.next(position as u32, &rules[position].rule.key.pattern.dst, dst);
    }
}

/// Whether many good changes of a table have a mixture that isn't clear. For few changes it doesn't look.
fn are_unclear(table: &Table, changes: &[Change], marks: &mut Vec<MarkedRule>) -> bool
    requires good { AreGood table.now.rules changes.now }
    requires room { length (all_rules table.now.rules changes.now) ≤ vec_capacity marks.old }
    ensures yes { result ≡ true → ¬ AreClear table.now.rules changes.now }
    ensures room { vec_capacity marks.old ≤ vec_capacity marks.new }
{
    if changes.len() < MANY_CHANGES {
        return false;
    }
    let none = &changes[..0];
    fill(none, changes, table.rules(), marks);
    !sort_apart(marks)
}

/// Marks and sorts the rules of a table and those that good changes insert, and says whether all mixtures are clear.
fn mix_good(table: &Table, changes: &[Change], marks: &mut Vec<MarkedRule>) -> bool
    requires good { AreGood table.now.rules changes.now }
    requires room { length (all_rules table.now.rules changes.now) ≤ vec_capacity marks.old }
    ensures yes { result ≡ true → IsPrepared table.now.rules changes.now marks.new.items }
    ensures no { result ≡ false → ¬ AreClear table.now.rules changes.now }
    ensures room { vec_capacity marks.old ≤ vec_capacity marks.new }
{
    if are_unclear(table, changes, marks) {
        return false;
    }
    fill(changes, changes, table.rules(), marks);
    sort_apart(marks)
}

/// Marks and sorts the rules of a table and the inserted ones, or says why not: many changes by their keys.
fn mix(table: &Table, changes: &[Change], marks: &mut Vec<MarkedRule>) -> Result<(), MixRefusal>
    requires { length (all_rules table.now.rules changes.now) ≤ vec_capacity marks.old }
    ensures ok { OnOk result (IsPrepared table.now.rules changes.now marks.new.items) }
    ensures err { IfErr result (λ refusal. IsMixRefusal table.now.rules changes.now refusal) }
    ensures room { vec_capacity marks.old ≤ vec_capacity marks.new }
{
    if changes.len() >= MANY_CHANGES && mix_by_key(table, changes, marks) {
        return Ok(());
    }
    if let Some(i) = first_bad(table, changes, marks) {
        return Err(MixRefusal::BadChange(i));
    }
    if mix_good(table, changes, marks) {
        Ok(())
    } else {
        Err(MixRefusal::Unclear)
    }
}

/// The least positions of two rules that clash, among a table's rules and those inserted behind them, where changes are good
/// and some mixture isn't clear. It compares each two rules.
fn clash_of(table: &Table, changes: &[Change], marks: &mut Vec<MarkedRule>) -> (usize, usize)
    requires unclear { AreUnclear table.now.rules changes.now }
    requires room { length (all_rules table.now.rules changes.now) ≤ vec_capacity marks.old }
    ensures least { IsAmbiguous table.now.rules changes.now result.0 result.1 }
    ensures room { vec_capacity marks.old ≤ vec_capacity marks.new }
{
    let none = &changes[..0];
    fill(none, changes, table.rules(), marks);
    match least_clash(marks) {
        Some(positions) => positions,
        None => unreachable!(),
    }
}

/// The fewest prepared rules that are worth a space.
const LEAST_INDEXED: usize = 16;

/// How many times the number of rules the room may be. A space is emptied in time by its room.
const MOST_ROOM: usize = 64;

impl MarkedRule {
    /// Whether each look-up ends at the rule that comes to it: it stands in every mixture, and tests nothing.
    fn ends_all(&self) -> bool
        ensures { IsTrue result → is_kept self.now.mark ≡ true }
    {
        let pattern = &self.rule.key.pattern;
        let tests_nothing = pattern.in_port.is_none()
            && matches!(pattern.vlan, VlanTest::Any)
            && pattern.dst.len == 0;
        tests_nothing && self.mark.is_kept()
    }
}

/// Whether marked rules are worth a space: there are at least 16, the room isn't far more than they need, and not each look-up
/// ends at one of the first 16.
fn are_worth_a_space(rules: &[MarkedRule], room: usize) -> bool
    ensures { IsTrue result → 16 ≤ length rules.now }
{
    if rules.len() < LEAST_INDEXED || room / MOST_ROOM > rules.len() {
        return false;
    }
    !rules[..LEAST_INDEXED]
        .iter()
        .any(|marked| marked.ends_all())
}

/// Whether what was indexed still is, after a change that may move rules.
fn stays_indexed(was_indexed: bool, is_moved: bool) -> bool
    ensures was { result ≡ true → was_indexed ≡ true }
    ensures unmoved { result ≡ true → is_moved ≡ false }
{
    was_indexed && !is_moved
}

impl Mixed {
    /// Nothing prepared, with room for so many rules.
    pub fn with_room(alloc: Global, entries: usize) -> Result<Mixed, Memory>
        ensures { IfOk result (λ m. m ≡ record { prepared = None; room = entries; aimed = None }) }
    {
        Ok(Mixed {
            rules: Vec::with_capacity(alloc, entries)?,
            is_prepared: false,
            room: entries,
            index: Index::with_room(alloc, entries)?,
            aimed: None,
            space: TupleSpace::with_room(alloc, entries)?,
            is_indexed: false,
        })
    }

    /// Prepares one switch: a table and the changes of a round there. After a refusal nothing is prepared.
    ///
    /// It sorts the rules by their keys; where those of one priority don't all test the same beside the address, it sorts
    /// them three times more at most, by what two kinds of them both test. So it takes n log n for n rules. 16 changes and
    /// more are looked up among the sorted rules. For the first bad one of them it may sort log n times more, and where some
    /// mixture is unclear it sorts all twice. Fewer are each compared with all rules and all changes.
    pub fn prepare(&mut self, table: &Table, changes: &[Change]) -> Result<(), MixRefusal>
        requires { entries_needed table.now.rules changes.now ≤ self.old.room }
        ensures ok { OnOk result (IsSomeAnd self.new.prepared
            (IsPrepared table.now.rules changes.now)) }
        ensures err { IfErr result
            (λ refusal. IsMixRefusal table.now.rules changes.now refusal) }
        ensures nothing { OnErr result (self.new.prepared ≡ None) }
        ensures count { IfSome self.new.prepared
            (λ marks. length marks ≡ entries_needed table.now.rules changes.now) }
        ensures room { self.old.room ≤ self.new.room }
    {
        self.is_prepared = false;
        self.aimed = None;
        self.is_indexed = false;
        if let Err(refusal) = mix(table, changes, &mut self.rules) {
            self.rules.clear();
            return Err(refusal);
        }
        self.is_prepared = true;
        Ok(())
    }

    /// Prepares one switch as `prepare` does, and says which rules make a mixture unclear: for that it compares each two of
    /// them.
    pub fn load(&mut self, table: &Table, changes: &[Change]) -> Result<(), MixFault>
        requires { entries_needed table.now.rules changes.now ≤ self.old.room }
        ensures ok { OnOk result (IsSomeAnd self.new.prepared
            (IsPrepared table.now.rules changes.now)) }
        ensures err { IfErr result (λ fault. IsFault table.now.rules changes.now fault) }
        ensures nothing { OnErr result (self.new.prepared ≡ None) }
        ensures count { IfSome self.new.prepared
            (λ marks. length marks ≡ entries_needed table.now.rules changes.now) }
        ensures room { self.old.room ≤ self.new.room }
    {
        match self.prepare(table, changes) {
            Ok(()) => Ok(()),
            Err(MixRefusal::BadChange(i)) => Err(MixFault::BadChange(i)),
            Err(MixRefusal::Unclear) => Err(self.ambiguity(table, changes)),
        }
    }

    /// Which rules make a mixture unclear, where one is. Nothing is prepared after that.
    fn ambiguity(&mut self, table: &Table, changes: &[Change]) -> MixFault
        requires unclear { AreUnclear table.now.rules changes.now }
        requires room { entries_needed table.now.rules changes.now ≤ self.old.room }
        ensures fault { IsFault table.now.rules changes.now result }
        ensures nothing { self.new.prepared ≡ None }
        ensures room { self.old.room ≤ self.new.room }
    {
        self.is_prepared = false;
        self.aimed = None;
        self.is_indexed = false;
        let (i, j) = clash_of(table, changes, &mut self.rules);
        self.rules.clear();
        MixFault::Ambiguous(i, j)
    }

    /// Prepares a switch that is prepared for changes of a table for those before the last one. It looks at each prepared rule,
    /// and takes no memory.
    pub fn give_up(&mut self, change: &Change)
        ensures before { (table : List Rule) (changes : List Change) → IsTable table
            → IsSomeAnd self.old.prepared (IsPrepared table (changes ++ change.now ∷ []))
            → IsSomeAnd self.new.prepared (IsPrepared table changes) }
        ensures few { IfSome self.old.prepared
            (λ old. IsSomeAnd self.new.prepared (λ marks. length marks ≤ length old)) }
        ensures room { self.old.room ≤ self.new.room }
    {
        self.aimed = None;
        self.is_indexed = stays_indexed(self.is_indexed, change.is_insert());
        take_back(&mut self.rules, change);
    }

    /// Prepares a switch that is prepared for one change of a table, and maybe others, for the table after it.
    pub fn keep(&mut self, change: &Change)
        ensures after { (table : List Rule) → IsTable table
            → IsSomeAnd self.old.prepared (IsPrepared table (change.now ∷ []))
            → IsSomeAnd self.new.prepared (IsPrepared (rules_after_change change.now table) []) }
        // Where it is prepared for other changes besides, it stays so.
        ensures first { (table : List Rule) (changes : List Change) → IsTable table
            → IsSomeAnd self.old.prepared (IsPrepared table (change.now ∷ changes))
            → IsSomeAnd self.new.prepared
            (IsPrepared (rules_after_change change.now table) changes) }
        ensures few { IfSome self.old.prepared
            (λ old. IsSomeAnd self.new.prepared (λ marks. length marks ≤ length old)) }
        ensures room { self.old.room ≤ self.new.room }
    {
        self.aimed = None;
        self.is_indexed = stays_indexed(self.is_indexed, change.is_delete());
        make(&mut self.rules, change);
    }

    /// Prepares a switch for one change more than those of a table for which it is prepared, if that is good behind them and
    /// every mixture is clear, and says whether it is. If it isn't, what is prepared stays. It looks at each prepared rule, and
    /// takes no memory.
    pub fn begin(&mut self, change: &Change) -> bool
        requires { IsSomeAnd self.old.prepared (λ marks. length marks < self.old.room) }
        ensures yes { (table : List Rule) (changes : List Change) → IsTable table
            → IsSomeAnd self.old.prepared (IsPrepared table changes)
            → result ≡ true
            → IsSomeAnd self.new.prepared (IsPrepared table (changes ++ change.now ∷ [])) }
        ensures no { (table : List Rule) (changes : List Change)
            → IsSomeAnd self.old.prepared (IsPrepared table changes)
            → result ≡ false → AreGood table (changes ++ change.now ∷ [])
            → ¬ AreClear table (changes ++ change.now ∷ []) }
        ensures same { result ≡ false → self.new.prepared ≡ self.old.prepared }
        ensures few { IfSome self.old.prepared
            (λ old. IsSomeAnd self.new.prepared (λ marks. length marks ≤ length old + 1)) }
        ensures room { self.old.room ≤ self.new.room }
    {
        self.aimed = None;
        self.is_indexed = stays_indexed(self.is_indexed, change.is_insert());
        try_next(&mut self.rules, change)
    }

    /// Prepares a switch that is prepared for a table alone for changes of it, if they are good and every mixture is clear. If
    /// they aren't, nothing is prepared then. It looks at each prepared rule twice at most for each change, sorts nothing, and
    /// takes no memory.
    pub fn begin_all(&mut self, changes: &[Change]) -> bool
        requires { IsSomeAnd self.old.prepared
            (λ marks. length marks + length changes.now ≤ self.old.room) }
        ensures yes { (table : List Rule) → IsTable table
            → IsSomeAnd self.old.prepared (IsPrepared table [])
            → result ≡ true → IsSomeAnd self.new.prepared (IsPrepared table changes.now) }
        ensures few { result ≡ true → IfSome self.old.prepared (λ old. IsSomeAnd self.new.prepared
            (λ marks. length marks ≤ length old + length changes.now)) }
        ensures room { self.old.room ≤ self.new.room }
    {
        for change in changes {
            if !self.begin(change) {
                self.is_prepared = false;
                return false;
            }
        }
        true
    }

    /// Prepares a switch that is prepared for changes of a table for the table after them. It looks at each prepared rule once
    /// for each change.
    pub fn keep_all(&mut self, changes: &[Change])
        ensures after { (table : List Rule) → IsTable table
            → IsSomeAnd self.old.prepared (IsPrepared table changes.now)
            → IsSomeAnd self.new.prepared (IsPrepared (rules_after changes.now table) []) }
        ensures few { IfSome self.old.prepared
            (λ old. IsSomeAnd self.new.prepared (λ marks. length marks ≤ length old)) }
        ensures room { self.old.room ≤ self.new.room }
    {
        for change in changes {
            self.keep(change);
        }
    }

    /// The need of the round at the switch: the entries before it and its inserts.
    pub fn most_entries(&self) -> u64
        requires { IsSome self.now.prepared }
        ensures { (table : List Rule) (changes : List Change)
            → IsSomeAnd self.now.prepared (IsPrepared table changes)
            → result ≡ entries_needed table changes }
    {
        self.rules.len() as u64
    }

    /// Has `possible` search by the kinds of patterns, until rules come or go: where at least 16 are prepared, of at most
    /// 16 kinds or a fourth as many as there is room for rules, the room isn't far more than they need, and no look-up would end
    /// among the first 16 in any case. The time is that of the rules times their kinds, and it takes no memory. What is indexed
    /// already stays so.
    pub fn index(&mut self)
        ensures { self.new ≡ self.old }
    {
        if self.is_indexed {
            return;
        }
        if are_worth_a_space(&self.rules, self.room) {
            self.is_indexed = fill_space(&mut self.space, &self.rules);
        }
    }

    /// Replaces what `out` holds by the outcomes of the place for the address over all mixtures.
    /// It looks at each prepared rule once at most; where they are indexed, first at those of one slot for each kind of
    /// pattern, four times at most.
    pub fn possible(&self, net: &Net, place: Place, dst: u32, out: &mut Outcomes)
        requires prepared { IsSome self.now.prepared }
        requires room { ForSome self.now.prepared
            (λ marks. length marks < length out.old.list + out.old.spare) }
        ensures exact { (table : List Rule) (changes : List Change)
            → IsSomeAnd self.now.prepared (IsPrepared table changes)
            → AreAllOutcomes net.now table changes place dst out.new.list }
        ensures room { length out.old.list + out.old.spare ≤ length out.new.list + out.new.spare }
    {
        out.outcomes.clear();
        if self.is_indexed {
            let packet = Packet { place, dst };
            put_found(net, packet, &self.rules, &self.space, &mut out.outcomes);
            return;
        }
        put_scan(net, place, dst, &self.rules, &mut out.outcomes);
    }

    /// Finds the prepared rules whose prefix holds the address. It looks at each prepared rule once, and takes no memory.
    pub fn aim(&mut self, dst: u32)
        requires { IsSomeAnd self.old.prepared (λ marks. length marks < 2 ^ 32) }
        ensures aimed { self.new.aimed ≡ Some dst }
        ensures same { self.new.prepared ≡ self.old.prepared }
        ensures room { self.old.room ≤ self.new.room }
    {
        find_candidates(&mut self.index, &self.rules, dst);
        self.aimed = Some(dst);
    }

    /// The positions, ascending, of the prepared rules whose prefix holds the aimed address.
    pub fn aimed(&self) -> &[u32]
        requires { IsSome self.now.aimed }
        ensures exact { IfSome self.now.prepared
            (λ marks. IfSome self.now.aimed
            (λ dst. AreCandidates (blocks_of marks) dst result.now)) }
        ensures ascending { IsAscending result.now }
        ensures within { ForSome self.now.prepared
            (λ marks. ArePositionsBelow result.now (length marks)) }
    {
        self.index.candidates()
    }

    /// Replaces what `out` holds by the outcomes of the place for the address over all mixtures from which every rule is left
    /// out whose key doesn't stand at one of the positions. It looks at the rule of each position once at most.
    pub fn among(&self, net: &Net, place: Place, dst: u32, positions: &[u32], out: &mut Outcomes)
        requires prepared { IsSome self.now.prepared }
        requires ascending { IsAscending positions.now }
        requires within { ForSome self.now.prepared
            (λ marks. ArePositionsBelow positions.now (length marks)) }
        requires room { ForSome self.now.prepared
            (λ marks. length marks < length out.old.list + out.old.spare) }
        ensures exact { (table : List Rule) (changes : List Change) → IsTable table
            → IsSomeAnd self.now.prepared (IsPrepared table changes)
            → IfSome self.now.prepared (λ marks. AreOutcomesAmong net.now table changes marks
            positions.now place dst out.new.list) }
        // With the positions of all rules whose prefix holds the address they are all outcomes.
        ensures all { (table : List Rule) (changes : List Change) → IsTable table
            → IsSomeAnd self.now.prepared (IsPrepared table changes)
            → IsSomeAnd self.now.prepared (λ marks. HoldCandidates marks dst positions.now)
            → AreAllOutcomes net.now table changes place dst out.new.list }
        ensures room { length out.old.list + out.old.spare ≤ length out.new.list + out.new.spare }
    {
        out.outcomes.clear();
        put_among(net, place, dst, &self.rules, positions, &mut out.outcomes);
    }
}
