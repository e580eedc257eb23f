//! Each switch is prepared for a round, up to the first bad change.
ghost use Rattle.std.specs.Prelude.{◌≡◌, ◌≢◌, ℕ, ◌+◌, ◌<◌, ◌≤◌, ◌^◌, [], ◌∷◌, ◌↔◌, true, false, None, Some, take, length, slice_get, IfNone, IfSome, IfOk, IfErr, IsTrue, OnOk};
ghost use Rattle.net_base.specs.declared.ids.SwitchId.{SwitchId as Switch};
ghost use Rattle.flow_rules.specs.Tables.{IsTable};
ghost use Rattle.update_model.specs.Changes.{changes_at};
ghost use Rattle.update_model.specs.declared.Change.{Change as ChangeOf};
ghost use Rattle.round_mix.specs.Faults.{IsMixRefusal};
ghost use Rattle.round_tables.specs.PreparedTables.{HoldsRounds, StandsBefore, IsMixed, is_touched, list_at, mix_at, rules_there};
ghost use Rattle.round_tables.specs.Loading.{AreAlone, ArePrepared, AreSwitchesBelow, IsBadAt, IsFirstOutside, IsFirstRoundFault, IsLoadedTo, IsOutsideBelow, IsOutsideTo, IsRestFault};

use crate::changed::begin_all_at;
use crate::gathering::{SwitchChanges, gather};
use crate::prepared::PreparedTables;
use crate::rollout::Rollout;
use flow_rules::{Config, Table};
use net_base::SwitchId;
use round_mix::{MixRefusal, Mixed};
use update_model::Change;

/// Why a round can't be made in whatever order.
#[derive(Clone, Copy)]
pub enum RoundFault {
    /// The number in the round, from 0, of a change that doesn't apply, or whose entry an earlier one names.
    BadChange { switch: SwitchId, change: usize },
    /// While the changes are made, two rules of equal priority may cover one packet at the switch.
    Unclear(SwitchId),
}

/// The number in a round of the change that stands at a position among those of a switch.
fn number_of(round: &[Change], switch: SwitchId, nth: usize) -> usize
    requires { nth < length (changes_at switch round.now) }
    ensures within { result < length round.now }
    ensures at { slice_get round.now result ≡ slice_get (changes_at switch round.now) nth }
    ensures before { changes_at switch (take result round.now)
        ≡ take nth (changes_at switch round.now) }
{
    let mut left = nth;
    for (i, change) in round.iter().enumerate() {
        if change.switch().0 == switch.0 {
            if left == 0 {
                return i;
            }
            left -= 1;
        }
    }
    unreachable!()
}

/// Whether a change of a round is beyond the first switches, so many, and at a lower switch than the one that was found, if
/// one was.
fn is_outside_below(round: &[Change], count: usize, found: Option<usize>, i: usize) -> bool
    requires within { i < length round.now }
    requires found { IfSome found (λ j. j < length round.now) }
    ensures { (c : ChangeOf) → slice_get round.now i ≡ Some c
        → IsTrue result ↔ IsOutsideBelow count round.now found c }
{
    let switch = round[i].switch().0;
    match found {
        None => switch as usize >= count,
        Some(j) => switch as usize >= count && switch < round[j].switch().0,
    }
}

/// The change of a round that was found among those before one of them, or that one in its place.
fn next_outside(round: &[Change], count: usize, found: Option<usize>, i: usize) -> Option<usize>
    requires within { i < length round.now }
    requires so_far { IsOutsideTo count round.now i found }
    ensures { IsOutsideTo count round.now (i + 1) result }
{
    if is_outside_below(round, count, found, i) {
        return Some(i);
    }
    found
}

/// Of the changes of a round beyond the first switches, so many, the first at the least switch.
fn first_outside(round: &[Change], count: usize) -> Option<usize>
    ensures none { IfNone result (AreSwitchesBelow count round.now) }
    ensures some { IfSome result (IsFirstOutside count round.now) }
{
    let mut found = None;
    for i in 0..round.len() {
        found = next_outside(round, count, found, i);
    }
    found
}

/// Of the changes of a round beyond the first switches, so many, the first at the least switch; it may be known that there
/// are none.
fn outside_of(round: &[Change], count: usize, are_within: bool) -> Option<usize>
    requires { are_within ≡ true → AreSwitchesBelow count round.now }
    ensures none { IfNone result (AreSwitchesBelow count round.now) }
    ensures some { IfSome result (IsFirstOutside count round.now) }
{
    if are_within {
        return None;
    }
    first_outside(round, count)
}

/// The fault of a round whose changes at the first switches, so many, are good: its first change beyond these, or else the
/// unclear switch, if there is one.
fn rest_fault(
    round: &[Change],
    count: usize,
    are_within: bool,
    unclear: Option<SwitchId>,
) -> Result<(), RoundFault>
    requires { are_within ≡ true → AreSwitchesBelow count round.now }
    ensures within { OnOk result (AreSwitchesBelow count round.now) }
    ensures clear { OnOk result (unclear ≡ None) }
    ensures err { IfErr result (IsRestFault count round.now unclear) }
{
    if let Some(change) = outside_of(round, count, are_within) {
        let switch = round[change].switch();
        return Err(RoundFault::BadChange { switch, change });
    }
    match unclear {
        None => Ok(()),
        Some(switch) => Err(RoundFault::Unclear(switch)),
    }
}

/// Does nothing: its contract says what every table keeps.
pub(crate) fn keeps_keys(table: &Table)
    ensures { IsTable table.now.rules }
{
    let _ = table.rules();
}

/// Prepares one of the switches.
fn load_into(
    mixes: &mut [Mixed],
    switch: SwitchId,
    table: &Table,
    changes: &[Change],
) -> Result<(), MixRefusal>
    requires within { switch.0 < length mixes.old }
    requires room { length table.now.rules + length changes.now ≤ (mix_at mixes.old switch).room }
    ensures ok { OnOk result (IsMixed table.now.rules changes.now (mix_at mixes.new switch)) }
    ensures err { IfErr result (λ refusal. IsMixRefusal table.now.rules changes.now refusal) }
    ensures others { (t : Switch) → t.0 ≢ switch.0 → mix_at mixes.new t ≡ mix_at mixes.old t }
    ensures room { (mix_at mixes.old switch).room ≤ (mix_at mixes.new switch).room }
{
    let mixed = &mut mixes[switch.0 as usize];
    mixed.prepare(table, changes)?;
    mixed.index();
    Ok(())
}

/// So many changes of a switch are marked one after the other in any case, ...
const MOST_MARKED: usize = 16;

/// ... and more of them if its table has so many times as many rules. Others are faster sorted with the table anew.
const RULES_FOR_MARK: usize = 64;

/// How many changes of a switch are marked one after the other at most. Only the speed rests on it.
fn most_marked(table: &Table) -> usize {
    MOST_MARKED.max(table.rules().len() / RULES_FOR_MARK)
}

/// Prepares one of the switches, which is prepared for its table alone, for its changes, where they are few and good and
/// their mixtures clear: so it needs no sorting.
fn begin_few(mixes: &mut [Mixed], switch: SwitchId, table: &Table, changes: &[Change]) -> bool
    requires within { switch.0 < length mixes.old }
    requires alone { IsMixed table.now.rules [] (mix_at mixes.old switch) }
    requires room { length table.now.rules + length changes.now ≤ (mix_at mixes.old switch).room }
    ensures yes { result ≡ true → IsMixed table.now.rules changes.now (mix_at mixes.new switch) }
    ensures others { (t : Switch) → t.0 ≢ switch.0 → mix_at mixes.new t ≡ mix_at mixes.old t }
    ensures room { (mix_at mixes.old switch).room ≤ (mix_at mixes.new switch).room }
{
    keeps_keys(table);
    match changes {
        [] => true,
        _ => changes.len() <= most_marked(table) && begin_all_at(mixes, switch, changes),
    }
}

/// Prepares one of the switches for its changes. It is touched where they are many.
fn load_at(
    mixes: &mut [Mixed],
    touched: &mut [bool],
    switch: SwitchId,
    table: &Table,
    changes: &[Change],
) -> Result<(), MixRefusal>
    requires within { switch.0 < length mixes.old }
    requires touched { switch.0 < length touched.old }
    requires alone { is_touched touched.old switch ≡ false
        → IsMixed table.now.rules [] (mix_at mixes.old switch) }
    requires room { length table.now.rules + length changes.now ≤ (mix_at mixes.old switch).room }
    ensures ok { OnOk result (IsMixed table.now.rules changes.now (mix_at mixes.new switch)) }
    ensures table { IsTable table.now.rules }
    ensures err { IfErr result (λ refusal. IsMixRefusal table.now.rules changes.now refusal) }
    ensures others { (t : Switch) → t.0 ≢ switch.0 → mix_at mixes.new t ≡ mix_at mixes.old t }
    ensures flags { (t : Switch) → t.0 ≢ switch.0 → is_touched touched.new t
        ≡ is_touched touched.old t }
    ensures room { (mix_at mixes.old switch).room ≤ (mix_at mixes.new switch).room }
{
    keeps_keys(table);
    let i = switch.0 as usize;
    if !touched[i] && begin_few(mixes, switch, table, changes) {
        return Ok(());
    }
    touched[i] = changes.len() > most_marked(table);
    load_into(mixes, switch, table, changes)
}

/// Prepares the next switch for its changes. The result is the first unclear switch so far, or the switch with the position
/// of its first bad change.
fn load_next(
    mixes: &mut [Mixed],
    touched: &mut [bool],
    tables: &Config,
    lists: &[SwitchChanges],
    switch: SwitchId,
    unclear: Option<SwitchId>,
) -> Result<Option<SwitchId>, (SwitchId, usize)>
    requires within { switch.0 < length tables.now }
    requires mixes { length mixes.old ≡ length tables.now }
    requires touched { length touched.old ≡ length tables.now }
    requires lists { length lists.now ≡ length tables.now }
    requires alone { AreAlone tables.now switch.0 touched.old mixes.old }
    requires room { length (rules_there tables.now switch) + length
        (list_at lists.now switch).changes
        ≤ (mix_at mixes.old switch).room }
    requires so_far { IsLoadedTo tables.now lists.now switch.0 mixes.old unclear }
    ensures ok { IfOk result
        (λ next. IsLoadedTo tables.now lists.now (switch.0 + 1) mixes.new next) }
    ensures err { IfErr result
        (λ bad. (bad.0.0 < length tables.now) × IsBadAt tables.now lists.now bad.0 bad.1) }
    ensures others { (t : Switch) → t.0 ≢ switch.0 → mix_at mixes.new t ≡ mix_at mixes.old t }
    ensures flags { (t : Switch) → t.0 ≢ switch.0 → is_touched touched.new t
        ≡ is_touched touched.old t }
    ensures room { (mix_at mixes.old switch).room ≤ (mix_at mixes.new switch).room }
{
    let changes = lists[switch.0 as usize].list();
    match load_at(mixes, touched, switch, tables.table(switch), changes) {
        Ok(()) => Ok(unclear),
        Err(MixRefusal::Unclear) => Ok(Some(unclear.unwrap_or(switch))),
        Err(MixRefusal::BadChange(nth)) => Err((switch, nth)),
    }
}

/// Prepares all switches for their changes. The result is the first unclear switch, or the first with a bad change and the
/// position of its first one.
fn load_all(
    mixes: &mut [Mixed],
    touched: &mut [bool],
    tables: &Config,
    lists: &[SwitchChanges],
) -> Result<Option<SwitchId>, (SwitchId, usize)>
    requires few { length tables.now < 2 ^ 32 }
    requires mixes { length mixes.old ≡ length tables.now }
    requires touched { length touched.old ≡ length tables.now }
    requires lists { length lists.now ≡ length tables.now }
    requires alone { AreAlone tables.now 0 touched.old mixes.old }
    requires room { (s : Switch) → s.0 < length tables.now
        → length (rules_there tables.now s) + length
        (list_at lists.now s).changes ≤ (mix_at mixes.old s).room }
    ensures ok { IfOk result
        (λ unclear. IsLoadedTo tables.now lists.now (length tables.now) mixes.new unclear) }
    ensures err { IfErr result
        (λ bad. (bad.0.0 < length tables.now) × IsBadAt tables.now lists.now bad.0 bad.1) }
    ensures room { (s : Switch) → (mix_at mixes.old s).room ≤ (mix_at mixes.new s).room }
{
    let mut unclear = None;
    for i in 0..tables.count() as u32 {
        let switch = SwitchId(i);
        unclear = load_next(mixes, touched, tables, lists, switch, unclear)?;
    }
    Ok(unclear)
}

impl PreparedTables {
    /// Prepares each switch for round k, or finds the first bad change, or else the first unclear switch. A switch is
    /// sorted only where this round or the one before changes it more than 16 times and more than once for 64 of its rules,
    /// or the round is refused.
    pub fn load_round(&mut self, update: &Rollout<'_>, k: usize) -> Result<(), RoundFault>
        requires round { k < length update.now.rounds }
        requires room { HoldsRounds (length update.now.old) update.now.rounds self.old }
        requires stands { StandsBefore update.now k self.old }
        ensures ok { OnOk result (ArePrepared update.now k self.new) }
        ensures err { IfErr result (IsFirstRoundFault update.now k) }
        ensures room { HoldsRounds (length update.now.old) update.now.rounds self.new }
        ensures limits { self.new.limits ≡ self.old.limits }
    {
        let round = update.rounds.round(k);
        let are_within = gather(&mut self.changes, round);
        match load_all(
            &mut self.mixes,
            &mut self.touched,
            &self.tables,
            &self.changes,
        ) {
            Ok(unclear) => rest_fault(round, self.tables.count(), are_within, unclear),
            Err((switch, nth)) => Err(RoundFault::BadChange {
                switch,
                change: number_of(round, switch, nth),
            }),
        }
    }
}
