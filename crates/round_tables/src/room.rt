//! Room for the tables of a network and the rounds of an update.
ghost use Rattle.std.specs.Prelude.{◌≡◌, ℕ, ◌+◌, ◌<◌, ◌≤◌, ◌^◌, ◌∷◌, [], length, slice_index_or, min, max, IfOk, OnOk};
ghost use Rattle.net_base.specs.declared.ids.SwitchId.{SwitchId as Switch};
ghost use Rattle.topology.specs.Networks.{switch_count, capacity_of};
ghost use Rattle.flow_rules.specs.Tables.{rules_at, rules_of_all};
ghost use Rattle.update_model.specs.Changes.{changes_at, round_after};
ghost use Rattle.round_tables.specs.PreparedTables.{HoldsRounds, limit_at, list_at, mix_at, room_of, table_at};
ghost use Rattle.round_tables.specs.Loading.{AreCounted, insert_count, inserts_over};

use crate::gathering::SwitchChanges;
use crate::prepared::PreparedTables;
use flow_rules::Config;
use net_base::{Memory, SwitchId};
use round_mix::Mixed;
use std::alloc::Global;
use topology::Net;
use update_model::{Change, Rounds};

/// Counts a change of its switch.
fn count_change(counts: &mut [usize], change: &Change)
    requires { (s : Switch) → s.0 < length counts.old → slice_index_or counts.old s.0 0 < 2 ^ 63 }
    ensures { (s : Switch) → s.0 < length counts.old
        → slice_index_or counts.new s.0 0
        ≡ slice_index_or counts.old s.0 0 + length (changes_at s (change.now ∷ [])) }
{
    let i = change.switch().0 as usize;
    if i < counts.len() {
        counts[i] += 1;
    }
}

/// For each switch how many changes a round has there.
fn count_round(counts: &mut [usize], round: &[Change])
    ensures counted { (s : Switch) → s.0 < length counts.old → slice_index_or counts.new s.0 0
        ≡ length (changes_at s round.now) }
    ensures few { (s : Switch) → s.0 < length counts.old
        → slice_index_or counts.new s.0 0 < 2 ^ 63 }
{
    counts.fill(0);
    for change in round {
        count_change(counts, change);
    }
}

/// Raises each number to the one beside it, where that is greater.
fn raise(numbers: &mut [usize], others: &[usize])
    requires { length numbers.old ≡ length others.now }
    ensures { (i : ℕ) → i < length others.now
        → slice_index_or numbers.new i 0
        ≡ max (slice_index_or numbers.old i 0) (slice_index_or others.now i 0) }
{
    for (i, other) in others.iter().enumerate() {
        numbers[i] = numbers[i].max(*other);
    }
}

/// For each switch the most changes that a round has there.
fn counts_of(alloc: Global, switches: usize, rounds: &Rounds) -> Result<Vec<usize>, Memory>
    ensures len { IfOk result (λ counts. length counts.items ≡ switches) }
    ensures counted { IfOk result
        (λ counts. AreCounted counts.items (length rounds.now) rounds.now) }
    ensures few { IfOk result
        (λ counts. (s : Switch) → s.0 < switches → slice_index_or counts.items s.0 0 < 2 ^ 63) }
{
    let mut most = vec![in alloc; 0usize; switches]?;
    let mut counts = vec![in alloc; 0usize; switches]?;
    for k in 0..rounds.count() {
        count_round(&mut counts, rounds.round(k));
        raise(&mut most, &counts);
    }
    Ok(most)
}

/// As many as the longest round has changes.
fn longest(rounds: &Rounds) -> usize
    ensures { (k : ℕ) → length (round_after k rounds.now) ≤ result }
{
    let mut most = 0;
    for k in 0..rounds.count() {
        most = rounds.round(k).len().max(most);
    }
    most
}

/// For each switch how many rules its table has.
fn sizes(alloc: Global, tables: &Config) -> Result<Vec<usize>, Memory>
    requires { length tables.now < 2 ^ 32 }
    ensures len { IfOk result (λ sizes. length sizes.items ≡ length tables.now) }
    ensures each { IfOk result (λ sizes. (s : Switch) → s.0 < length tables.now
        → limit_at sizes.items s ≡ length (rules_at (rules_of_all tables.now) s)) }
{
    let mut sizes = Vec::new(alloc);
    for i in 0..tables.count() as u32 {
        sizes.push(tables.table(SwitchId(i)).rules().len())?;
    }
    Ok(sizes)
}

/// Counts a change of its switch, if it inserts.
fn add_insert(counts: &mut [usize], change: &Change) -> Result<(), Memory>
    ensures { OnOk result ((s : Switch) → s.0 < length counts.old
        → limit_at counts.new s ≡ limit_at counts.old s + insert_count
        (changes_at s (change.now ∷ []))) }
{
    let i = change.switch().0 as usize;
    if change.is_insert() && i < counts.len() {
        counts[i] = counts[i].checked_add(1).ok_or(Memory)?;
    }
    Ok(())
}

/// Counts the inserts of a round, each of its switch.
fn add_inserts(counts: &mut [usize], round: &[Change]) -> Result<(), Memory>
    ensures { OnOk result ((s : Switch) → s.0 < length counts.old
        → limit_at counts.new s ≡ limit_at counts.old s + insert_count (changes_at s round.now)) }
{
    for change in round {
        add_insert(counts, change)?;
    }
    Ok(())
}

/// For each switch how many rules its table has before the update, and inserts in all rounds. It never needs more entries.
pub(crate) fn most_needed(
    alloc: Global,
    old: &Config,
    rounds: &Rounds,
) -> Result<Vec<usize>, Memory>
    requires { length old.now < 2 ^ 32 }
    ensures len { IfOk result (λ limits. length limits.items ≡ length old.now) }
    ensures each { IfOk result (λ limits. (s : Switch) → s.0 < length old.now
        → limit_at limits.items s
        ≡ length (rules_at (rules_of_all old.now) s) + inserts_over rounds.now s) }
{
    let mut limits = sizes(alloc, old)?;
    for k in 0..rounds.count() {
        add_inserts(&mut limits, rounds.round(k))?;
    }
    Ok(limits)
}

/// Lowers each limit to the capacity of its switch, where that is less.
pub(crate) fn lower(limits: &mut [usize], net: &Net)
    requires { length limits.old ≡ switch_count net.now }
    ensures { (s : Switch) → s.0 < switch_count net.now
        → limit_at limits.new s ≡ min (limit_at limits.old s) (capacity_of net.now s) }
{
    for i in 0..net.switches() {
        let capacity = net.capacity(SwitchId(i)) as usize;
        limits[i as usize] = limits[i as usize].min(capacity);
    }
}

/// A table without rules for each switch, with room for so many rules.
fn roomy_tables(alloc: Global, limits: &[usize]) -> Result<Config, Memory>
    requires { length limits.now < 2 ^ 32 }
    ensures count { IfOk result (λ tables. length tables ≡ length limits.now) }
    ensures room { IfOk result (λ tables. (s : Switch) → s.0 < length limits.now
        → limit_at limits.now s ≤ room_of (table_at tables s)) }
{
    let count = limits.len() as u32;
    let mut tables = Config::make(alloc, count)?;
    for i in 0..count {
        tables.table_mut(SwitchId(i)).reserve(limits[i as usize])?;
    }
    Ok(tables)
}

/// Nothing prepared, with room for a table of so many rules and so many changes.
fn roomy_mix(alloc: Global, limit: usize, count: usize) -> Result<Mixed, Memory>
    ensures { IfOk result (λ m. m.room ≡ limit + count) }
{
    let entries = limit.checked_add(count).ok_or(Memory)?;
    Mixed::with_room(alloc, entries)
}

/// Nothing prepared of each switch, with room for its rules and its changes.
fn roomy_mixes(alloc: Global, limits: &[usize], counts: &[usize]) -> Result<Vec<Mixed>, Memory>
    requires { length counts.now ≡ length limits.now }
    ensures len { IfOk result (λ mixes. length mixes.items ≡ length limits.now) }
    ensures room { IfOk result (λ mixes. (s : Switch) → s.0 < length limits.now
        → limit_at limits.now s + slice_index_or counts.now s.0 0 ≤ (mix_at mixes.items s).room) }
{
    let mut mixes = Vec::new(alloc);
    for (i, limit) in limits.iter().enumerate() {
        let mix = roomy_mix(alloc, *limit, counts[i])?;
        mixes.push(mix)?;
    }
    Ok(mixes)
}

/// No changes of each switch, with room for so many.
fn roomy_changes(alloc: Global, counts: &[usize]) -> Result<Vec<SwitchChanges>, Memory>
    ensures len { IfOk result (λ lists. length lists.items ≡ length counts.now) }
    ensures room { IfOk result (λ lists. (s : Switch) → s.0 < length counts.now
        → slice_index_or counts.now s.0 0 ≤ (list_at lists.items s).room) }
{
    let mut lists = Vec::new(alloc);
    for count in counts {
        let list = SwitchChanges::with_room(alloc, *count)?;
        lists.push(list)?;
    }
    Ok(lists)
}

/// Nothing prepared and no changes of each switch, with room for its rules, and for its changes in each of the rounds.
fn roomy_rounds(
    alloc: Global,
    limits: &[usize],
    rounds: &Rounds,
) -> Result<(Vec<Mixed>, Vec<SwitchChanges>), Memory>
    ensures mixes { IfOk result (λ r. length r.0.items ≡ length limits.now) }
    ensures lists { IfOk result (λ r. length r.1.items ≡ length limits.now) }
    ensures for_marks { IfOk result (λ r. (s : Switch) (k : ℕ) → s.0 < length limits.now
        → limit_at limits.now s + length
        (changes_at s (round_after k rounds.now)) ≤ (mix_at r.0.items s).room) }
    ensures for_changes { IfOk result (λ r. (s : Switch) (k : ℕ) → s.0 < length limits.now
        → length (changes_at s (round_after k rounds.now)) ≤ (list_at r.1.items s).room) }
{
    let counts = counts_of(alloc, limits.len(), rounds)?;
    let mixes = roomy_mixes(alloc, limits, &counts)?;
    let lists = roomy_changes(alloc, &counts)?;
    Ok((mixes, lists))
}

/// Tables without rules and nothing prepared, with room for so many rules of each switch, and for the rounds.
pub(crate) fn with_limits(
    alloc: Global,
    limits: Vec<usize>,
    rounds: &Rounds,
) -> Result<PreparedTables, Memory>
    requires { length limits.items < 2 ^ 32 }
    ensures room { IfOk result (HoldsRounds (length limits.items) rounds.now) }
    ensures limits { IfOk result (λ p. p.limits ≡ limits.items) }
{
    let rules = Vec::with_capacity(alloc, longest(rounds))?;
    let touched = vec![in alloc; true; limits.len()]?;
    let tables = roomy_tables(alloc, &limits)?;
    let (mixes, changes) = roomy_rounds(alloc, &limits, rounds)?;
    Ok(PreparedTables {
        tables,
        mixes,
        touched,
        changes,
        limits,
        rules,
        round: Vec::new(alloc),
    })
}
