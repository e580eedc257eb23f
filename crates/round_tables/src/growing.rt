//! What is prepared of a switch gets more room, where there is too little.
ghost use Rattle.std.specs.Prelude.{◌≡◌, ◌≢◌, ◌<◌, ◌≤◌, ◌+◌, false, length, IfOk, OnOk, OnErr};
ghost use Rattle.net_base.specs.declared.ids.SwitchId.{SwitchId as Switch};
ghost use Rattle.round_mix.specs.Prepared.{AreClear, AreGood};
ghost use Rattle.round_tables.specs.PreparedTables.{IsMixed, mix_at};
ghost use Rattle.round_tables.specs.Steps.{HasOneMore};
ghost use Rattle.round_tables.specs.Trials.{HaveRoom};

use flow_rules::Table;
use net_base::{Memory, SwitchId};
use round_mix::Mixed;
use std::alloc::Global;
use update_model::Change;

/// For how many entries to have room, where these are more than there is room for: twice what there was, but no less than these.
fn more_room(room: usize, entries: usize) -> usize
    ensures { entries ≤ result }
{
    room.saturating_add(room).max(entries)
}

/// Has room for so many entries at one of the switches. For each of them `rooms` says for how many there is room at least. Where
/// that is too little, nothing is prepared of the switch then, with room for twice as many, or for the entries if these are more.
/// So what is prepared of a table that grows is made anew a few times, and the time is that of the entries in all. The answer is
/// whether it was made anew. After a refusal what is prepared is as before.
fn make_room(
    alloc: Global,
    mixes: &mut [Mixed],
    rooms: &mut [usize],
    switch: SwitchId,
    entries: usize,
) -> Result<bool, Memory>
    requires within { switch.0 < length mixes.old }
    requires counts { length rooms.old ≡ length mixes.old }
    requires known { HaveRoom rooms.old mixes.old }
    ensures room { OnOk result (entries ≤ (mix_at mixes.new switch).room) }
    ensures known { HaveRoom rooms.new mixes.new }
    ensures others { (o : Switch) → o.0 ≢ switch.0 → mix_at mixes.new o ≡ mix_at mixes.old o }
    ensures kept { IfOk result (λ is_anew. is_anew ≡ false → mixes.new ≡ mixes.old) }
    ensures refused { OnErr result (mixes.new ≡ mixes.old) }
{
    let i = switch.0 as usize;
    if entries <= rooms[i] {
        return Ok(false);
    }
    let room = more_room(rooms[i], entries);
    let mixed = Mixed::with_room(alloc, room)?;
    mixes[i] = mixed;
    rooms[i] = room;
    Ok(true)
}

/// Prepares a switch for changes of its table that are good and clear.
pub(crate) fn load_again(mixed: &mut Mixed, table: &Table, changes: &[Change])
    requires good { AreGood table.now.rules changes.now }
    requires clear { AreClear table.now.rules changes.now }
    requires room { length table.now.rules + length changes.now ≤ mixed.old.room }
    ensures prepared { IsMixed table.now.rules changes.now mixed.new }
    ensures room { mixed.old.room ≤ mixed.new.room }
{
    match mixed.prepare(table, changes) {
        Ok(()) => mixed.index(),
        Err(_) => unreachable!(),
    }
}

/// Has room at one of the switches for one entry more than it needs for the changes of its table for which it is prepared, and
/// stays so. After a refusal what is prepared is as before.
pub(crate) fn widen_at(
    alloc: Global,
    mixes: &mut [Mixed],
    rooms: &mut [usize],
    switch: SwitchId,
    table: &Table,
    changes: &[Change],
) -> Result<(), Memory>
    requires within { switch.0 < length mixes.old }
    requires counts { length rooms.old ≡ length mixes.old }
    requires known { HaveRoom rooms.old mixes.old }
    requires prepared { IsMixed table.now.rules changes.now (mix_at mixes.old switch) }
    ensures room { OnOk result (HasOneMore (mix_at mixes.new switch)) }
    ensures known { HaveRoom rooms.new mixes.new }
    ensures others { (o : Switch) → o.0 ≢ switch.0 → mix_at mixes.new o ≡ mix_at mixes.old o }
    ensures prepared { IsMixed table.now.rules changes.now (mix_at mixes.new switch) }
{
    let entries = table.rules().len() + changes.len() + 1;
    if !make_room(alloc, mixes, rooms, switch, entries)? {
        return Ok(());
    }
    load_again(&mut mixes[switch.0 as usize], table, changes);
    Ok(())
}
