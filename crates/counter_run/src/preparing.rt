//! The tables of an update that is explained, with each switch prepared for its rounds.
ghost use Rattle.std.specs.Prelude.{◌≡◌, ◌<◌, suc, true, length, IfOk};
ghost use Rattle.check_reasons.specs.Loaded.{AreLoaded};
ghost use Rattle.round_tables.specs.PreparedTables.{HasRoomForAll, StandsBefore};
ghost use Rattle.round_tables.specs.Loading.{ArePrepared};
ghost use Rattle.counter_run.specs.Updates.{IsClassed, rollout_of};

use crate::update::ClassedUpdate;
use net_base::Memory;
use round_tables::{PreparedTables, Rollout};
use std::alloc::Global;

/// The update, by its tables and rounds.
fn rollout<'a>(update: ClassedUpdate<'a>) -> Rollout<'a>
    ensures { result ≡ rollout_of update.entry }
{
    Rollout {
        net: update.net,
        old: update.old,
        rounds: update.rounds,
    }
}

/// Room for the tables and rounds, whatever the capacities.
pub(crate) fn make(alloc: Global, update: ClassedUpdate<'_>) -> Result<PreparedTables, Memory>
    ensures { IfOk result (HasRoomForAll (rollout_of update.entry)) }
{
    PreparedTables::make_for_all(alloc, &rollout(update))
}

/// Puts the tables before the update in the place of what is there. No switch is prepared.
pub(crate) fn start(update: ClassedUpdate<'_>, tables: &mut PreparedTables)
    requires { HasRoomForAll (rollout_of update) tables.old }
    ensures stands { StandsBefore (rollout_of update.entry) 0 tables.new }
    ensures room { HasRoomForAll (rollout_of update.entry) tables.new }
{
    tables.start(&rollout(update));
}

/// Prepares each switch for round k, which is good and clear.
pub(crate) fn load(update: ClassedUpdate<'_>, k: usize, tables: &mut PreparedTables)
    requires classed { IsClassed update }
    requires round { k < length update.rounds.now }
    requires room { HasRoomForAll (rollout_of update) tables.old }
    requires stands { StandsBefore (rollout_of update) k tables.old }
    ensures room { HasRoomForAll (rollout_of update.entry) tables.new }
    ensures prepared { ArePrepared (rollout_of update.entry) k tables.new }
{
    match tables.load_round(&rollout(update), k) {
        Ok(()) => {}
        Err(_) => unreachable!(),
    }
}

/// As many entries the table of a switch has at most, for which a survey has room.
const MOST_ENTRIES: u64 = 8192;

/// Whether the switches, which are prepared for round k, need few enough entries for a survey.
pub(crate) fn need_few(update: ClassedUpdate<'_>, k: usize, tables: &PreparedTables) -> bool
    requires classed { IsClassed update }
    requires prepared { ArePrepared (rollout_of update) k tables.now }
    ensures { result ≡ true → AreLoaded (rollout_of update.entry) k tables.now.mixes }
{
    tables.need_at_most(&rollout(update), k, MOST_ENTRIES)
}

/// Makes the changes of round k, for which the switches are prepared.
pub(crate) fn apply(update: ClassedUpdate<'_>, k: usize, tables: &mut PreparedTables)
    requires round { k < length update.rounds.now }
    requires room { HasRoomForAll (rollout_of update) tables.old }
    requires prepared { ArePrepared (rollout_of update) k tables.old }
    ensures stands { StandsBefore (rollout_of update.entry) (suc k) tables.new }
    ensures room { HasRoomForAll (rollout_of update.entry) tables.new }
{
    tables.apply_round(&rollout(update), k);
}
