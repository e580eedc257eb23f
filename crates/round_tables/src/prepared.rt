//! The tables of a network, with each switch prepared for changes of it.
ghost use Rattle.std.specs.Prelude.{◌≡◌, ℕ, ◌<◌, ◌≤◌, ◌^◌, true, take, length, slice_index_or, IfOk};
ghost use Rattle.net_base.specs.declared.ids.SwitchId.{SwitchId as Switch};
ghost use Rattle.topology.specs.Networks.{switch_count};
ghost use Rattle.flow_rules.specs.Tables.{rules_at, rules_of_all};
ghost use Rattle.path_walk.specs.UserConfigs.{IsUserConfig};
ghost use Rattle.round_tables.specs.PreparedTables.{HasTableRoom, HasRoomForAll, HoldsRounds, StandsBefore, limit_at, room_of, table_at};

use crate::gathering::SwitchChanges;
use crate::rollout::Rollout;
use crate::room::{lower, most_needed, with_limits};
use flow_rules::{Config, Rule, Table};
use net_base::{Memory, SwitchId};
use round_mix::Mixed;
use std::alloc::Global;
use std::marker::Model;
use update_model::Change;

/// The tables of a network, and what is prepared of each switch: for its table alone, for its changes in a round, for those that
/// are taken so far for a round that is filled, or for a single change that is tried. A switch is touched where it is to be
/// prepared anew.
#[derive(Drop)]
pub struct PreparedTables {
    pub(crate) tables: Config,
    pub(crate) mixes: Vec<Mixed>,
    pub(crate) touched: Vec<bool>,
    /// The changes of the round by switch.
    pub(crate) changes: Vec<SwitchChanges>,
    /// For each switch how many rules its table may come to hold; for trials, for how many entries there is room at least.
    pub(crate) limits: Vec<usize>,
    /// Room for the rules of changes, to sort them.
    pub(crate) rules: Vec<Rule>,
    /// The changes that are taken for a round that is filled.
    pub(crate) round: Vec<Change>,
}

impl Model for PreparedTables {
    ghost use Rattle.std.specs.Prelude.{vec_capacity};
    ghost use Rattle.round_tables.specs.PreparedTables.{PreparedState};

    ghost Value = { PreparedState };

    ghost view = { λ p. record { tables = p.tables; mixes = p.mixes.items; touched = p.touched.items; changes = p.changes.items; limits = p.limits.items; room = vec_capacity p.rules; round = p.round.items } };
}

/// Puts the rules of one table into another in the place of its own.
fn refill(table: &mut Table, source: &Table)
    requires { length source.now.rules ≤ room_of table.old }
    ensures rules { table.new.rules ≡ source.now.rules }
    ensures room { room_of table.new ≡ room_of table.old }
{
    table.clear();
    for rule in source.rules() {
        table.insert(*rule);
    }
}

/// Puts the rules of all tables into others in the place of theirs.
fn refill_all(tables: &mut Config, sources: &Config)
    requires count { length tables.old ≡ length sources.now }
    requires few { length tables.old < 2 ^ 32 }
    requires room { (s : Switch) → s.0 < length tables.old
        → length (rules_at (rules_of_all sources.now) s) ≤ room_of (table_at tables.old s) }
    ensures rules { rules_of_all tables.new ≡ rules_of_all sources.now }
    ensures room { (s : Switch) → room_of (table_at tables.new s)
        ≡ room_of (table_at tables.old s) }
{
    for i in 0..tables.count() as u32 {
        let switch = SwitchId(i);
        refill(tables.table_mut(switch), sources.table(switch));
    }
}

/// All flags are on.
fn set_all(flags: &mut [bool])
    ensures { (i : ℕ) → slice_index_or flags.new i true ≡ true }
{
    for flag in flags.iter_mut() {
        *flag = true;
    }
}

/// As many switches have numbers of 32 bits, but for one; there is no memory for more tables.
const MOST_SWITCHES: usize = 0xffff_ffff;

impl PreparedTables {
    /// Tables without rules and nothing prepared, with room for what each switch needs in the rounds, up to its capacity. It
    /// takes memory by the rules of the tables and the changes of the rounds, and no more than by the capacities.
    pub fn make(alloc: Global, update: &Rollout<'_>) -> Result<PreparedTables, Memory>
        requires { length update.now.old ≡ switch_count update.now.net }
        ensures { IfOk result (HasTableRoom update.now) }
    {
        update.net.keeps_rules();
        let mut limits = most_needed(alloc, update.old, update.rounds)?;
        lower(&mut limits, update.net);
        with_limits(alloc, limits, update.rounds)
    }

    /// Tables without rules and nothing prepared, with room for what each switch needs in the rounds, whatever its capacity.
    /// It takes memory by the rules of the tables and the changes of the rounds.
    pub fn make_for_all(alloc: Global, update: &Rollout<'_>) -> Result<PreparedTables, Memory>
        ensures { IfOk result (HasRoomForAll update.now) }
    {
        if update.old.count() > MOST_SWITCHES {
            return Err(Memory);
        }
        let limits = most_needed(alloc, update.old, update.rounds)?;
        with_limits(alloc, limits, update.rounds)
    }

    /// The tables before the update, of which no switch is prepared.
    pub fn start(&mut self, update: &Rollout<'_>)
        requires room { HoldsRounds (length update.now.old) update.now.rounds self.old }
        requires fit { (s : Switch) → s.0 < length update.now.old
            → length (rules_at update.now.old s) ≤ limit_at self.old.limits s }
        ensures stands { StandsBefore update.now 0 self.new }
        ensures room { HoldsRounds (length update.now.old) update.now.rounds self.new }
        ensures limits { self.new.limits ≡ self.old.limits }
    {
        set_all(&mut self.touched);
        refill_all(&mut self.tables, update.old);
    }

    /// The tables.
    pub fn tables(&self) -> &Config
        ensures { result.now ≡ self.now.tables }
    {
        &self.tables
    }

    /// What is prepared of each switch.
    pub fn mixes(&self) -> &[Mixed]
        ensures { result.now ≡ self.now.mixes }
    {
        &self.mixes
    }
}
