//! Switches that are prepared for their tables alone.
ghost use Rattle.std.specs.Prelude.{◌≡◌, ◌+◌, ◌<◌, ◌≤◌, [], length, IfOk};
ghost use Rattle.net_base.specs.declared.ids.SwitchId.{SwitchId as Switch};
ghost use Rattle.topology.specs.Networks.{switch_count};
ghost use Rattle.flow_rules.specs.Tables.{IsClear, rules_at, rules_of_all};
ghost use Rattle.path_walk.specs.UserConfigs.{IsUserConfig};
ghost use Rattle.round_tables.specs.PreparedTables.{mix_at, IsMixed};
ghost use Rattle.round_tables.specs.Trials.{HaveRoom};

use crate::growing::load_again;
use flow_rules::{Config, Table};
use net_base::{Memory, SwitchId};
use round_mix::Mixed;
use std::alloc::Global;
use topology::Net;

/// A switch that is prepared for its table alone, with room for one entry more.
fn alone(alloc: Global, table: &Table) -> Result<Mixed, Memory>
    requires { IsClear table.now.rules }
    ensures prepared { IfOk result (IsMixed table.now.rules []) }
    ensures room { IfOk result (λ m. length table.now.rules + 1 ≤ m.room) }
{
    let mut mixed = Mixed::with_room(alloc, table.rules().len() + 1)?;
    load_again(&mut mixed, table, &[]);
    Ok(mixed)
}

/// Each switch, prepared for its table alone with room for one entry more, and for how many entries each has room at least.
pub(crate) fn all_alone(
    alloc: Global,
    net: &Net,
    tables: &Config,
) -> Result<(Vec<Mixed>, Vec<usize>), Memory>
    requires { IsUserConfig net.now (rules_of_all tables.now) }
    ensures len { IfOk result (λ r. length r.0.items ≡ switch_count net.now) }
    ensures counts { IfOk result (λ r. length r.1.items ≡ switch_count net.now) }
    ensures prepared { IfOk result (λ r. (s : Switch) → s.0 < switch_count net.now
        → IsMixed (rules_at (rules_of_all tables.now) s) [] (mix_at r.0.items s)) }
    ensures room { IfOk result (λ r. HaveRoom r.1.items r.0.items) }
{
    let mut mixes = Vec::new(alloc);
    let mut rooms = Vec::new(alloc);
    for i in 0..net.switches() {
        let table = tables.table(SwitchId(i));
        let mixed = alone(alloc, table)?;
        mixes.push(mixed)?;
        rooms.push(table.rules().len() + 1)?;
    }
    Ok((mixes, rooms))
}
