//! The changes that lead from some tables to others, and the classes of rounds of such changes.
#![tactic(auto)]

ghost use Rattle.std.specs.Prelude.{◌≡◌, ◌<◌, ◌^◌, length, IfOk};
ghost use Rattle.flow_rules.specs.Tables.{rules_of_all};
ghost use Rattle.update_model.specs.Remaining.{remaining_changes};

pub mod classes;
pub mod laws;
mod merging;
mod sorting;

use flow_rules::Config;
use merging::add_differences;
use net_base::{Memory, SwitchId};
pub use sorting::sort_by_key;
use std::alloc::Global;
use update_model::Change;

/// The changes that lead from the present tables to the new ones, by switch and then in key order: a rule whose key only
/// the present table has is deleted, one whose key only the new table has is inserted, and one that both have with
/// different actions is replaced by the new one. It sorts the rules of each switch.
pub fn remaining(alloc: Global, now: &Config, new: &Config) -> Result<Vec<Change>, Memory>
    requires { length now.now < 2 ^ 32 }
    ensures { IfOk result
        (λ changes. changes.items
        ≡ remaining_changes (rules_of_all now.now) (rules_of_all new.now)) }
{
    let mut changes = Vec::new(alloc);
    for number in 0..now.count().min(new.count()) {
        let switch = SwitchId(number as u32);
        add_differences(&mut changes, switch, now.table(switch), new.table(switch))?;
    }
    Ok(changes)
}
