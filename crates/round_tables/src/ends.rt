//! The comparison of the tables with a configuration.
ghost use Rattle.std.specs.Prelude.{◌≡◌, ◌↔◌, ◌<◌, ◌^◌, length, IsTrue, IfNone, IfSome};
ghost use Rattle.std.specs.List.{AllByRecursion};
ghost use Rattle.net_base.specs.Members.{IsIn, IsSameSet};
ghost use Rattle.net_base.specs.declared.ids.SwitchId.{SwitchId as Switch};
ghost use Rattle.round_tables.specs.Ends.{AreSameAt};

use crate::prepared::PreparedTables;
use flow_rules::{Config, Rule, Table};
use net_base::SwitchId;

/// Whether each of the rules stands in the table.
fn are_within(rules: &[Rule], table: &Table) -> bool
    ensures { IsTrue result ↔ AllByRecursion (λ r. IsIn r table.now.rules) rules.now }
{
    rules.iter().all(|rule| table.has_rule(rule))
}

/// Whether two tables have the same rules, in whatever order. It looks for each rule of one in the other, up to the first
/// that isn't there.
fn are_same(table: &Table, other: &Table) -> bool
    ensures { IsTrue result ↔ IsSameSet table.now.rules other.now.rules }
{
    are_within(table.rules(), other) && are_within(other.rules(), table)
}

/// Whether the two tables of a switch have the same rules.
fn are_same_at(tables: &Config, others: &Config, switch: SwitchId) -> bool
    requires one { switch.0 < length tables.now }
    requires other { switch.0 < length others.now }
    ensures { IsTrue result ↔ AreSameAt tables.now others.now switch }
{
    are_same(tables.table(switch), others.table(switch))
}

/// The first switch at which the tables differ.
fn difference(tables: &Config, others: &Config) -> Option<SwitchId>
    requires count { length tables.now ≡ length others.now }
    requires few { length tables.now < 2 ^ 32 }
    ensures none { IfNone result ((s : Switch) → AreSameAt tables.now others.now s) }
    ensures some { IfSome result (λ s. ¬ AreSameAt tables.now others.now s) }
    ensures below { IfSome result
        (λ s. (t : Switch) → t.0 < s.0 → AreSameAt tables.now others.now t) }
{
    for i in 0..tables.count() as u32 {
        let switch = SwitchId(i);
        if !are_same_at(tables, others, switch) {
            return Some(switch);
        }
    }
    None
}

impl PreparedTables {
    /// The first switch whose table hasn't the rules that a configuration has there.
    pub fn first_difference(&self, config: &Config) -> Option<SwitchId>
        requires count { length self.now.tables ≡ length config.now }
        requires few { length config.now < 2 ^ 32 }
        ensures none { IfNone result ((s : Switch) → AreSameAt self.now.tables config.now s) }
        ensures some { IfSome result (λ s. ¬ AreSameAt self.now.tables config.now s) }
        ensures below { IfSome result
            (λ s. (t : Switch) → t.0 < s.0 → AreSameAt self.now.tables config.now t) }
    {
        difference(&self.tables, config)
    }
}
