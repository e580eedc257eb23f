//! The changes of one switch: both tables are sorted by key, and the sorted lists are gone through side by side.
ghost use Rattle.std.specs.Prelude.{◌≡◌, ◌++◌, IfOk, OnOk, IfSome, IfNone, [], Some, IsPermutation};
ghost use Rattle.std.specs.List.{cons_option};
ghost use Rattle.flow_rules.specs.Tables.{IsTable};
ghost use Rattle.update_model.specs.Remaining.{difference, changes_between};
ghost use Rattle.table_difference.specs.KeyOrder.{AreAscending};
ghost use Rattle.table_difference.specs.Steps.{IsStep};

use crate::sorting::sort_by_key;
use flow_rules::{Rule, Table, key_order};
use net_base::{Memory, SwitchId};
use std::alloc::Global;
use std::cmp::Ordering;
use update_model::Change;

/// What the least key of two lists makes, and what is left of them.
#[derive(Clone, Copy)]
struct Step<'a> {
    change: Option<Change>,
    now: &'a [Rule],
    new: &'a [Rule],
}

/// What leads from a rule to another of the same key.
fn replacement(switch: SwitchId, old: &Rule, new: &Rule) -> Option<Change>
    ensures { result ≡ difference switch (Some old.now) (Some new.now) }
{
    if old.action == new.action {
        None
    } else {
        Some(Change::Replace(switch, *new))
    }
}

/// The step at the least key of two ascending lists; None where both are empty.
fn next_step<'a>(switch: SwitchId, now: &'a [Rule], new: &'a [Rule]) -> Option<Step<'a>>
    requires now { AreAscending now.now }
    requires new { AreAscending new.now }
    ensures none { IfNone result ((now.now ≡ []) × (new.now ≡ [])) }
    ensures some { IfSome result
        (λ step. IsStep switch now.now new.now step.change step.now.now step.new.now) }
{
    match (now.split_first(), new.split_first()) {
        (None, None) => None,
        (Some((old, rest)), None) => Some(Step {
            change: Some(Change::Delete(switch, *old)),
            now: rest,
            new,
        }),
        (None, Some((rule, rest))) => Some(Step {
            change: Some(Change::Insert(switch, *rule)),
            now,
            new: rest,
        }),
        (Some((old, now_rest)), Some((rule, new_rest))) => match key_order(&old.key, &rule.key) {
            Ordering::Less => Some(Step {
                change: Some(Change::Delete(switch, *old)),
                now: now_rest,
                new,
            }),
            Ordering::Equal => Some(Step {
                change: replacement(switch, old, rule),
                now: now_rest,
                new: new_rest,
            }),
            Ordering::Greater => Some(Step {
                change: Some(Change::Insert(switch, *rule)),
                now,
                new: new_rest,
            }),
        },
    }
}

/// Adds a change where there is one.
fn add_change(changes: &mut Vec<Change>, change: Option<Change>) -> Result<(), Memory>
    ensures { OnOk result (changes.new.items ≡ changes.old.items ++ cons_option change []) }
{
    if let Some(change) = change {
        changes.push(change)?;
    }
    Ok(())
}

/// Adds the changes between two ascending lists.
fn add_between<'a>(
    changes: &mut Vec<Change>,
    switch: SwitchId,
    now: &'a [Rule],
    new: &'a [Rule],
) -> Result<(), Memory>
    requires now { AreAscending now.now }
    requires new { AreAscending new.now }
    ensures { OnOk result
        (changes.new.items ≡ changes.old.items ++ changes_between switch now.now new.now) }
{
    let mut now = now;
    let mut new = new;
    while let Some(step) = next_step(switch, now, new) {
        add_change(changes, step.change)?;
        now = step.now;
        new = step.new;
    }
    Ok(())
}

/// The rules of a table in key order.
fn sorted_rules(alloc: Global, table: &Table) -> Result<Vec<Rule>, Memory>
    ensures table { IsTable table.now.rules }
    ensures same { IfOk result (λ rules. IsPermutation table.now.rules rules.items) }
    ensures ascending { IfOk result (λ rules. AreAscending rules.items) }
{
    let mut rules = Vec::from_slice(alloc, table.rules())?;
    sort_by_key(&mut rules);
    Ok(rules)
}

/// Adds the changes of a switch.
pub fn add_differences(
    changes: &mut Vec<Change>,
    switch: SwitchId,
    now: &Table,
    new: &Table,
) -> Result<(), Memory>
    ensures { OnOk result
        (changes.new.items ≡ changes.old.items
        ++ changes_between switch now.now.rules new.now.rules) }
{
    let alloc = *changes.allocator();
    let now_rules = sorted_rules(alloc, now)?;
    let new_rules = sorted_rules(alloc, new)?;
    add_between(changes, switch, &now_rules, &new_rules)
}
