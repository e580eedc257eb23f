//! The tables of all switches.
ghost use Rattle.std.specs.Prelude.{◌≡◌, ◌<◌, ◌++◌, [], length, map, replicate, slice_get, Some, IfOk, OnOk};
ghost use Rattle.std.specs.Borrow.{sem};
ghost use Rattle.flow_rules.specs.Lending.{LendsTable};
ghost use Rattle.flow_rules.specs.Tables.{rules_of_all, table_blocks};

use crate::rules::Rule;
use crate::tables::Table;
use net_base::{Memory, Prefix, SwitchId};
use std::alloc::Global;
use std::marker::Model;

/// One table per switch.
#[derive(Drop)]
pub struct Config {
    tables: Vec<Table>,
}

impl Model for Config {
    ghost use Rattle.std.specs.Prelude.{List};
    ghost use Rattle.flow_rules.specs.Tables.{TableState};

    ghost Value = { List TableState };

    ghost view = { λ c. c.tables.items };
}

/// So many tables without rules.
fn empty_tables(alloc: Global, switches: u32) -> Result<Vec<Table>, Memory>
    ensures { IfOk result (λ v. rules_of_all v.items ≡ replicate switches []) }
{
    let mut tables = Vec::new(alloc);
    for _switch in 0..switches {
        tables.push(Table::make(alloc)?)?;
    }
    Ok(tables)
}

/// Tables with the same rules.
fn copies_of(alloc: Global, tables: &[Table]) -> Result<Vec<Table>, Memory>
    ensures { IfOk result (λ v. rules_of_all v.items ≡ rules_of_all tables.now) }
{
    let mut copies = Vec::new(alloc);
    for table in tables {
        copies.push(table.copy()?)?;
    }
    Ok(copies)
}

/// Adds the prefixes of the rules.
fn add_prefixes(prefixes: &mut Vec<Prefix>, rules: &[Rule]) -> Result<(), Memory>
    ensures { OnOk result (prefixes.new.items
        ≡ prefixes.old.items ++ map (λ r. r.key.pattern.dst) rules.now) }
{
    for rule in rules {
        prefixes.push(rule.key.pattern.dst)?;
    }
    Ok(())
}

/// The prefixes of the rules of all tables.
fn prefixes_of(alloc: Global, tables: &[Table]) -> Result<Vec<Prefix>, Memory>
    ensures { IfOk result (λ v. v.items ≡ table_blocks (rules_of_all tables.now)) }
{
    let mut prefixes = Vec::new(alloc);
    for table in tables {
        add_prefixes(&mut prefixes, table.rules())?;
    }
    Ok(prefixes)
}

impl Config {
    /// A table without rules for each of so many switches.
    pub fn make(alloc: Global, switches: u32) -> Result<Config, Memory>
        ensures tables { IfOk result (λ c. rules_of_all c ≡ replicate switches []) }
        ensures count { IfOk result (λ c. length c ≡ switches) }
    {
        let tables = empty_tables(alloc, switches)?;
        Ok(Config { tables })
    }

    /// The prefixes of the rules, table by table and in each table in its order.
    pub fn prefixes(&self) -> Result<Vec<Prefix>, Memory>
        ensures { IfOk result (λ v. v.items ≡ table_blocks (rules_of_all self.now)) }
    {
        prefixes_of(*self.tables.allocator(), self.tables.as_slice())
    }

    /// How many tables there are.
    pub fn count(&self) -> usize
        ensures { result ≡ length self.now }
    {
        self.tables.len()
    }

    /// The table of a switch.
    pub fn table(&self, switch: SwitchId) -> &Table
        requires { switch.0 < length self.now }
        ensures { slice_get self.now switch.0 ≡ Some result.now }
    {
        &self.tables[switch.0 as usize]
    }

    /// The table of a switch, to change it.
    pub fn table_mut(&mut self, switch: SwitchId) -> &mut Table
        requires { switch.0 < length self.old }
        ensures value { slice_get self.old switch.0 ≡ Some result.now }
        ensures* writes_back { sem 𝓛 (LendsTable self.entry switch.0 result) }
    {
        &mut self.tables[switch.0 as usize]
    }

    /// Has look-ups in each table search by the kinds of patterns, until its rules change. Takes time by the rules. Where
    /// memory is wanting, the first tables alone are indexed.
    pub fn index(&mut self) -> Result<(), Memory>
        ensures { self.new ≡ self.old }
    {
        for i in 0..self.tables.len() {
            self.tables[i].index()?;
        }
        Ok(())
    }

    /// Tables with the same rules.
    pub fn copy(&self) -> Result<Config, Memory>
        ensures { IfOk result (λ c. rules_of_all c ≡ rules_of_all self.now) }
    {
        let tables = copies_of(*self.tables.allocator(), &self.tables)?;
        Ok(Config { tables })
    }
}
