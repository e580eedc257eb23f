//! Flow tables.
ghost use Rattle.std.specs.Prelude.{◌≡◌, ◌↔◌, ◌+◌, ◌≤◌, ◌++◌, ◌∷◌, [], filter, map, cond, not, IsTrue, IsNone, IfSome, IfOk, OnOk, OnErr, length, vec_len, vec_capacity};
ghost use Rattle.std.specs.List.{list_any};
ghost use Rattle.net_base.specs.Members.{IsIn};
ghost use Rattle.flow_rules.specs.Overlaps.{IsLeastClash};
ghost use Rattle.flow_rules.specs.Patterns.{key_eq};
ghost use Rattle.flow_rules.specs.Replaced.{replaced_in_turn};
ghost use Rattle.flow_rules.specs.Same.{rule_eq};
ghost use Rattle.flow_rules.specs.Tables.{lookup, matched_rule, action_of, IsTable, IsClear, keys_of};

use crate::deletes::delete_keys;
use crate::overlaps::least_clash;
use crate::replaces::replace_keys;
use crate::rules::{Action, Key, Rule};
use crate::searches::{Packet, best_in_space, best_of, space_of};
use crate::tuple_space::TupleSpace;
use net_base::{Memory, Port, Vlan};
use std::alloc::Global;
use std::marker::Model;

/// The fewest rules of a table that are worth a space.
const LEAST_INDEXED: usize = 16;

/// A flow table: rules with distinct keys, in the order in which they came, and room for more. Where it is indexed it has a
/// space of its rules' patterns, until the rules change.
#[derive(Drop)]
pub struct Table {
    entries: Vec<Rule>,
    space: Option<TupleSpace>,
}

impl Model for Table {
    ghost use Rattle.std.specs.Prelude.{vec_capacity, vec_len, ◌-◌};
    ghost use Rattle.flow_rules.specs.Tables.{TableState, IsTableWith};

    ghost Value = { TableState };

    ghost view = { λ t. record { rules = t.entries.items; spare = vec_capacity t.entries - vec_len t.entries } };

    ghost invariant = { λ t. IsTableWith t.entries.items t.space };
}

impl Table {
    /// The rules, each of another key.
    pub fn rules(&self) -> &[Rule]
        ensures value { result.now ≡ self.now.rules }
        ensures distinct { IsTable self.now.rules }
    {
        &self.entries
    }

    /// The rule that matches a packet.
    fn best(&self, packet: Packet) -> Option<Rule>
        ensures { result ≡ matched_rule (record
            { port = packet.port; vlan = packet.vlan; dst = packet.dst }) self.now.rules }
    {
        match &self.space {
            Some(space) => best_in_space(&self.entries, space, packet),
            None => best_of(&self.entries, packet),
        }
    }

    /// What the table does with a packet that comes in by a port with a VLAN to an address: the action of the first of the
    /// rules of greatest priority that cover it, or discard (OpenFlow 1.0.0, section 3.4). Where the table is indexed it looks
    /// at the rules of one slot for each kind of pattern, otherwise at all rules.
    pub fn lookup(&self, port: Port, vlan: Vlan, dst: u32) -> Action
        ensures { result ≡ lookup (record { port = port; vlan = vlan; dst = dst }) self.now.rules }
    {
        match self.best(Packet { port, vlan, dst }) {
            Some(rule) => rule.action,
            None => Action::Discard,
        }
    }
}

/// Whether one of the rules has the key.
fn has_key_among(rules: &[Rule], key: &Key) -> bool
    ensures { result ≡ list_any (λ r. key_eq r.key key.now) rules.now }
{
    rules.iter().any(|rule| rule.key.is_same(key))
}

/// The action of the first rule with the key.
fn action_among(rules: &[Rule], key: &Key) -> Option<Action>
    ensures { result ≡ action_of key.now rules.now }
{
    let rule = rules.iter().find(|rule| rule.key.is_same(key))?;
    Some(rule.action)
}

/// Whether the rule is among the rules.
fn has_rule_among(rules: &[Rule], rule: &Rule) -> bool
    ensures { result ≡ list_any (λ r. rule_eq r rule.now) rules.now }
{
    rules.iter().any(|entry| entry.is_same(rule))
}

/// Puts a rule in the place of those with its key.
fn replace_in(rules: &mut Vec<Rule>, rule: Rule)
    ensures items { rules.new.items
        ≡ map (λ q. cond (key_eq q.key rule.key) rule q) rules.old.items }
    ensures len { vec_len rules.new ≡ vec_len rules.old }
    ensures capacity { vec_capacity rules.new ≡ vec_capacity rules.old }
{
    for i in 0..rules.len() {
        if rules[i].key.is_same(&rule.key) {
            rules[i] = rule;
        }
    }
}

/// Takes out the rules with the key.
fn delete_from(rules: &mut Vec<Rule>, key: &Key)
    ensures items { rules.new.items ≡ filter (λ q. not (key_eq q.key key.now)) rules.old.items }
    ensures capacity { vec_capacity rules.new ≡ vec_capacity rules.old }
{
    rules.retain(|rule| !rule.key.is_same(key));
}

impl Table {
    /// A table without rules.
    pub fn make(alloc: Global) -> Result<Table, Memory>
        ensures { IfOk result (λ t. t ≡ record { rules = []; spare = 0 }) }
    {
        Ok(Table {
            entries: Vec::new(alloc),
            space: None,
        })
    }

    /// A table with the same rules.
    pub fn copy(&self) -> Result<Table, Memory>
        ensures { IfOk result (λ t. t.rules ≡ self.now.rules) }
    {
        let entries = Vec::from_slice(*self.entries.allocator(), &self.entries)?;
        Ok(Table {
            entries,
            space: None,
        })
    }

    /// Has look-ups search by the kinds of patterns, until the rules change: where there are at least 16 rules, of at most 16
    /// kinds, or of a fourth as many kinds as there are rules. Takes time by the rules times their kinds. Where memory is wanting
    /// the table stays as it was.
    pub fn index(&mut self) -> Result<(), Memory>
        ensures { self.new ≡ self.old }
    {
        if self.entries.len() >= LEAST_INDEXED {
            self.space = space_of(*self.entries.allocator(), &self.entries)?;
        }
        Ok(())
    }

    /// Makes room for so many more rules.
    pub fn reserve(&mut self, extra: usize) -> Result<(), Memory>
        ensures rules { self.new.rules ≡ self.old.rules }
        ensures room { OnOk result (extra ≤ self.new.spare) }
        ensures kept { self.old.spare ≤ self.new.spare }
        ensures refused { OnErr result (self.new.spare ≡ self.old.spare) }
    {
        self.entries.reserve(extra)?;
        Ok(())
    }

    /// Adds a rule of a new key, behind the others.
    pub fn insert(&mut self, rule: Rule)
        requires absent { ¬ IsIn rule.key (keys_of self.old.rules) }
        requires room { 1 ≤ self.old.spare }
        ensures rules { self.new.rules ≡ self.old.rules ++ rule ∷ [] }
        ensures spare { self.new.spare + 1 ≡ self.old.spare }
    {
        self.space = None;
        self.entries.push_reserved(rule);
    }

    /// Takes out the rule with a key. The others keep their order.
    pub fn delete(&mut self, key: &Key)
        requires present { IsIn key.now (keys_of self.old.rules) }
        ensures rules { self.new.rules ≡ filter (λ q. not (key_eq q.key key.now)) self.old.rules }
        ensures spare { self.new.spare ≡ self.old.spare + 1 }
    {
        self.space = None;
        delete_from(&mut self.entries, key);
    }

    /// Takes out the rules with the keys of others, which it sorts. The rest keep their order. It takes time n log n.
    pub fn delete_all(&mut self, others: &mut [Rule])
        ensures rules { self.new.rules ≡ filter
            (λ q. not (list_any (λ r. key_eq r.key q.key) others.old)) self.old.rules }
        ensures room { length self.new.rules + self.new.spare
            ≡ length self.old.rules + self.old.spare }
    {
        self.space = None;
        delete_keys(&mut self.entries, others);
    }

    /// Puts a rule in the place of the one with its key.
    pub fn replace(&mut self, rule: Rule)
        ensures rules { self.new.rules ≡ map (λ q. cond (key_eq q.key rule.key) rule q)
            self.old.rules }
        ensures spare { self.new.spare ≡ self.old.spare }
    {
        self.space = None;
        replace_in(&mut self.entries, rule);
    }

    /// Puts each of the others, of which no two have one key, in the place of the rule with its key, and sorts them. All rules
    /// keep their places. It takes time n log n.
    pub fn replace_all(&mut self, others: &mut [Rule])
        requires distinct { IsTable others.old }
        ensures rules { self.new.rules ≡ replaced_in_turn others.old self.old.rules }
        ensures spare { self.new.spare ≡ self.old.spare }
    {
        self.space = None;
        replace_keys(&mut self.entries, others);
    }

    /// Gives the rule with a key another action. All rules keep their places.
    pub fn set_action(&mut self, key: &Key, action: Action)
        requires present { IsIn key.now (keys_of self.old.rules) }
        ensures rules { self.new.rules ≡ map
            (λ q. cond (key_eq q.key key.now) (record { key = key.now; action = action }) q)
            self.old.rules }
        ensures spare { self.new.spare ≡ self.old.spare }
    {
        self.replace(Rule { key: *key, action });
    }

    /// Takes out all rules. Their room stays.
    pub fn clear(&mut self)
        ensures rules { self.new.rules ≡ [] }
        ensures spare { self.new.spare ≡ length self.old.rules + self.old.spare }
    {
        self.space = None;
        self.entries.clear();
    }

    /// Whether there is a rule with the key.
    pub fn has_key(&self, key: &Key) -> bool
        ensures { IsTrue result ↔ IsIn key.now (keys_of self.now.rules) }
    {
        has_key_among(&self.entries, key)
    }

    /// The action of the rule with the key.
    pub fn get(&self, key: &Key) -> Option<Action>
        ensures value { result ≡ action_of key.now self.now.rules }
        ensures found { IfSome result (λ a. IsIn (record { key = key.now; action = a })
            self.now.rules) }
        ensures none { IsNone result ↔ (¬ IsIn key.now (keys_of self.now.rules)) }
    {
        action_among(&self.entries, key)
    }

    /// Whether there is the rule, with the same action.
    pub fn has_rule(&self, rule: &Rule) -> bool
        ensures { IsTrue result ↔ IsIn rule.now self.now.rules }
    {
        has_rule_among(&self.entries, rule)
    }

    /// The least two positions, by the first and then by the second, of rules of equal priority that cover a common packet.
    /// It compares each two rules.
    pub fn overlap(&self) -> Option<(usize, usize)>
        ensures least { IfSome result (λ pair. IsLeastClash self.now.rules pair.0 pair.1) }
        ensures clear { IsNone result ↔ IsClear self.now.rules }
    {
        least_clash(&self.entries)
    }
}
