//! Rules by what they could clash with.
ghost use Rattle.std.specs.Prelude.{◌≡◌, ◌≤◌, ◌<◌, [], ◌&&◌, OnOk, List, ℕ, true, false, MatchBool};
ghost use Rattle.std.specs.List.{list_any};
ghost use Rattle.net_base.specs.Blocks.{IsBlock};
ghost use Rattle.flow_rules.specs.Overlaps.{blocks_meet, keys_clash};
ghost use Rattle.flow_rules.specs.Patterns.{key_eq};
ghost use Rattle.flow_rules.specs.declared.rules.Rule.{Rule as RuleOf};
ghost use Rattle.flow_stats.specs.declared.index.Area.TheVariants.{Exactly, Within};
ghost use Rattle.flow_stats.specs.declared.index.Mark.{Mark as MarkOf};
ghost use Rattle.flow_stats.specs.Index.{Adds, IsIndexOf, block_around, has_mark, is_in_group, is_mark_at, is_mark_in, is_mark_with, mark_eq, meets_by};

use crate::profile::prefix_without;
use flow_rules::{Key, VlanTest};
use indexmap::IndexSet;
use net_base::{Memory, Port, Prefix, SwitchId};
use std::alloc::Global;
use std::marker::Model;

/// Rules of a switch with one priority: those with a choice of an ingress port, or all, and of these the ones with a VLAN
/// test, or all.
#[derive(Clone, Copy, PartialEq, Eq, Hash)]
struct Group {
    switch: SwitchId,
    priority: u16,
    in_port: Option<Option<Port>>,
    vlan: Option<VlanTest>,
}

/// Rules by their destinations: a prefix, or those within it.
#[derive(Clone, Copy, PartialEq, Eq, Hash)]
enum Area {
    Exactly(Prefix),
    Within(Prefix),
}

/// What rules are found by.
#[derive(Clone, Copy, PartialEq, Eq, Hash)]
struct Mark {
    group: Group,
    area: Area,
}

/// The marks that rules have: for each of its four groups a rule's prefix, and each prefix that this one lies within. So a
/// key clashes with a rule where one of the groups that the key's fields meet has a prefix around the key's, or one within.
#[derive(Drop)]
pub struct RuleIndex {
    marks: IndexSet<Mark>,
}

impl Model for RuleIndex {
    ghost use Rattle.std.specs.Prelude.{List};
    ghost use Rattle.flow_stats.specs.declared.index.Mark.{Mark};

    ghost Value = { List Mark };

    ghost view = { λ x. x.marks.keys };
}

/// The prefix of a length around another one.
fn prefix_around(prefix: &Prefix, len: u8) -> Prefix
    requires { len ≤ 32 }
    ensures { result ≡ block_around prefix.now.base len }
{
    prefix_without(prefix.base, 32 - u32::from(len))
}

impl RuleIndex {
    /// The marks of no rules.
    pub fn new(alloc: Global) -> RuleIndex
        ensures { result ≡ [] }
    {
        RuleIndex {
            marks: IndexSet::new(alloc),
        }
    }

    fn has(&self, mark: Mark) -> bool
        ensures { result ≡ has_mark self.now mark }
    {
        self.marks.contains(&mark)
    }

    /// Whether a rule of the group has a prefix around this one.
    fn has_around(&self, group: Group, prefix: &Prefix) -> bool
        ensures found { MatchBool result
            ((l : ℕ) × (l ≤ prefix.now.len)
            × (has_mark self.now (record {
              group = group;
              area = Exactly
                  (block_around prefix.now.base l);
            }) ≡ true))
            ((l : ℕ) → l ≤ prefix.now.len → has_mark self.now
            (record { group = group; area = Exactly (block_around prefix.now.base l) }) ≡ false) }
        ensures block { IsBlock prefix.now }
    {
        for len in 0..prefix.len + 1 {
            let area = Area::Exactly(prefix_around(prefix, len));
            if self.has(Mark { group, area }) {
                return true;
            }
        }
        false
    }

    /// Whether a rule of the group has a prefix with an address of this one.
    fn is_met(&self, group: Group, prefix: &Prefix) -> bool
        ensures { (rules : List RuleOf) → IsIndexOf group.switch rules self.now
            → result ≡ list_any (λ r. is_in_group group r.key && blocks_meet r.key.pattern.dst
            prefix.now) rules }
    {
        let area = Area::Within(*prefix);
        if self.has_around(group, prefix) {
            return true;
        }
        self.has(Mark { group, area })
    }

    /// Whether a rule with one of the choices of an ingress port meets the other fields of the key.
    fn is_met_by(&self, switch: SwitchId, key: &Key, in_port: Option<Option<Port>>) -> bool
        ensures { (rules : List RuleOf) → IsIndexOf switch rules self.now
            → result ≡ list_any (λ r. meets_by in_port r.key key.now) rules }
    {
        let Key { priority, pattern } = *key;
        let all = Group {
            switch,
            priority,
            in_port,
            vlan: None,
        };
        match pattern.vlan {
            VlanTest::Any => self.is_met(all, &pattern.dst),
            _ => {
                let any = Group {
                    vlan: Some(VlanTest::Any),
                    ..all
                };
                if self.is_met(any, &pattern.dst) {
                    return true;
                }
                let same = Group {
                    vlan: Some(pattern.vlan),
                    ..all
                };
                self.is_met(same, &pattern.dst)
            }
        }
    }

    /// Whether a rule of the switch has the key's priority and covers a common packet.
    pub fn has_clash(&self, switch: SwitchId, key: &Key) -> bool
        ensures { (rules : List RuleOf) → IsIndexOf switch rules self.now
            → result ≡ list_any (λ q. keys_clash q.key key.now) rules }
    {
        match key.pattern.in_port {
            None => self.is_met_by(switch, key, None),
            _ => {
                if self.is_met_by(switch, key, Some(None)) {
                    return true;
                }
                self.is_met_by(switch, key, Some(key.pattern.in_port))
            }
        }
    }

    /// Whether a rule of the switch has the key.
    pub fn has_key(&self, switch: SwitchId, key: &Key) -> bool
        ensures { (rules : List RuleOf) → IsIndexOf switch rules self.now
            → result ≡ list_any (λ q. key_eq q.key key.now) rules }
    {
        let Key { priority, pattern } = *key;
        let group = Group {
            switch,
            priority,
            in_port: Some(pattern.in_port),
            vlan: Some(pattern.vlan),
        };
        let area = Area::Exactly(pattern.dst);
        self.has(Mark { group, area })
    }

    fn insert(&mut self, group: Group, area: Area) -> Result<(), Memory>
        ensures { OnOk result (Adds self.old (mark_eq (record { group = group; area = area }))
            self.new) }
    {
        self.marks.insert(Mark { group, area })?;
        Ok(())
    }

    /// Adds the marks of the prefixes around one whose own mark was added.
    fn add_around(&mut self, group: Group, prefix: &Prefix) -> Result<(), Memory>
        ensures added { OnOk result ((old : List MarkOf)
            → Adds old (mark_eq (record { group = group; area = Exactly prefix.now })) self.old
            → Adds old (is_mark_in group prefix.now) self.new) }
        ensures block { IsBlock prefix.now }
    {
        for len in 0..prefix.len + 1 {
            self.insert(group, Area::Within(prefix_around(prefix, len)))?;
        }
        Ok(())
    }

    /// Adds the marks of a prefix in a group.
    fn add_prefix(&mut self, group: Group, prefix: &Prefix) -> Result<(), Memory>
        ensures added { OnOk result (Adds self.old (is_mark_in group prefix.now) self.new) }
        ensures block { OnOk result (IsBlock prefix.now) }
    {
        self.insert(group, Area::Exactly(*prefix))?;
        self.add_around(group, prefix)
    }

    /// Adds the marks of a key in the groups of one choice of an ingress port, or of all.
    fn add_to(
        &mut self,
        switch: SwitchId,
        key: &Key,
        in_port: Option<Option<Port>>,
    ) -> Result<(), Memory>
        ensures added { OnOk result (Adds self.old (is_mark_with switch in_port key.now) self.new) }
        ensures block { OnOk result (IsBlock key.now.pattern.dst) }
    {
        let Key { priority, pattern } = *key;
        let all = Group {
            switch,
            priority,
            in_port,
            vlan: None,
        };
        let own = Group {
            vlan: Some(pattern.vlan),
            ..all
        };
        self.add_prefix(all, &pattern.dst)?;
        self.add_prefix(own, &pattern.dst)
    }

    /// Adds the marks of a key. There are 4 for each prefix around the key's, of which there are at most 33, and 4 more.
    pub fn add(&mut self, switch: SwitchId, key: &Key) -> Result<(), Memory>
        ensures added { OnOk result (Adds self.old (is_mark_at switch key.now) self.new) }
        ensures block { OnOk result (IsBlock key.now.pattern.dst) }
    {
        self.add_to(switch, key, None)?;
        self.add_to(switch, key, Some(key.pattern.in_port))
    }
}
