//! One switch with two host ports: configurations that aren't read, and small updates with plans.

use crate::held::UpdateTexts;
use crate::none::no_demands;

/// One switch with two host ports.
pub fn topology() -> &'static [u8] {
    br#"{"switches":[{"name":"a","capacity":8}],"links":[],"hosts":["a:1","a:2"],"vlans":["untagged"],"tags":[3000,3009]}"#
}

/// The topology, without tags.
pub fn topology_without_tags() -> &'static [u8] {
    br#"{"switches": [{"name": "a", "capacity": 8}], "links": [], "hosts": ["a:1", "a:2"], "vlans": ["untagged"], "tags": []}"#
}

/// The topology, with room for one rule.
pub fn topology_of_one_entry() -> &'static [u8] {
    br#"{"switches": [{"name": "a", "capacity": 1}], "links": [], "hosts": ["a:1", "a:2"], "vlans": ["untagged"], "tags": [3000, 3009]}"#
}

/// Two rules of equal priority that cover common packets.
pub fn overlap() -> &'static [u8] {
    br#"{"rules":[{"switch":"a","priority":100,"dst":"10.0.0.0/8","out":2,"in_port":1},{"switch":"a","priority":100,"dst":"10.0.0.0/24","out":"drop","vlan":"untagged"}]}"#
}

/// One rule twice.
pub fn rule_twice() -> &'static [u8] {
    br#"{"rules":[{"switch":"a","priority":100,"dst":"10.0.0.0/24","out":2},{"switch":"a","priority":100,"dst":"10.0.0.0/24","out":2}]}"#
}

/// A rule for a VLAN that is an available tag.
pub fn reserved_vlan() -> &'static [u8] {
    br#"{"rules":[{"switch":"a","priority":100,"dst":"10.0.0.0/24","out":2,"vlan":3000}]}"#
}

/// A rule that sends out of a port that is not in use.
pub fn unused_port() -> &'static [u8] {
    br#"{"rules":[{"switch":"a","priority":100,"dst":"10.0.0.0/24","out":9}]}"#
}

/// A rule of priority 100, above a rule that drops.
pub fn below() -> &'static [u8] {
    br#"{"rules": [{"switch": "a", "priority": 50, "dst": "10.0.0.0/8", "out": "drop"}, {"switch": "a", "priority": 100, "dst": "10.0.0.0/24", "out": 2}]}"#
}

/// The same with priority 110.
pub fn above() -> &'static [u8] {
    br#"{"rules": [{"switch": "a", "priority": 50, "dst": "10.0.0.0/8", "out": "drop"}, {"switch": "a", "priority": 110, "dst": "10.0.0.0/24", "out": 2}]}"#
}

/// One rule.
pub fn rule() -> &'static [u8] {
    br#"{"rules": [{"switch": "a", "priority": 100, "dst": "10.0.0.0/24", "out": 2}]}"#
}

/// The rule, narrowed to untagged packets.
pub fn untagged_rule() -> &'static [u8] {
    br#"{"rules": [{"switch": "a", "priority": 100, "dst": "10.0.0.0/24", "out": 2, "vlan": "untagged"}]}"#
}

/// The rule at a higher priority.
pub fn rule_above() -> &'static [u8] {
    br#"{"rules": [{"switch": "a", "priority": 200, "dst": "10.0.0.0/24", "out": 2}]}"#
}

/// From the first host port, and the packets must arrive.
pub fn policy() -> &'static [u8] {
    br#"{"demands": [{"from": "a:1", "dst": "10.0.0.0/24", "deliver": true}]}"#
}

/// The rule gets another priority.
pub fn priority_update() -> UpdateTexts<'static> {
    UpdateTexts {
        topology: topology(),
        old: below(),
        new: above(),
        policy: policy(),
    }
}

/// The rule is narrowed, without tags and demands.
pub fn untagged_update() -> UpdateTexts<'static> {
    UpdateTexts {
        topology: topology_without_tags(),
        old: rule(),
        new: untagged_rule(),
        policy: no_demands(),
    }
}

/// The rule is narrowed, without tags, where packets must arrive.
pub fn untagged_update_with_demand() -> UpdateTexts<'static> {
    UpdateTexts {
        topology: topology_without_tags(),
        old: rule(),
        new: untagged_rule(),
        policy: policy(),
    }
}

/// The rule gets another priority, where there is room for one rule.
pub fn small_update() -> UpdateTexts<'static> {
    UpdateTexts {
        topology: topology_of_one_entry(),
        old: rule(),
        new: rule_above(),
        policy: no_demands(),
    }
}

/// Between the delete and the insert packets are dropped.
pub fn may_drop() -> &'static [u8] {
    br#"{"format": 1, "kind": "ordered", "rounds": [[{"do": "delete", "switch": "a", "priority": 100, "dst": "10.0.0.0/24", "out": 2}, {"do": "insert", "switch": "a", "priority": 110, "dst": "10.0.0.0/24", "out": 2}]], "numberings": [[0]], "befores": [], "picks": [[1, 0, 0, []], [1, 1, 0, []], [1, 2, 0, []], [1, 3, 0, []], [1, 4, 0, []], [1, 5, 0, []], [1, 6, 0, []], [1, 7, 0, []]]}"#
}

/// After the insert alone two rules cover a packet.
pub fn ambiguous() -> &'static [u8] {
    br#"{"format": 1, "kind": "ordered", "rounds": [[{"do": "delete", "switch": "a", "priority": 100, "dst": "10.0.0.0/24", "out": 2}, {"do": "insert", "switch": "a", "priority": 100, "dst": "10.0.0.0/24", "out": 2, "vlan": "untagged"}]], "numberings": [[0]], "befores": [], "picks": [[1, 0, 0, []], [1, 1, 0, []], [1, 2, 0, []], [1, 3, 0, []], [1, 4, 0, []], [1, 5, 0, []]]}"#
}

/// A table with room for one rule would need two.
pub fn too_full() -> &'static [u8] {
    br#"{"format": 1, "kind": "ordered", "rounds": [[{"do": "delete", "switch": "a", "priority": 100, "dst": "10.0.0.0/24", "out": 2}, {"do": "insert", "switch": "a", "priority": 200, "dst": "10.0.0.0/24", "out": 2}]], "numberings": [[0]], "befores": [], "picks": [[1, 0, 0, []], [1, 1, 0, []], [1, 2, 0, []], [1, 3, 0, []], [1, 4, 0, []], [1, 5, 0, []]]}"#
}

/// Delete, then insert, where the rule is narrowed.
pub fn narrowing_plan() -> &'static [u8] {
    br#"{"befores":[],"format":2,"kind":"ordered","numberings":[[0]],"picks":[[1,0,0],[1,1,0],[1,2,0],[1,3,0],[1,4,0],[1,5,0]],"rounds":[[["delete",0]],[["insert",1]]],"rules":[{"dst":"10.0.0.0/24","out":2,"priority":100,"switch":"a"},{"dst":"10.0.0.0/24","out":2,"priority":100,"switch":"a","vlan":"untagged"}],"uses":[[0,[]]]}
"#
}

/// Delete, then insert, where there is room for one rule.
pub fn one_place_plan() -> &'static [u8] {
    br#"{"befores":[],"format":2,"kind":"ordered","numberings":[[0]],"picks":[[1,0,0],[1,1,0],[1,2,0],[1,3,0],[1,4,0],[1,5,0]],"rounds":[[["delete",0]],[["insert",1]]],"rules":[{"dst":"10.0.0.0/24","out":2,"priority":100,"switch":"a"},{"dst":"10.0.0.0/24","out":2,"priority":200,"switch":"a"}],"uses":[[0,[]]]}
"#
}
