//! One switch with four host ports, and plans of two phases.

use crate::held::UpdateTexts;
use crate::none::no_demands;

/// One switch with four host ports.
pub fn topology() -> &'static [u8] {
    br#"{"switches": [{"name": "a", "capacity": 16}], "links": [], "hosts": ["a:1", "a:2", "a:3", "a:4"], "vlans": ["untagged"], "tags": [3000, 3009]}"#
}

/// One rule.
pub fn old() -> &'static [u8] {
    br#"{"rules": [{"switch": "a", "priority": 100, "dst": "10.0.0.0/8", "out": 2}]}"#
}

/// Two rules, where the narrower has the higher priority.
pub fn new() -> &'static [u8] {
    br#"{"rules": [{"switch": "a", "priority": 100, "dst": "10.0.0.0/8", "out": 3}, {"switch": "a", "priority": 200, "dst": "10.0.0.0/24", "out": 4}]}"#
}

/// One rule gives way to two.
pub fn update() -> UpdateTexts<'static> {
    UpdateTexts {
        topology: topology(),
        old: old(),
        new: new(),
        policy: no_demands(),
    }
}

/// The rule of lower priority comes first.
pub fn lower_priority_first() -> &'static [u8] {
    br#"{"format": 1, "kind": "two-phase", "rounds": [[{"do": "insert", "switch": "a", "priority": 32868, "dst": "10.0.0.0/8", "out": 3, "in_port": 1, "vlan": "untagged"}]], "labels": [[["untagged", "old", "untagged"], [3000, "new", "untagged"]]], "picks": [[1, 0]], "tried": []}"#
}

/// No label table is in force.
pub fn no_labels() -> &'static [u8] {
    br#"{"format": 1, "kind": "two-phase", "rounds": [[{"do": "insert", "switch": "a", "priority": 32868, "dst": "10.0.0.0/8", "out": 3, "in_port": 1, "vlan": "untagged"}]], "labels": [[["untagged", "old", "untagged"], [3000, "new", "untagged"]]], "picks": [], "tried": []}"#
}
