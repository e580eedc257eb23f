//! Two switches, and a plan of two phases.

use crate::held::UpdateTexts;
use crate::none::no_demands;

/// Two switches a and b.
pub fn topology() -> &'static [u8] {
    br#"{"switches": [{"name": "a", "capacity": 8}, {"name": "b", "capacity": 8}], "links": [["a:2", "b:1"]], "hosts": ["a:1", "b:2"], "vlans": ["untagged"], "tags": [3000, 3009]}"#
}

/// The path from a to b.
pub fn old() -> &'static [u8] {
    br#"{"rules": [{"switch": "a", "priority": 100, "dst": "10.0.0.0/24", "out": 2}, {"switch": "b", "priority": 100, "dst": "10.0.0.0/24", "out": 2}]}"#
}

/// The same without the rule at b.
pub fn new() -> &'static [u8] {
    br#"{"rules": [{"switch": "a", "priority": 100, "dst": "10.0.0.0/24", "out": 2}]}"#
}

/// The rule at b is deleted.
pub fn update() -> UpdateTexts<'static> {
    UpdateTexts {
        topology: topology(),
        old: old(),
        new: new(),
        policy: no_demands(),
    }
}

/// b's old rule takes the packets that carry the tag.
pub fn no_mask() -> &'static [u8] {
    br#"{"format": 1, "kind": "two-phase", "rounds": [[{"do": "insert", "switch": "a", "priority": 32868, "dst": "10.0.0.0/24", "out": 2, "in_port": 1, "vlan": "untagged", "set": 3000}]], "labels": [[["untagged", "old", "untagged"], [3000, "new", "untagged"]]], "picks": [[1, 0]], "tried": []}"#
}
