//! Five switches s, x, w, y and d, and updates of the path s x w y d, where w is visited on the way.

use crate::held::UpdateTexts;

/// Five switches: the links of the path s x w y d, one from s to y, and one from x to d.
pub fn topology() -> &'static [u8] {
    br#"{"switches":[{"name":"s","capacity":8},{"name":"x","capacity":8},{"name":"w","capacity":8},{"name":"y","capacity":8},{"name":"d","capacity":8}],"links":[["s:2","x:1"],["x:2","w:1"],["w:2","y:1"],["y:2","d:1"],["s:3","y:3"],["x:3","d:2"]],"hosts":["s:1","d:3"],"vlans":["untagged"],"tags":[3000,3009]}"#
}

/// The topology, with room for four rules at s.
pub fn topology_of_four_entries() -> &'static [u8] {
    br#"{"switches": [{"name": "s", "capacity": 4}, {"name": "x", "capacity": 8}, {"name": "w", "capacity": 8}, {"name": "y", "capacity": 8}, {"name": "d", "capacity": 8}], "links": [["s:2", "x:1"], ["x:2", "w:1"], ["w:2", "y:1"], ["y:2", "d:1"], ["s:3", "y:3"], ["x:3", "d:2"]], "hosts": ["s:1", "d:3"], "vlans": ["untagged"], "tags": [3000, 3009]}"#
}

/// The topology, with room for five rules at s.
pub fn topology_of_five_entries() -> &'static [u8] {
    br#"{"switches": [{"name": "s", "capacity": 5}, {"name": "x", "capacity": 8}, {"name": "w", "capacity": 8}, {"name": "y", "capacity": 8}, {"name": "d", "capacity": 8}], "links": [["s:2", "x:1"], ["x:2", "w:1"], ["w:2", "y:1"], ["y:2", "d:1"], ["s:3", "y:3"], ["x:3", "d:2"]], "hosts": ["s:1", "d:3"], "vlans": ["untagged"], "tags": [3000, 3009]}"#
}

/// The topology, with two VLANs and one tag.
pub fn topology_of_one_tag() -> &'static [u8] {
    br#"{"switches": [{"name": "s", "capacity": 8}, {"name": "x", "capacity": 8}, {"name": "w", "capacity": 8}, {"name": "y", "capacity": 8}, {"name": "d", "capacity": 8}], "links": [["s:2", "x:1"], ["x:2", "w:1"], ["w:2", "y:1"], ["y:2", "d:1"], ["s:3", "y:3"], ["x:3", "d:2"]], "hosts": ["s:1", "d:3"], "vlans": ["untagged", 10], "tags": [3000, 3000]}"#
}

/// The topology, without tags.
pub fn topology_without_tags() -> &'static [u8] {
    br#"{"switches": [{"name": "s", "capacity": 8}, {"name": "x", "capacity": 8}, {"name": "w", "capacity": 8}, {"name": "y", "capacity": 8}, {"name": "d", "capacity": 8}], "links": [["s:2", "x:1"], ["x:2", "w:1"], ["w:2", "y:1"], ["y:2", "d:1"], ["s:3", "y:3"], ["x:3", "d:2"]], "hosts": ["s:1", "d:3"], "vlans": ["untagged"], "tags": []}"#
}

/// The path s x w y d.
pub fn old() -> &'static [u8] {
    br#"{"rules":[{"switch":"s","priority":100,"dst":"10.0.0.0/24","out":2},{"switch":"x","priority":100,"dst":"10.0.0.0/24","out":2},{"switch":"w","priority":100,"dst":"10.0.0.0/24","out":2},{"switch":"y","priority":100,"dst":"10.0.0.0/24","out":2},{"switch":"d","priority":100,"dst":"10.0.0.0/24","out":3}]}"#
}

/// The path s y w x d.
pub fn new() -> &'static [u8] {
    br#"{"rules":[{"switch":"s","priority":100,"dst":"10.0.0.0/24","out":3},{"switch":"x","priority":100,"dst":"10.0.0.0/24","out":3},{"switch":"w","priority":100,"dst":"10.0.0.0/24","out":1},{"switch":"y","priority":100,"dst":"10.0.0.0/24","out":1},{"switch":"d","priority":100,"dst":"10.0.0.0/24","out":3}]}"#
}

/// The path s y w x d, at a higher priority.
pub fn above() -> &'static [u8] {
    br#"{"rules": [{"switch": "s", "priority": 200, "dst": "10.0.0.0/24", "out": 3}, {"switch": "x", "priority": 200, "dst": "10.0.0.0/24", "out": 3}, {"switch": "w", "priority": 200, "dst": "10.0.0.0/24", "out": 1}, {"switch": "y", "priority": 200, "dst": "10.0.0.0/24", "out": 1}, {"switch": "d", "priority": 200, "dst": "10.0.0.0/24", "out": 3}]}"#
}

/// The path s x w y d, with a second rule at y.
pub fn added() -> &'static [u8] {
    br#"{"rules": [{"switch": "s", "priority": 100, "dst": "10.0.0.0/24", "out": 2}, {"switch": "x", "priority": 100, "dst": "10.0.0.0/24", "out": 2}, {"switch": "w", "priority": 100, "dst": "10.0.0.0/24", "out": 2}, {"switch": "y", "priority": 100, "dst": "10.0.0.0/24", "out": 2}, {"switch": "d", "priority": 100, "dst": "10.0.0.0/24", "out": 3}, {"switch": "y", "priority": 200, "dst": "10.0.0.0/24", "out": 2}]}"#
}

/// The path s x w y d, where x drops the packets.
pub fn dropping() -> &'static [u8] {
    br#"{"rules":[{"switch":"s","priority":100,"dst":"10.0.0.0/24","out":2},{"switch":"x","priority":100,"dst":"10.0.0.0/24","out":"drop"},{"switch":"w","priority":100,"dst":"10.0.0.0/24","out":2},{"switch":"y","priority":100,"dst":"10.0.0.0/24","out":2},{"switch":"d","priority":100,"dst":"10.0.0.0/24","out":3}]}"#
}

/// The path s y d.
pub fn short() -> &'static [u8] {
    br#"{"rules":[{"switch":"s","priority":100,"dst":"10.0.0.0/24","out":3},{"switch":"x","priority":100,"dst":"10.0.0.0/24","out":2},{"switch":"w","priority":100,"dst":"10.0.0.0/24","out":2},{"switch":"y","priority":100,"dst":"10.0.0.0/24","out":2},{"switch":"d","priority":100,"dst":"10.0.0.0/24","out":3}]}"#
}

/// From s through w, and they must arrive.
pub fn policy() -> &'static [u8] {
    br#"{"demands":[{"from":"s:1","dst":"10.0.0.0/24","through":["w"],"deliver":true}]}"#
}

/// From s through w, and they need not arrive.
pub fn open_policy() -> &'static [u8] {
    br#"{"demands": [{"from": "s:1", "dst": "10.0.0.0/24", "through": ["w"]}]}"#
}

/// From s through x and then y, and they must arrive.
pub fn chain_policy() -> &'static [u8] {
    br#"{"demands":[{"from":"s:1","dst":"10.0.0.0/24","through":["x","y"],"deliver":true}]}"#
}

/// From a port that is no host port.
pub fn policy_of_no_host() -> &'static [u8] {
    br#"{"demands":[{"from":"s:2","dst":"10.0.0.0/24"}]}"#
}

/// The path s x w y d gives way to s y w x d, and w is visited in each state.
pub fn update() -> UpdateTexts<'static> {
    UpdateTexts {
        topology: topology(),
        old: old(),
        new: new(),
        policy: policy(),
    }
}

/// The update, where s has room for four rules.
pub fn update_of_four_entries() -> UpdateTexts<'static> {
    UpdateTexts {
        topology: topology_of_four_entries(),
        old: old(),
        new: new(),
        policy: policy(),
    }
}

/// The update, where s has room for five rules.
pub fn update_of_five_entries() -> UpdateTexts<'static> {
    UpdateTexts {
        topology: topology_of_five_entries(),
        old: old(),
        new: new(),
        policy: policy(),
    }
}

/// The update, with two VLANs and one tag.
pub fn update_of_one_tag() -> UpdateTexts<'static> {
    UpdateTexts {
        topology: topology_of_one_tag(),
        old: old(),
        new: new(),
        policy: policy(),
    }
}

/// The update, where packets need not arrive.
pub fn open_update() -> UpdateTexts<'static> {
    UpdateTexts {
        topology: topology(),
        old: old(),
        new: new(),
        policy: open_policy(),
    }
}

/// The update without tags, where packets need not arrive.
pub fn open_update_without_tags() -> UpdateTexts<'static> {
    UpdateTexts {
        topology: topology_without_tags(),
        old: old(),
        new: new(),
        policy: open_policy(),
    }
}

/// The new rules have a higher priority, and packets need not arrive.
pub fn update_above() -> UpdateTexts<'static> {
    UpdateTexts {
        topology: topology(),
        old: old(),
        new: above(),
        policy: open_policy(),
    }
}

/// A second rule at y, where x and then y are visited.
pub fn chain_update() -> UpdateTexts<'static> {
    UpdateTexts {
        topology: topology(),
        old: old(),
        new: added(),
        policy: chain_policy(),
    }
}

/// An update whose new configuration drops the packets.
pub fn dropping_update() -> UpdateTexts<'static> {
    UpdateTexts {
        topology: topology(),
        old: old(),
        new: dropping(),
        policy: policy(),
    }
}
