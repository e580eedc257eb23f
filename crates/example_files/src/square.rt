//! Four switches s1 to s4 in a row, with a link from s1 to s3 and one from s1 to s4, and updates of the path along the row.

use crate::held::UpdateTexts;

/// Four switches in a row, with a link from s1 to s3 and one from s1 to s4.
pub fn topology() -> &'static [u8] {
    br#"{"switches":[{"name":"s1","capacity":8},{"name":"s2","capacity":8},{"name":"s3","capacity":8},{"name":"s4","capacity":8}],"links":[["s1:2","s2:1"],["s2:2","s3:1"],["s3:2","s4:1"],["s1:3","s3:3"],["s1:4","s4:2"]],"hosts":["s1:1","s2:3","s3:4","s4:3"],"vlans":["untagged"],"tags":[3000,3009]}"#
}

/// The topology, whose first link joins a port to itself.
pub fn joined_to_itself() -> &'static [u8] {
    br#"{"switches":[{"name":"s1","capacity":8},{"name":"s2","capacity":8},{"name":"s3","capacity":8},{"name":"s4","capacity":8}],"links":[["s1:2","s1:2"],["s2:2","s3:1"],["s3:2","s4:1"],["s1:3","s3:3"],["s1:4","s4:2"]],"hosts":["s1:1","s2:3","s3:4","s4:3"],"vlans":["untagged"],"tags":[3000,3009]}"#
}

/// The row as the path.
pub fn old() -> &'static [u8] {
    br#"{"rules":[{"switch":"s1","priority":100,"dst":"10.0.0.0/24","out":2},{"switch":"s2","priority":100,"dst":"10.0.0.0/24","out":2},{"switch":"s3","priority":100,"dst":"10.0.0.0/24","out":2},{"switch":"s4","priority":100,"dst":"10.0.0.0/24","out":3}]}"#
}

/// s1 sends to s4, and s3 sends back to s1.
pub fn new() -> &'static [u8] {
    br#"{"rules": [{"switch": "s1", "priority": 100, "dst": "10.0.0.0/24", "out": 4}, {"switch": "s2", "priority": 100, "dst": "10.0.0.0/24", "out": 2}, {"switch": "s3", "priority": 100, "dst": "10.0.0.0/24", "out": 3}, {"switch": "s4", "priority": 100, "dst": "10.0.0.0/24", "out": 3}]}"#
}

/// From s1, s2 and s3 the packets must arrive.
pub fn policy() -> &'static [u8] {
    br#"{"demands":[{"from":"s1:1","dst":"10.0.0.0/24","deliver":true},{"from":"s2:3","dst":"10.0.0.0/24","deliver":true},{"from":"s3:4","dst":"10.0.0.0/24","deliver":true}]}"#
}

/// The path along the row gives way to the link from s1 to s4.
pub fn update() -> UpdateTexts<'static> {
    UpdateTexts {
        topology: topology(),
        old: old(),
        new: new(),
        policy: policy(),
    }
}

/// An update that changes nothing.
pub fn no_change() -> UpdateTexts<'static> {
    UpdateTexts {
        topology: topology(),
        old: old(),
        new: old(),
        policy: policy(),
    }
}

/// Two ordered rounds, in format 2.
pub fn plan() -> &'static [u8] {
    br#"{"befores":[],"format":2,"kind":"ordered","numberings":[[0,0,0,0],[3,2,1,0],[0,2,1,0],[0,0,1,0],[1,3,2,0],[1,0,2,0]],"picks":[[1,0,0],[1,1,1],[1,2,0],[1,3,0],[1,4,2],[1,5,0],[1,6,0],[1,7,3],[1,8,0],[1,9,0],[1,10,0],[1,11,0],[2,4,4],[2,7,5]],"rounds":[[["replace",0]],[["replace",1]]],"rules":[{"dst":"10.0.0.0/24","out":4,"priority":100,"switch":"s1"},{"dst":"10.0.0.0/24","out":3,"priority":100,"switch":"s3"}],"uses":[[0,[]],[1,[]],[2,[]],[3,[]],[4,[]],[5,[]]]}
"#
}

/// The same in format 1.
pub fn plan_in_format_1() -> &'static [u8] {
    br#"{"befores":[],"format":1,"kind":"ordered","numberings":[[0,0,0,0],[3,2,1,0],[0,2,1,0],[0,0,1,0],[1,3,2,0],[1,0,2,0]],"picks":[[1,0,0,[]],[1,1,1,[]],[1,2,0,[]],[1,3,0,[]],[1,4,2,[]],[1,5,0,[]],[1,6,0,[]],[1,7,3,[]],[1,8,0,[]],[1,9,0,[]],[1,10,0,[]],[1,11,0,[]],[2,4,4,[]],[2,7,5,[]]],"rounds":[[{"do":"replace","dst":"10.0.0.0/24","out":4,"priority":100,"switch":"s1"}],[{"do":"replace","dst":"10.0.0.0/24","out":3,"priority":100,"switch":"s3"}]]}
"#
}

/// Both changes in one round: a packet may come back to s1.
pub fn both_at_once() -> &'static [u8] {
    br#"{"format": 1, "kind": "ordered", "rounds": [[{"do": "replace", "switch": "s1", "priority": 100, "dst": "10.0.0.0/24", "out": 4}, {"do": "replace", "switch": "s3", "priority": 100, "dst": "10.0.0.0/24", "out": 3}]], "numberings": [[4, 3, 2, 1]], "befores": [], "picks": [[1, 0, 0, []], [1, 1, 0, []], [1, 2, 0, []], [1, 3, 0, []], [1, 4, 0, []], [1, 5, 0, []], [1, 6, 0, []], [1, 7, 0, []], [1, 8, 0, []], [1, 9, 0, []], [1, 10, 0, []], [1, 11, 0, []]]}"#
}

/// The first change sets a tag.
pub fn rewrites() -> &'static [u8] {
    br#"{"befores":[],"format":1,"kind":"ordered","numberings":[[0,0,0,0],[3,2,1,0],[0,2,1,0],[0,0,1,0],[1,3,2,0],[1,0,2,0]],"picks":[[1,0,0,[]],[1,1,1,[]],[1,2,0,[]],[1,3,0,[]],[1,4,2,[]],[1,5,0,[]],[1,6,0,[]],[1,7,3,[]],[1,8,0,[]],[1,9,0,[]],[1,10,0,[]],[1,11,0,[]],[2,4,4,[]],[2,7,5,[]]],"rounds":[[{"do":"replace","dst":"10.0.0.0/24","out":4,"priority":100,"set":3000,"switch":"s1"}],[{"do":"replace","dst":"10.0.0.0/24","out":3,"priority":100,"switch":"s3"}]]}
"#
}

/// The first change deletes a rule that isn't there.
pub fn nothing_to_delete() -> &'static [u8] {
    br#"{"befores":[],"format":1,"kind":"ordered","numberings":[[0,0,0,0],[3,2,1,0],[0,2,1,0],[0,0,1,0],[1,3,2,0],[1,0,2,0]],"picks":[[1,0,0,[]],[1,1,1,[]],[1,2,0,[]],[1,3,0,[]],[1,4,2,[]],[1,5,0,[]],[1,6,0,[]],[1,7,3,[]],[1,8,0,[]],[1,9,0,[]],[1,10,0,[]],[1,11,0,[]],[2,4,4,[]],[2,7,5,[]]],"rounds":[[{"do":"delete","dst":"10.0.0.0/24","out":4,"priority":100,"switch":"s1"}],[{"do":"replace","dst":"10.0.0.0/24","out":3,"priority":100,"switch":"s3"}]]}
"#
}

/// The first class has no pick.
pub fn a_pick_too_few() -> &'static [u8] {
    br#"{"befores":[],"format":1,"kind":"ordered","numberings":[[0,0,0,0],[3,2,1,0],[0,2,1,0],[0,0,1,0],[1,3,2,0],[1,0,2,0]],"picks":[[1,1,1,[]],[1,2,0,[]],[1,3,0,[]],[1,4,2,[]],[1,5,0,[]],[1,6,0,[]],[1,7,3,[]],[1,8,0,[]],[1,9,0,[]],[1,10,0,[]],[1,11,0,[]],[2,4,4,[]],[2,7,5,[]]],"rounds":[[{"do":"replace","dst":"10.0.0.0/24","out":4,"priority":100,"switch":"s1"}],[{"do":"replace","dst":"10.0.0.0/24","out":3,"priority":100,"switch":"s3"}]]}
"#
}
