//! Four leaf switches and two spine switches, and an update from one spine to the other.

use crate::held::UpdateTexts;

/// Four leaves and two spines.
pub fn topology() -> &'static [u8] {
    br#"{"switches": [{"name": "l1", "capacity": 1000}, {"name": "l2", "capacity": 1000}, {"name": "l3", "capacity": 1000}, {"name": "l4", "capacity": 1000}, {"name": "p1", "capacity": 1000}, {"name": "p2", "capacity": 1000}], "links": [["l1:3", "p1:1"], ["l1:4", "p2:1"], ["l2:3", "p1:2"], ["l2:4", "p2:2"], ["l3:3", "p1:3"], ["l3:4", "p2:3"], ["l4:3", "p1:4"], ["l4:4", "p2:4"]], "hosts": ["l1:1", "l1:2", "l2:1", "l2:2", "l3:1", "l3:2", "l4:1", "l4:2"], "vlans": ["untagged", 10], "tags": [3000, 3009]}"#
}

/// The same, without tags.
pub fn topology_without_tags() -> &'static [u8] {
    br#"{"switches": [{"name": "l1", "capacity": 1000}, {"name": "l2", "capacity": 1000}, {"name": "l3", "capacity": 1000}, {"name": "l4", "capacity": 1000}, {"name": "p1", "capacity": 1000}, {"name": "p2", "capacity": 1000}], "links": [["l1:3", "p1:1"], ["l1:4", "p2:1"], ["l2:3", "p1:2"], ["l2:4", "p2:2"], ["l3:3", "p1:3"], ["l3:4", "p2:3"], ["l4:3", "p1:4"], ["l4:4", "p2:4"]], "hosts": ["l1:1", "l1:2", "l2:1", "l2:2", "l3:1", "l3:2", "l4:1", "l4:2"], "vlans": ["untagged", 10], "tags": []}"#
}

/// Each leaf sends by the first spine.
pub fn old() -> &'static [u8] {
    br#"{"rules": [{"switch": "l1", "priority": 100, "dst": "10.1.1.0/24", "out": 1}, {"switch": "l1", "priority": 100, "dst": "10.1.2.0/24", "out": 3}, {"switch": "l1", "priority": 100, "dst": "10.1.3.0/24", "out": 3}, {"switch": "l1", "priority": 100, "dst": "10.1.4.0/24", "out": 3}, {"switch": "l2", "priority": 100, "dst": "10.1.1.0/24", "out": 3}, {"switch": "l2", "priority": 100, "dst": "10.1.2.0/24", "out": 1}, {"switch": "l2", "priority": 100, "dst": "10.1.3.0/24", "out": 3}, {"switch": "l2", "priority": 100, "dst": "10.1.4.0/24", "out": 3}, {"switch": "l3", "priority": 100, "dst": "10.1.1.0/24", "out": 3}, {"switch": "l3", "priority": 100, "dst": "10.1.2.0/24", "out": 3}, {"switch": "l3", "priority": 100, "dst": "10.1.3.0/24", "out": 1}, {"switch": "l3", "priority": 100, "dst": "10.1.4.0/24", "out": 3}, {"switch": "l4", "priority": 100, "dst": "10.1.1.0/24", "out": 3}, {"switch": "l4", "priority": 100, "dst": "10.1.2.0/24", "out": 3}, {"switch": "l4", "priority": 100, "dst": "10.1.3.0/24", "out": 3}, {"switch": "l4", "priority": 100, "dst": "10.1.4.0/24", "out": 1}, {"switch": "p1", "priority": 100, "dst": "10.1.1.0/24", "out": 1}, {"switch": "p1", "priority": 100, "dst": "10.1.2.0/24", "out": 2}, {"switch": "p1", "priority": 100, "dst": "10.1.3.0/24", "out": 3}, {"switch": "p1", "priority": 100, "dst": "10.1.4.0/24", "out": 4}, {"switch": "p2", "priority": 100, "dst": "10.1.1.0/24", "out": 1}, {"switch": "p2", "priority": 100, "dst": "10.1.2.0/24", "out": 2}, {"switch": "p2", "priority": 100, "dst": "10.1.3.0/24", "out": 3}, {"switch": "p2", "priority": 100, "dst": "10.1.4.0/24", "out": 4}]}"#
}

/// Each leaf sends by the second spine.
pub fn new() -> &'static [u8] {
    br#"{"rules": [{"switch": "l1", "priority": 100, "dst": "10.1.1.0/24", "out": 1}, {"switch": "l1", "priority": 100, "dst": "10.1.2.0/24", "out": 4}, {"switch": "l1", "priority": 100, "dst": "10.1.3.0/24", "out": 4}, {"switch": "l1", "priority": 100, "dst": "10.1.4.0/24", "out": 4}, {"switch": "l2", "priority": 100, "dst": "10.1.1.0/24", "out": 4}, {"switch": "l2", "priority": 100, "dst": "10.1.2.0/24", "out": 1}, {"switch": "l2", "priority": 100, "dst": "10.1.3.0/24", "out": 4}, {"switch": "l2", "priority": 100, "dst": "10.1.4.0/24", "out": 4}, {"switch": "l3", "priority": 100, "dst": "10.1.1.0/24", "out": 4}, {"switch": "l3", "priority": 100, "dst": "10.1.2.0/24", "out": 4}, {"switch": "l3", "priority": 100, "dst": "10.1.3.0/24", "out": 1}, {"switch": "l3", "priority": 100, "dst": "10.1.4.0/24", "out": 4}, {"switch": "l4", "priority": 100, "dst": "10.1.1.0/24", "out": 4}, {"switch": "l4", "priority": 100, "dst": "10.1.2.0/24", "out": 4}, {"switch": "l4", "priority": 100, "dst": "10.1.3.0/24", "out": 4}, {"switch": "l4", "priority": 100, "dst": "10.1.4.0/24", "out": 1}, {"switch": "p1", "priority": 100, "dst": "10.1.1.0/24", "out": 1}, {"switch": "p1", "priority": 100, "dst": "10.1.2.0/24", "out": 2}, {"switch": "p1", "priority": 100, "dst": "10.1.3.0/24", "out": 3}, {"switch": "p1", "priority": 100, "dst": "10.1.4.0/24", "out": 4}, {"switch": "p2", "priority": 100, "dst": "10.1.1.0/24", "out": 1}, {"switch": "p2", "priority": 100, "dst": "10.1.2.0/24", "out": 2}, {"switch": "p2", "priority": 100, "dst": "10.1.3.0/24", "out": 3}, {"switch": "p2", "priority": 100, "dst": "10.1.4.0/24", "out": 4}]}"#
}

/// From the second host port of each leaf to each prefix, and they must arrive.
pub fn policy() -> &'static [u8] {
    br#"{"demands": [{"from": "l1:2", "dst": "10.1.1.0/24", "deliver": true}, {"from": "l1:2", "dst": "10.1.2.0/24", "deliver": true}, {"from": "l1:2", "dst": "10.1.3.0/24", "deliver": true}, {"from": "l1:2", "dst": "10.1.4.0/24", "deliver": true}, {"from": "l2:2", "dst": "10.1.1.0/24", "deliver": true}, {"from": "l2:2", "dst": "10.1.2.0/24", "deliver": true}, {"from": "l2:2", "dst": "10.1.3.0/24", "deliver": true}, {"from": "l2:2", "dst": "10.1.4.0/24", "deliver": true}, {"from": "l3:2", "dst": "10.1.1.0/24", "deliver": true}, {"from": "l3:2", "dst": "10.1.2.0/24", "deliver": true}, {"from": "l3:2", "dst": "10.1.3.0/24", "deliver": true}, {"from": "l3:2", "dst": "10.1.4.0/24", "deliver": true}, {"from": "l4:2", "dst": "10.1.1.0/24", "deliver": true}, {"from": "l4:2", "dst": "10.1.2.0/24", "deliver": true}, {"from": "l4:2", "dst": "10.1.3.0/24", "deliver": true}, {"from": "l4:2", "dst": "10.1.4.0/24", "deliver": true}]}"#
}

/// Each leaf sends by the other spine.
pub fn update() -> UpdateTexts<'static> {
    UpdateTexts {
        topology: topology(),
        old: old(),
        new: new(),
        policy: policy(),
    }
}

/// The same, without tags.
pub fn update_without_tags() -> UpdateTexts<'static> {
    UpdateTexts {
        topology: topology_without_tags(),
        old: old(),
        new: new(),
        policy: policy(),
    }
}

/// Twelve ordered rounds, by leaf and prefix.
pub fn plan() -> &'static [u8] {
    br#"{"befores":[],"format":2,"kind":"ordered","numberings":[[0,0,0,0,0,0],[2,0,0,0,1,1],[2,0,0,0,1,0],[0,2,0,0,1,0],[0,0,2,0,1,0],[0,0,0,2,1,0],[0,2,0,0,1,1],[0,0,2,0,1,1],[0,0,0,2,1,1]],"picks":[[1,0,0],[1,1,0],[1,2,1],[1,3,2],[1,4,2],[1,5,0],[1,6,0],[1,7,0],[1,8,1],[1,9,2],[1,10,2],[1,11,0],[1,12,0],[1,13,0],[1,14,1],[1,15,2],[1,16,2],[1,17,0],[1,18,0],[1,19,0],[1,20,1],[1,21,2],[1,22,2],[1,23,0],[1,24,0],[1,25,3],[1,26,0],[1,27,3],[1,28,3],[1,29,0],[1,30,0],[1,31,3],[1,32,0],[1,33,3],[1,34,3],[1,35,0],[1,36,0],[1,37,3],[1,38,0],[1,39,3],[1,40,3],[1,41,0],[1,42,0],[1,43,3],[1,44,0],[1,45,3],[1,46,3],[1,47,0],[1,48,0],[1,49,4],[1,50,4],[1,51,0],[1,52,4],[1,53,0],[1,54,0],[1,55,4],[1,56,4],[1,57,0],[1,58,4],[1,59,0],[1,60,0],[1,61,4],[1,62,4],[1,63,0],[1,64,4],[1,65,0],[1,66,0],[1,67,4],[1,68,4],[1,69,0],[1,70,4],[1,71,0],[1,72,0],[1,73,5],[1,74,5],[1,75,5],[1,76,0],[1,77,0],[1,78,0],[1,79,5],[1,80,5],[1,81,5],[1,82,0],[1,83,0],[1,84,0],[1,85,5],[1,86,5],[1,87,5],[1,88,0],[1,89,0],[1,90,0],[1,91,5],[1,92,5],[1,93,5],[1,94,0],[1,95,0],[2,3,1],[2,9,1],[2,15,1],[2,21,1],[3,4,1],[3,10,1],[3,16,1],[3,22,1],[4,25,6],[4,31,6],[4,37,6],[4,43,6],[5,27,6],[5,33,6],[5,39,6],[5,45,6],[6,28,6],[6,34,6],[6,40,6],[6,46,6],[7,49,7],[7,55,7],[7,61,7],[7,67,7],[8,50,7],[8,56,7],[8,62,7],[8,68,7],[9,52,7],[9,58,7],[9,64,7],[9,70,7],[10,73,8],[10,79,8],[10,85,8],[10,91,8],[11,74,8],[11,80,8],[11,86,8],[11,92,8],[12,75,8],[12,81,8],[12,87,8],[12,93,8]],"rounds":[[["replace",0]],[["replace",1]],[["replace",2]],[["replace",3]],[["replace",4]],[["replace",5]],[["replace",6]],[["replace",7]],[["replace",8]],[["replace",9]],[["replace",10]],[["replace",11]]],"rules":[{"dst":"10.1.2.0/24","out":4,"priority":100,"switch":"l1"},{"dst":"10.1.3.0/24","out":4,"priority":100,"switch":"l1"},{"dst":"10.1.4.0/24","out":4,"priority":100,"switch":"l1"},{"dst":"10.1.1.0/24","out":4,"priority":100,"switch":"l2"},{"dst":"10.1.3.0/24","out":4,"priority":100,"switch":"l2"},{"dst":"10.1.4.0/24","out":4,"priority":100,"switch":"l2"},{"dst":"10.1.1.0/24","out":4,"priority":100,"switch":"l3"},{"dst":"10.1.2.0/24","out":4,"priority":100,"switch":"l3"},{"dst":"10.1.4.0/24","out":4,"priority":100,"switch":"l3"},{"dst":"10.1.1.0/24","out":4,"priority":100,"switch":"l4"},{"dst":"10.1.2.0/24","out":4,"priority":100,"switch":"l4"},{"dst":"10.1.3.0/24","out":4,"priority":100,"switch":"l4"}],"uses":[[0,[]],[1,[]],[2,[]],[3,[]],[4,[]],[5,[]],[6,[]],[7,[]],[8,[]]]}
"#
}
