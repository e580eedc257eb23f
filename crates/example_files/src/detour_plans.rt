//! Plans for the updates of the detour.

/// Two phases, in eight rounds.
pub fn two_phases() -> &'static [u8] {
    br#"{"format":2,"kind":"two-phase","labels":[[["untagged","old","untagged"],[3000,"new","untagged"]],[["untagged","new","untagged"],[3000,"new","untagged"]]],"picks":[[1,0],[4,1]],"rounds":[[["insert",0],["insert",1],["insert",2],["insert",3],["insert",4],["insert",5],["insert",6],["insert",7],["insert",8],["insert",9]],[["insert",10],["insert",11]],[["insert",12],["insert",13]],[["replace",14],["replace",15],["replace",16],["replace",17]],[],[["delete",12],["delete",13]],[["delete",10],["delete",11]],[["delete",0],["delete",1],["delete",2],["delete",3],["delete",4],["delete",5],["delete",6],["delete",7],["delete",8],["delete",9]]],"rules":[{"dst":"10.0.0.0/24","out":3,"priority":16484,"switch":"s","vlan":3000},{"dst":"0.0.0.0/0","out":"drop","priority":16384,"switch":"s","vlan":3000},{"dst":"10.0.0.0/24","out":3,"priority":16484,"switch":"x","vlan":3000},{"dst":"0.0.0.0/0","out":"drop","priority":16384,"switch":"x","vlan":3000},{"dst":"10.0.0.0/24","out":1,"priority":16484,"switch":"w","vlan":3000},{"dst":"0.0.0.0/0","out":"drop","priority":16384,"switch":"w","vlan":3000},{"dst":"10.0.0.0/24","out":1,"priority":16484,"switch":"y","vlan":3000},{"dst":"0.0.0.0/0","out":"drop","priority":16384,"switch":"y","vlan":3000},{"dst":"10.0.0.0/24","out":3,"priority":16484,"strip":true,"switch":"d","vlan":3000},{"dst":"0.0.0.0/0","out":"drop","priority":16384,"switch":"d","vlan":3000},{"dst":"10.0.0.0/24","in_port":1,"out":3,"priority":32868,"set":3000,"switch":"s","vlan":"untagged"},{"dst":"10.0.0.0/24","in_port":3,"out":3,"priority":32868,"switch":"d","vlan":"untagged"},{"dst":"0.0.0.0/0","in_port":1,"out":"drop","priority":32768,"switch":"s"},{"dst":"0.0.0.0/0","in_port":3,"out":"drop","priority":32768,"switch":"d"},{"dst":"10.0.0.0/24","out":3,"priority":100,"switch":"s"},{"dst":"10.0.0.0/24","out":3,"priority":100,"switch":"x"},{"dst":"10.0.0.0/24","out":1,"priority":100,"switch":"w"},{"dst":"10.0.0.0/24","out":1,"priority":100,"switch":"y"}],"tried":[]}
"#
}

/// Two phases, after two rounds that were tried.
pub fn two_phases_after_two_rounds() -> &'static [u8] {
    br#"{"format":2,"kind":"two-phase","labels":[[["untagged","old","untagged"],[3000,"new","untagged"]],[["untagged","new","untagged"],[3000,"new","untagged"]]],"picks":[[1,0],[4,1]],"rounds":[[["insert",0],["insert",1],["insert",2],["insert",3],["insert",4],["insert",5],["insert",6],["insert",7],["insert",8],["insert",9]],[["insert",10],["insert",11]],[["insert",12],["insert",13]],[["replace",14],["replace",15],["replace",16],["replace",17]],[],[["delete",12],["delete",13]],[["delete",10],["delete",11]],[["delete",0],["delete",1],["delete",2],["delete",3],["delete",4],["delete",5],["delete",6],["delete",7],["delete",8],["delete",9]]],"rules":[{"dst":"10.0.0.0/24","out":3,"priority":16484,"switch":"s","vlan":3000},{"dst":"0.0.0.0/0","out":"drop","priority":16384,"switch":"s","vlan":3000},{"dst":"10.0.0.0/24","out":3,"priority":16484,"switch":"x","vlan":3000},{"dst":"0.0.0.0/0","out":"drop","priority":16384,"switch":"x","vlan":3000},{"dst":"10.0.0.0/24","out":1,"priority":16484,"switch":"w","vlan":3000},{"dst":"0.0.0.0/0","out":"drop","priority":16384,"switch":"w","vlan":3000},{"dst":"10.0.0.0/24","out":1,"priority":16484,"switch":"y","vlan":3000},{"dst":"0.0.0.0/0","out":"drop","priority":16384,"switch":"y","vlan":3000},{"dst":"10.0.0.0/24","out":3,"priority":16484,"strip":true,"switch":"d","vlan":3000},{"dst":"0.0.0.0/0","out":"drop","priority":16384,"switch":"d","vlan":3000},{"dst":"10.0.0.0/24","in_port":1,"out":3,"priority":32868,"set":3000,"switch":"s","vlan":"untagged"},{"dst":"10.0.0.0/24","in_port":3,"out":3,"priority":32868,"switch":"d","vlan":"untagged"},{"dst":"0.0.0.0/0","in_port":1,"out":"drop","priority":32768,"switch":"s"},{"dst":"0.0.0.0/0","in_port":3,"out":"drop","priority":32768,"switch":"d"},{"dst":"10.0.0.0/24","out":3,"priority":100,"switch":"s"},{"dst":"10.0.0.0/24","out":3,"priority":100,"switch":"x"},{"dst":"10.0.0.0/24","out":1,"priority":100,"switch":"w"},{"dst":"10.0.0.0/24","out":1,"priority":100,"switch":"y"}],"tried":[[["replace",16]],[["replace",17]]]}
"#
}

/// Ten ordered rounds, in which packets may be dropped.
pub fn ten_rounds() -> &'static [u8] {
    br#"{"befores":[[0,1],[0,3]],"format":2,"kind":"ordered","numberings":[[0,0,0,0,0],[4,3,2,1,0],[4,1,2,3,0]],"picks":[[1,0,0],[1,1,1],[1,2,0],[1,3,0],[1,4,0],[1,5,0],[7,1,2]],"rounds":[[["delete",0]],[["insert",1]],[["delete",2]],[["insert",3]],[["delete",4]],[["insert",5]],[["insert",6]],[["delete",7]],[["insert",8]],[["delete",9]]],"rules":[{"dst":"10.0.0.0/24","out":2,"priority":100,"switch":"s"},{"dst":"10.0.0.0/24","out":3,"priority":200,"switch":"x"},{"dst":"10.0.0.0/24","out":2,"priority":100,"switch":"x"},{"dst":"10.0.0.0/24","out":1,"priority":200,"switch":"w"},{"dst":"10.0.0.0/24","out":2,"priority":100,"switch":"w"},{"dst":"10.0.0.0/24","out":1,"priority":200,"switch":"y"},{"dst":"10.0.0.0/24","out":3,"priority":200,"switch":"s"},{"dst":"10.0.0.0/24","out":2,"priority":100,"switch":"y"},{"dst":"10.0.0.0/24","out":3,"priority":200,"switch":"d"},{"dst":"10.0.0.0/24","out":3,"priority":100,"switch":"d"}],"uses":[[0,[]],[1,[0]],[2,[1]]]}
"#
}

/// The first switch may send past the waypoint.
pub fn past_the_waypoint() -> &'static [u8] {
    br#"{"format": 1, "kind": "ordered", "rounds": [[{"do": "replace", "switch": "s", "priority": 100, "dst": "10.0.0.0/24", "out": 3}]], "numberings": [[4, 3, 2, 1, 0]], "befores": [[0, 1]], "picks": [[1, 0, 0, []], [1, 1, 0, [0]], [1, 2, 0, []], [1, 3, 0, []], [1, 4, 0, []], [1, 5, 0, []]]}"#
}

/// A waypoint without a set.
pub fn no_set() -> &'static [u8] {
    br#"{"format": 1, "kind": "ordered", "rounds": [[{"do": "replace", "switch": "s", "priority": 100, "dst": "10.0.0.0/24", "out": 3}]], "numberings": [[4, 3, 2, 1, 0]], "befores": [[0, 1]], "picks": [[1, 0, 0, []], [1, 1, 0, []], [1, 2, 0, []], [1, 3, 0, []], [1, 4, 0, []], [1, 5, 0, []]]}"#
}

/// One round, with sets for both waypoints, in format 2.
pub fn chain() -> &'static [u8] {
    br#"{"befores":[[0],[0,1,2]],"format":2,"kind":"ordered","numberings":[[0,0,0,0,0],[4,3,2,1,0]],"picks":[[1,0,0],[1,1,1],[1,2,0],[1,3,0],[1,4,0],[1,5,0]],"rounds":[[["insert",0]]],"rules":[{"dst":"10.0.0.0/24","out":2,"priority":200,"switch":"y"}],"uses":[[0,[]],[1,[0,1]]]}
"#
}

/// The same in format 1.
pub fn chain_in_format_1() -> &'static [u8] {
    br#"{"befores":[[0],[0,1,2]],"format":1,"kind":"ordered","numberings":[[0,0,0,0,0],[4,3,2,1,0]],"picks":[[1,0,0,[]],[1,1,1,[0,1]],[1,2,0,[]],[1,3,0,[]],[1,4,0,[]],[1,5,0,[]]],"rounds":[[{"do":"insert","dst":"10.0.0.0/24","out":2,"priority":200,"switch":"y"}]]}
"#
}

/// The set before y lacks a switch.
pub fn past_the_second_waypoint() -> &'static [u8] {
    br#"{"befores":[[0],[0,1]],"format":1,"kind":"ordered","numberings":[[0,0,0,0,0],[4,3,2,1,0]],"picks":[[1,0,0,[]],[1,1,1,[0,1]],[1,2,0,[]],[1,3,0,[]],[1,4,0,[]],[1,5,0,[]]],"rounds":[[{"do":"insert","dst":"10.0.0.0/24","out":2,"priority":200,"switch":"y"}]]}
"#
}
