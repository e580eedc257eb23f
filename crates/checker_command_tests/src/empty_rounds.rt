//! Plans of the square network with rounds in which nothing changes.

/// An empty round before, between and behind the two rounds, without evidence.
pub(crate) fn rounds() -> &'static [u8] {
    br#"{"format":1,"kind":"ordered","rounds":[[],[{"do":"replace","dst":"10.0.0.0/24","out":4,"priority":100,"switch":"s1"}],[],[{"do":"replace","dst":"10.0.0.0/24","out":3,"priority":100,"switch":"s3"}],[]],"numberings":[],"befores":[],"picks":[]}"#
}

/// The picks of the first round, where the old paths count, keep all classes safe up to the fourth.
pub(crate) fn plan() -> &'static [u8] {
    br#"{"befores":[],"format":2,"kind":"ordered","numberings":[[0,0,0,0],[3,2,1,0],[0,2,1,0],[0,0,1,0],[1,3,2,0],[1,0,2,0]],"picks":[[1,0,0],[1,1,1],[1,2,0],[1,3,0],[1,4,2],[1,5,0],[1,6,0],[1,7,3],[1,8,0],[1,9,0],[1,10,0],[1,11,0],[4,4,4],[4,7,5]],"rounds":[[],[["replace",0]],[],[["replace",1]],[]],"rules":[{"dst":"10.0.0.0/24","out":4,"priority":100,"switch":"s1"},{"dst":"10.0.0.0/24","out":3,"priority":100,"switch":"s3"}],"uses":[[0,[]],[1,[]],[2,[]],[3,[]],[4,[]],[5,[]]]}
"#
}

/// Two empty rounds, without evidence.
pub(crate) fn none_but_empty() -> &'static [u8] {
    br#"{"format":1,"kind":"ordered","rounds":[[],[]],"numberings":[],"befores":[],"picks":[]}"#
}

/// The same with picks for the old paths.
pub(crate) fn none_but_empty_plan() -> &'static [u8] {
    br#"{"befores":[],"format":2,"kind":"ordered","numberings":[[0,0,0,0],[3,2,1,0],[0,2,1,0],[0,0,1,0]],"picks":[[1,0,0],[1,1,1],[1,2,0],[1,3,0],[1,4,2],[1,5,0],[1,6,0],[1,7,3],[1,8,0],[1,9,0],[1,10,0],[1,11,0]],"rounds":[[],[]],"rules":[],"uses":[[0,[]],[1,[]],[2,[]],[3,[]]]}
"#
}

/// A two-phase plan without rounds.
pub(crate) fn two_phases() -> &'static [u8] {
    br#"{"format":2,"kind":"two-phase","rules":[],"rounds":[],"labels":[],"picks":[],"tried":[]}"#
}
