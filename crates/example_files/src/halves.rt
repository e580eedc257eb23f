//! The path s x w y d with rules for the two halves of its addresses, and policies with many chains of waypoints.

use crate::detour;
use crate::held::UpdateTexts;

/// The path s x w y d, with a rule of its own at s for the second half.
pub fn split() -> &'static [u8] {
    br#"{"rules":[{"switch":"s","priority":100,"dst":"10.0.0.0/24","out":2},{"switch":"x","priority":100,"dst":"10.0.0.0/24","out":2},{"switch":"w","priority":100,"dst":"10.0.0.0/24","out":2},{"switch":"y","priority":100,"dst":"10.0.0.0/24","out":2},{"switch":"d","priority":100,"dst":"10.0.0.0/24","out":3},{"switch":"s","priority":200,"dst":"10.0.0.128/25","out":2}]}"#
}

/// The same, with a second rule at y.
pub fn split_and_added() -> &'static [u8] {
    br#"{"rules":[{"switch":"s","priority":100,"dst":"10.0.0.0/24","out":2},{"switch":"x","priority":100,"dst":"10.0.0.0/24","out":2},{"switch":"w","priority":100,"dst":"10.0.0.0/24","out":2},{"switch":"y","priority":100,"dst":"10.0.0.0/24","out":2},{"switch":"d","priority":100,"dst":"10.0.0.0/24","out":3},{"switch":"s","priority":200,"dst":"10.0.0.128/25","out":2},{"switch":"y","priority":200,"dst":"10.0.0.0/24","out":2}]}"#
}

/// The second half takes the path s y d.
pub fn parted() -> &'static [u8] {
    br#"{"rules":[{"switch":"s","priority":100,"dst":"10.0.0.0/24","out":2},{"switch":"x","priority":100,"dst":"10.0.0.0/24","out":2},{"switch":"w","priority":100,"dst":"10.0.0.0/24","out":2},{"switch":"y","priority":100,"dst":"10.0.0.0/24","out":2},{"switch":"d","priority":100,"dst":"10.0.0.0/24","out":3},{"switch":"s","priority":200,"dst":"10.0.0.128/25","out":3}]}"#
}

/// From s through 21 chains along the path, with 65 waypoints.
pub fn many_chains() -> &'static [u8] {
    br#"{"demands":[{"dst":"10.0.0.0/24","from":"s:1","through":["s","x","w","y","d"]},{"dst":"10.0.0.0/24","from":"s:1","through":["s","x","w","y"]},{"dst":"10.0.0.0/24","from":"s:1","through":["s","x","w","d"]},{"dst":"10.0.0.0/24","from":"s:1","through":["s","x","y","d"]},{"dst":"10.0.0.0/24","from":"s:1","through":["s","w","y","d"]},{"dst":"10.0.0.0/24","from":"s:1","through":["x","w","y","d"]},{"dst":"10.0.0.0/24","from":"s:1","through":["s","x","w"]},{"dst":"10.0.0.0/24","from":"s:1","through":["s","x","y"]},{"dst":"10.0.0.0/24","from":"s:1","through":["s","x","d"]},{"dst":"10.0.0.0/24","from":"s:1","through":["s","w","y"]},{"dst":"10.0.0.0/24","from":"s:1","through":["s","w","d"]},{"dst":"10.0.0.0/24","from":"s:1","through":["s","y","d"]},{"dst":"10.0.0.0/24","from":"s:1","through":["x","w","y"]},{"dst":"10.0.0.0/24","from":"s:1","through":["x","w","d"]},{"dst":"10.0.0.0/24","from":"s:1","through":["x","y","d"]},{"dst":"10.0.0.0/24","from":"s:1","through":["w","y","d"]},{"dst":"10.0.0.0/24","from":"s:1","through":["s","x"]},{"dst":"10.0.0.0/24","from":"s:1","through":["s","w"]},{"dst":"10.0.0.0/24","from":"s:1","through":["s","y"]},{"dst":"10.0.0.0/24","from":"s:1","through":["s","d"]},{"dst":"10.0.0.0/24","from":"s:1","through":["x","w"]}]}"#
}

/// From s through four chains along the path, and the second half through y and then w too.
pub fn turned_for_one_half() -> &'static [u8] {
    br#"{"demands":[{"dst":"10.0.0.0/24","from":"s:1","through":["x"]},{"dst":"10.0.0.0/24","from":"s:1","through":["x","w"]},{"dst":"10.0.0.0/24","from":"s:1","through":["w"]},{"dst":"10.0.0.0/24","from":"s:1","through":["y"]},{"dst":"10.0.0.128/25","from":"s:1","through":["y","w"]}]}"#
}

/// A second rule at y, under many chains.
pub fn update() -> UpdateTexts<'static> {
    UpdateTexts {
        topology: detour::topology(),
        old: split(),
        new: split_and_added(),
        policy: many_chains(),
    }
}

/// One round, with one use for both halves.
pub fn plan() -> &'static [u8] {
    br#"{"befores":[[],[0],[0,1],[0,1,2],[0,1,2,3]],"format":2,"kind":"ordered","numberings":[[0,0,0,0,0],[4,3,2,1,0]],"picks":[[1,0,0],[1,1,1],[1,2,1],[1,3,0],[1,4,0],[1,5,0],[1,6,0],[1,7,0]],"rounds":[[["insert",0]]],"rules":[{"dst":"10.0.0.0/24","out":2,"priority":200,"switch":"y"}],"uses":[[0,[]],[1,[0,1,0,1,2,0,1,2,3,0,1,2,3,4,0,1,2,4,0,1,3,0,1,3,4,0,1,4,0,2,0,2,3,0,2,3,4,0,2,4,0,3,0,3,4,0,4,1,2,1,2,3,1,2,3,4,1,2,4,1,3,4,2,3,4]]]}
"#
}

/// The use of the second half has no switch in the set before the last waypoint.
pub fn past_the_last_waypoint_in_one_half() -> &'static [u8] {
    br#"{"befores":[[],[0],[0,1],[0,1,2],[0,1,2,3]],"format":2,"kind":"ordered","numberings":[[0,0,0,0,0],[4,3,2,1,0]],"picks":[[1,0,0],[1,1,1],[1,2,2],[1,3,0],[1,4,0],[1,5,0],[1,6,0],[1,7,0]],"rounds":[[["insert",0]]],"rules":[{"dst":"10.0.0.0/24","out":2,"priority":200,"switch":"y"}],"uses":[[0,[]],[1,[0,1,0,1,2,0,1,2,3,0,1,2,3,4,0,1,2,4,0,1,3,0,1,3,4,0,1,4,0,2,0,2,3,0,2,3,4,0,2,4,0,3,0,3,4,0,4,1,2,1,2,3,1,2,3,4,1,2,4,1,3,4,2,3,4]],[1,[0,1,0,1,2,0,1,2,3,0,1,2,3,4,0,1,2,4,0,1,3,0,1,3,4,0,1,4,0,2,0,2,3,0,2,3,4,0,2,4,0,3,0,3,4,0,4,1,2,1,2,3,1,2,3,4,1,2,4,1,3,4,2,3,0]]]}"#
}
