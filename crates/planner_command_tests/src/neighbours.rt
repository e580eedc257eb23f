//! An update in which the classes of the two halves of an address range have the same walks and other duties.
use example_files::{UpdateTexts, detour, halves};

/// From s through x, and the second half through y too.
fn more_for_one_half() -> &'static [u8] {
    br#"{"demands":[{"dst":"10.0.0.0/24","from":"s:1","through":["x"]},{"dst":"10.0.0.128/25","from":"s:1","through":["y"]}]}"#
}

/// A second rule at y, where the second half is asked for more.
pub(crate) fn update() -> UpdateTexts<'static> {
    UpdateTexts {
        topology: detour::topology(),
        old: halves::split(),
        new: halves::split_and_added(),
        policy: more_for_one_half(),
    }
}

/// One round, with a set more for the second half.
pub(crate) fn plan() -> &'static [u8] {
    br#"{"befores":[[0],[0,1,2]],"format":2,"kind":"ordered","numberings":[[0,0,0,0,0],[4,3,2,1,0]],"picks":[[1,0,0],[1,1,1],[1,2,2],[1,3,0],[1,4,0],[1,5,0],[1,6,0],[1,7,0]],"rounds":[[["insert",0]]],"rules":[{"dst":"10.0.0.0/24","out":2,"priority":200,"switch":"y"}],"uses":[[0,[]],[1,[0]],[1,[0,1]]]}
"#
}
