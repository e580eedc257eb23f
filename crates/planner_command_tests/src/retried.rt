//! Updates in which the first change fails at first by a class: a sends straight to c, and then by b, which has no rule for it yet.
use example_files::UpdateTexts;

/// From a packets must arrive.
fn policy() -> &'static [u8] {
    br#"{"demands":[{"from":"a:1","dst":"10.0.0.0/24","deliver":true}]}"#
}

/// a sends straight to c.
fn straight() -> &'static [u8] {
    br#"{"rules":[{"switch":"a","priority":100,"dst":"10.0.0.0/24","out":3},{"switch":"c","priority":100,"dst":"10.0.0.0/24","out":1}]}"#
}

/// Three switches in a triangle.
fn triangle() -> &'static [u8] {
    br#"{"switches":[{"name":"a","capacity":8},{"name":"b","capacity":8},{"name":"c","capacity":8}],"links":[["a:2","b:1"],["b:2","c:2"],["a:3","c:3"]],"hosts":["a:1","c:1"],"vlans":["untagged"],"tags":[]}"#
}

/// The triangle, and a switch z that no packet from a comes to.
fn triangle_beside_z() -> &'static [u8] {
    br#"{"switches":[{"name":"a","capacity":8},{"name":"z","capacity":8},{"name":"b","capacity":8},{"name":"c","capacity":8}],"links":[["a:2","b:1"],["b:2","c:2"],["a:3","c:3"],["z:1","c:4"]],"hosts":["a:1","c:1"],"vlans":["untagged"],"tags":[]}"#
}

/// a sends by b.
fn by_b() -> &'static [u8] {
    br#"{"rules":[{"switch":"a","priority":100,"dst":"10.0.0.0/24","out":2},{"switch":"b","priority":100,"dst":"10.0.0.0/24","out":2},{"switch":"c","priority":100,"dst":"10.0.0.0/24","out":1}]}"#
}

/// The same, and z has a rule for the address.
fn by_b_with_z() -> &'static [u8] {
    br#"{"rules":[{"switch":"a","priority":100,"dst":"10.0.0.0/24","out":2},{"switch":"z","priority":100,"dst":"10.0.0.0/24","out":1},{"switch":"b","priority":100,"dst":"10.0.0.0/24","out":2},{"switch":"c","priority":100,"dst":"10.0.0.0/24","out":1}]}"#
}

/// The same, and b has a rule for other addresses.
fn by_b_with_others() -> &'static [u8] {
    br#"{"rules":[{"switch":"a","priority":100,"dst":"10.0.0.0/24","out":2},{"switch":"b","priority":200,"dst":"10.9.0.0/24","out":"drop"},{"switch":"b","priority":100,"dst":"10.0.0.0/24","out":2},{"switch":"c","priority":100,"dst":"10.0.0.0/24","out":1}]}"#
}

/// The change at a qualifies after the one at b, which is on the walk by which it failed.
pub(crate) fn after_the_walk() -> UpdateTexts<'static> {
    UpdateTexts {
        topology: triangle(),
        old: straight(),
        new: by_b(),
        policy: policy(),
    }
}

pub(crate) fn after_the_walk_plan() -> &'static [u8] {
    br#"{"befores":[],"format":2,"kind":"ordered","numberings":[[0,0,0],[1,0,0],[2,1,0]],"picks":[[1,0,0],[1,1,1],[1,2,0],[1,3,0],[1,4,0],[1,5,0],[2,1,2]],"rounds":[[["insert",0]],[["replace",1]]],"rules":[{"dst":"10.0.0.0/24","out":2,"priority":100,"switch":"b"},{"dst":"10.0.0.0/24","out":2,"priority":100,"switch":"a"}],"uses":[[0,[]],[1,[]],[2,[]]]}
"#
}

/// The change at z comes between, off the walk.
pub(crate) fn beside_the_walk() -> UpdateTexts<'static> {
    UpdateTexts {
        topology: triangle_beside_z(),
        old: straight(),
        new: by_b_with_z(),
        policy: policy(),
    }
}

pub(crate) fn beside_the_walk_plan() -> &'static [u8] {
    br#"{"befores":[],"format":2,"kind":"ordered","numberings":[[0,0,0,0],[1,0,0,0],[2,0,1,0]],"picks":[[1,0,0],[1,1,1],[1,2,0],[1,3,0],[1,4,0],[1,5,0],[3,1,2]],"rounds":[[["insert",0]],[["insert",1]],[["replace",2]]],"rules":[{"dst":"10.0.0.0/24","out":1,"priority":100,"switch":"z"},{"dst":"10.0.0.0/24","out":2,"priority":100,"switch":"b"},{"dst":"10.0.0.0/24","out":2,"priority":100,"switch":"a"}],"uses":[[0,[]],[1,[]],[2,[]]]}
"#
}

/// A change at b comes between, on the walk and for other addresses.
pub(crate) fn other_addresses() -> UpdateTexts<'static> {
    UpdateTexts {
        topology: triangle(),
        old: straight(),
        new: by_b_with_others(),
        policy: policy(),
    }
}

pub(crate) fn other_addresses_plan() -> &'static [u8] {
    br#"{"befores":[],"format":2,"kind":"ordered","numberings":[[0,0,0],[1,0,0],[2,1,0]],"picks":[[1,0,0],[1,1,1],[1,2,0],[1,3,0],[1,4,0],[1,5,0],[1,6,0],[1,7,0],[1,8,0],[1,9,0],[3,1,2]],"rounds":[[["insert",0]],[["insert",1]],[["replace",2]]],"rules":[{"dst":"10.9.0.0/24","out":"drop","priority":200,"switch":"b"},{"dst":"10.0.0.0/24","out":2,"priority":100,"switch":"b"},{"dst":"10.0.0.0/24","out":2,"priority":100,"switch":"a"}],"uses":[[0,[]],[1,[]],[2,[]]]}
"#
}
