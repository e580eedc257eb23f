//! Updates in which only one of packing and the search ends ordered, in a ring of four switches: packets enter at s, l and r are
//! beside it, and t is opposite.
use example_files::UpdateTexts;
use net_base::Memory;
use std::alloc::Global;

/// The ring, with tags.
fn ring() -> &'static [u8] {
    br#"{"switches":[{"name":"l","capacity":64},{"name":"r","capacity":64},{"name":"s","capacity":64},{"name":"t","capacity":64}],"links":[["s:2","l:1"],["s:3","r:1"],["l:2","t:1"],["r:2","t:2"]],"hosts":["s:1"],"vlans":["untagged"],"tags":[3000,3009]}"#
}

/// The ring, without tags.
fn ring_without_tags() -> &'static [u8] {
    br#"{"switches":[{"name":"l","capacity":64},{"name":"r","capacity":64},{"name":"s","capacity":64},{"name":"t","capacity":64}],"links":[["s:2","l:1"],["s:3","r:1"],["l:2","t:1"],["r:2","t:2"]],"hosts":["s:1"],"vlans":["untagged"],"tags":[]}"#
}

/// s sends to l, and t to r.
fn by_the_left() -> &'static [u8] {
    br#"{"rules":[{"switch":"s","priority":100,"dst":"10.0.0.0/24","out":2},{"switch":"t","priority":200,"dst":"10.0.0.0/24","out":2}]}"#
}

/// The path s r t l, at whose end the packets are dropped.
fn by_the_right() -> &'static [u8] {
    br#"{"rules":[{"switch":"l","priority":100,"dst":"10.0.0.0/24","out":2},{"switch":"r","priority":100,"dst":"10.0.0.0/24","out":2},{"switch":"s","priority":100,"dst":"10.0.0.0/24","out":3},{"switch":"t","priority":100,"dst":"10.0.0.0/24","out":1}]}"#
}

/// The change at s can't stand beside those at l and r, which come first, so the first packed round takes all others; then l and t
/// send to one another, and s can't change any more. The search changes s between the delete and the insert at t.
pub(crate) fn packing() -> UpdateTexts<'static> {
    UpdateTexts {
        topology: ring(),
        old: by_the_left(),
        new: by_the_right(),
        policy: br#"{"demands":[]}"#,
    }
}

/// The plan of the search.
pub(crate) fn packing_plan() -> &'static [u8] {
    br#"{"befores":[],"format":2,"kind":"ordered","numberings":[[0,0,0,0],[2,0,3,1],[1,1,2,0],[0,2,3,1]],"picks":[[1,0,0],[1,1,1],[1,2,0],[4,1,2],[5,1,3]],"rounds":[[["insert",0]],[["insert",1]],[["delete",2]],[["replace",3]],[["insert",4]]],"rules":[{"dst":"10.0.0.0/24","out":2,"priority":100,"switch":"l"},{"dst":"10.0.0.0/24","out":2,"priority":100,"switch":"r"},{"dst":"10.0.0.0/24","out":2,"priority":200,"switch":"t"},{"dst":"10.0.0.0/24","out":3,"priority":100,"switch":"s"},{"dst":"10.0.0.0/24","out":1,"priority":100,"switch":"t"}],"uses":[[0,[]],[1,[]],[2,[]],[3,[]]]}
"#
}

/// The same with inserts at s for so many other prefixes, so that the plan of the search has as many rounds more.
#[derive(Drop)]
pub struct LongerPacking {
    new: Vec<u8>,
}

impl LongerPacking {
    pub fn make(alloc: Global, prefixes: u32) -> Result<LongerPacking, Memory> {
        let right =
            r#"{"switch":"l","priority":100,"dst":"10.0.0.0/24","out":2},{"switch":"r","priority":100,"dst":"10.0.0.0/24","out":2},{"switch":"s","priority":100,"dst":"10.0.0.0/24","out":3},{"switch":"t","priority":100,"dst":"10.0.0.0/24","out":1}"#;
        let mut rules = String::from_str(alloc, right)?;
        for i in 1..=prefixes {
            let head = format!(in alloc; ",{{\"switch\":\"s\",\"priority\":100,")?;
            rules.push_str(&format!(in alloc; "{head}\"dst\":\"10.0.{i}.0/24\",\"out\":2}}")?)?;
        }
        Ok(LongerPacking {
            new: format!(in alloc; "{{\"rules\":[{rules}]}}")?.into_bytes(),
        })
    }

    /// Its update, in the ring with tags.
    pub fn update(&self) -> UpdateTexts<'_> {
        UpdateTexts {
            new: &self.new,
            ..packing()
        }
    }

    /// Its update, in the ring without tags.
    pub fn update_without_tags(&self) -> UpdateTexts<'_> {
        UpdateTexts {
            topology: ring_without_tags(),
            ..self.update()
        }
    }
}

/// A ring s l t r without tags, where packets enter at s and l.
fn ring_with_two_entries() -> &'static [u8] {
    br#"{"switches":[{"name":"t","capacity":8},{"name":"s","capacity":8},{"name":"r","capacity":8},{"name":"l","capacity":8}],"links":[["t:1","r:1"],["s:2","l:2"],["t:2","l:3"],["r:2","s:3"]],"hosts":["s:1","l:1"],"vlans":["untagged"],"tags":[]}"#
}

/// The path s l t.
fn leftwards() -> &'static [u8] {
    br#"{"rules":[{"switch":"s","priority":100,"dst":"10.0.0.0/24","out":2},{"switch":"l","priority":100,"dst":"10.0.0.0/24","out":3}]}"#
}

/// The path l s r t, and t sends to r.
fn rightwards() -> &'static [u8] {
    br#"{"rules":[{"switch":"s","priority":100,"dst":"10.0.0.0/24","out":3},{"switch":"r","priority":100,"dst":"10.0.0.0/24","out":1},{"switch":"l","priority":100,"dst":"10.0.0.0/24","out":2},{"switch":"t","priority":100,"dst":"10.0.0.0/24","out":1}]}"#
}

/// The search changes t, s and r, since the change at r comes before that at l; then t and r send to one another, and l can't change
/// any more. In a packed round the change at r can't stand beside those at t and s, and that at l can.
pub(crate) fn search() -> UpdateTexts<'static> {
    UpdateTexts {
        topology: ring_with_two_entries(),
        old: leftwards(),
        new: rightwards(),
        policy: br#"{"demands":[]}"#,
    }
}

/// What `plan` says of it: the rounds of the search.
pub(crate) fn search_tried() -> &'static [u8] {
    br#"too few tags: need 1, has 0
tried: [[{"do":"insert","dst":"10.0.0.0/24","out":1,"priority":100,"switch":"t"}],[{"do":"replace","dst":"10.0.0.0/24","out":3,"priority":100,"switch":"s"}],[{"do":"insert","dst":"10.0.0.0/24","out":1,"priority":100,"switch":"r"}]]
"#
}

/// The packed plan.
pub(crate) fn search_plan() -> &'static [u8] {
    br#"{"befores":[],"format":2,"kind":"ordered","numberings":[[0,0,0,0],[1,3,0,2],[1,1,0,2],[0,2,1,0],[0,2,1,3]],"picks":[[1,0,0],[1,1,1],[1,2,0],[1,3,0],[1,4,2],[1,5,0],[2,1,3],[2,4,4]],"rounds":[[["insert",0],["replace",1],["replace",2]],[["insert",3]]],"rules":[{"dst":"10.0.0.0/24","out":1,"priority":100,"switch":"t"},{"dst":"10.0.0.0/24","out":3,"priority":100,"switch":"s"},{"dst":"10.0.0.0/24","out":2,"priority":100,"switch":"l"},{"dst":"10.0.0.0/24","out":1,"priority":100,"switch":"r"}],"uses":[[0,[]],[1,[]],[2,[]],[3,[]],[4,[]]]}
"#
}
