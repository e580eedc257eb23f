//! A ring of three switches a, b and c, and a switch h beside it, at a.

use crate::held::UpdateTexts;
use crate::none::no_demands;

/// A ring of three switches, and h beside it.
pub fn topology() -> &'static [u8] {
    br#"{"switches":[{"name":"h","capacity":8},{"name":"a","capacity":8},{"name":"b","capacity":8},{"name":"c","capacity":8}],"links":[["a:2","b:1"],["b:2","c:1"],["c:2","a:1"],["h:2","a:3"]],"hosts":["h:1"],"vlans":["untagged"],"tags":[3000,3009]}"#
}

/// A loop that no host port reaches.
pub fn unreached_loop() -> &'static [u8] {
    br#"{"rules":[{"switch":"a","priority":100,"dst":"10.0.0.0/8","out":2},{"switch":"b","priority":100,"dst":"10.0.0.0/8","out":2},{"switch":"c","priority":100,"dst":"10.0.0.0/8","out":2}]}"#
}

/// A loop behind h.
pub fn reached_loop() -> &'static [u8] {
    br#"{"rules":[{"switch":"a","priority":100,"dst":"10.0.0.0/8","out":2},{"switch":"b","priority":100,"dst":"10.0.0.0/8","out":2},{"switch":"c","priority":100,"dst":"10.0.0.0/8","out":2},{"switch":"h","priority":100,"dst":"10.0.0.0/8","out":2}]}"#
}

/// An update from a loop to the same loop.
pub fn loop_kept() -> UpdateTexts<'static> {
    UpdateTexts {
        topology: topology(),
        old: reached_loop(),
        new: reached_loop(),
        policy: no_demands(),
    }
}

/// An update that closes a loop.
pub fn loop_made() -> UpdateTexts<'static> {
    UpdateTexts {
        topology: topology(),
        old: unreached_loop(),
        new: reached_loop(),
        policy: no_demands(),
    }
}
