//! Files in which nothing stands.

/// A topology without switches.
pub fn no_switches() -> &'static [u8] {
    br#"{"switches":[],"links":[],"hosts":[],"vlans":[],"tags":[]}"#
}

/// A configuration without rules.
pub fn no_rules() -> &'static [u8] {
    br#"{"rules":[]}"#
}

/// A policy without demands.
pub fn no_demands() -> &'static [u8] {
    br#"{"demands":[]}"#
}

/// An ordered plan without rounds, in format 2.
pub fn no_rounds() -> &'static [u8] {
    br#"{"befores":[],"format":2,"kind":"ordered","numberings":[],"picks":[],"rounds":[],"rules":[],"uses":[]}
"#
}

/// An ordered plan without rounds, in format 1.
pub fn no_rounds_in_format_1() -> &'static [u8] {
    br#"{"befores":[],"format":1,"kind":"ordered","numberings":[],"picks":[],"rounds":[]}
"#
}
