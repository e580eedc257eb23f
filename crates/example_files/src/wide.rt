//! One switch with so many ports and VLANs that few prefixes make many classes.

use crate::held::UpdateTexts;
use crate::none::no_demands;
use net_base::Memory;
use std::alloc::Global;

/// One switch with 64 host ports, numbered from 1, and 64 VLANs, numbered from 1.
pub fn topology(alloc: Global) -> Result<Vec<u8>, Memory> {
    let mut hosts = String::new(alloc);
    let mut vlans = String::new(alloc);
    for i in 1..=64u32 {
        let comma = if i == 1 { "" } else { "," };
        hosts.push_str(&format!(in alloc; "{comma}\"a:{i}\"")?)?;
        vlans.push_str(&format!(in alloc; "{comma}{i}")?)?;
    }
    let front = "{\"switches\":[{\"name\":\"a\",\"capacity\":8}],\"links\":[],\"hosts\":[";
    Ok(format!(in alloc; "{front}{hosts}],\"vlans\":[{vlans}],\"tags\":[]}}")?.into_bytes())
}

/// A rule for one half of the addresses.
pub fn two_blocks() -> &'static [u8] {
    br#"{"rules":[{"switch":"a","priority":100,"dst":"128.0.0.0/1","out":"drop"}]}"#
}

/// A rule for some addresses between others.
pub fn three_blocks() -> &'static [u8] {
    br#"{"rules":[{"switch":"a","priority":100,"dst":"10.0.0.0/24","out":"drop"}]}"#
}

/// An update of such a network that changes nothing, of 12288 classes.
pub fn update(topology: &[u8]) -> UpdateTexts<'_> {
    UpdateTexts {
        topology,
        old: three_blocks(),
        new: three_blocks(),
        policy: no_demands(),
    }
}
