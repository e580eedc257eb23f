//! Parts of the evidence of plans.
use acyclic_numbering::Numbering;
use net_base::{Memory, SwitchId};
use std::alloc::Global;
use waypoint_evidence::Before;

/// A numbering with these numbers.
pub fn numbering_of(alloc: Global, numbers: &[u16]) -> Result<Numbering, Memory> {
    let mut numbering = Numbering::make(alloc)?;
    for number in numbers {
        numbering.add(*number)?;
    }
    Ok(numbering)
}

/// The set of these switches.
pub fn set_of(members: &[u8]) -> Before {
    let mut set = Before::none();
    for member in members {
        if *member < 128 {
            set.put(SwitchId(u32::from(*member)));
        }
    }
    set
}
