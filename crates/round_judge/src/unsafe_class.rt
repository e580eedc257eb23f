//! A class that no evidence keeps safe.
use dest_classes::Class;
use net_base::SwitchSet;

/// A class that no evidence keeps safe in a round, with its number, and the switches that its mixed walks come to then.
#[derive(Drop)]
pub struct UnsafeClass {
    pub number: u32,
    pub class: Class,
    pub visited: SwitchSet,
}
