//! The update whose lines are served.

use std::alloc::Global;
use topology::Net;

/// The update whose lines are served: its network, and how many rounds it has.
#[derive(Clone, Copy)]
pub struct ServedUpdate<'a> {
    pub alloc: Global,
    pub net: &'a Net,
    pub rounds: usize,
}
