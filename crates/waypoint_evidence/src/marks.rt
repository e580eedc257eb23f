//! A set of switches as marks, a `bool` each.
ghost use Rattle.std.specs.Prelude.{◌≡◌};
ghost use Rattle.waypoint_evidence.specs.Befores.{marks_in};

use net_base::{SwitchId, SwitchSet};

/// For each number below 128 whether the switch of that number is in the set.
pub(crate) fn marks_of(set: SwitchSet) -> [bool; 128]
    ensures { result ≡ marks_in set }
{
    let mut marks = [false; 128];
    for n in 0..128 {
        marks[n] = set.has(SwitchId(n as u32));
    }
    marks
}
