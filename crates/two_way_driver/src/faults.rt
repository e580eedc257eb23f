//! Why a call was refused.
use net_base::{Memory, SwitchId};

/// Why a call was refused.
#[derive(Clone, Copy, Debug, PartialEq, Eq)]
pub enum CallFault {
    /// A round is running.
    Running,
    /// All rounds are settled.
    Finished,
    /// No round is settled, and none is running.
    NotBegun,
    /// A switch with a change in the round isn't dead and has no open session. It is the least one.
    NotOpen(SwitchId),
    /// Memory ran out.
    Memory,
}

impl From<Memory> for CallFault {
    ghost use Rattle.std.specs.Prelude.{◌≡◌};
    ghost use Rattle.two_way_driver.specs.declared.faults.CallFault.{CallFault};

    ghost from_gives = { λ _ fault. fault ≡ CallFault.Memory };

    fn from(_: Memory) -> CallFault {
        CallFault::Memory
    }
}
