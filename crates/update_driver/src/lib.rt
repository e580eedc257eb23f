//! The core of a controller that is never turned back: what it sends to each switch, and the log of events that it makes of what
//! comes. It has no connections and no clock: bytes are handed in and out. It does what the driver that can turn back does as
//! long as that isn't turned (`both_drivers_agree`), keeps all that it sent, and is as before where memory is wanting.
#![tactic(auto)]

mod drivers;
pub mod laws;
mod starts;
mod turns;

pub use drivers::Driver;
use net_base::{Memory, SwitchId};
pub use switch_session::{Cause, Session};

/// Why a round wasn't started.
#[derive(Clone, Copy, Debug, PartialEq, Eq)]
pub enum StartFault {
    /// A round is running.
    Running,
    /// All rounds are settled.
    Finished,
    /// A switch with a change in the next round has no open session. It is the least one.
    NotOpen(SwitchId),
    /// Memory ran out.
    Memory,
}

impl From<Memory> for StartFault {
    ghost use Rattle.std.specs.Prelude.{◌≡◌};
    ghost use Rattle.update_driver.specs.declared.StartFault.{StartFault};

    ghost from_gives = { λ _ fault. fault ≡ StartFault.Memory };

    fn from(_: Memory) -> StartFault {
        StartFault::Memory
    }
}
