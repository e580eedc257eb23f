//! Why bytes are no schedule.
ghost use Rattle.std.specs.Prelude.{◌≡◌};
ghost use Rattle.schedule_replay.specs.declared.fault.ScheduleFault.TheVariants.{Memory};
ghost use Rattle.schedule_replay.specs.Faults.{fault_number, fault_name, fault_field, fault_place};

use net_base::Field;
use thiserror::Error;

/// Why bytes are no schedule.
#[derive(Clone, Copy, Debug, PartialEq, Eq, Error)]
pub enum ScheduleFault {
    /// The line of this number, from 1, is neither a comment nor an event.
    #[error("BadLine")]
    BadLine(u32),
    /// More than 4,000,000 events.
    #[error("TooMany")]
    TooMany,
    /// Memory was wanting.
    #[error("Memory")]
    Memory,
}

impl ScheduleFault {
    /// The number of the refusal, 1 or 2; 0 for want of memory, which is none.
    pub fn number(self) -> u32
        ensures { result ≡ fault_number self }
    {
        match self {
            ScheduleFault::BadLine(_) => 1,
            ScheduleFault::TooMany => 2,
            ScheduleFault::Memory => 0,
        }
    }

    /// The printed word: the variant's name.
    pub fn name(self) -> &'static str
        ensures { result.now ≡ fault_name self }
    {
        match self {
            ScheduleFault::BadLine(_) => "BadLine",
            ScheduleFault::TooMany => "TooMany",
            ScheduleFault::Memory => "Memory",
        }
    }

    /// The member that is named beside it, of which a schedule has none.
    pub fn field(self) -> Option<Field>
        ensures { result ≡ fault_field self }
    {
        None
    }

    /// The place: the number of the line, from 1; 0 for a fault of the whole file.
    pub fn place(self) -> u32
        ensures { result ≡ fault_place self }
    {
        match self {
            ScheduleFault::BadLine(line) => line,
            ScheduleFault::TooMany | ScheduleFault::Memory => 0,
        }
    }
}

impl From<net_base::Memory> for ScheduleFault {
    ghost from_gives = { λ _ e. e ≡ Memory };

    fn from(_: net_base::Memory) -> ScheduleFault {
        ScheduleFault::Memory
    }
}
