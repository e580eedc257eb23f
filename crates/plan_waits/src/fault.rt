//! Why a plan's waits are refused.
ghost use Rattle.std.specs.Prelude.{◌≡◌, option_map};
ghost use Rattle.plan_waits.specs.declared.fault.WaitsFault.TheVariants.{Memory};
ghost use Rattle.plan_waits.specs.WaitsFaults.{waits_fault_number, waits_fault_name, waits_fault_field, waits_fault_place};

use std::fmt;
use thiserror::Error;

/// Why a plan's waits are refused. The number is the place, from 0.
#[derive(Clone, Copy, PartialEq, Eq, Error)]
pub enum WaitsFault {
    /// The member is no list, or the item at this place is no whole number.
    #[error("Shape")]
    Shape(u32),
    /// The wait at this place is no round from the second to the last, or not above the one before; or the pick at this
    /// place stands at a round above the first that is no wait.
    #[error("BadIndex")]
    BadIndex(u32),
    /// Memory was wanting.
    #[error("Memory")]
    Memory,
}

impl WaitsFault {
    /// The number of the refusal, as that of a plan; 0 for want of memory, which is none.
    pub fn number(self) -> u32
        ensures { result ≡ waits_fault_number self }
    {
        match self {
            WaitsFault::Shape(_) => 2,
            WaitsFault::BadIndex(_) => 6,
            WaitsFault::Memory => 0,
        }
    }

    /// The printed word: the variant's name.
    pub fn name(self) -> &'static str
        ensures { result.now ≡ waits_fault_name self }
    {
        match self {
            WaitsFault::Shape(_) => "Shape",
            WaitsFault::BadIndex(_) => "BadIndex",
            WaitsFault::Memory => "Memory",
        }
    }

    /// The name of the member that is named beside it.
    pub fn field(self) -> Option<&'static str>
        ensures { option_map (λ t. t.now) result ≡ waits_fault_field self }
    {
        match self {
            WaitsFault::Shape(_) => Some("waits"),
            _ => None,
        }
    }

    /// The place; 0 for want of memory.
    pub fn place(self) -> u32
        ensures { result ≡ waits_fault_place self }
    {
        match self {
            WaitsFault::Shape(place) | WaitsFault::BadIndex(place) => place,
            WaitsFault::Memory => 0,
        }
    }
}

/// As it is printed, with the place: a derived one would have a path for each variant.
impl fmt::Debug for WaitsFault {
    fn fmt<W: fmt::Write>(&self, f: &mut fmt::Formatter<W>) -> fmt::Result {
        write!(f, "{self} at {}", self.place())
    }
}

impl From<net_base::Memory> for WaitsFault {
    ghost from_gives = { λ _ e. e ≡ Memory };

    fn from(_: net_base::Memory) -> WaitsFault {
        WaitsFault::Memory
    }
}
