//! Why bytes are no plan.
ghost use Rattle.std.specs.Prelude.{◌≡◌};
ghost use Rattle.plan_format.specs.declared.fault.PlanFault.TheVariants.{Memory};
ghost use Rattle.plan_format.specs.Faults.{of_json, fault_number, fault_name, fault_field, fault_place};

use flat_json::JsonFault;
use net_base::Field;
use std::alloc::{AllocError, AllocFailed};
use std::fmt;
use thiserror::Error;

/// Why bytes are no plan. The number is the place: of a fault of a change that of the change, from 0, counted over all
/// rounds, `tried` ones after the others; of another fault that of the item in its list, from 0.
#[derive(Clone, Copy, PartialEq, Eq, Error)]
pub enum PlanFault {
    /// The bytes are no JSON text.
    #[error("NotJson")]
    NotJson,
    /// The member is absent or of the wrong kind.
    #[error("Shape")]
    Shape(Field, u32),
    /// The format is neither 1 nor 2.
    #[error("BadFormat")]
    BadFormat,
    /// No switch has the name.
    #[error("UnknownSwitch")]
    UnknownSwitch(u32),
    /// A number, a prefix or a port of a rule is out of its range, or its rewrites exclude each other.
    #[error("BadRule")]
    BadRule(u32),
    /// A number that names a part of the plan is out of its range, or numbers don't ascend.
    #[error("BadIndex")]
    BadIndex(u32),
    /// More than 4200 rounds, 4096 tried rounds, 2,200,000 changes or 2,200,000 rules.
    #[error("TooMany")]
    TooMany(Field),
    /// Memory was wanting.
    #[error("Memory")]
    Memory,
}

impl PlanFault {
    /// The number of the refusal, 1 to 7; 0 for want of memory, which is none.
    pub fn number(self) -> u32
        ensures { result ≡ fault_number self }
    {
        match self {
            PlanFault::NotJson => 1,
            PlanFault::Shape(..) => 2,
            PlanFault::BadFormat => 3,
            PlanFault::UnknownSwitch(_) => 4,
            PlanFault::BadRule(_) => 5,
            PlanFault::BadIndex(_) => 6,
            PlanFault::TooMany(_) => 7,
            PlanFault::Memory => 0,
        }
    }

    /// The printed word: the variant's name.
    pub fn name(self) -> &'static str
        ensures { result.now ≡ fault_name self }
    {
        match self {
            PlanFault::NotJson => "NotJson",
            PlanFault::Shape(..) => "Shape",
            PlanFault::BadFormat => "BadFormat",
            PlanFault::UnknownSwitch(_) => "UnknownSwitch",
            PlanFault::BadRule(_) => "BadRule",
            PlanFault::BadIndex(_) => "BadIndex",
            PlanFault::TooMany(_) => "TooMany",
            PlanFault::Memory => "Memory",
        }
    }

    /// The member that is named beside it.
    pub fn field(self) -> Option<Field>
        ensures { result ≡ fault_field self }
    {
        match self {
            PlanFault::Shape(field, _) | PlanFault::TooMany(field) => Some(field),
            _ => None,
        }
    }

    /// The place; 0 for a fault of the whole file.
    pub fn place(self) -> u32
        ensures { result ≡ fault_place self }
    {
        match self {
            PlanFault::NotJson | PlanFault::BadFormat | PlanFault::TooMany(_) | PlanFault::Memory =>
                0,
            PlanFault::Shape(_, place)
            | PlanFault::UnknownSwitch(place)
            | PlanFault::BadRule(place)
            | PlanFault::BadIndex(place) => place,
        }
    }
}

/// As it is printed, with the place: a derived one would have a path for each variant.
impl fmt::Debug for PlanFault {
    fn fmt<W: fmt::Write>(&self, f: &mut fmt::Formatter<W>) -> fmt::Result {
        write!(f, "{self} at {}", self.place())
    }
}

impl From<AllocError> for PlanFault {
    ghost from_gives = { λ _ e. e ≡ Memory };

    fn from(_: AllocError) -> PlanFault {
        PlanFault::Memory
    }
}

impl<T: Drop> From<AllocFailed<T>> for PlanFault {
    ghost from_gives = { λ _ e. e ≡ Memory };

    fn from(_: AllocFailed<T>) -> PlanFault {
        PlanFault::Memory
    }
}

impl From<net_base::Memory> for PlanFault {
    ghost from_gives = { λ _ e. e ≡ Memory };

    fn from(_: net_base::Memory) -> PlanFault {
        PlanFault::Memory
    }
}

impl From<JsonFault> for PlanFault {
    ghost from_gives = { λ f e. e ≡ of_json f };

    fn from(fault: JsonFault) -> PlanFault {
        match fault {
            JsonFault::NotJson => PlanFault::NotJson,
            JsonFault::Memory => PlanFault::Memory,
        }
    }
}
