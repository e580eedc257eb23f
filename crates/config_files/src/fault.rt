//! Why bytes are no configuration.
ghost use Rattle.std.specs.Prelude.{◌≡◌};
ghost use Rattle.config_files.specs.declared.fault.ConfigFault.TheVariants.{Memory};
ghost use Rattle.config_files.specs.Faults.{of_json, fault_number, fault_name, fault_field, fault_place};

use flat_json::JsonFault;
use net_base::{Field, SwitchId};
use std::alloc::{AllocError, AllocFailed};
use std::fmt;
use thiserror::Error;

/// Why bytes are no configuration of a network. The number is the place: that of the rule in its list, from 0. A fault of
/// the whole file has none.
#[derive(Clone, Copy, PartialEq, Eq, Error)]
pub enum ConfigFault {
    /// The bytes are no JSON text.
    #[error("NotJson")]
    NotJson,
    /// The member is absent without a default, or of the wrong kind.
    #[error("Shape")]
    Shape(Field, u32),
    /// No switch has the name.
    #[error("UnknownSwitch")]
    UnknownSwitch(u32),
    /// The priority isn't 1 to 16383.
    #[error("BadPriority")]
    BadPriority(u32),
    /// The port is no host port or link end of the switch.
    #[error("BadPort")]
    BadPort(u32),
    /// The VLAN id isn't 1 to 4094.
    #[error("BadVlan")]
    BadVlan(u32),
    /// The VLAN id is an available tag.
    #[error("ReservedVlan")]
    ReservedVlan(u32),
    /// The text is no prefix.
    #[error("BadPrefix")]
    BadPrefix(u32),
    /// An earlier rule of the switch has the key.
    #[error("KeyTwice")]
    KeyTwice(u32),
    /// An earlier rule of the switch has equal priority and covers a common packet.
    #[error("Overlap")]
    Overlap(u32),
    /// The table of the switch is longer than its capacity.
    #[error("OverCapacity")]
    OverCapacity(SwitchId),
    /// More than 2048 rules.
    #[error("TooMany")]
    TooMany(u32),
    /// Memory was wanting.
    #[error("Memory")]
    Memory,
}

impl ConfigFault {
    /// The number of the refusal, 1 to 12; 0 for want of memory, which is none.
    pub fn number(self) -> u32
        ensures { result ≡ fault_number self }
    {
        match self {
            ConfigFault::NotJson => 1,
            ConfigFault::Shape(..) => 2,
            ConfigFault::UnknownSwitch(_) => 3,
            ConfigFault::BadPriority(_) => 4,
            ConfigFault::BadPort(_) => 5,
            ConfigFault::BadVlan(_) => 6,
            ConfigFault::ReservedVlan(_) => 7,
            ConfigFault::BadPrefix(_) => 8,
            ConfigFault::KeyTwice(_) => 9,
            ConfigFault::Overlap(_) => 10,
            ConfigFault::OverCapacity(_) => 11,
            ConfigFault::TooMany(_) => 12,
            ConfigFault::Memory => 0,
        }
    }

    /// The printed word: the variant's name.
    pub fn name(self) -> &'static str
        ensures { result.now ≡ fault_name self }
    {
        match self {
            ConfigFault::NotJson => "NotJson",
            ConfigFault::Shape(..) => "Shape",
            ConfigFault::UnknownSwitch(_) => "UnknownSwitch",
            ConfigFault::BadPriority(_) => "BadPriority",
            ConfigFault::BadPort(_) => "BadPort",
            ConfigFault::BadVlan(_) => "BadVlan",
            ConfigFault::ReservedVlan(_) => "ReservedVlan",
            ConfigFault::BadPrefix(_) => "BadPrefix",
            ConfigFault::KeyTwice(_) => "KeyTwice",
            ConfigFault::Overlap(_) => "Overlap",
            ConfigFault::OverCapacity(_) => "OverCapacity",
            ConfigFault::TooMany(_) => "TooMany",
            ConfigFault::Memory => "Memory",
        }
    }

    /// The member that is named beside it.
    pub fn field(self) -> Option<Field>
        ensures { result ≡ fault_field self }
    {
        match self {
            ConfigFault::Shape(field, _) => Some(field),
            _ => None,
        }
    }

    /// The place; 0 for a fault of the whole file, and the switch's number for a table that is too long.
    pub fn place(self) -> u32
        ensures { result ≡ fault_place self }
    {
        match self {
            ConfigFault::NotJson | ConfigFault::Memory => 0,
            ConfigFault::OverCapacity(switch) => switch.0,
            ConfigFault::Shape(_, place)
            | ConfigFault::UnknownSwitch(place)
            | ConfigFault::BadPriority(place)
            | ConfigFault::BadPort(place)
            | ConfigFault::BadVlan(place)
            | ConfigFault::ReservedVlan(place)
            | ConfigFault::BadPrefix(place)
            | ConfigFault::KeyTwice(place)
            | ConfigFault::Overlap(place)
            | ConfigFault::TooMany(place) => place,
        }
    }
}

/// As it is printed, with the place: a derived one would have a path for each variant.
impl fmt::Debug for ConfigFault {
    fn fmt<W: fmt::Write>(&self, f: &mut fmt::Formatter<W>) -> fmt::Result {
        write!(f, "{self} at {}", self.place())
    }
}

impl From<AllocError> for ConfigFault {
    ghost from_gives = { λ _ e. e ≡ Memory };

    fn from(_: AllocError) -> ConfigFault {
        ConfigFault::Memory
    }
}

impl<T: Drop> From<AllocFailed<T>> for ConfigFault {
    ghost from_gives = { λ _ e. e ≡ Memory };

    fn from(_: AllocFailed<T>) -> ConfigFault {
        ConfigFault::Memory
    }
}

impl From<net_base::Memory> for ConfigFault {
    ghost from_gives = { λ _ e. e ≡ Memory };

    fn from(_: net_base::Memory) -> ConfigFault {
        ConfigFault::Memory
    }
}

impl From<JsonFault> for ConfigFault {
    ghost from_gives = { λ f e. e ≡ of_json f };

    fn from(fault: JsonFault) -> ConfigFault {
        match fault {
            JsonFault::NotJson => ConfigFault::NotJson,
            JsonFault::Memory => ConfigFault::Memory,
        }
    }
}
