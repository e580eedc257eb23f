//! Why bytes are no topology.
ghost use Rattle.std.specs.Prelude.{◌≡◌};
ghost use Rattle.topology_files.specs.declared.fault.NetFault.TheVariants.{Memory};
ghost use Rattle.topology_files.specs.Faults.{of_json, fault_number, fault_name, fault_field, fault_place};

use flat_json::JsonFault;
use net_base::Field;
use std::alloc::AllocError;
use std::fmt;
use thiserror::Error;

/// Why bytes are no topology. The number is the place: that of the item of its list, from 0. A fault of the whole file
/// has none.
#[derive(Clone, Copy, PartialEq, Eq, Error)]
pub enum NetFault {
    /// The bytes are no JSON text.
    #[error("NotJson")]
    NotJson,
    /// The member is absent or of the wrong kind.
    #[error("Shape")]
    Shape(Field, u32),
    /// The name isn't 1 to 32 ASCII letters, digits, `-` and `_`.
    #[error("BadName")]
    BadName(u32),
    /// An earlier switch has the name.
    #[error("DoubleName")]
    DoubleName(u32),
    /// No switch has the name.
    #[error("UnknownSwitch")]
    UnknownSwitch(u32),
    /// The port number isn't 1 to 65279.
    #[error("BadPort")]
    BadPort(u32),
    /// The port is used before, by a link or a host.
    #[error("PortTwice")]
    PortTwice(u32),
    /// The VLAN id isn't 1 to 4094.
    #[error("BadVlan")]
    BadVlan(u32),
    /// The VLAN is declared before.
    #[error("VlanTwice")]
    VlanTwice(u32),
    /// The tags aren't 1 to 4094, or from is above to.
    #[error("BadTags")]
    BadTags,
    /// The capacity isn't 1 to 8192.
    #[error("BadCapacity")]
    BadCapacity(u32),
    /// More than 128 switches, 64 used ports of a switch, or 64 declared VLANs.
    #[error("TooMany")]
    TooMany(Field, u32),
    /// The format is neither 1 nor 2.
    #[error("BadFormat")]
    BadFormat,
    /// No field of packets has the name.
    #[error("BadField")]
    BadField(u32),
    /// Memory was wanting.
    #[error("Memory")]
    Memory,
}

impl NetFault {
    /// The number of the refusal, 1 to 14; 0 for want of memory, which is none.
    pub fn number(self) -> u32
        ensures { result ≡ fault_number self }
    {
        match self {
            NetFault::NotJson => 1,
            NetFault::Shape(..) => 2,
            NetFault::BadName(_) => 3,
            NetFault::DoubleName(_) => 4,
            NetFault::UnknownSwitch(_) => 5,
            NetFault::BadPort(_) => 6,
            NetFault::PortTwice(_) => 7,
            NetFault::BadVlan(_) => 8,
            NetFault::VlanTwice(_) => 9,
            NetFault::BadTags => 10,
            NetFault::BadCapacity(_) => 11,
            NetFault::TooMany(..) => 12,
            NetFault::BadFormat => 13,
            NetFault::BadField(_) => 14,
            NetFault::Memory => 0,
        }
    }

    /// The printed word: the variant's name.
    pub fn name(self) -> &'static str
        ensures { result.now ≡ fault_name self }
    {
        match self {
            NetFault::NotJson => "NotJson",
            NetFault::Shape(..) => "Shape",
            NetFault::BadName(_) => "BadName",
            NetFault::DoubleName(_) => "DoubleName",
            NetFault::UnknownSwitch(_) => "UnknownSwitch",
            NetFault::BadPort(_) => "BadPort",
            NetFault::PortTwice(_) => "PortTwice",
            NetFault::BadVlan(_) => "BadVlan",
            NetFault::VlanTwice(_) => "VlanTwice",
            NetFault::BadTags => "BadTags",
            NetFault::BadCapacity(_) => "BadCapacity",
            NetFault::TooMany(..) => "TooMany",
            NetFault::BadFormat => "BadFormat",
            NetFault::BadField(_) => "BadField",
            NetFault::Memory => "Memory",
        }
    }

    /// The member that is named beside it.
    pub fn field(self) -> Option<Field>
        ensures { result ≡ fault_field self }
    {
        match self {
            NetFault::Shape(field, _) | NetFault::TooMany(field, _) => Some(field),
            _ => None,
        }
    }

    /// The place; 0 for a fault of the whole file.
    pub fn place(self) -> u32
        ensures { result ≡ fault_place self }
    {
        match self {
            NetFault::NotJson | NetFault::BadTags | NetFault::BadFormat | NetFault::Memory => 0,
            NetFault::Shape(_, place)
            | NetFault::BadName(place)
            | NetFault::DoubleName(place)
            | NetFault::UnknownSwitch(place)
            | NetFault::BadPort(place)
            | NetFault::PortTwice(place)
            | NetFault::BadVlan(place)
            | NetFault::VlanTwice(place)
            | NetFault::BadCapacity(place)
            | NetFault::TooMany(_, place)
            | NetFault::BadField(place) => place,
        }
    }
}

/// As it is printed, with the place: a derived one would have a path for each variant.
impl fmt::Debug for NetFault {
    fn fmt<W: fmt::Write>(&self, f: &mut fmt::Formatter<W>) -> fmt::Result {
        write!(f, "{self} at {}", self.place())
    }
}

impl From<AllocError> for NetFault {
    ghost from_gives = { λ _ e. e ≡ Memory };

    fn from(_: AllocError) -> NetFault {
        NetFault::Memory
    }
}

impl From<JsonFault> for NetFault {
    ghost from_gives = { λ f e. e ≡ of_json f };

    fn from(fault: JsonFault) -> NetFault {
        match fault {
            JsonFault::NotJson => NetFault::NotJson,
            JsonFault::Memory => NetFault::Memory,
        }
    }
}
