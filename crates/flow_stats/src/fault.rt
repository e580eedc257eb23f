//! Why lines of flow statistics give no configuration.
ghost use Rattle.std.specs.Prelude.{◌≡◌};
ghost use Rattle.flow_stats.specs.declared.fault.StatsFault.TheVariants.{Memory};
ghost use Rattle.flow_stats.specs.Faults.{field_name, fault_number, fault_name, fault_place};

use net_base::SwitchId;
use std::alloc::AllocError;

/// A field of an entry that has to have a value of the profile, in the order of the tests.
#[derive(Clone, Copy, PartialEq, Eq)]
pub enum StatsField {
    /// The frame type is a wildcard; or a field is exact that isn't the ingress port, the VLAN id, the frame type or the
    /// destination; or bits of the source address count.
    Wildcards,
    /// The ingress port is exact and not 1 to 65279.
    InPort,
    /// The VLAN id is exact and neither 1 to 4094 nor 0xffff, which is no tag.
    Vlan,
    /// The frame type isn't 0x0800.
    DlType,
    /// The priority isn't 1 to 16383.
    Priority,
    /// A timeout isn't 0.
    Timeouts,
    /// The actions are neither none nor one output to a port from 1 to 65279.
    Actions,
}

/// Why lines of flow statistics give no configuration of a network. A line is named by its number, from 1, and an entry by
/// its number over the whole file, from 0.
#[derive(Clone, Copy, PartialEq, Eq)]
pub enum StatsFault {
    /// The line isn't a declared switch's name, one space and pairs of hexadecimal digits.
    BadLine(u32),
    /// The bytes of the line are no flow statistics reply that its entries fill, or the reply of the switch was whole
    /// before.
    BadMessage(u32),
    /// The last message of the switch says that more follow.
    Incomplete(SwitchId),
    /// The field of the entry is outside the profile.
    Profile(u32, StatsField),
    /// An earlier entry of the switch has the key.
    KeyTwice(u32),
    /// An earlier entry of the switch has equal priority and covers a common packet.
    Overlap(u32),
    /// The exact ingress port or the output port is no host port or link end of the switch.
    BadPort(u32),
    /// The VLAN id is an available tag.
    ReservedVlan(u32),
    /// The table of the switch is longer than its capacity.
    OverCapacity(SwitchId),
    /// More than 2048 entries.
    TooMany,
    /// Memory was wanting.
    Memory,
}

impl StatsField {
    /// The printed word: the variant's name, behind that of the fault.
    fn name(self) -> &'static str
        ensures { result.now ≡ field_name self }
    {
        match self {
            StatsField::Wildcards => "Profile Wildcards",
            StatsField::InPort => "Profile InPort",
            StatsField::Vlan => "Profile Vlan",
            StatsField::DlType => "Profile DlType",
            StatsField::Priority => "Profile Priority",
            StatsField::Timeouts => "Profile Timeouts",
            StatsField::Actions => "Profile Actions",
        }
    }
}

impl StatsFault {
    /// The number of the refusal, 1 to 10; 0 for want of memory, which is none.
    pub fn number(self) -> u32
        ensures { result ≡ fault_number self }
    {
        match self {
            StatsFault::BadLine(_) => 1,
            StatsFault::BadMessage(_) => 2,
            StatsFault::Incomplete(_) => 3,
            StatsFault::Profile(..) => 4,
            StatsFault::KeyTwice(_) => 5,
            StatsFault::Overlap(_) => 6,
            StatsFault::BadPort(_) => 7,
            StatsFault::ReservedVlan(_) => 8,
            StatsFault::OverCapacity(_) => 9,
            StatsFault::TooMany => 10,
            StatsFault::Memory => 0,
        }
    }

    /// The printed words: the variant's name, and that of the field behind `Profile`.
    pub fn name(self) -> &'static str
        ensures { result.now ≡ fault_name self }
    {
        match self {
            StatsFault::BadLine(_) => "BadLine",
            StatsFault::BadMessage(_) => "BadMessage",
            StatsFault::Incomplete(_) => "Incomplete",
            StatsFault::Profile(_, field) => field.name(),
            StatsFault::KeyTwice(_) => "KeyTwice",
            StatsFault::Overlap(_) => "Overlap",
            StatsFault::BadPort(_) => "BadPort",
            StatsFault::ReservedVlan(_) => "ReservedVlan",
            StatsFault::OverCapacity(_) => "OverCapacity",
            StatsFault::TooMany => "TooMany",
            StatsFault::Memory => "Memory",
        }
    }

    /// The place: the number of the line, of the entry or of the switch; 0 for a fault of the whole file.
    pub fn place(self) -> u32
        ensures { result ≡ fault_place self }
    {
        match self {
            StatsFault::BadLine(line) | StatsFault::BadMessage(line) => line,
            StatsFault::Incomplete(switch) | StatsFault::OverCapacity(switch) => switch.0,
            StatsFault::Profile(entry, _)
            | StatsFault::KeyTwice(entry)
            | StatsFault::Overlap(entry)
            | StatsFault::BadPort(entry)
            | StatsFault::ReservedVlan(entry) => entry,
            StatsFault::TooMany | StatsFault::Memory => 0,
        }
    }
}

impl From<AllocError> for StatsFault {
    ghost from_gives = { λ _ e. e ≡ Memory };

    fn from(_: AllocError) -> StatsFault {
        StatsFault::Memory
    }
}

impl From<net_base::Memory> for StatsFault {
    ghost from_gives = { λ _ e. e ≡ Memory };

    fn from(_: net_base::Memory) -> StatsFault {
        StatsFault::Memory
    }
}
