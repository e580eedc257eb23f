//! Numbers of switches and ports, VLANs, and the places of a packet.

/// A switch, by its number from 0 in file order.
#[derive(Clone, Copy, Debug, PartialEq, Eq, PartialOrd, Ord, Hash)]
pub struct SwitchId(pub u32);

/// How many switches a network may have at most: the numbers of switches are below it.
pub const MAX_SWITCHES: u32 = 128;

/// The greatest number of a port of a switch (OpenFlow 1.0.0, section 5.2.1: `OFPP_MAX` is 0xff00, and the numbers from it
/// on name none).
pub const MAX_PORT: u64 = 65279;

/// The greatest id of a VLAN: the ids 0 and 4095 are reserved (IEEE 802.1Q).
pub const MAX_VLAN: u64 = 4094;

/// A port number of a switch, 1 to 65279 where it is in use (OpenFlow 1.0.0, section 5.2.1).
#[derive(Clone, Copy, Debug, PartialEq, Eq, PartialOrd, Ord, Hash)]
pub struct Port(pub u16);

/// The VLAN of a packet: no tag, or the id of its tag, 1 to 4094.
#[derive(Clone, Copy, Debug, PartialEq, Eq, PartialOrd, Ord, Hash)]
pub enum Vlan {
    Untagged,
    Id(u16),
}

/// Where a packet is before a lookup: a switch, the ingress port there, and its VLAN.
#[derive(Clone, Copy, Debug, PartialEq, Eq, PartialOrd, Ord, Hash)]
pub struct Place {
    pub switch: SwitchId,
    pub port: Port,
    pub vlan: Vlan,
}

/// A stop of a packet's trace: a switch and the ingress port there.
#[derive(Clone, Copy, Debug, PartialEq, Eq, PartialOrd, Ord, Hash)]
pub struct Stop {
    pub switch: SwitchId,
    pub port: Port,
}
