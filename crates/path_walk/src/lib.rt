//! What becomes of a packet at a place, and along its path.
#![tactic(auto)]

pub mod following;
mod room;
mod walking;

use net_base::{Place, Port, SwitchId, Vlan};
pub use room::PathRoom;
pub use walking::{follow, walk};

/// What becomes of a packet at a place, by the lookup in the table of the place's switch and what is at the output port.
#[derive(Clone, Copy, PartialEq, Eq)]
pub enum Outcome {
    /// It is discarded: no rule covers it, the action discards, nothing is at the output port, or that is the ingress port
    /// (OpenFlow 1.0.0, section 5.2.1: only the virtual port IN_PORT, which no rule uses, sends a packet back out of it).
    Discard,
    /// It leaves the network at this host port of the place's switch, with this VLAN, which is the rewritten one.
    Leave(Port, Vlan),
    /// It goes over a link to this place: the switch and the port at the link's other end, and the rewritten VLAN.
    Go(Place),
}

/// How the walk along a path of a configuration ended. It ends at the latest at the first stop whose switch was visited
/// before.
#[derive(Clone, Copy, PartialEq, Eq)]
pub enum PathEnd {
    /// The packet left the network from this switch, at this host port.
    Left(SwitchId, Port),
    /// This switch discarded the packet.
    Dropped(SwitchId),
    /// The packet came to this switch a second time: the path is a loop, or visits a switch twice.
    Repeats(SwitchId),
}

/// How the places of a path end. They end at the latest at the first one whose switch was visited before.
#[derive(Clone, Copy, PartialEq, Eq)]
pub enum PlacesEnd {
    /// The packet left the network from this switch, at this host port, with this VLAN, which is the rewritten one.
    Left(SwitchId, Port, Vlan),
    /// This switch discarded the packet.
    Dropped(SwitchId),
    /// The packet came to this switch again: the last place is there, and an earlier one.
    Again(SwitchId),
}

/// How a packet's trace ends, or that it goes on.
#[derive(Clone, Copy, PartialEq, Eq)]
pub enum Ended {
    /// It has no end yet: the packet is at its present place.
    UnderWay,
    /// The packet left the network from this switch, at this host port, with this VLAN.
    Left(SwitchId, Port, Vlan),
    /// This switch discarded the packet.
    Dropped(SwitchId),
    /// The network lost the packet on its way, which no table asked for.
    Lost,
}
