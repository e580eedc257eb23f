//! The flow match, struct ofp_match (OpenFlow 1.0.0, section 5.2.3).
ghost use Rattle.std.specs.Prelude.{◌≡◌, ◌+◌, ◌-◌, ◌%◌, ◌^◌, ◌==◌, ◌≤◌, None, length};
ghost use Rattle.std.specs.Result.{result_err};
ghost use Rattle.std.specs.Int.{bit_at};
ghost use Rattle.openflow10.specs.Match.{match_at, wildcards_of, any_port, any_vlan, ignored_bits, port_in, vlan_in, pattern_in};
ghost use Rattle.openflow10.specs.Actions.{is_port};
ghost use Rattle.openflow10.specs.Refusals.{first_failed, match_tests, has_wildcards, has_in_port, has_layer_two, has_vlan, has_vlan_priority, has_network, has_address, has_transport};

use crate::numbers::{u8_at, u16_at, u32_at, u48_at};
use crate::ofp_action::is_port;
use crate::reading::want;
use crate::{WireFault, WireField};
use flow_rules::{Pattern, VlanTest};
use net_base::{Port, Prefix};
use topology::is_vlan_id;

/// The bits of `wildcards` that are set for every pattern: all but those of the ingress port, the VLAN, the frame type and
/// the destination (OFPFW_DL_SRC, DL_DST, NW_PROTO, TP_SRC, TP_DST, 32 for NW_SRC, DL_VLAN_PCP, NW_TOS).
const FIXED_WILDCARDS: u32 = 0x0030_20ec;

/// OFPFW_IN_PORT, the bit of any ingress port.
const IN_PORT: u32 = 0;

/// OFPFW_DL_VLAN, the bit of any VLAN.
const DL_VLAN: u32 = 1;

/// OFPFW_NW_DST_SHIFT, the lowest of the six bits that count the ignored bits of the destination.
const NW_DST: u32 = 14;

/// OFP_VLAN_NONE: the packet has no tag.
pub(crate) const VLAN_NONE: u16 = 0xffff;

/// The frame type of IPv4.
pub(crate) const IPV4: u16 = 0x0800;

/// The fields of struct ofp_match as they stand in the 40 bytes of a flow match, whatever their values
/// (OpenFlow 1.0.0, section 5.2.3).
#[derive(Clone, Copy)]
pub struct MatchFields {
    /// Which fields any packet matches: a bit each, and counts of ignored low bits for the two addresses.
    pub wildcards: u32,
    pub in_port: u16,
    /// The Ethernet source, of 48 bits.
    pub dl_src: u64,
    /// The Ethernet destination, of 48 bits.
    pub dl_dst: u64,
    /// The VLAN id, 0xffff for a packet without a tag.
    pub dl_vlan: u16,
    pub dl_vlan_pcp: u8,
    pub pad1: u8,
    /// The type of the Ethernet frame.
    pub dl_type: u16,
    pub nw_tos: u8,
    pub nw_proto: u8,
    pub pad2: u16,
    /// The IPv4 source.
    pub nw_src: u32,
    /// The IPv4 destination.
    pub nw_dst: u32,
    pub tp_src: u16,
    pub tp_dst: u16,
}

/// The wildcards of a match with any ingress port or an exact one, any VLAN or an exact one, and so many ignored bits of
/// the destination.
#[tactic(auto, unfolding(crate::specs::Match::wildcards_of))]
pub(crate) fn wildcards_of(any_port: bool, any_vlan: bool, ignored: u32) -> u32
    requires { ignored ≤ 63 }
    ensures { result ≡ wildcards_of any_port any_vlan ignored }
{
    let port = if any_port { 1 << IN_PORT } else { 0 };
    let vlan = if any_vlan { 1 << DL_VLAN } else { 0 };
    FIXED_WILDCARDS + port + vlan + (ignored << NW_DST)
}

/// Whether a bit is set.
fn has_bit(number: u32, bit: u32) -> bool
    requires { bit ≤ 31 }
    ensures { result ≡ (bit_at number bit == 1) }
{
    (number >> bit) % 2 == 1
}

/// The prefix with a first address, of which so many low bits are ignored.
fn prefix_of(base: u32, ignored: u32) -> Prefix
    requires few { ignored ≤ 32 }
    requires aligned { base % 2 ^ ignored ≡ 0 }
    ensures { result ≡ record { base = base; len = 32 - ignored } }
{
    Prefix {
        base,
        len: (32 - ignored) as u8,
    }
}

impl MatchFields {
    /// The struct in the 40 bytes from an offset on.
    pub fn read(bytes: &[u8], at: usize) -> MatchFields
        requires { at + 40 ≤ length bytes.now }
        ensures { result ≡ match_at at bytes.now }
    {
        MatchFields {
            wildcards: u32_at(bytes, at),
            in_port: u16_at(bytes, at + 4),
            dl_src: u48_at(bytes, at + 6),
            dl_dst: u48_at(bytes, at + 12),
            dl_vlan: u16_at(bytes, at + 18),
            dl_vlan_pcp: u8_at(bytes, at + 20),
            pad1: u8_at(bytes, at + 21),
            dl_type: u16_at(bytes, at + 22),
            nw_tos: u8_at(bytes, at + 24),
            nw_proto: u8_at(bytes, at + 25),
            pad2: u16_at(bytes, at + 26),
            nw_src: u32_at(bytes, at + 28),
            nw_dst: u32_at(bytes, at + 32),
            tp_src: u16_at(bytes, at + 36),
            tp_dst: u16_at(bytes, at + 38),
        }
    }

    /// Whether any ingress port matches.
    #[tactic(auto, unfolding(crate::specs::Match::any_port))]
    pub fn any_port(&self) -> bool
        ensures { result ≡ any_port self.now.wildcards }
    {
        has_bit(self.wildcards, IN_PORT)
    }

    /// Whether any VLAN matches.
    #[tactic(auto, unfolding(crate::specs::Match::any_vlan))]
    pub fn any_vlan(&self) -> bool
        ensures { result ≡ any_vlan self.now.wildcards }
    {
        has_bit(self.wildcards, DL_VLAN)
    }

    /// How many low bits of the destination are ignored, 0 to 63; 32 and more are all.
    #[tactic(auto, unfolding(crate::specs::Match::ignored_bits))]
    pub fn ignored_bits(&self) -> u32
        ensures value { result ≡ ignored_bits self.now.wildcards }
        ensures six_bits { result ≤ 63 }
    {
        (self.wildcards >> NW_DST) % 64
    }

    #[tactic(auto, unfolding(crate::specs::Refusals::has_wildcards))]
    fn has_wildcards(&self) -> bool
        ensures { result ≡ has_wildcards self.now }
    {
        let ignored = self.ignored_bits();
        self.wildcards == wildcards_of(self.any_port(), self.any_vlan(), ignored) && ignored <= 32
    }

    #[tactic(auto, unfolding(crate::specs::Refusals::has_in_port))]
    fn has_in_port(&self) -> bool
        ensures { result ≡ has_in_port self.now }
    {
        if self.any_port() {
            self.in_port == 0
        } else {
            is_port(self.in_port)
        }
    }

    #[tactic(auto, unfolding(crate::specs::Refusals::has_layer_two))]
    fn has_layer_two(&self) -> bool
        ensures { result ≡ has_layer_two self.now }
    {
        self.dl_src == 0 && self.dl_dst == 0
    }

    #[tactic(auto, unfolding(crate::specs::Refusals::has_vlan))]
    fn has_vlan(&self) -> bool
        ensures { result ≡ has_vlan self.now }
    {
        if self.any_vlan() {
            self.dl_vlan == 0
        } else {
            self.dl_vlan == VLAN_NONE || is_vlan_id(u64::from(self.dl_vlan))
        }
    }

    #[tactic(auto, unfolding(crate::specs::Refusals::has_vlan_priority))]
    fn has_vlan_priority(&self) -> bool
        ensures { result ≡ has_vlan_priority self.now }
    {
        self.dl_vlan_pcp == 0 && self.pad1 == 0
    }

    #[tactic(auto, unfolding(crate::specs::Refusals::has_network))]
    fn has_network(&self) -> bool
        ensures { result ≡ has_network self.now }
    {
        self.nw_tos == 0 && self.nw_proto == 0 && self.pad2 == 0 && self.nw_src == 0
    }

    #[tactic(auto, unfolding(crate::specs::Refusals::has_address))]
    fn has_address(&self) -> bool
        ensures { result ≡ has_address self.now }
    {
        u64::from(self.nw_dst) % (1u64 << self.ignored_bits()) == 0
    }

    #[tactic(auto, unfolding(crate::specs::Refusals::has_transport))]
    fn has_transport(&self) -> bool
        ensures { result ≡ has_transport self.now }
    {
        self.tp_src == 0 && self.tp_dst == 0
    }

    /// That each field has a value which is written, or the first that hasn't.
    pub(crate) fn check(&self) -> Result<(), WireFault>
        ensures { result_err result ≡ first_failed (match_tests self.now) }
    {
        want(self.has_wildcards(), WireField::Wildcards)?;
        want(self.has_in_port(), WireField::InPort)?;
        want(self.has_layer_two(), WireField::LayerTwo)?;
        want(self.has_vlan(), WireField::Vlan)?;
        want(self.has_vlan_priority(), WireField::VlanPriority)?;
        want(self.dl_type == IPV4, WireField::DlType)?;
        want(self.has_network(), WireField::Network)?;
        want(self.has_address(), WireField::Address)?;
        want(self.has_transport(), WireField::Transport)
    }

    /// The ingress port that the fields name; nothing where any matches.
    pub fn in_port(&self) -> Option<Port>
        ensures { result ≡ port_in self.now }
    {
        if self.any_port() {
            None
        } else {
            Some(Port(self.in_port))
        }
    }

    /// The VLAN test that the fields name.
    pub fn vlan(&self) -> VlanTest
        ensures { result ≡ vlan_in self.now }
    {
        if self.any_vlan() {
            VlanTest::Any
        } else if self.dl_vlan == VLAN_NONE {
            VlanTest::Untagged
        } else {
            VlanTest::Id(self.dl_vlan)
        }
    }

    /// The pattern that the fields name.
    pub(crate) fn pattern(&self) -> Pattern
        requires { first_failed (match_tests self.now) ≡ None }
        ensures { result ≡ pattern_in self.now }
    {
        Pattern {
            in_port: self.in_port(),
            vlan: self.vlan(),
            dst: prefix_of(self.nw_dst, self.ignored_bits()),
        }
    }
}
