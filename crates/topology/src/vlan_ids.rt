//! The ids that VLANs may have.
ghost use Rattle.std.specs.Prelude.{◌≡◌, ◌↔◌, IsTrue, true};
ghost use Rattle.topology.specs.Networks as networks;
ghost use Rattle.topology.specs.Networks.{IsVlanId};

use net_base::MAX_VLAN;

/// Whether the number is an id that a VLAN may have: 1 to 4094 (IEEE 802.1Q).
pub fn is_vlan_id(id: u64) -> bool
    ensures value { result ≡ networks.is_vlan_id id }
    ensures form { result ≡ true → IsVlanId id }
    ensures meaning { IsTrue result ↔ IsVlanId id }
{
    1 <= id && id <= MAX_VLAN
}
