//! The declared VLANs with their tags.
ghost use Rattle.std.specs.Prelude.{◌≡◌, ◌≤◌, IfOk, length, map};
ghost use Rattle.tag_allocator.specs.Tags.{tags_of, available_tags};

use net_base::{Memory, Vlan};
use std::alloc::Global;
use std::marker::Model;
use tag_allocator::TagMap;
use topology::Net;

/// A declared VLAN with its tag.
#[derive(Drop)]
pub(crate) struct VlanTag {
    pub user: Vlan,
    pub tag: u16,
}

impl Model for VlanTag {
    ghost use Rattle.tag_allocator.specs.Tags.{Tagged};

    ghost Value = { Tagged };

    ghost view = { λ t. record { user = t.user; tag = t.tag } };
}

/// The declared VLANs with their tags, in the order of the file.
pub(crate) fn vlan_tags(alloc: Global, net: &Net, tags: &TagMap) -> Result<Vec<VlanTag>, Memory>
    requires tags { tags.now ≡ map (λ t. t.tag) (tags_of net.now) }
    requires enough { length net.now.vlans ≤ length (available_tags net.now) }
    ensures { IfOk result (λ v. v.items ≡ tags_of net.now) }
{
    net.keeps_rules();
    let mut pairs = Vec::new(alloc);
    for (i, user) in net.vlans().iter().enumerate() {
        pairs.push(VlanTag {
            user: *user,
            tag: tags.tag(i as u32),
        })?;
    }
    Ok(pairs)
}
