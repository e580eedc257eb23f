//! Tags for declared VLANs.
#![tactic(auto)]

ghost use Rattle.std.specs.Prelude.{◌≡◌, ◌<◌, ◌≤◌, ◌-◌, ◌++◌, ◌∷◌, [], suc, length, map, take, filter, not, slice_get, IfOk, IfErr, OnOk, Some};
ghost use Rattle.std.specs.List.{AllByRecursion, list_any};
ghost use Rattle.net_base.specs.Members.{IsDistinct};
ghost use Rattle.topology.specs.Networks.{IsAvailableTag};
ghost use Rattle.net_base.specs.Numbers.{numbers_from};
ghost use Rattle.tag_allocator.specs.Tags.{available_tags, tags_of, has_id};
ghost use Rattle.tag_allocator.specs.TagFaults.{IsTagCause};

use net_base::{Memory, Vlan};
use std::alloc::{AllocError, Global};
use std::marker::Model;
use topology::Net;

/// Why declared VLANs get no tags.
#[derive(Clone, Copy, Debug, PartialEq, Eq)]
pub enum TagFault {
    /// More VLANs are declared than tags are available: the number of declared VLANs, and the number of available tags.
    TooFew { need: u32, has: u32 },
    /// Memory was wanting.
    Memory,
}

impl From<Memory> for TagFault {
    ghost use Rattle.std.specs.Prelude.{◌≡◌};
    ghost use Rattle.tag_allocator.specs.declared.TagFault.TheVariants.{Memory};

    ghost from_gives = { λ _ e. e ≡ Memory };

    fn from(_: Memory) -> Self {
        TagFault::Memory
    }
}

/// One tag for each declared VLAN, by its place in the order of the file.
#[derive(Drop)]
pub struct TagMap {
    tags: Vec<u16>,
}

impl Model for TagMap {
    ghost use Rattle.std.specs.Prelude.{List, ℕ};

    ghost Value = { List ℕ };

    ghost view = { λ m. m.tags.items };
}

impl TagMap {
    /// The tag of the declared VLAN at this place, counted from 0.
    pub fn tag(&self, vlan: u32) -> u16
        requires { vlan < length self.now }
        ensures { slice_get self.now vlan ≡ Some result }
    {
        self.tags[vlan as usize]
    }
}

/// Adds the id where no declared VLAN has it.
fn add_free(tags: &mut Vec<u16>, net: &Net, id: u16) -> Result<(), Memory>
    ensures { OnOk result (tags.new.items
        ≡ tags.old.items ++ filter (λ n. not (list_any (has_id n) net.now.vlans)) (id ∷ [])) }
{
    if !net.is_declared(Vlan::Id(id)) {
        tags.push(id)?;
    }
    Ok(())
}

/// The ids from the first to the last that no declared VLAN has, ascending.
fn free_ids(alloc: Global, net: &Net, first: u16, last: u16) -> Result<Vec<u16>, Memory>
    requires order { first ≤ last }
    requires within { last ≤ 4094 }
    ensures { IfOk result (λ v. v.items
        ≡ filter (λ n. not (list_any (has_id n) net.now.vlans))
        (numbers_from first (suc last - first))) }
{
    let mut tags = Vec::new(alloc);
    for id in first..last + 1 {
        add_free(&mut tags, net, id)?;
    }
    Ok(tags)
}

/// The available tags, ascending.
fn available(alloc: Global, net: &Net) -> Result<Vec<u16>, Memory>
    ensures value { IfOk result (λ v. v.items ≡ available_tags net.now) }
    ensures few { length (available_tags net.now) ≤ 4094 }
{
    net.keeps_rules();
    match net.tags() {
        None => Ok(Vec::new(alloc)),
        Some((first, last)) => free_ids(alloc, net, first, last),
    }
}

/// Gives each declared VLAN a tag: the i-th one in the order of the file gets the i-th available tag, ascending. An
/// available tag is an id of the tag range that no declared VLAN has. It looks at each id of the range once.
pub fn allot(alloc: Global, net: &Net) -> Result<TagMap, TagFault>
    ensures value { IfOk result (λ m. m ≡ map (λ t. t.tag) (tags_of net.now)) }
    ensures first { IfOk result (λ m. m ≡ take (length net.now.vlans) (available_tags net.now)) }
    ensures each { IfOk result (λ m. length m ≡ length net.now.vlans) }
    ensures enough { IfOk result (λ m. length net.now.vlans ≤ length (available_tags net.now)) }
    ensures available { IfOk result (λ m. AllByRecursion (IsAvailableTag net.now) m) }
    ensures distinct { IfOk result (λ m. IsDistinct m) }
    ensures cause { IfErr result (IsTagCause net.now) }
{
    net.keeps_rules();
    let mut tags = available(alloc, net)?;
    let need = net.vlans().len();
    if tags.len() < need {
        return Err(TagFault::TooFew {
            need: need as u32,
            has: tags.len() as u32,
        });
    }
    tags.truncate(need);
    Ok(TagMap { tags })
}
