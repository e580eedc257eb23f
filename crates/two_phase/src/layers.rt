//! The ingress rules of all switches in layers, each of which is laid and taken away by a round of its own.
ghost use Rattle.std.specs.Prelude.{◌≡◌, ◌≤◌, List, IfOk, length, suc};
ghost use Rattle.net_base.specs.declared.ids.SwitchId.{SwitchId};
ghost use Rattle.topology.specs.Networks.{Network, switch_count};
ghost use Rattle.flow_rules.specs.Tables.{rules_of_all, rules_at};
ghost use Rattle.flow_rules.specs.declared.rules.Rule.{Rule};
ghost use Rattle.path_walk.specs.UserConfigs.{IsUserConfig};
ghost use Rattle.net_base.specs.Numbers.{numbers_from};
ghost use Rattle.tag_allocator.specs.Tags.{tags_of, available_tags};
ghost use Rattle.two_phase.specs.TwoPhasePlan.{ingress_rules};
ghost use Rattle.two_phase.specs.SwitchRules.{change_by};
ghost use Rattle.two_phase.specs.Layers.{AreLayered, by_layer, laying_order, layering_of, list_count};

use crate::bands::Band;
use crate::deep_rules::{DeepRules, deepen};
use crate::ranks::{make_band, ranks_of};
use crate::switch_rules::{Step, SwitchRules};
use crate::vlan_tags::VlanTag;
use flow_rules::Config;
use net_base::Memory;
use std::alloc::Global;
use topology::Net;
use update_model::Change;

/// What tells the layers of ingress rules apart: their ranks, or their depths.
#[derive(Clone, Copy)]
pub(crate) enum Layering {
    ByRank,
    ByDepth,
}

/// The ingress rules of all switches in key order, with what tells their layers.
#[derive(Drop)]
pub(crate) enum Layers {
    Ranks(SwitchRules),
    Depths(DeepRules),
}

/// The numbers from 0 to the last one.
fn numbers_to(alloc: Global, last: usize) -> Result<Vec<usize>, Memory>
    ensures { IfOk result (λ v. v.items ≡ numbers_from 0 (suc last)) }
{
    let mut numbers = Vec::new(alloc);
    numbers.push(0)?;
    for number in 0..last {
        numbers.push(number + 1)?;
    }
    Ok(numbers)
}

impl Layers {
    /// The layers in the order in which they are laid: descending ranks, or ascending depths.
    pub(crate) fn laying_order(&self, alloc: Global) -> Result<Vec<usize>, Memory>
        ensures { (net : Network) (new : List (List Rule))
            → AreLayered net (λ s. ingress_rules net s (rules_at new s)) self.now
            → IfOk result (λ v. v.items ≡ laying_order (layering_of self.now) net new) }
    {
        match self {
            Layers::Ranks(rules) => ranks_of(rules),
            Layers::Depths(rules) => numbers_to(alloc, rules.greatest()),
        }
    }

    /// The round that lays the rules of one layer, or takes them away, by switch and then in key order.
    pub(crate) fn round(
        &self,
        alloc: Global,
        net: &Net,
        step: Step,
        layer: usize,
    ) -> Result<Vec<Change>, Memory>
        requires { list_count self.now ≡ switch_count net.now }
        ensures { (rules : SwitchId → List Rule) → AreLayered net.now rules self.now
            → IfOk result (λ v. v.items
            ≡ by_layer net.now (change_by step) (layering_of self.now) rules layer) }
    {
        match self {
            Layers::Ranks(rules) => rules.round_of(alloc, net, step, layer),
            Layers::Depths(rules) => rules.round_at(alloc, net, step, layer),
        }
    }
}

/// The ingress rules of all switches with these layers.
pub(crate) fn make_layers(
    alloc: Global,
    net: &Net,
    tags: &[VlanTag],
    new: &Config,
    layering: Layering,
) -> Result<Layers, Memory>
    requires new { IsUserConfig net.now (rules_of_all new.now) }
    requires tags { tags.now ≡ tags_of net.now }
    requires enough { length net.now.vlans ≤ length (available_tags net.now) }
    ensures layered { IfOk result (AreLayered net.now
        (λ s. ingress_rules net.now s (rules_at (rules_of_all new.now) s))) }
    ensures layering { IfOk result (λ layers. layering_of layers ≡ layering) }
    ensures count { IfOk result (λ layers. list_count layers ≡ switch_count net.now) }
{
    let ingress = make_band(alloc, net, tags, new, Band::Ingress)?;
    match layering {
        Layering::ByRank => Ok(Layers::Ranks(ingress)),
        Layering::ByDepth => {
            let deep = deepen(alloc, net, &ingress);
            drop(ingress);
            Ok(Layers::Depths(deep?))
        }
    }
}
