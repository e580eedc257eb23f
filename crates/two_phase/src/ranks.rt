//! The bands of all switches in key order, and the ranks.
ghost use Rattle.std.specs.Prelude.{◌≡◌, ◌<◌, ◌≤◌, ◌∷◌, IfOk, length, map, flat_map, reverse};
ghost use Rattle.topology.specs.Networks.{switch_count};
ghost use Rattle.flow_rules.specs.Tables.{rules_of_all, rules_at};
ghost use Rattle.path_walk.specs.UserConfigs.{IsUserConfig};
ghost use Rattle.dest_classes.specs.Classes.{ascending_numbers};
ghost use Rattle.tag_allocator.specs.Tags.{tags_of, available_tags};
ghost use Rattle.two_phase.specs.TwoPhasePlan.{in_key_order};
ghost use Rattle.two_phase.specs.SwitchRules.{AreOrdered, band_rules};

use crate::bands::{Band, band_rules};
use crate::blocks::put_in_key_order;
use crate::copies::INGRESS_BASE;
use crate::switch_rules::SwitchRules;
use crate::vlan_tags::VlanTag;
use flow_rules::{Config, Rule};
use net_base::{Memory, SwitchId};
use std::alloc::Global;
use topology::Net;

/// The rules of a band at a switch, in key order.
fn band_at(
    alloc: Global,
    net: &Net,
    s: SwitchId,
    tags: &[VlanTag],
    new: &Config,
    band: Band,
) -> Result<Vec<Rule>, Memory>
    requires within { s.0 < switch_count net.now }
    requires new { IsUserConfig net.now (rules_of_all new.now) }
    requires tags { tags.now ≡ tags_of net.now }
    requires enough { length net.now.vlans ≤ length (available_tags net.now) }
    ensures { IfOk result
        (λ v. v.items
        ≡ in_key_order (band_rules band net.now s (rules_at (rules_of_all new.now) s))) }
{
    net.keeps_rules();
    let table = new.table(s);
    let mut rules = band_rules(alloc, net, s, tags, table.rules(), band)?;
    put_in_key_order(&mut rules);
    Ok(rules)
}

/// The rules of a band at all switches, in key order.
pub(crate) fn make_band(
    alloc: Global,
    net: &Net,
    tags: &[VlanTag],
    new: &Config,
    band: Band,
) -> Result<SwitchRules, Memory>
    requires new { IsUserConfig net.now (rules_of_all new.now) }
    requires tags { tags.now ≡ tags_of net.now }
    requires enough { length net.now.vlans ≤ length (available_tags net.now) }
    ensures ordered { IfOk result
        (AreOrdered net.now (λ s. band_rules band net.now s (rules_at (rules_of_all new.now) s))) }
    ensures count { IfOk result (λ all. length all ≡ switch_count net.now) }
{
    net.keeps_rules();
    let mut all = SwitchRules::new(alloc);
    for number in 0..net.switches() {
        all.push(band_at(alloc, net, SwitchId(number), tags, new, band)?)?;
    }
    Ok(all)
}

/// The ranks: the priorities of ingress rules, that of the defaults in any case, descending and each once.
pub(crate) fn ranks_of(ingress: &SwitchRules) -> Result<Vec<usize>, Memory>
    ensures { IfOk result
        (λ v. v.items
        ≡ reverse (ascending_numbers (32768
        ∷ flat_map (λ rules. map (λ r. r.key.priority) rules) ingress.now))) }
{
    let mut ranks = ingress.priorities(INGRESS_BASE)?;
    ranks.sort_unstable();
    ranks.dedup();
    ranks.reverse();
    Ok(ranks)
}
