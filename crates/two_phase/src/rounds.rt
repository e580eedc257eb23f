//! The rounds of the two-phase plan.
//!
//! What a function owns is let go at each of its ends, which makes its proof long. So the rules of both bands, the layers and the
//! rounds are owned by a function each, which lends them to the next one.
ghost use Rattle.std.specs.Prelude.{◌≡◌, ◌<◌, ◌≤◌, ◌^◌, ◌++◌, ◌∷◌, [], List, not, IfOk, OnOk, length, map, reverse, filter};
ghost use Rattle.net_base.specs.declared.ids.SwitchId.{SwitchId};
ghost use Rattle.topology.specs.Networks.{switch_count};
ghost use Rattle.flow_rules.specs.Tables.{rules_of_all, rules_at};
ghost use Rattle.flow_rules.specs.declared.rules.Rule.{Rule};
ghost use Rattle.path_walk.specs.UserConfigs.{IsUserConfig};
ghost use Rattle.update_model.specs.Mixtures.{is_insert};
ghost use Rattle.update_model.specs.Remaining.{remaining_changes};
ghost use Rattle.update_model.specs.declared.Change.TheVariants.{Insert, Delete};
ghost use Rattle.tag_allocator.specs.Tags.{tags_of, available_tags};
ghost use Rattle.two_phase.specs.Laws.{FitsTwoPhase};
ghost use Rattle.two_phase.specs.SwitchRules.{AreOrdered, change_by};
ghost use Rattle.two_phase.specs.TwoPhasePlan.{by_switch, ingress_rules, tagged_rules};
ghost use Rattle.two_phase.specs.Layers.{AreLayered, by_layer, laying_order, layer_count, layering_of, list_count, rounds_by};

use crate::bands::Band;
use crate::layers::{Layering, Layers, make_layers};
use crate::ranks::make_band;
use crate::switch_rules::{Step, SwitchRules};
use crate::vlan_tags::vlan_tags;
use flow_rules::Config;
use net_base::Memory;
use std::alloc::Global;
use table_difference::remaining;
use tag_allocator::TagMap;
use topology::Net;
use update_model::{Change, Rounds};

/// The rules of both bands at all switches: the tagged ones in key order, and the ingress rules in layers.
#[derive(Clone, Copy)]
struct Bands<'a> {
    tagged: &'a SwitchRules,
    ingress: &'a Layers,
}

/// The numbers in the opposite order.
fn reversed(alloc: Global, numbers: &[usize]) -> Result<Vec<usize>, Memory>
    ensures { IfOk result (λ v. v.items ≡ reverse numbers.now) }
{
    Ok(numbers.iter().rev().copied().collect(alloc)?)
}

/// Adds a round for each layer, in the order of the list.
fn add_layers(
    alloc: Global,
    rounds: &mut Rounds,
    net: &Net,
    step: Step,
    ingress: &Layers,
    layers: &[usize],
) -> Result<(), Memory>
    requires { list_count ingress.now ≡ switch_count net.now }
    ensures { (rules : SwitchId → List Rule) → AreLayered net.now rules ingress.now
        → OnOk result
        (rounds.new ≡ rounds.old
        ++ map (by_layer net.now (change_by step) (layering_of ingress.now) rules) layers.now) }
{
    for layer in layers {
        rounds.push_round(ingress.round(alloc, net, step, *layer)?)?;
    }
    Ok(())
}

/// The changes that insert a rule.
fn inserts(alloc: Global, changes: &[Change]) -> Result<Vec<Change>, Memory>
    ensures { IfOk result (λ v. v.items ≡ filter is_insert changes.now) }
{
    let inserts = changes.iter().copied().filter(|change| change.is_insert());
    Ok(inserts.collect(alloc)?)
}

/// The changes that delete or replace a rule.
fn others(alloc: Global, changes: &[Change]) -> Result<Vec<Change>, Memory>
    ensures { IfOk result (λ v. v.items ≡ filter (λ c. not (is_insert c)) changes.now) }
{
    let others = changes.iter().copied().filter(|change| !change.is_insert());
    Ok(others.collect(alloc)?)
}

/// Adds a round of what deletes and replaces rules, and then one of what inserts them.
fn add_halves(alloc: Global, rounds: &mut Rounds, changes: &[Change]) -> Result<(), Memory>
    ensures { OnOk result
        (rounds.new ≡ rounds.old
        ++ filter (λ c. not (is_insert c)) changes.now ∷ filter is_insert changes.now ∷ []) }
{
    rounds.push_round(others(alloc, changes)?)?;
    rounds.push_round(inserts(alloc, changes)?)?;
    Ok(())
}

/// Adds the two rounds of the exchange: first what deletes and replaces old rules, and then what inserts new ones.
fn add_exchange(
    alloc: Global,
    rounds: &mut Rounds,
    old: &Config,
    new: &Config,
) -> Result<(), Memory>
    requires { length old.now < 2 ^ 32 }
    ensures { OnOk result (rounds.new ≡ rounds.old
        ++ filter (λ c. not (is_insert c))
        (remaining_changes (rules_of_all old.now) (rules_of_all new.now)) ∷ filter is_insert
        (remaining_changes (rules_of_all old.now) (rules_of_all new.now)) ∷ []) }
{
    let changes = remaining(alloc, old, new)?;
    let added = add_halves(alloc, rounds, &changes);
    drop(changes);
    added
}

/// Adds the round of all rules.
fn add_round(
    alloc: Global,
    rounds: &mut Rounds,
    net: &Net,
    step: Step,
    lists: &SwitchRules,
) -> Result<(), Memory>
    requires { length lists.now ≡ switch_count net.now }
    ensures { (rules : SwitchId → List Rule) → AreOrdered net.now rules lists.now
        → OnOk result (rounds.new ≡ rounds.old ++ (by_switch net.now (change_by step) rules ∷ [])) }
{
    rounds.push_round(lists.round(alloc, net, step)?)?;
    Ok(())
}

/// Adds the rounds that lay the tagged rules, and then the ingress rules in the order of the layers.
fn add_laying(
    alloc: Global,
    rounds: &mut Rounds,
    net: &Net,
    bands: &Bands,
    layers: &[usize],
) -> Result<(), Memory>
    requires tagged { length bands.now.tagged.now ≡ switch_count net.now }
    requires ingress { list_count bands.now.ingress.now ≡ switch_count net.now }
    ensures { (first rest : SwitchId → List Rule) → AreOrdered net.now first bands.now.tagged.now
        → AreLayered net.now rest bands.now.ingress.now
        → OnOk result
        (rounds.new ≡ rounds.old ++ (by_switch net.now Insert first ∷ [])
        ++ map (by_layer net.now Insert (layering_of bands.now.ingress.now) rest) layers.now) }
{
    add_round(alloc, rounds, net, Step::Lay, bands.tagged)?;
    add_layers(alloc, rounds, net, Step::Lay, bands.ingress, layers)
}

/// Adds the rounds that take the ingress rules away in the opposite order of the layers, and then the tagged rules.
fn add_taking(
    alloc: Global,
    rounds: &mut Rounds,
    net: &Net,
    bands: &Bands,
    layers: &[usize],
) -> Result<(), Memory>
    requires tagged { length bands.now.tagged.now ≡ switch_count net.now }
    requires ingress { list_count bands.now.ingress.now ≡ switch_count net.now }
    ensures { (first rest : SwitchId → List Rule) → AreOrdered net.now first bands.now.tagged.now
        → AreLayered net.now rest bands.now.ingress.now
        → OnOk result
        (rounds.new ≡ rounds.old
        ++ map (by_layer net.now Delete (layering_of bands.now.ingress.now) rest)
        (reverse layers.now)
        ++ (by_switch net.now Delete first ∷ [])) }
{
    let back = reversed(alloc, layers)?;
    let added = add_layers(alloc, rounds, net, Step::Take, bands.ingress, &back);
    drop(back);
    added?;
    add_round(alloc, rounds, net, Step::Take, bands.tagged)
}

/// The rounds of the plan, from the rules of both bands and the layers in the order in which they are laid.
fn rounds_in_order(
    alloc: Global,
    net: &Net,
    old: &Config,
    new: &Config,
    bands: &Bands,
    layers: &[usize],
) -> Result<Rounds, Memory>
    requires few { length old.now < 2 ^ 32 }
    requires tagged_count { length bands.now.tagged.now ≡ switch_count net.now }
    requires ingress_count { list_count bands.now.ingress.now ≡ switch_count net.now }
    requires tagged { AreOrdered net.now
        (λ s. tagged_rules net.now s (rules_at (rules_of_all new.now) s)) bands.now.tagged.now }
    requires ingress { AreLayered net.now
        (λ s. ingress_rules net.now s (rules_at (rules_of_all new.now) s)) bands.now.ingress.now }
    requires layers { layers.now
        ≡ laying_order (layering_of bands.now.ingress.now) net.now (rules_of_all new.now) }
    ensures { IfOk result
        (λ r. r ≡ rounds_by (layering_of bands.now.ingress.now) net.now
        (rules_of_all old.now) (rules_of_all new.now)) }
{
    let mut rounds = Rounds::make(alloc)?;
    add_laying(alloc, &mut rounds, net, bands, layers)?;
    add_exchange(alloc, &mut rounds, old, new)?;
    add_taking(alloc, &mut rounds, net, bands, layers)?;
    Ok(rounds)
}

/// The rounds of the plan, and the number of its layers, from the rules of both bands.
fn rounds_from_bands(
    alloc: Global,
    net: &Net,
    old: &Config,
    new: &Config,
    bands: &Bands,
) -> Result<(Rounds, usize), Memory>
    requires few { length old.now < 2 ^ 32 }
    requires tagged_count { length bands.now.tagged.now ≡ switch_count net.now }
    requires ingress_count { list_count bands.now.ingress.now ≡ switch_count net.now }
    requires tagged { AreOrdered net.now
        (λ s. tagged_rules net.now s (rules_at (rules_of_all new.now) s)) bands.now.tagged.now }
    requires ingress { AreLayered net.now
        (λ s. ingress_rules net.now s (rules_at (rules_of_all new.now) s)) bands.now.ingress.now }
    ensures rounds { IfOk result
        (λ r. r.0 ≡ rounds_by (layering_of bands.now.ingress.now) net.now
        (rules_of_all old.now) (rules_of_all new.now)) }
    ensures layers { IfOk result
        (λ r. r.1
        ≡ layer_count (layering_of bands.now.ingress.now) net.now (rules_of_all new.now)) }
{
    let layers = bands.ingress.laying_order(alloc)?;
    let count = layers.len();
    let rounds = rounds_in_order(alloc, net, old, new, bands, &layers);
    drop(layers);
    Ok((rounds?, count))
}

/// The rounds of the plan, and the number of its layers.
pub(crate) fn make_rounds(
    alloc: Global,
    net: &Net,
    old: &Config,
    new: &Config,
    tags: &TagMap,
    layering: Layering,
) -> Result<(Rounds, usize), Memory>
    requires old { IsUserConfig net.now (rules_of_all old.now) }
    requires new { IsUserConfig net.now (rules_of_all new.now) }
    requires tags { tags.now ≡ map (λ t. t.tag) (tags_of net.now) }
    requires fits { FitsTwoPhase net.now (rules_of_all old.now) (rules_of_all new.now) }
    ensures rounds { IfOk result
        (λ r. r.0 ≡ rounds_by layering net.now (rules_of_all old.now) (rules_of_all new.now)) }
    ensures layers { IfOk result
        (λ r. r.1 ≡ layer_count layering net.now (rules_of_all new.now)) }
{
    net.keeps_rules();
    let pairs = vlan_tags(alloc, net, tags)?;
    let tagged = make_band(alloc, net, &pairs, new, Band::Tagged)?;
    let ingress = make_layers(alloc, net, &pairs, new, layering)?;
    drop(pairs);
    let bands = Bands {
        tagged: &tagged,
        ingress: &ingress,
    };
    let rounds = rounds_from_bands(alloc, net, old, new, &bands);
    drop(ingress);
    drop(tagged);
    rounds
}
