//! The two-phase plan, or why there is none.
//!
//! What a function owns is let go at each of its ends, which makes its proof long. So each part of the plan is made by a
//! function of its own.
ghost use Rattle.std.specs.Prelude.{◌≡◌, ◌≤◌, IfOk, IfErr, OnOk, map, length};
ghost use Rattle.flow_rules.specs.Tables.{rules_of_all};
ghost use Rattle.path_walk.specs.UserConfigs.{IsUserConfig};
ghost use Rattle.certificates.specs.Valid.{IsValidPlan};
ghost use Rattle.two_phase.specs.Laws.{FitsTwoPhase, two_phase_task};
ghost use Rattle.table_difference.specs.Tried.{AreTried};
ghost use Rattle.two_phase.specs.Plans.{layered_plan, two_phase_plan, IsTwoCause, IsCertifiedWith, IsCertifiedTwoPhase};
ghost use Rattle.table_difference.specs.SameClasses.{HasSameClasses, classes_before};
ghost use Rattle.certificates.specs.Certified.{classes_for};
ghost use Rattle.demands.specs.Duties.{DemandView};
ghost use Rattle.std.specs.Prelude.{List};
ghost use Rattle.flow_rules.specs.declared.rules.Rule.{Rule};
ghost use Rattle.tag_allocator.specs.Tags.{tags_of, available_tags};
ghost use Rattle.two_phase.specs.TwoPhasePlan.{label_picks, label_tables};
ghost use Rattle.two_phase.specs.Layers.{layer_count, rounds_by};

use crate::labels::{make_label_picks, make_label_tables};
use crate::layers::Layering;
use crate::needs::need;
use crate::rounds::make_rounds;
use certificates::{Evidence, Plan, TwoPhaseEvidence};
use flow_rules::Config;
use net_base::{Memory, SwitchId};
use std::alloc::Global;
use table_difference::classes::rounds_make_no_classes;
use tag_allocator::{TagFault, TagMap, allot};
use topology::Net;
use update_model::Rounds;

/// Why there is no two-phase plan.
#[derive(Clone, Copy, Debug, PartialEq, Eq)]
pub enum TwoFault {
    /// More VLANs are declared than tags are available: the number of declared VLANs, and the number of available tags.
    TooFewTags {
        need: u32,
        has: u32,
    },
    /// The least switch at which the plan needs more entries than its capacity.
    TooSmall {
        switch: SwitchId,
        need: u64,
        capacity: u32,
    },
    /// Memory was wanting.
    Memory,
}

impl From<Memory> for TwoFault {
    ghost use Rattle.std.specs.Prelude.{◌≡◌};
    ghost use Rattle.two_phase.specs.declared.planning.TwoFault.TheVariants.{Memory};

    ghost from_gives = { λ _ e. e ≡ Memory };

    fn from(_: Memory) -> Self {
        TwoFault::Memory
    }
}

/// The tags of the declared VLANs.
fn allot_tags(alloc: Global, net: &Net) -> Result<TagMap, TwoFault>
    ensures tags { IfOk result (λ tags. tags ≡ map (λ t. t.tag) (tags_of net.now)) }
    ensures enough { IfOk result (λ _. length net.now.vlans ≤ length (available_tags net.now)) }
    ensures cause { IfErr result
        (λ e. (old new : List (List Rule)) → IsTwoCause net.now old new e) }
{
    match allot(alloc, net) {
        Ok(tags) => Ok(tags),
        Err(TagFault::TooFew { need, has }) => Err(TwoFault::TooFewTags { need, has }),
        Err(TagFault::Memory) => Err(TwoFault::Memory),
    }
}

/// Whether each switch has room for what the plan needs there.
fn check_room(net: &Net, old: &Config, new: &Config) -> Result<(), TwoFault>
    requires old { IsUserConfig net.now (rules_of_all old.now) }
    requires new { IsUserConfig net.now (rules_of_all new.now) }
    requires tags { length net.now.vlans ≤ length (available_tags net.now) }
    ensures fits { OnOk result
        (FitsTwoPhase net.now (rules_of_all old.now) (rules_of_all new.now)) }
    ensures cause { IfErr result
        (IsTwoCause net.now (rules_of_all old.now) (rules_of_all new.now)) }
{
    for number in 0..net.switches() {
        let switch = SwitchId(number);
        let need = need(net, old, new, switch);
        let capacity = net.capacity(switch);
        if need > u64::from(capacity) {
            return Err(TwoFault::TooSmall {
                switch,
                need,
                capacity,
            });
        }
    }
    Ok(())
}

/// The tags of the declared VLANs, where there is room for the plan.
fn tags_in_room(alloc: Global, net: &Net, old: &Config, new: &Config) -> Result<TagMap, TwoFault>
    requires old { IsUserConfig net.now (rules_of_all old.now) }
    requires new { IsUserConfig net.now (rules_of_all new.now) }
    ensures tags { IfOk result (λ tags. tags ≡ map (λ t. t.tag) (tags_of net.now)) }
    ensures fits { IfOk result
        (λ _. FitsTwoPhase net.now (rules_of_all old.now) (rules_of_all new.now)) }
    ensures cause { IfErr result
        (IsTwoCause net.now (rules_of_all old.now) (rules_of_all new.now)) }
{
    let tags = allot_tags(alloc, net)?;
    match check_room(net, old, new) {
        Ok(()) => Ok(tags),
        Err(fault) => {
            drop(tags);
            Err(fault)
        }
    }
}

/// The same rounds again.
fn copy_rounds(alloc: Global, rounds: &Rounds) -> Result<Rounds, Memory>
    ensures { IfOk result (λ copy. copy ≡ rounds.now) }
{
    let mut copy = Rounds::make(alloc)?;
    for k in 0..rounds.count() {
        copy.push_round(Vec::from_slice(alloc, rounds.round(k))?)?;
    }
    Ok(copy)
}

/// The evidence of a plan with so many layers of ingress rules, ranks or depths.
fn make_evidence(
    alloc: Global,
    net: &Net,
    tags: &TagMap,
    layers: usize,
    tried: &Rounds,
) -> Result<TwoPhaseEvidence, Memory>
    requires tags { tags.now ≡ map (λ t. t.tag) (tags_of net.now) }
    requires enough { length net.now.vlans ≤ length (available_tags net.now) }
    requires few { layers ≤ 2049 }
    ensures labels { IfOk result (λ e. e.labels ≡ label_tables net.now) }
    ensures picks { IfOk result
        (λ e. e.picks ≡ label_picks layers) }
    ensures tried { IfOk result (λ e. e.tried ≡ tried.now) }
{
    let labels = make_label_tables(alloc, net, tags)?;
    let picks = make_label_picks(alloc, layers)?;
    Ok(TwoPhaseEvidence {
        labels,
        picks,
        tried: copy_rounds(alloc, tried)?,
    })
}

/// The plan of these rounds, with so many layers of ingress rules, ranks or depths, and the tags of the declared VLANs.
fn plan_of_rounds(
    alloc: Global,
    net: &Net,
    tags: &TagMap,
    rounds: Rounds,
    layers: usize,
    tried: &Rounds,
) -> Result<Plan, Memory>
    requires tags { tags.now ≡ map (λ t. t.tag) (tags_of net.now) }
    requires enough { length net.now.vlans ≤ length (available_tags net.now) }
    requires few { layers ≤ 2049 }
    ensures { IfOk result (λ p. p ≡ layered_plan net.now rounds layers tried.now) }
{
    match make_evidence(alloc, net, tags, layers, tried) {
        Ok(evidence) => Ok(Plan {
            rounds,
            evidence: Evidence::TwoPhase(evidence),
        }),
        Err(memory) => {
            drop(rounds);
            Err(memory)
        }
    }
}

/// The plan with these layers, or why there is none.
pub(crate) fn make_plan(
    alloc: Global,
    net: &Net,
    old: &Config,
    new: &Config,
    tried: &Rounds,
    layering: Layering,
) -> Result<Plan, TwoFault>
    requires old { IsUserConfig net.now (rules_of_all old.now) }
    requires new { IsUserConfig net.now (rules_of_all new.now) }
    requires tried { AreTried net.now tried.now }
    ensures plan { IfOk result
        (λ p. p ≡ layered_plan net.now
        (rounds_by layering net.now (rules_of_all old.now) (rules_of_all new.now))
        (layer_count layering net.now (rules_of_all new.now)) tried.now) }
    ensures fits { IfOk result
        (λ _. FitsTwoPhase net.now (rules_of_all old.now) (rules_of_all new.now)) }
    ensures valid { IfOk result (IsValidPlan net.now) }
    ensures certified { IfOk result
        (IsCertifiedWith net.now (rules_of_all old.now) (rules_of_all new.now)
        (rounds_by layering net.now (rules_of_all old.now) (rules_of_all new.now))) }
    ensures cause { IfErr result
        (IsTwoCause net.now (rules_of_all old.now) (rules_of_all new.now)) }
{
    net.keeps_rules();
    rounds_make_no_classes(net, old, new);
    let tags = tags_in_room(alloc, net, old, new)?;
    let (rounds, layers) = make_rounds(alloc, net, old, new, &tags, layering)?;
    Ok(plan_of_rounds(alloc, net, &tags, rounds, layers, tried)?)
}

/// The versioned two-phase plan of an update (Reitblatt and others, 2012), with the rounds that were tried before copied
/// into its evidence: tagged copies of the new rules, the ingress rules by rank, the exchange of the old rules, and the way
/// back.
///
/// Takes time by these numbers, with a logarithm for sorting and searching: the changes of the plan and of the rounds that were
/// tried; the rules of both configurations; the new rules of a switch times the declared VLANs and times its host ports, and
/// times both where a rule covers the port; the switches times the ranks, and times the host ports of the network; the ids of
/// the tag range times the declared VLANs.
pub fn two_phase(
    alloc: Global,
    net: &Net,
    old: &Config,
    new: &Config,
    tried: &Rounds,
) -> Result<Plan, TwoFault>
    requires old { IsUserConfig net.now (rules_of_all old.now) }
    requires new { IsUserConfig net.now (rules_of_all new.now) }
    requires tried { AreTried net.now tried.now }
    ensures plan { IfOk result
        (λ p. p ≡ two_phase_plan net.now (rules_of_all old.now) (rules_of_all new.now) tried.now) }
    ensures fits { IfOk result
        (λ _. FitsTwoPhase net.now (rules_of_all old.now) (rules_of_all new.now)) }
    ensures valid { IfOk result (IsValidPlan net.now) }
    ensures certified { IfOk result
        (IsCertifiedTwoPhase net.now (rules_of_all old.now) (rules_of_all new.now)) }
    ensures classes { (demands : List DemandView)
        → HasSameClasses
        (classes_for (two_phase_task net.now (rules_of_all old.now) (rules_of_all new.now) demands))
        (classes_before net.now (rules_of_all old.now) (rules_of_all new.now) demands) }
    ensures cause { IfErr result
        (IsTwoCause net.now (rules_of_all old.now) (rules_of_all new.now)) }
{
    rounds_make_no_classes(net, old, new);
    make_plan(alloc, net, old, new, tried, Layering::ByRank)
}
