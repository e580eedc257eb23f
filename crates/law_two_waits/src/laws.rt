//! How seldom a two-phase plan waits for packets. Each law is a function that does nothing: its contract is the law.
ghost use Rattle.std.specs.Prelude.{List, length};
ghost use Rattle.topology.specs.Networks.{Network};
ghost use Rattle.flow_rules.specs.declared.rules.Rule.{Rule};
ghost use Rattle.demands.specs.Duties.{DemandView};
ghost use Rattle.update_model.specs.declared.Change.{Change};
ghost use Rattle.law_spans.specs.Cuts.{AreWaits};
ghost use Rattle.two_phase.specs.TwoPhasePlan.{two_phase_rounds, ranks};
ghost use Rattle.two_phase.specs.Plans.{two_phase_plan};
ghost use Rattle.two_phase.specs.Depths.{depth_rounds, depth_plan, depth_count};
ghost use Rattle.law_two_waits.specs.TwoWaits.{waits_by, IsCertifiedByTwo, NeedsAtMostTwo};

/// The waits of a two-phase plan, before the exchange begins and before the last round, are waits of its rounds.
pub fn are_two_waits()
    ensures by_rank { (net : Network) (old new : List (List Rule))
        → AreWaits (waits_by (length (ranks net new))) (length (two_phase_rounds net old new)) }
    ensures by_depth { (net : Network) (old new : List (List Rule))
        → AreWaits (waits_by (depth_count net new)) (length (depth_rounds net old new)) }
{}

/// A two-phase plan is certified with these two waits, by rank as well as by depth.
pub fn cut_is_certified()
    ensures by_rank { (net : Network) (old new : List (List Rule)) (tried : List (List Change))
        → (demands : List DemandView)
        → IsCertifiedByTwo net old new demands (two_phase_plan net old new tried)
        (length (ranks net new)) }
    ensures by_depth { (net : Network) (old new : List (List Rule)) (tried : List (List Change))
        → (demands : List DemandView)
        → IsCertifiedByTwo net old new demands (depth_plan net old new tried)
        (depth_count net new) }
{}

/// So the greedy cut of a two-phase plan has at most two waits, and none before the exchange begins.
pub fn two_waits()
    ensures by_rank { (net : Network) (old new : List (List Rule)) (tried : List (List Change))
        → (demands : List DemandView)
        → NeedsAtMostTwo net old new demands (two_phase_plan net old new tried)
        (length (ranks net new)) }
    ensures by_depth { (net : Network) (old new : List (List Rule)) (tried : List (List Change))
        → (demands : List DemandView)
        → NeedsAtMostTwo net old new demands (depth_plan net old new tried) (depth_count net new) }
{}
