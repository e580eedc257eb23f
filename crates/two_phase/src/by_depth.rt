//! The two-phase plan by depth, or why there is none.
ghost use Rattle.std.specs.Prelude.{◌≡◌, IfOk, IfErr, List};
ghost use Rattle.flow_rules.specs.Tables.{rules_of_all};
ghost use Rattle.path_walk.specs.UserConfigs.{IsUserConfig};
ghost use Rattle.demands.specs.Duties.{DemandView};
ghost use Rattle.certificates.specs.Valid.{IsValidPlan};
ghost use Rattle.certificates.specs.Certified.{classes_for};
ghost use Rattle.table_difference.specs.Tried.{AreTried};
ghost use Rattle.table_difference.specs.SameClasses.{HasSameClasses, classes_before};
ghost use Rattle.two_phase.specs.Laws.{FitsTwoPhase};
ghost use Rattle.two_phase.specs.Plans.{IsTwoCause};
ghost use Rattle.two_phase.specs.Depths.{depth_plan, depth_task, IsCertifiedByDepth};

use crate::layers::Layering;
use crate::planning::{TwoFault, make_plan};
use certificates::Plan;
use flow_rules::Config;
use std::alloc::Global;
use table_difference::classes::rounds_make_no_classes;
use topology::Net;
use update_model::Rounds;

/// The two-phase plan by depth, with the rounds that were tried before copied into its evidence: that of `two_phase` with
/// depths in place of ranks. Of two ingress rules of a switch one is above the other where some packet is covered by both and
/// it has the higher priority. The depth of a rule is 0 where none is above it, otherwise one more than the greatest depth of
/// those above it. The ingress rules come by ascending depth and go by descending depth, so that rules without a common packet
/// can share a round. There are never more depths than ranks. Tags, entries and label tables are those of `two_phase`, and it
/// is refused for the same causes.
///
/// Takes time as `two_phase` does, with the ingress rules times the depths in place of the switches times the ranks, and
/// besides by the square of the ingress rules of each switch, which has at most 8192.
pub fn two_phase_by_depth(
    alloc: Global,
    net: &Net,
    old: &Config,
    new: &Config,
    tried: &Rounds,
) -> Result<Plan, TwoFault>
    requires old { IsUserConfig net.now (rules_of_all old.now) }
    requires new { IsUserConfig net.now (rules_of_all new.now) }
    requires tried { AreTried net.now tried.now }
    ensures plan { IfOk result
        (λ p. p ≡ depth_plan net.now (rules_of_all old.now) (rules_of_all new.now) tried.now) }
    ensures fits { IfOk result
        (λ _. FitsTwoPhase net.now (rules_of_all old.now) (rules_of_all new.now)) }
    ensures valid { IfOk result (IsValidPlan net.now) }
    ensures certified { IfOk result
        (IsCertifiedByDepth net.now (rules_of_all old.now) (rules_of_all new.now)) }
    ensures classes { (demands : List DemandView)
        → HasSameClasses
        (classes_for (depth_task net.now (rules_of_all old.now) (rules_of_all new.now) demands))
        (classes_before net.now (rules_of_all old.now) (rules_of_all new.now) demands) }
    ensures cause { IfErr result
        (IsTwoCause net.now (rules_of_all old.now) (rules_of_all new.now)) }
{
    rounds_make_no_classes(net, old, new);
    make_plan(alloc, net, old, new, tried, Layering::ByDepth)
}
