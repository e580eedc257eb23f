//! Why driven runs of certified plans end. The law is a function that does nothing: its contract is the law.
ghost use Rattle.certificates.specs.Laws.{task_of};
ghost use Rattle.flow_rules.specs.Tables.{rules_of_all};
ghost use Rattle.path_walk.specs.UserConfigs.{IsUserConfig};
ghost use Rattle.schedule_pilot.specs.Laws.{CertifiedBeginsSafely};

use certificates::Plan;
use demands::Demands;
use flow_rules::Config;
use topology::Net;

/// Under a certified plan every round is good, and in every run no packet visits a switch twice. So a run that
/// [`drive`](crate::drive) makes of the plan's rounds from the old configuration is never blocked, and is finished within its budget.
pub fn certified_begins_safely(
    net: &Net,
    old: &Config,
    new: &Config,
    demands: &Demands,
    plan: &Plan,
)
    requires old { IsUserConfig net.now (rules_of_all old.now) }
    requires new { IsUserConfig net.now (rules_of_all new.now) }
    ensures { CertifiedBeginsSafely (task_of net.now old.now new.now demands.now plan.now)
        plan.now.evidence }
{}
