//! What is checked.
use certificates::Plan;
use demands::Demands;
use flow_rules::Config;
use std::marker::Model;
use topology::Net;

/// What is checked: a plan that leads from an old to a new configuration of a network, under demands. Both are user
/// configurations, and the plan is valid.
#[derive(Drop)]
pub struct Case<'a> {
    pub net: &'a Net,
    pub old: &'a Config,
    pub new: &'a Config,
    pub demands: &'a Demands,
    pub plan: &'a Plan,
}

impl<'a> Model for Case<'a> {
    ghost use Rattle.check_reasons.specs.Cases.{CaseView, case_of, IsCase};

    ghost Value = { CaseView };

    ghost view = { λ c. case_of c.net.now c.old.now c.new.now c.demands.now c.plan.now };

    ghost invariant = { λ c. IsCase c.net.now c.old.now c.new.now c.plan.now };
}

impl<'a> Case<'a> {
    ghost use Rattle.check_reasons.specs.Cases.{IsChecked};

    /// Does nothing: its contract says what every case keeps.
    pub fn keeps_rules(&self)
        ensures { IsChecked self.now }
    {
        let _plan = self.plan;
    }
}
