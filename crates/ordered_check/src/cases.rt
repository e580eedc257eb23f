//! A case of an ordered plan, with what is made of it once, and a round of it.
ghost use Rattle.std.specs.Prelude.{◌≡◌, ◌<◌, ◌≤◌, length, slice_get, Some};
ghost use Rattle.topology.specs.Networks.{switch_count, IsNetwork};
ghost use Rattle.path_walk.specs.UserConfigs.{IsUserConfig};
ghost use Rattle.certificates.specs.Valid.{IsValidOrdered};
ghost use Rattle.certificates.specs.Certified.{classes_for};
ghost use Rattle.net_base.specs.Switches.{most_switches};

use acyclic_numbering::Numbering;
use certificates::{OrderedEvidence, Shared};
use check_reasons::Case;
use demands::Duties;
use dest_classes::ClassMap;
use round_mix::Mixed;
use std::marker::Model;
use update_model::Change;
use waypoint_evidence::Before;

/// What is checked of an ordered plan: the case, the evidence of its plan, and the classes of its update with their duties.
#[derive(Drop)]
pub struct OrderedCase<'a> {
    pub case: &'a Case<'a>,
    pub evidence: &'a OrderedEvidence,
    pub classes: &'a ClassMap,
    pub duties: &'a Duties,
}

impl<'a> Model for OrderedCase<'a> {
    ghost use Rattle.ordered_check.specs.Cases.{OrderedView, IsOrderedCase};

    ghost Value = { OrderedView };

    ghost view = { λ c. record { task = c.case.now.task; evidence = c.evidence.now } };

    ghost invariant = { λ c. IsOrderedCase c.case.now c.evidence.now c.classes.now c.duties.now };
}

/// A round: its number from 0, its changes, and each switch prepared for it.
#[derive(Drop)]
pub(crate) struct PreparedRound<'a> {
    pub(crate) number: usize,
    pub(crate) changes: &'a [Change],
    pub(crate) mixes: &'a [Mixed],
}

impl<'a> OrderedCase<'a> {
    /// Does nothing: its contract says what every case of an ordered plan keeps.
    pub(crate) fn keeps_valid(&self)
        ensures valid { IsValidOrdered self.now.task.update.net (length self.now.task.rounds)
            self.now.evidence }
        ensures rounds { length self.now.task.rounds ≤ 4200 }
        ensures switches { switch_count self.now.task.update.net ≤ most_switches }
        ensures network { IsNetwork self.now.task.update.net }
        ensures old_user { IsUserConfig self.now.task.update.net self.now.task.update.old }
    {
        let case = self.case;
        case.keeps_rules();
        case.net.keeps_rules();
    }

    /// The classes.
    pub(crate) fn class_map(&self) -> &'a ClassMap
        ensures { result.now ≡ classes_for self.now.task }
    {
        self.classes
    }

    /// The duties of the classes.
    pub(crate) fn class_duties(&self) -> &'a Duties
        ensures { result.now ≡ record {
          demands = self.now.task.update.demands;
          classes = classes_for self.now.task;
        } }
    {
        self.duties
    }

    /// Shared evidence, by its number.
    pub(crate) fn shared(&self, use_: u32) -> &'a Shared
        requires { use_ < length self.now.evidence.uses }
        ensures { slice_get self.now.evidence.uses use_ ≡ Some result.now }
    {
        let evidence = self.evidence;
        &evidence.uses.list()[use_ as usize]
    }

    /// The numbering of shared evidence.
    pub(crate) fn numbering(&self, shared: &Shared) -> &'a Numbering
        requires { shared.now.numbering < length self.now.evidence.numberings }
        ensures { slice_get self.now.evidence.numberings shared.now.numbering ≡ Some result.now }
    {
        let evidence = self.evidence;
        &evidence.numberings.list()[shared.numbering as usize]
    }

    /// All before sets.
    pub(crate) fn befores(&self) -> &'a [Before]
        ensures { result.now ≡ self.now.evidence.befores }
    {
        let evidence = self.evidence;
        evidence.befores.list()
    }
}
