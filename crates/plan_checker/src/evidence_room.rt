//! Room for the evidence of a plan, and what it says of the classes of a round.
ghost use Rattle.std.specs.Prelude.{suc, ◌<◌, length, IfOk, IfSome, IfNone};
ghost use Rattle.certificates.specs.Updates.{rollout};
ghost use Rattle.certificates.specs.Certified.{classes_for};
ghost use Rattle.config_check.specs.Classed.{AreClassed};
ghost use Rattle.check_reasons.specs.Loaded.{AreLoaded};
ghost use Rattle.check_reasons.specs.Passed.{ChangesPass, ClassesPass, RoundsPass, IsFirstFrom};
ghost use Rattle.check_reasons.specs.Ranks.{classes_start};
ghost use Rattle.plan_checker.specs.Fits.{FitsEvidence};
ghost use Rattle.plan_checker.specs.Checking.{EndsAreGood, EvidenceStands};

use certificates::Evidence;
use check_reasons::{Case, Reason};
use config_check::Classed;
use dest_classes::ClassMap;
use net_base::Memory;
use ordered_check::{OrderedCase, OrderedRoom};
use round_mix::Mixed;
use std::alloc::Global;
use two_phase_check::TwoPhaseRoom;

/// Room for what is looked at of the evidence of a plan, by its kind.
#[derive(Drop)]
pub enum EvidenceRoom {
    Ordered(OrderedRoom),
    TwoPhase(TwoPhaseRoom),
}

impl EvidenceRoom {
    /// Room for this evidence over these classes.
    pub(crate) fn make(
        alloc: Global,
        evidence: &Evidence,
        classes: &ClassMap,
    ) -> Result<EvidenceRoom, Memory>
        ensures { IfOk result (FitsEvidence classes.now evidence.now) }
    {
        match evidence {
            Evidence::Ordered(_) => Ok(EvidenceRoom::Ordered(OrderedRoom::make(alloc, classes)?)),
            Evidence::TwoPhase(_) => Ok(EvidenceRoom::TwoPhase(TwoPhaseRoom::make(alloc)?)),
        }
    }

    /// Goes back before the first round of the plan.
    pub(crate) fn start(&mut self, case: &Case, classed: &Classed)
        requires fits { FitsEvidence (classes_for case.now.task) case.now.evidence self.old }
        requires classed { AreClassed (classes_for case.now.task) case.now.task.update.demands
            classed.now }
        ensures fits { FitsEvidence (classes_for case.now.task) case.now.evidence self.new }
        ensures stands { EvidenceStands case.now.task case.now.evidence 0 self.new }
    {
        match self {
            EvidenceRoom::Ordered(room) => match &case.plan.evidence {
                Evidence::Ordered(evidence) => {
                    let of = OrderedCase {
                        case,
                        evidence,
                        classes: &classed.map,
                        duties: &classed.duties,
                    };
                    room.start(&of);
                }
                Evidence::TwoPhase(_) => unreachable!(),
            },
            EvidenceRoom::TwoPhase(room) => room.start(),
        }
    }

    /// The first reason of the classes of round k, from 0, if there is one. The switches are prepared for the round. The rounds are
    /// judged in their order, each once.
    pub(crate) fn judge_round(
        &mut self,
        case: &Case,
        classed: &Classed,
        mixes: &[Mixed],
        k: usize,
    ) -> Option<Reason>
        requires within { k < length case.now.task.rounds }
        requires fits { FitsEvidence (classes_for case.now.task) case.now.evidence self.old }
        requires stands { EvidenceStands case.now.task case.now.evidence k self.old }
        requires classed { AreClassed (classes_for case.now.task) case.now.task.update.demands
            classed.now }
        requires loaded { AreLoaded (rollout case.now.task) k mixes.now }
        requires ends { EndsAreGood case.now.task }
        requires before { RoundsPass case.now.task case.now.evidence k }
        requires pass { ChangesPass case.now.task case.now.evidence k }
        ensures none { IfNone result (ClassesPass case.now.task case.now.evidence k) }
        ensures some { IfSome result
            (IsFirstFrom case.now.task case.now.evidence (classes_start k)) }
        ensures fits { FitsEvidence (classes_for case.now.task) case.now.evidence self.new }
        ensures stands { IfNone result
            (EvidenceStands case.now.task case.now.evidence (suc k) self.new) }
    {
        match self {
            EvidenceRoom::Ordered(room) => match &case.plan.evidence {
                Evidence::Ordered(evidence) => {
                    let of = OrderedCase {
                        case,
                        evidence,
                        classes: &classed.map,
                        duties: &classed.duties,
                    };
                    room.judge_round(&of, mixes, k)
                }
                Evidence::TwoPhase(_) => unreachable!(),
            },
            EvidenceRoom::TwoPhase(room) => match &case.plan.evidence {
                Evidence::TwoPhase(evidence) => {
                    room.judge_round(case, evidence, &classed.map, mixes, k)
                }
                Evidence::Ordered(_) => unreachable!(),
            },
        }
    }
}
