//! The evidence so far, and what is found for the classes of a round.
ghost use Rattle.std.specs.Prelude.{◌≡◌, ℕ, ◌<◌, ◌≤◌, length, IsTrue, IfOk};
ghost use Rattle.net_base.specs.declared.ids.SwitchId.{SwitchId as Switch};
ghost use Rattle.dest_classes.specs.Classes.{class_count};
ghost use Rattle.update_model.specs.Changes.{round_after};
ghost use Rattle.update_model.specs.Mixtures.{Rollout, tables_before};
ghost use Rattle.certificates.specs.Certified.{classes_for};
ghost use Rattle.mixed_walks.specs.Walks.{IsRoundOf};
ghost use Rattle.check_reasons.specs.AtomMarks.{AreTouched};
ghost use Rattle.net_base.specs.Switches.{has, most_switches};
ghost use Rattle.evidence_store.specs.Stored.{IsStored, no_evidence};
ghost use Rattle.round_judge.specs.Goals.{HasAtoms};
ghost use Rattle.round_judge.specs.Judged.{IsReadyToJudge, IsNextRound, AreFirstJudged};
ghost use Rattle.round_judge.specs.Visits.{marks_at, HoldTables, HoldAfter};

use certificates::OrderedEvidence;
use check_reasons::{Case, TouchedAtoms};
use class_watch::{ClassWatch, LookedAtoms};
use dest_classes::ClassMap;
use evidence_store::EvidenceStore;
use net_base::Memory;
use round_judge::{Goal, RoundVerdict, TriedRound, judge_in_order, watch_rooms};
use round_mix::Mixed;
use std::alloc::Global;

/// The evidence so far, for each class the switches that its packets come to, and which atoms a round touches.
#[derive(Drop)]
pub(crate) struct RoundEvidence {
    pub(crate) store: EvidenceStore,
    pub(crate) watch: ClassWatch,
    pub(crate) looked: LookedAtoms,
    touched: TouchedAtoms,
}

impl RoundEvidence {
    /// No evidence, for classes whose packets may come to all switches.
    pub(crate) fn make(alloc: Global, classes: &ClassMap) -> Result<RoundEvidence, Memory>
        ensures store { IfOk result (λ e. e.store ≡ record {
          evidence = no_evidence;
          classes = class_count classes.now;
        }) }
        ensures few { IfOk result (λ _. class_count classes.now ≤ 8192) }
        ensures count { IfOk result (λ e. length e.watch.came.items ≡ class_count classes.now) }
        ensures each { IfOk result (λ e. (n : ℕ) (s : Switch) → n < class_count classes.now
            → s.0 < most_switches → IsTrue (has (marks_at e.watch.came.items n) s)) }
        ensures atoms { IfOk result (λ e. HasAtoms classes.now e.looked) }
    {
        let (looked, watch) = watch_rooms(alloc, classes)?;
        let touched = TouchedAtoms::make(alloc)?;
        let store = EvidenceStore::make(alloc, classes.count())?;
        Ok(RoundEvidence {
            store,
            watch,
            looked,
            touched,
        })
    }

    /// Looks at the atoms that the changes of round k, from 0, touch, and at no others.
    fn look(&mut self, case: &Case, classes: &ClassMap, k: usize)
        requires classes { classes.now ≡ classes_for case.now.task }
        requires round { k < length case.now.task.rounds }
        requires atoms { HasAtoms classes.now self.old.looked }
        ensures atoms { HasAtoms classes.now self.new.looked }
        ensures touched { AreTouched classes.now (round_after k case.now.task.rounds)
            self.new.looked }
        ensures store { self.new.store ≡ self.old.store }
        ensures watch { self.new.watch ≡ self.old.watch }
    {
        self.touched.mark(case, classes, k);
        self.looked.look_at(&self.touched, &[]);
    }

    /// What is found for all classes in round k, from 0, for which these switches are prepared.
    pub(crate) fn judge(
        &mut self,
        alloc: Global,
        case: &Case,
        goal: &Goal,
        k: usize,
        mixes: &[Mixed],
    ) -> Result<RoundVerdict, Memory>
        requires classes { goal.now.classes ≡ classes_for case.now.task }
        requires round { k < length case.now.task.rounds }
        requires atoms { HasAtoms goal.now.classes self.old.looked }
        requires ready { IsReadyToJudge goal.now mixes.now self.old.store }
        requires came { length self.old.watch.came.items ≡ class_count goal.now.classes }
        ensures judged { IfOk result (λ verdict. (u : Rollout) (j : ℕ)
            → IsRoundOf goal.now.net mixes.now u j
            → IsNextRound goal.now u self.old.store.evidence j
            (round_after k case.now.task.rounds)
            → HoldTables goal.now (tables_before u j) self.old.watch.came.items
            → AreFirstJudged goal.now u self.old.store.evidence j verdict
            × HoldAfter goal.now u j verdict self.new.watch.came.items) }
        ensures atoms { HasAtoms goal.now.classes self.new.looked }
        ensures store { self.new.store ≡ self.old.store }
    {
        self.look(case, goal.classes, k);
        let tried = TriedRound {
            changes: case.plan.rounds.round(k),
            mixes,
            store: &self.store,
        };
        judge_in_order(alloc, goal, &mut self.watch, &tried, &self.looked)
    }

    /// The evidence, in which nothing stands twice.
    pub(crate) fn into_evidence(self) -> OrderedEvidence
        ensures evidence { result ≡ self.store.evidence }
        ensures stored { IsStored self.store.evidence }
    {
        self.store.keeps_once();
        self.store.into_evidence()
    }
}
