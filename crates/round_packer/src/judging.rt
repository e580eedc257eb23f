//! Whether all classes stay safe while changes are made.
ghost use Rattle.std.specs.Prelude.{◌≡◌, ◌≢◌, ◌↔◌, ◌<◌, ℕ, List, ◌∷◌, ◌++◌, [], length, IsTrue, IsSome, IfOk, OnOk};
ghost use Rattle.flow_rules.specs.declared.rules.Rule.{Rule};
ghost use Rattle.dest_classes.specs.Classes.{class_count};
ghost use Rattle.dest_classes.specs.Numbered.{IsNumbered};
ghost use Rattle.update_model.specs.declared.Change.{Change as ChangeOf};
ghost use Rattle.certificates.specs.Rounds.{IsSafeByEvidence};
ghost use Rattle.check_reasons.specs.AtomMarks.{AreTouched};
ghost use Rattle.round_judge.specs.Goals.{HasAtoms, HoldsLastOf};
ghost use Rattle.round_judge.specs.Visits.{marks_at};
ghost use Rattle.round_packer.specs.Kept.{ArePreparedFor, AreKept, AreWatched, AreJudged, AreJudgedBeside, AreTold, HoldsClass, IsTold};

use crate::failing::Failure;
use class_watch::{ClassWatch, LookedAtoms, meets};
use dest_classes::NumberedClass;
use evidence_store::{ClassEvidence, LastSets};
use net_base::Memory;
use round_judge::Goal;
use round_mix::Mixed;
use std::alloc::Global;
use update_model::Change;

/// A change that is tried beside those that are taken, and the switches as they are prepared for all of these.
#[derive(Clone, Copy)]
pub(crate) struct TriedChange<'a> {
    pub(crate) alloc: Global,
    pub(crate) change: &'a Change,
    pub(crate) mixes: &'a [Mixed],
}

/// Whether evidence was found.
fn is_found(found: Option<ClassEvidence>) -> bool
    ensures { IsTrue result ↔ IsSome found }
{
    found.is_some()
}

/// Whether some evidence keeps a class safe while the changes are made that the switches are prepared for. Its mixed walks
/// are walked, and the switches that they come to are noted.
fn is_safe(
    alloc: Global,
    goal: &Goal,
    watch: &mut ClassWatch,
    mixes: &[Mixed],
    last: &mut LastSets,
    class: NumberedClass,
) -> Result<bool, Memory>
    requires number { class.number < class_count goal.now.classes }
    requires class { IsNumbered goal.now.classes class }
    requires prepared { (tables : List (List Rule)) × (changes : List ChangeOf)
        × ArePreparedFor goal.now.net mixes.now tables changes }
    requires came { length watch.old.came.items ≡ class_count goal.now.classes }
    requires last { HoldsLastOf goal.now last.old }
    ensures safe { IfOk result (λ safe. (tables : List (List Rule)) (changes : List ChangeOf)
        → ArePreparedFor goal.now.net mixes.now tables changes → IsTrue safe
        ↔ IsSafeByEvidence goal.now.net goal.now.demands tables changes class.class) }
    ensures held { OnOk result ((tables : List (List Rule)) (changes : List ChangeOf)
        → ArePreparedFor goal.now.net mixes.now tables changes
        → HoldsClass goal.now.net tables changes class.class
        (marks_at watch.new.came.items class.number)) }
    ensures others { (n : ℕ) → n ≢ class.number
        → marks_at watch.new.came.items n ≡ marks_at watch.old.came.items n }
    ensures count { length watch.new.came.items ≡ length watch.old.came.items }
    ensures last { OnOk result (HoldsLastOf goal.now last.new) }
{
    let _ = goal.walk(watch, mixes, class);
    let found = goal.find_evidence(alloc, &watch.walk, class, last)?;
    Ok(is_found(found))
}

/// The failure of the change that is tried, if the class of a number isn't safe beside it, and enters at the change's own
/// switch, or doesn't. A class that the change meets at no switch that its walks come to stays as it is.
fn class_failure(
    goal: &Goal,
    watch: &mut ClassWatch,
    tried: &TriedChange,
    last: &mut LastSets,
    number: u32,
    own: bool,
) -> Result<Option<Failure>, Memory>
    requires number { number < class_count goal.now.classes }
    requires prepared { (tables : List (List Rule)) × (changes : List ChangeOf)
        × ArePreparedFor goal.now.net tried.now.mixes.now tables changes }
    requires came { length watch.old.came.items ≡ class_count goal.now.classes }
    requires last { HoldsLastOf goal.now last.old }
    ensures told { IfOk result (λ failure. (tables : List (List Rule)) (taken : List ChangeOf)
        → ArePreparedFor goal.now.net tried.now.mixes.now tables
        (taken ++ tried.now.change.now ∷ []) → AreKept goal.now tables taken watch.old.came.items
        → IsTold goal.now tables (taken ++ tried.now.change.now ∷ []) tried.now.change.now own
        number watch.new.came.items failure) }
    ensures watched { OnOk result ((tables : List (List Rule)) (changes : List ChangeOf)
        → ArePreparedFor goal.now.net tried.now.mixes.now tables changes
        → AreWatched goal.now tables changes watch.old.came.items watch.new.came.items) }
    ensures count { length watch.new.came.items ≡ length watch.old.came.items }
    ensures last { OnOk result (HoldsLastOf goal.now last.new) }
{
    let class = goal.numbered(number);
    let enters = class.class.entry.switch.0 == tried.change.switch().0;
    if enters != own {
        return Ok(None);
    }
    if !meets(tried.change, class.class, watch.came[number as usize]) {
        return Ok(None);
    }
    if is_safe(tried.alloc, goal, watch, tried.mixes, last, class)? {
        return Ok(None);
    }
    Ok(Some(Failure {
        change: *tried.change,
        class: class.class,
        visited: watch.came[number as usize],
    }))
}

/// The failure of the change that is tried by the first class that isn't safe beside it, if there is one, of those that enter
/// at the change's own switch, or of those that don't. It looks at those whose atoms the change touches.
fn classes_failure(
    goal: &Goal,
    watch: &mut ClassWatch,
    tried: &TriedChange,
    looked: &LookedAtoms,
    last: &mut LastSets,
    own: bool,
) -> Result<Option<Failure>, Memory>
    requires prepared { (tables : List (List Rule)) × (changes : List ChangeOf)
        × ArePreparedFor goal.now.net tried.now.mixes.now tables changes }
    requires came { length watch.old.came.items ≡ class_count goal.now.classes }
    requires last { HoldsLastOf goal.now last.old }
    requires atoms { HasAtoms goal.now.classes looked.now }
    requires touched { AreTouched goal.now.classes (tried.now.change.now ∷ []) looked.now }
    ensures told { IfOk result (λ failure. (tables : List (List Rule)) (taken : List ChangeOf)
        → ArePreparedFor goal.now.net tried.now.mixes.now tables
        (taken ++ tried.now.change.now ∷ []) → AreKept goal.now tables taken watch.old.came.items
        → AreTold goal.now tables (taken ++ tried.now.change.now ∷ []) tried.now.change.now own
        watch.new.came.items failure) }
    ensures watched { OnOk result ((tables : List (List Rule)) (changes : List ChangeOf)
        → ArePreparedFor goal.now.net tried.now.mixes.now tables changes
        → AreWatched goal.now tables changes watch.old.came.items watch.new.came.items) }
    ensures count { length watch.new.came.items ≡ length watch.old.came.items }
    ensures last { OnOk result (HoldsLastOf goal.now last.new) }
{
    let end = goal.count();
    let mut number = looked.next_number(0, end);
    'judging: while number < end {
        if let Some(failure) = class_failure(goal, watch, tried, last, number, own)? {
            return Ok(Some(failure));
        }
        number = looked.next_number(number + 1, end);
    }
    Ok(None)
}

/// The failure of the change that is tried, if some class isn't safe beside it. The classes that enter at its own switch come
/// first, since one that isn't safe is mostly among them.
pub(crate) fn failure_beside(
    goal: &Goal,
    watch: &mut ClassWatch,
    tried: &TriedChange,
    looked: &LookedAtoms,
) -> Result<Option<Failure>, Memory>
    requires prepared { (tables : List (List Rule)) × (changes : List ChangeOf)
        × ArePreparedFor goal.now.net tried.now.mixes.now tables changes }
    requires came { length watch.old.came.items ≡ class_count goal.now.classes }
    requires atoms { HasAtoms goal.now.classes looked.now }
    requires touched { AreTouched goal.now.classes (tried.now.change.now ∷ []) looked.now }
    ensures judged { IfOk result (λ failure. (tables : List (List Rule)) (taken : List ChangeOf)
        → ArePreparedFor goal.now.net tried.now.mixes.now tables
        (taken ++ tried.now.change.now ∷ []) → AreKept goal.now tables taken watch.old.came.items
        → AreJudgedBeside goal.now tables (taken ++ tried.now.change.now ∷ []) tried.now.change.now
        watch.new.came.items failure) }
    ensures watched { OnOk result ((tables : List (List Rule)) (changes : List ChangeOf)
        → ArePreparedFor goal.now.net tried.now.mixes.now tables changes
        → AreWatched goal.now tables changes watch.old.came.items watch.new.came.items) }
    ensures count { length watch.new.came.items ≡ length watch.old.came.items }
{
    let mut last = LastSets::none(tried.alloc);
    if let Some(failure) = classes_failure(goal, watch, tried, looked, &mut last, true)? {
        return Ok(Some(failure));
    }
    let failure = classes_failure(goal, watch, tried, looked, &mut last, false)?;
    Ok(failure)
}

/// Whether all classes are safe while the changes are made that the switches are prepared for, class by class up to the first
/// that isn't. The switches that their mixed walks come to are noted.
pub(crate) fn all_safe(
    alloc: Global,
    goal: &Goal,
    watch: &mut ClassWatch,
    mixes: &[Mixed],
) -> Result<bool, Memory>
    requires prepared { (tables : List (List Rule)) × (changes : List ChangeOf)
        × ArePreparedFor goal.now.net mixes.now tables changes }
    requires came { length watch.old.came.items ≡ class_count goal.now.classes }
    ensures { IfOk result (λ safe. (tables : List (List Rule)) (changes : List ChangeOf)
        → ArePreparedFor goal.now.net mixes.now tables changes
        → AreJudged goal.now tables changes watch.new.came.items safe) }
{
    let mut last = LastSets::none(alloc);
    for number in 0..goal.count() {
        let class = goal.numbered(number);
        if !is_safe(alloc, goal, watch, mixes, &mut last, class)? {
            return Ok(false);
        }
    }
    Ok(true)
}
