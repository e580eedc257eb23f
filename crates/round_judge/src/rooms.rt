//! Room to judge rounds in.
ghost use Rattle.std.specs.Prelude.{◌≡◌, ℕ, ◌<◌, length, IsTrue, IfOk};
ghost use Rattle.net_base.specs.declared.ids.SwitchId.{SwitchId as Switch};
ghost use Rattle.dest_classes.specs.Classes.{class_count};
ghost use Rattle.net_base.specs.Switches.{has, most_switches};
ghost use Rattle.round_judge.specs.Goals.{HasAtoms};
ghost use Rattle.round_judge.specs.Visits.{marks_at};

use class_watch::{ClassWatch, LookedAtoms};
use dest_classes::ClassMap;
use net_base::{Memory, SwitchSet};
use std::alloc::Global;

/// Room to watch classes, with all switches for each, and marks for their atoms. 16 bytes for each class and 5 for each atom,
/// beside the room for walks.
pub fn watch_rooms(alloc: Global, classes: &ClassMap) -> Result<(LookedAtoms, ClassWatch), Memory>
    ensures atoms { IfOk result (λ r. HasAtoms classes.now r.0) }
    ensures count { IfOk result (λ r. length r.1.came.items ≡ class_count classes.now) }
    ensures each { IfOk result (λ r. (n : ℕ) (s : Switch) → n < class_count classes.now
        → s.0 < most_switches → IsTrue (has (marks_at r.1.came.items n) s)) }
{
    let looked = LookedAtoms::make(alloc, classes)?;
    let watch = ClassWatch::make(alloc, classes.count(), SwitchSet::all())?;
    Ok((looked, watch))
}
