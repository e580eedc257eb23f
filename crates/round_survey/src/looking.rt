//! The atoms whose classes are looked at in a round.
ghost use Rattle.std.specs.Prelude.{◌≡◌, ◌<◌, length, IfOk};
ghost use Rattle.dest_classes.specs.Classes.{ClassList, class_count, atom_count};
ghost use Rattle.class_watch.specs.Classes.{AreClasses};
ghost use Rattle.round_survey.specs.Rounds.{PassesOver};

use breaking_walks::PreparedRound;
use class_watch::LookedAtoms;
use dest_classes::{Class, ClassMap};
use net_base::Memory;
use std::alloc::Global;

/// Looks at the atoms that the change of a round touches, where it is the only one; otherwise at all.
fn look_at_changed(looked: &mut LookedAtoms, round: PreparedRound<'_>, classes: &[Class])
    requires within { round.number < length round.rounds.now }
    ensures { (map : ClassList) → AreClasses map classes.now
        → (0 < class_count map → length looked.old ≡ atom_count map)
        → PassesOver round.entry classes.now looked.new }
{
    let changes = round.rounds.round(round.number);
    if round.number == 0 || changes.len() != 1 {
        looked.look_at_all();
        return;
    }
    looked.look_at_touched(classes, &changes[0]);
}

/// The atoms whose classes are looked at in a round: those that its change touches, where it is the only one; otherwise all.
pub(crate) fn atoms_to_look_at(
    alloc: Global,
    round: PreparedRound<'_>,
    map: &ClassMap,
    classes: &[Class],
) -> Result<LookedAtoms, Memory>
    requires within { round.number < length round.rounds.now }
    requires classes { AreClasses map.now classes.now }
    ensures { IfOk result (PassesOver round.entry classes.now) }
{
    let mut looked = LookedAtoms::make(alloc, map)?;
    look_at_changed(&mut looked, round, classes);
    Ok(looked)
}
