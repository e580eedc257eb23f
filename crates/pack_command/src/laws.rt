//! The law of `pack`.
ghost use Rattle.std.specs.Prelude.{ℕ, List, Option};
ghost use Rattle.file_access.specs.Outside.{Files};
ghost use Rattle.command_base.specs.declared.status.Status.{Status};
ghost use Rattle.command_base.specs.Runs.{IsComplete, Answered};
ghost use Rattle.command_base.specs.Readings.{reading_update};
ghost use Rattle.pack_command.specs.Names.{PackNames};
ghost use Rattle.pack_command.specs.Packed.{IsPacked};
ghost use Rattle.pack_command.specs.Promise.{PackPromise};

use law_packed_rounds::laws::{
    never_more_rounds_than_changes, one_round_where_one_is_enough, packing_ends_once,
    rounds_are_full,
};
use round_planner::laws::searches_end_once;
use two_phase::laws::depth_rounds_count;

/// A run whose answer, where it is settled, is that of the command's dialogue over the files keeps the promise of `pack`.
pub fn pack_promised()
    ensures { (files : Files) (names : PackNames) (old new : Option (List ℕ)) (result : Status)
        → (IsComplete result
        → Answered (IsPacked names.kind) files (reading_update names.files) old new result)
        → PackPromise files names old new result }
{
    searches_end_once();
    packing_ends_once();
    rounds_are_full();
    one_round_where_one_is_enough();
    never_more_rounds_than_changes();
    depth_rounds_count();
}
