//! The law of `plan`.
ghost use Rattle.std.specs.Prelude.{ℕ, List, Option};
ghost use Rattle.file_access.specs.Outside.{Files};
ghost use Rattle.command_base.specs.declared.status.Status.{Status};
ghost use Rattle.command_base.specs.Runs.{IsComplete, Answered};
ghost use Rattle.command_base.specs.Names.{UpdateNames};
ghost use Rattle.command_base.specs.Readings.{reading_update};
ghost use Rattle.plan_command.specs.Planned.{IsPlanned};
ghost use Rattle.plan_command.specs.Promise.{PlanPromise};

use round_planner::laws::searches_end_once;

/// A run whose answer, where it is settled, is that of the command's dialogue over the files keeps the promise of `plan`.
pub fn plan_promised()
    ensures { (files : Files) (names : UpdateNames) (old new : Option (List ℕ)) (result : Status)
        → (IsComplete result → Answered IsPlanned files (reading_update names) old new result)
        → PlanPromise files names old new result }
{
    searches_end_once();
}
