//! The law of `upgrade`.
ghost use Rattle.std.specs.Prelude.{ℕ, List, Option};
ghost use Rattle.file_access.specs.Outside.{Files};
ghost use Rattle.command_base.specs.declared.status.Status.{Status};
ghost use Rattle.command_base.specs.Runs.{IsComplete, Answered};
ghost use Rattle.command_base.specs.Names.{PlanNames};
ghost use Rattle.command_base.specs.Readings.{reading_plan_files};
ghost use Rattle.upgrade_command.specs.Texts.{IsUpgradeAnswer};
ghost use Rattle.upgrade_command.specs.Promise.{UpgradePromise};

/// A run whose answer, where it is settled, is that of the command's dialogue over the files keeps the promise of `upgrade`.
pub fn upgrade_promised()
    ensures { (files : Files) (names : PlanNames) (old new : Option (List ℕ)) (result : Status)
        → (IsComplete result
        → Answered IsUpgradeAnswer files (reading_plan_files names) old new result)
        → UpgradePromise files names old new result }
{}
