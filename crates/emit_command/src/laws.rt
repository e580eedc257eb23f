//! The law of `emit`.
ghost use Rattle.std.specs.Prelude.{ℕ, List, Option};
ghost use Rattle.file_access.specs.Outside.{Files};
ghost use Rattle.command_base.specs.declared.status.Status.{Status};
ghost use Rattle.command_base.specs.Runs.{IsComplete, Answered};
ghost use Rattle.command_base.specs.Names.{PlanNames};
ghost use Rattle.command_base.specs.Readings.{reading_plan_files};
ghost use Rattle.emit_command.specs.Answers.{IsEmitAnswer};
ghost use Rattle.emit_command.specs.Promise.{EmitPromise};

/// A run whose answer, where it is settled, is that of the command's dialogue over the files keeps the promise of `emit`.
pub fn emit_promised()
    ensures { (files : Files) (names : PlanNames) (old new : Option (List ℕ)) (result : Status)
        → (IsComplete result → Answered IsEmitAnswer files (reading_plan_files names) old new
        result)
        → EmitPromise files names old new result }
{}
