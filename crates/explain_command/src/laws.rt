//! The law of `explain`.
ghost use Rattle.std.specs.Prelude.{ℕ, List, Option};
ghost use Rattle.file_access.specs.Outside.{Files};
ghost use Rattle.command_base.specs.declared.status.Status.{Status};
ghost use Rattle.command_base.specs.Runs.{IsComplete, Answered};
ghost use Rattle.check_base.specs.Names.{CheckNames};
ghost use Rattle.check_base.specs.Checks.{check_dialogue};
ghost use Rattle.explain_command.specs.Explained.{IsExplainAnswer};
ghost use Rattle.explain_command.specs.Promise.{ExplainPromise};

/// A run whose answer, where it is settled, is that of the command's dialogue over the files keeps the promise of `explain`.
pub fn explain_promised()
    ensures { (files : Files) (names : CheckNames) (old new : Option (List ℕ)) (result : Status)
        → (IsComplete result → Answered IsExplainAnswer files (check_dialogue names) old new result)
        → ExplainPromise files names old new result }
{}
