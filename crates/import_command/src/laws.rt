//! The law of `import`.
ghost use Rattle.std.specs.Prelude.{ℕ, List, Option};
ghost use Rattle.file_access.specs.Outside.{Files};
ghost use Rattle.command_base.specs.declared.status.Status.{Status};
ghost use Rattle.command_base.specs.Runs.{IsComplete, Answered};
ghost use Rattle.import_command.specs.Names.{ImportNames};
ghost use Rattle.import_command.specs.Imported.{import_dialogue, IsImportAnswer};
ghost use Rattle.import_command.specs.Promise.{ImportPromise};

/// A run whose answer, where it is settled, is that of the command's dialogue over the files keeps the promise of `import`.
pub fn import_promised()
    ensures { (files : Files) (names : ImportNames) (old new : Option (List ℕ)) (result : Status)
        → (IsComplete result → Answered IsImportAnswer files (import_dialogue names) old new result)
        → ImportPromise files names old new result }
{}
