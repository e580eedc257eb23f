//! The law of `config`.
ghost use Rattle.std.specs.Prelude.{ℕ, List, Option};
ghost use Rattle.file_access.specs.Outside.{Files};
ghost use Rattle.command_base.specs.declared.status.Status.{Status};
ghost use Rattle.command_base.specs.Runs.{IsComplete, Answered};
ghost use Rattle.config_command.specs.Names.{ConfigNames};
ghost use Rattle.config_command.specs.Configs.{config_dialogue, IsConfigAnswer};
ghost use Rattle.config_command.specs.Promise.{ConfigPromise};

/// A run whose answer, where it is settled, is that of the command's dialogue over the files keeps the promise of `config`.
pub fn config_promised()
    ensures { (files : Files) (names : ConfigNames) (old new : Option (List ℕ)) (result : Status)
        → (IsComplete result → Answered IsConfigAnswer files (config_dialogue names) old new result)
        → ConfigPromise files names old new result }
{}
