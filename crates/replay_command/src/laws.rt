//! The law of `replay`.
ghost use Rattle.std.specs.Prelude.{ℕ, List, Option};
ghost use Rattle.file_access.specs.Outside.{Files};
ghost use Rattle.command_base.specs.declared.status.Status.{Status};
ghost use Rattle.command_base.specs.Runs.{IsComplete, Answered};
ghost use Rattle.replay_command.specs.Names.{ReplayNames};
ghost use Rattle.replay_command.specs.Replayed.{replay_dialogue, IsReplayAnswer};
ghost use Rattle.replay_command.specs.Promise.{ReplayPromise};

/// A run whose answer, where it is settled, is that of the command's dialogue over the files keeps the promise of `replay`.
pub fn replay_promised()
    ensures { (files : Files) (names : ReplayNames) (old new : Option (List ℕ)) (result : Status)
        → (IsComplete result → Answered IsReplayAnswer files (replay_dialogue names) old new result)
        → ReplayPromise files names old new result }
{}
