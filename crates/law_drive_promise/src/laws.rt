//! The law of `drive`.
ghost use Rattle.std.specs.Prelude.{ℕ, List, Option};
ghost use Rattle.file_access.specs.Outside.{Files};
ghost use Rattle.command_base.specs.declared.status.Status.{Status};
ghost use Rattle.command_base.specs.Runs.{IsComplete, Answered};
ghost use Rattle.drive_command.specs.Names.{DriveNames};
ghost use Rattle.drive_command.specs.Driven.{drive_dialogue, IsDriveAnswer};
ghost use Rattle.law_drive_promise.specs.Promise.{DriveWirePromise};

/// A run whose answer, where it is settled, is that of the command's dialogue over the files keeps the promise of `drive`, on the wire
/// too.
pub fn drive_promised()
    ensures { (files : Files) (names : DriveNames) (old new : Option (List ℕ)) (result : Status)
        → (IsComplete result → Answered IsDriveAnswer files (drive_dialogue names) old new result)
        → DriveWirePromise files names old new result }
{}
