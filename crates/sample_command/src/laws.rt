//! The law of `sample`.
ghost use Rattle.std.specs.Prelude.{◌≢◌, ℕ, List, Option};
ghost use Rattle.file_access.specs.Outside.{Files};
ghost use Rattle.command_base.specs.declared.status.Status.{Status};
ghost use Rattle.command_base.specs.Dialogues.{Ends};
ghost use Rattle.command_base.specs.Runs.{EndsAs};
ghost use Rattle.sample_command.specs.Summaries.{SaysSummary};
ghost use Rattle.sample_command.specs.Promise.{SamplePromise};

/// A run that ends as the command's dialogue, which reads no file, and not for a fault of reading, keeps the promise of `sample`.
pub fn sample_promised()
    ensures { (n : ℕ) (held : Option Files) (old new : Option (List ℕ))
        (selected : List ℕ) (taken : ℕ) (result : Status)
        → EndsAs SaysSummary held (Ends n) old new selected taken result
        → result ≢ Status.ReadFault → SamplePromise n old new result }
{}
