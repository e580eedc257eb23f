//! The law of `simulate`.
ghost use Rattle.std.specs.Prelude.{ℕ, List, Option};
ghost use Rattle.file_access.specs.Outside.{Files};
ghost use Rattle.command_base.specs.declared.status.Status.{Status};
ghost use Rattle.command_base.specs.Runs.{IsComplete, Answered};
ghost use Rattle.check_base.specs.Checks.{check_dialogue};
ghost use Rattle.simulate_command.specs.Names.{SimulateNames};
ghost use Rattle.simulate_command.specs.Simulated.{IsSimulateAnswer};
ghost use Rattle.simulate_command.specs.Promise.{SimulatePromise};

/// A run whose answer, where it is settled, is that of the command's dialogue over the files keeps the promise of `simulate`.
pub fn simulate_promised()
    ensures { (files : Files) (names : SimulateNames) (old new : Option (List ℕ)) (result : Status)
        → (IsComplete result
        → Answered (IsSimulateAnswer names.start names.count) files (check_dialogue names.check)
        old new result)
        → SimulatePromise files names old new result }
{}
