//! The law of `trace`.
ghost use Rattle.std.specs.Prelude.{ℕ, List, Option};
ghost use Rattle.file_access.specs.Outside.{Files};
ghost use Rattle.command_base.specs.declared.status.Status.{Status};
ghost use Rattle.command_base.specs.Runs.{IsComplete, Answered};
ghost use Rattle.trace_command.specs.Names.{TraceNames};
ghost use Rattle.trace_command.specs.Traced.{trace_dialogue, IsTraceAnswer};
ghost use Rattle.trace_command.specs.Promise.{TracePromise};

/// A run whose answer, where it is settled, is that of the command's dialogue over the files keeps the promise of `trace`.
pub fn trace_promised()
    ensures { (files : Files) (names : TraceNames) (old new : Option (List ℕ)) (result : Status)
        → (IsComplete result → Answered IsTraceAnswer files (trace_dialogue names) old new result)
        → TracePromise files names old new result }
{}
