//! The laws of `tables`. Each is a function that does nothing: its contract is the law.
ghost use Rattle.std.specs.Prelude.{ℕ, List, Option};
ghost use Rattle.std.specs.List.{AllByRecursion};
ghost use Rattle.file_access.specs.Outside.{Files};
ghost use Rattle.flow_rules.specs.Tables.{IsTable};
ghost use Rattle.update_model.specs.Mixtures.{Rollout, AreGoodRounds};
ghost use Rattle.two_way_replay.specs.Courses.{IsCourse};
ghost use Rattle.two_way_replay.specs.declared.schedule.TwoWayStep.{TwoWayStep};
ghost use Rattle.command_base.specs.declared.status.Status.{Status};
ghost use Rattle.command_base.specs.Runs.{IsComplete, Answered};
ghost use Rattle.replay_command.specs.Names.{ReplayNames};
ghost use Rattle.tables_command.specs.BothWays.{IsStepOfRounds, IsRunBothWays};
ghost use Rattle.tables_command.specs.Listed.{IsTablesAnswer};
ghost use Rattle.tables_command.specs.Promise.{TablesPromise};
ghost use Rattle.tables_command.specs.Tabled.{tables_dialogue};

/// A run whose answer, where it is settled, is that of the command's dialogue over the files keeps the promise of `tables`.
pub fn tables_promised()
    ensures { (files : Files) (names : ReplayNames) (old new : Option (List ℕ)) (result : Status)
        → (IsComplete result → Answered IsTablesAnswer files (tables_dialogue names) old new result)
        → TablesPromise files names old new result }
{}

/// Where each round is good, the steps of a course in which no packet enters stand for the events of a run both ways, but a turn of a
/// running round for none. It leads as far, with the same changes in force, and each switch has the same rules then, as a set.
pub fn a_course_is_a_run_both_ways()
    ensures { (u : Rollout) → AreGoodRounds u → AllByRecursion IsTable u.old
        → (steps : List TwoWayStep) → AllByRecursion IsStepOfRounds steps → IsCourse u steps
        → IsRunBothWays u steps }
{}
