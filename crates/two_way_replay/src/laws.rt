//! What holds of an update that may be turned back as a schedule says. Each law is a function that does nothing: its contract is the
//! law.
ghost use Rattle.std.specs.Prelude.{◌≡◌, ◌↔◌, ℕ, List, Ok, false, length, map, replicate};
ghost use Rattle.net_base.specs.Members.{IsSameSet};
ghost use Rattle.topology.specs.Networks.{Network};
ghost use Rattle.flow_rules.specs.Tables.{IsTable, action_of};
ghost use Rattle.flow_rules.specs.declared.rules.Key.{Key};
ghost use Rattle.flow_rules.specs.declared.rules.Rule.{Rule};
ghost use Rattle.update_model.specs.Mixtures.{Rollout};
ghost use Rattle.update_model.specs.Runs.{IsRun, state_after_run};
ghost use Rattle.update_model.specs.declared.Event.{Event};
ghost use Rattle.schedule_replay.specs.Schedules.{schedule_in};
ghost use Rattle.schedule_replay.specs.declared.schedule.ScheduleLine.{ScheduleLine};
ghost use Rattle.law_two_way_runs.specs.Laws.{onward_state};
ghost use Rattle.law_two_way_runs.specs.States.{with_entry_of};
ghost use Rattle.two_way_replay.specs.Courses.{IsCourse, state_after_course};
ghost use Rattle.two_way_replay.specs.CourseLaws.{onward_steps};
ghost use Rattle.two_way_replay.specs.Entries.{with_entry};
ghost use Rattle.two_way_replay.specs.TwoWaySchedules.{two_way_schedule_in, onward_line};

/// A schedule of a run that is never turned back has here the same events in the same lines.
pub fn schedules_are_read_alike()
    ensures { (net : Network) (bytes : List ℕ) (lines : List ScheduleLine)
        → schedule_in net bytes ≡ Ok lines
        → two_way_schedule_in net bytes ≡ Ok (map onward_line lines) }
{}

/// Steps without a turn are a course where they are a run, with the same states.
pub fn never_turned()
    ensures runs { (u : Rollout) (events : List Event)
        → IsCourse u (onward_steps events) ↔ IsRun u events }
    ensures states { (u : Rollout) (events : List Event) → IsRun u events
        → onward_state (state_after_course u (onward_steps events)).state
        ≡ state_after_run u events }
    ensures forward { (u : Rollout) (events : List Event)
        → (state_after_course u (onward_steps events)).is_undone ≡ false }
    ensures none_back { (u : Rollout) (events : List Event)
        → (state_after_course u (onward_steps events)).taken_back
        ≡ replicate (length (state_after_course u (onward_steps events)).state.in_force) false }
{}

/// An entry that is put back is what the machine of runs both ways makes of it: the rules are the same, as sets.
pub fn put_back_as_taken_back()
    ensures { (before rules : List Rule) (key : Key) → IsTable before
        → IsSameSet (with_entry key (action_of key before) rules) (with_entry_of before key rules) }
{}
