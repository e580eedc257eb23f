//! The words of `replay`.
ghost use Rattle.std.specs.Prelude.{◌≡◌, map, string_bytes, option_map};
ghost use Rattle.replay_command.specs.Names.{names_in, names_seen};

/// The names of the files of `replay`: the topology, the old configuration, the plan and the schedule.
#[derive(Clone, Copy)]
pub struct ReplayNames<'a> {
    pub topology: &'a str,
    pub old: &'a str,
    pub plan: &'a str,
    pub schedule: &'a str,
}

/// The names in the words after `replay`, which are TOPO OLD PLAN SCHEDULE; none in other words.
pub fn replay_names(words: &[String]) -> Option<ReplayNames<'_>>
    ensures { option_map names_seen result ≡ names_in (map string_bytes words.now) }
{
    match words {
        [topology, old, plan, schedule] => Some(ReplayNames {
            topology: topology.as_str(),
            old: old.as_str(),
            plan: plan.as_str(),
            schedule: schedule.as_str(),
        }),
        _ => None,
    }
}
