//! The names of files that several commands take.
ghost use Rattle.std.specs.Prelude.{◌≡◌, map, string_bytes, option_map};
ghost use Rattle.command_base.specs.Names.{update_names_in, names_seen, plan_names_in, plan_names_seen};

/// The names of the files of an update: the topology, the old and the new configuration, and the policy.
#[derive(Clone, Copy)]
pub struct UpdateNames<'a> {
    pub topology: &'a str,
    pub old: &'a str,
    pub new: &'a str,
    pub policy: &'a str,
}

/// The names of a topology and a plan of it.
#[derive(Clone, Copy)]
pub struct PlanNames<'a> {
    pub topology: &'a str,
    pub plan: &'a str,
}

/// The names in the words TOPO OLD NEW POLICY; none in other words.
pub fn update_names(words: &[String]) -> Option<UpdateNames<'_>>
    ensures { option_map names_seen result ≡ update_names_in (map string_bytes words.now) }
{
    match words {
        [topology, old, new, policy] => Some(UpdateNames {
            topology: topology.as_str(),
            old: old.as_str(),
            new: new.as_str(),
            policy: policy.as_str(),
        }),
        _ => None,
    }
}

/// The names in the words TOPO PLAN; none in other words.
pub fn plan_names(words: &[String]) -> Option<PlanNames<'_>>
    ensures { option_map plan_names_seen result ≡ plan_names_in (map string_bytes words.now) }
{
    match words {
        [topology, plan] => Some(PlanNames {
            topology: topology.as_str(),
            plan: plan.as_str(),
        }),
        _ => None,
    }
}
