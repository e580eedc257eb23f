//! The words of `check`, and of the commands that check a plan first.
ghost use Rattle.std.specs.Prelude.{◌≡◌, map, string_bytes, option_map};
ghost use Rattle.check_base.specs.Names.{names_in, names_seen};

use command_base::UpdateNames;

/// The names of the files of `check`: those of an update, and of a plan of it.
#[derive(Clone, Copy)]
pub struct CheckNames<'a> {
    pub update: UpdateNames<'a>,
    pub plan: &'a str,
}

/// The names in the words after `check`, which are TOPO OLD NEW POLICY PLAN; none in other words.
pub fn check_names(words: &[String]) -> Option<CheckNames<'_>>
    ensures { option_map names_seen result ≡ names_in (map string_bytes words.now) }
{
    match words {
        [topology, old, new, policy, plan] => Some(CheckNames {
            update: UpdateNames {
                topology: topology.as_str(),
                old: old.as_str(),
                new: new.as_str(),
                policy: policy.as_str(),
            },
            plan: plan.as_str(),
        }),
        _ => None,
    }
}
