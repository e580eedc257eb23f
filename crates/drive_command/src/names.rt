//! The words of `drive`.
ghost use Rattle.std.specs.Prelude.{◌≡◌, map, string_bytes, option_map};
ghost use Rattle.drive_command.specs.Names.{names_in, names_seen};

use check_base::CheckNames;
use command_base::UpdateNames;

/// The names of the files of `drive`: those of `check`, and the inputs.
#[derive(Clone, Copy)]
pub struct DriveNames<'a> {
    pub check: CheckNames<'a>,
    pub input: &'a str,
}

/// The names in the words after `drive`, which are TOPO OLD NEW POLICY PLAN INPUT; none in other words.
pub fn drive_names(words: &[String]) -> Option<DriveNames<'_>>
    ensures { option_map names_seen result ≡ names_in (map string_bytes words.now) }
{
    match words {
        [topology, old, new, policy, plan, input] => Some(DriveNames {
            check: CheckNames {
                update: UpdateNames {
                    topology: topology.as_str(),
                    old: old.as_str(),
                    new: new.as_str(),
                    policy: policy.as_str(),
                },
                plan: plan.as_str(),
            },
            input: input.as_str(),
        }),
        _ => None,
    }
}
