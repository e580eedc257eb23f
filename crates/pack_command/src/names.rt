//! The words of `pack`.
ghost use Rattle.std.specs.Prelude.{◌≡◌, map, string_bytes, option_map};
ghost use Rattle.pack_command.specs.Names.{kind_in, names_in, names_seen};

use command_base::UpdateNames;

/// Which plans may be written.
#[derive(Clone, Copy, Debug, PartialEq, Eq)]
pub enum PackKind {
    /// An ordered plan, or one of two phases.
    Any,
    /// An ordered plan.
    Ordered,
    /// A plan of two phases.
    TwoPhase,
}

/// The names of the files of an update, and which plans of it may be written.
#[derive(Clone, Copy)]
pub struct PackNames<'a> {
    pub files: UpdateNames<'a>,
    pub kind: PackKind,
}

/// The kind that a word names, if it names one.
fn kind_of(word: &str) -> Option<PackKind>
    ensures { result ≡ kind_in word.now }
{
    match word {
        "ordered" => Some(PackKind::Ordered),
        "two-phase" => Some(PackKind::TwoPhase),
        _ => None,
    }
}

/// The names in the words after `pack`, which are TOPO OLD NEW POLICY or TOPO OLD NEW POLICY KIND; none in other words.
pub fn pack_names(words: &[String]) -> Option<PackNames<'_>>
    ensures { option_map names_seen result ≡ names_in (map string_bytes words.now) }
{
    match words {
        [topology, old, new, policy] => Some(PackNames {
            files: UpdateNames {
                topology: topology.as_str(),
                old: old.as_str(),
                new: new.as_str(),
                policy: policy.as_str(),
            },
            kind: PackKind::Any,
        }),
        [topology, old, new, policy, kind] => Some(PackNames {
            files: UpdateNames {
                topology: topology.as_str(),
                old: old.as_str(),
                new: new.as_str(),
                policy: policy.as_str(),
            },
            kind: kind_of(kind.as_str())?,
        }),
        _ => None,
    }
}
