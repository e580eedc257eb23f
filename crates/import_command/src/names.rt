//! The words of `import`.
ghost use Rattle.std.specs.Prelude.{◌≡◌, map, string_bytes, option_map};
ghost use Rattle.import_command.specs.Names.{names_in, names_seen};

/// The names of the files of `import`: the topology and the flow statistics.
#[derive(Clone, Copy)]
pub struct ImportNames<'a> {
    pub topology: &'a str,
    pub replies: &'a str,
}

/// The names in the words after `import`, which are TOPO REPLIES; none in other words.
pub fn import_names(words: &[String]) -> Option<ImportNames<'_>>
    ensures { option_map names_seen result ≡ names_in (map string_bytes words.now) }
{
    match words {
        [topology, replies] => Some(ImportNames {
            topology: topology.as_str(),
            replies: replies.as_str(),
        }),
        _ => None,
    }
}
