//! The words of `config`.
ghost use Rattle.std.specs.Prelude.{◌≡◌, map, string_bytes, option_map};
ghost use Rattle.config_command.specs.Names.{names_in, names_seen};

/// The names of the files of `config`: the topology, the configuration, and the policy if there is one.
#[derive(Clone, Copy)]
pub struct ConfigNames<'a> {
    pub topology: &'a str,
    pub config: &'a str,
    pub policy: Option<&'a str>,
}

/// The names in the words after `config`, which are TOPO CONFIG or TOPO CONFIG POLICY; none in other words.
pub fn config_names(words: &[String]) -> Option<ConfigNames<'_>>
    ensures { option_map names_seen result ≡ names_in (map string_bytes words.now) }
{
    match words {
        [topology, config] => Some(ConfigNames {
            topology: topology.as_str(),
            config: config.as_str(),
            policy: None,
        }),
        [topology, config, policy] => Some(ConfigNames {
            topology: topology.as_str(),
            config: config.as_str(),
            policy: Some(policy.as_str()),
        }),
        _ => None,
    }
}
