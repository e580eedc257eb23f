//! The command that writes where every class of a configuration goes.
ghost use Rattle.std.specs.Prelude.{◌≡◌, ◌≤◌, IfOk, IfErr};
ghost use Rattle.flow_rules.specs.Tables.{rules_of_all};
ghost use Rattle.path_walk.specs.UserConfigs.{IsUserConfig};
ghost use Rattle.command_base.specs.Replies.{answer_of, Meets};
ghost use Rattle.config_command.specs.Names.{names_seen};
ghost use Rattle.config_command.specs.Configs.{config_dialogue, config_meaning_of};
ghost use Rattle.paths_command.specs.Listed.{IsPathsAnswer};

use crate::listing::listing_of;
use command_base::{Exit, Reply};
use config_command::{ConfigFiles, ConfigNames, read_config_files};
use file_access::Source;
use std::alloc::Global;

/// The listing of the classes as the end of the command.
fn say_paths(alloc: Global, files: &ConfigFiles) -> Result<Reply, Exit>
    requires user { IsUserConfig files.now.net (rules_of_all files.now.tables) }
    ensures said { IfOk result
        (λ r. IsPathsAnswer (config_meaning_of files.now) (answer_of r)) }
    ensures stops { IfErr result (λ e. e ≡ Exit.Memory) }
{
    Ok(listing_of(alloc, &files.net, &files.tables, &files.demands)?)
}

/// Writes of each class of the configuration its path and whether it is good under the policy, or under no demands.
pub fn paths<S: Source>(
    alloc: Global,
    source: &mut S,
    names: &ConfigNames<'_>,
) -> Result<Reply, Exit>
    ensures meets { Meets IsPathsAnswer (S.held source.old) (config_dialogue (names_seen names.now))
        (S.faults source.old) (S.faults source.new) result
        (S.selected source.new) (S.taken source.new) }
    ensures held { S.held source.new ≡ S.held source.old }
    ensures later { S.faults source.old ≤ S.faults source.new }
{
    let files = read_config_files(alloc, source, names)?;
    let reply = say_paths(alloc, &files);
    drop(files);
    reply
}
