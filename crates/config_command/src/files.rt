//! A configuration with its network and its policy, fetched and read.
ghost use Rattle.std.specs.Prelude.{◌≡◌, ◌≤◌, IfOk, IfErr, OnOk, Some, Option};
ghost use Rattle.flow_rules.specs.Tables.{rules_of_all};
ghost use Rattle.path_walk.specs.UserConfigs.{IsUserConfig};
ghost use Rattle.command_base.specs.Dialogues.{FileRead, file_read, Gives, IsWhole};
ghost use Rattle.command_base.specs.Readings.{after_policy};
ghost use Rattle.command_base.specs.Replies.{EndsEarly};
ghost use Rattle.config_command.specs.Names.{names_seen};
ghost use Rattle.config_command.specs.Configs.{config_dialogue, config_meaning_of};

use crate::names::ConfigNames;
use command_base::{Exit, FileKind, read_configuration, read_policy, read_topology};
use demands::Demands;
use file_access::Source;
use flow_rules::Config;
use std::alloc::Global;
use topology::Net;

/// A network, a configuration of it, and the demands.
#[derive(Drop)]
pub struct ConfigFiles {
    pub net: Net,
    pub tables: Config,
    pub demands: Demands,
}

/// Fetches and reads a topology, a configuration of it, and the policy, if one is named; otherwise nothing is demanded.
///
/// # Errors
///
/// `ReadFault` where the source failed or doesn't hold a file; `Says` the line on a bad file; `Memory`.
pub fn read_config_files<S: Source>(
    alloc: Global,
    source: &mut S,
    names: &ConfigNames<'_>,
) -> Result<ConfigFiles, Exit>
    ensures gives { IfOk result (λ v. (last : Option FileRead)
        → Gives (S.held source.old) last (config_dialogue (names_seen names.now))
        (config_meaning_of v) (after_policy (names_seen names.now).policy
        (Some (file_read FileKind.Config names.now.config.now)))) }
    ensures user { IfOk result (λ v. IsUserConfig v.net (rules_of_all v.tables)) }
    ensures whole { OnOk result (IsWhole (after_policy (names_seen names.now).policy
        (Some (file_read FileKind.Config names.now.config.now))) (S.selected source.new)
        (S.taken source.new)) }
    ensures stops { IfErr result (λ e. (last : Option FileRead)
        → EndsEarly (S.held source.old) last (config_dialogue (names_seen names.now))
        (S.faults source.old) (S.faults source.new) e (S.selected source.new)
        (S.taken source.new)) }
    ensures held { S.held source.new ≡ S.held source.old }
    ensures later { S.faults source.old ≤ S.faults source.new }
{
    let net = read_topology(alloc, source, names.topology)?;
    // Each way out says `drop`: what a scope lets go by itself is proved part by part.
    let tables = match read_configuration(alloc, source, FileKind::Config, &net, names.config) {
        Ok(tables) => tables,
        Err(exit) => {
            drop(net);
            return Err(exit);
        }
    };
    let demands = match read_policy(alloc, source, &net, names.policy) {
        Ok(demands) => demands,
        Err(exit) => {
            drop(tables);
            drop(net);
            return Err(exit);
        }
    };
    Ok(ConfigFiles {
        net,
        tables,
        demands,
    })
}
