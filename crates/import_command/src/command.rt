//! The command that makes a configuration from flow statistics.
ghost use Rattle.std.specs.Prelude.{◌≡◌, ◌≤◌, IfOk, IfErr, Option};
ghost use Rattle.flow_rules.specs.Tables.{rules_of_all};
ghost use Rattle.path_walk.specs.UserConfigs.{IsUserConfig};
ghost use Rattle.command_base.specs.Dialogues.{FileRead, LeadsTo};
ghost use Rattle.command_base.specs.Replies.{answer_of, EndsEarly, Meets};
ghost use Rattle.import_command.specs.Names.{names_seen};
ghost use Rattle.import_command.specs.Imported.{behind_topology, import_dialogue, IsImportAnswer, SaysConfig};

use crate::names::ImportNames;
use crate::readings::read_replies_file;
use command_base::{Exit, Reply, Status, read_topology};
use config_files::config_text;
use file_access::Source;
use flow_rules::Config;
use net_base::Memory;
use std::alloc::Global;
use topology::Net;

/// The text of a configuration.
fn config_reply(alloc: Global, net: &Net, config: &Config) -> Result<Reply, Memory>
    requires { IsUserConfig net.now (rules_of_all config.now) }
    ensures { IfOk result (λ r. SaysConfig net.now (rules_of_all config.now) (answer_of r)) }
{
    Ok(Reply {
        status: Status::Done,
        text: config_text(alloc, net, config)?,
    })
}

/// The text of a configuration as the end of the command.
fn say_config(alloc: Global, net: &Net, config: &Config) -> Result<Reply, Exit>
    requires { IsUserConfig net.now (rules_of_all config.now) }
    ensures said { IfOk result
        (λ r. IsImportAnswer (record { net = net.now; tables = rules_of_all config.now })
        (answer_of r)) }
    ensures stops { IfErr result (λ e. e ≡ Exit.Memory) }
{
    Ok(config_reply(alloc, net, config)?)
}

/// Fetches the flow statistics of the network's switches, and writes the configuration that they tell.
fn import_replies<S: Source>(
    alloc: Global,
    source: &mut S,
    names: &ImportNames<'_>,
    net: &Net,
) -> Result<Reply, Exit>
    ensures leads { IfOk result (λ r. (last : Option FileRead)
        → LeadsTo IsImportAnswer (S.held source.old) last
        (behind_topology (names_seen names.now) net.now) (answer_of r) (S.selected source.new)
        (S.taken source.new)) }
    ensures stops { IfErr result (λ e. (last : Option FileRead)
        → EndsEarly (S.held source.old) last (behind_topology (names_seen names.now) net.now)
        (S.faults source.old) (S.faults source.new) e (S.selected source.new)
        (S.taken source.new)) }
    ensures held { S.held source.new ≡ S.held source.old }
    ensures later { S.faults source.old ≤ S.faults source.new }
{
    let config = read_replies_file(alloc, source, net, names.replies)?;
    let reply = say_config(alloc, net, &config);
    drop(config);
    reply
}

/// Writes the configuration that the flow statistics of the network's switches tell.
pub fn import<S: Source>(
    alloc: Global,
    source: &mut S,
    names: &ImportNames<'_>,
) -> Result<Reply, Exit>
    ensures meets { Meets IsImportAnswer (S.held source.old)
        (import_dialogue (names_seen names.now))
        (S.faults source.old) (S.faults source.new) result (S.selected source.new)
        (S.taken source.new) }
    ensures held { S.held source.new ≡ S.held source.old }
    ensures later { S.faults source.old ≤ S.faults source.new }
{
    let net = read_topology(alloc, source, names.topology)?;
    let reply = import_replies(alloc, source, names, &net);
    drop(net);
    reply
}
