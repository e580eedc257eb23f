//! The files of `trace`.
ghost use Rattle.std.specs.Prelude.{◌≡◌, ◌≤◌, IfOk, IfErr, OnOk, Some, Option};
ghost use Rattle.flow_rules.specs.Tables.{rules_of_all};
ghost use Rattle.path_walk.specs.UserConfigs.{IsUserConfig};
ghost use Rattle.command_base.specs.declared.kinds.FileKind.{FileKind};
ghost use Rattle.command_base.specs.Dialogues.{FileRead, file_read, Gives, IsWhole};
ghost use Rattle.command_base.specs.Replies.{EndsEarly};
ghost use Rattle.trace_command.specs.Names.{names_seen};
ghost use Rattle.trace_command.specs.Traced.{meaning_of, trace_dialogue};

use crate::names::TraceNames;
use command_base::{Exit, FileKind, read_configuration, read_topology};
use file_access::Source;
use flow_rules::Config;
use std::alloc::Global;
use topology::Net;

/// A network and a configuration of it.
#[derive(Drop)]
pub struct TraceFiles {
    pub net: Net,
    pub config: Config,
}

/// Fetches and reads a topology and a configuration of it.
///
/// # Errors
///
/// `ReadFault` where the source failed or doesn't hold a file; `Says` the line on a bad file; `Memory`.
pub fn read_trace_files<S: Source>(
    alloc: Global,
    source: &mut S,
    names: &TraceNames<'_>,
) -> Result<TraceFiles, Exit>
    ensures gives { IfOk result (λ v. (last : Option FileRead)
        → Gives (S.held source.old) last (trace_dialogue (names_seen names.now))
        (meaning_of v (names_seen names.now))
        (Some (file_read FileKind.Config names.now.config.now))) }
    ensures user { IfOk result (λ v. IsUserConfig v.net (rules_of_all v.config)) }
    ensures whole { OnOk result (IsWhole (Some (file_read FileKind.Config names.now.config.now))
        (S.selected source.new) (S.taken source.new)) }
    ensures stops { IfErr result (λ e. (last : Option FileRead)
        → EndsEarly (S.held source.old) last (trace_dialogue (names_seen names.now))
        (S.faults source.old) (S.faults source.new) e (S.selected source.new)
        (S.taken source.new)) }
    ensures held { S.held source.new ≡ S.held source.old }
    ensures later { S.faults source.old ≤ S.faults source.new }
{
    let net = read_topology(alloc, source, names.topology)?;
    match read_configuration(alloc, source, FileKind::Config, &net, names.config) {
        Ok(config) => Ok(TraceFiles { net, config }),
        Err(exit) => {
            drop(net);
            Err(exit)
        }
    }
}
