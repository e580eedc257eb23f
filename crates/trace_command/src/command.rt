//! The command that follows one packet.
ghost use Rattle.std.specs.Prelude.{◌≡◌, ◌≤◌};
ghost use Rattle.command_base.specs.Replies.{Meets};
ghost use Rattle.trace_command.specs.Names.{names_seen};
ghost use Rattle.trace_command.specs.Traced.{trace_dialogue, IsTraceAnswer};

use crate::files::read_trace_files;
use crate::names::TraceNames;
use crate::replying::trace_reply;
use command_base::{Exit, Reply};
use file_access::Source;
use std::alloc::Global;

/// Follows a packet from its entry on through the configuration, and writes each stop with the rule that the lookup picks there, and
/// how its path ends; or says that the network has no such entry.
pub fn trace<S: Source>(
    alloc: Global,
    source: &mut S,
    names: &TraceNames<'_>,
) -> Result<Reply, Exit>
    ensures meets { Meets IsTraceAnswer (S.held source.old)
        (trace_dialogue (names_seen names.now)) (S.faults source.old) (S.faults source.new) result
        (S.selected source.new) (S.taken source.new) }
    ensures held { S.held source.new ≡ S.held source.old }
    ensures later { S.faults source.old ≤ S.faults source.new }
{
    let files = read_trace_files(alloc, source, names)?;
    Ok(trace_reply(alloc, &files, names)?)
}
