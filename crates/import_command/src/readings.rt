//! Flow statistics, fetched and read.
ghost use Rattle.std.specs.Prelude.{◌≡◌, ◌≤◌, IfOk, IfErr, OnOk, Ok, Some, Option};
ghost use Rattle.flow_rules.specs.Tables.{rules_of_all};
ghost use Rattle.path_walk.specs.UserConfigs.{IsUserConfig};
ghost use Rattle.flow_stats.specs.Replies.{replies_in};
ghost use Rattle.command_base.specs.declared.kinds.FileKind.TheVariants as «kind»;
ghost use Rattle.command_base.specs.Dialogues.{FileRead, file_read, Gives, IsWhole};
ghost use Rattle.command_base.specs.Replies.{words_of, IsBad, EndsEarly};
ghost use Rattle.import_command.specs.Imported.{reading_replies, replies_words};

use command_base::{Exit, Fault, FileKind, bad_reply, fetch_file};
use file_access::Source;
use flow_rules::Config;
use flow_stats::{StatsFault, read_replies};
use std::alloc::Global;
use topology::Net;

/// What is printed of a fault of flow statistics.
fn stats_fault(fault: StatsFault) -> Fault
    ensures { words_of result ≡ replies_words fault }
{
    Fault {
        number: fault.number(),
        name: fault.name(),
        field: None,
        place: fault.place(),
    }
}

/// The configuration that the bytes tell.
fn replies_of(alloc: Global, net: &Net, bytes: &[u8]) -> Result<Config, Exit>
    ensures ok { IfOk result (λ c. replies_in net.now bytes.now ≡ Ok (rules_of_all c)) }
    ensures user { IfOk result (λ c. IsUserConfig net.now (rules_of_all c)) }
    ensures bad { IfErr result
        (λ e. IsBad FileKind.Replies replies_words (replies_in net.now bytes.now) e) }
{
    match read_replies(alloc, net, bytes) {
        Ok(config) => Ok(config),
        Err(StatsFault::Memory) => Err(Exit::Memory),
        Err(fault) => Err(Exit::Says(bad_reply(alloc, FileKind::Replies, stats_fault(fault))?)),
    }
}

/// Fetches and reads flow statistics of the network. What they tell is a user configuration.
///
/// # Errors
///
/// `ReadFault` where the source failed or doesn't hold the file; `Says` the line on a bad file; `Memory`.
pub fn read_replies_file<S: Source>(
    alloc: Global,
    source: &mut S,
    net: &Net,
    name: &str,
) -> Result<Config, Exit>
    ensures gives { IfOk result (λ v. (last : Option FileRead)
        → Gives (S.held source.old) last (reading_replies net.now name.now) (rules_of_all v)
        (Some (file_read FileKind.Replies name.now))) }
    ensures user { IfOk result (λ v. IsUserConfig net.now (rules_of_all v)) }
    ensures whole { OnOk result
        (IsWhole (Some (file_read FileKind.Replies name.now)) (S.selected source.new)
        (S.taken source.new)) }
    ensures stops { IfErr result (λ e. (last : Option FileRead)
        → EndsEarly (S.held source.old) last (reading_replies net.now name.now)
        (S.faults source.old) (S.faults source.new) e (S.selected source.new)
        (S.taken source.new)) }
    ensures held { S.held source.new ≡ S.held source.old }
    ensures later { S.faults source.old ≤ S.faults source.new }
{
    let bytes = fetch_file(alloc, source, FileKind::Replies, name)?;
    replies_of(alloc, net, &bytes)
}
