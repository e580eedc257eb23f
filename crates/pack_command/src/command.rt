//! The command that plans an update in few rounds.
ghost use Rattle.std.specs.Prelude.{◌≡◌, ◌≤◌, IfOk, IfErr};
ghost use Rattle.flow_rules.specs.Tables.{rules_of_all};
ghost use Rattle.path_walk.specs.UserConfigs.{IsUserConfig};
ghost use Rattle.command_base.specs.Names.{names_seen};
ghost use Rattle.command_base.specs.Readings.{reading_update};
ghost use Rattle.command_base.specs.Replies.{answer_of, Meets};
ghost use Rattle.command_base.specs.Updates.{meaning_of};
ghost use Rattle.pack_command.specs.Packed.{IsPacked};

use crate::names::{PackKind, PackNames};
use crate::replies::pack_update;
use command_base::{Exit, Reply, UpdateFiles, read_update};
use file_access::Source;
use std::alloc::Global;

/// What is said of an update as the end of the command.
fn say_pack(alloc: Global, files: &UpdateFiles, kind: PackKind) -> Result<Reply, Exit>
    requires old { IsUserConfig files.now.net (rules_of_all files.now.old) }
    requires new { IsUserConfig files.now.net (rules_of_all files.now.new) }
    ensures said { IfOk result (λ r. IsPacked kind (meaning_of files.now) (answer_of r)) }
    ensures stops { IfErr result (λ e. e ≡ Exit.Memory) }
{
    Ok(pack_update(alloc, files, kind)?)
}

/// Plans an update in few rounds. The reply is Done and the text of the plan: the packed one, or where packing ends stuck that of the
/// one-by-one search; or that of two phases, where the other has more than twice as many rounds or there is no other. With the kind
/// `ordered` it is never that of two phases, with `two-phase` it always is. Otherwise the reply is Refused and the first break of an
/// end, or with `ordered` the rounds that were tried; too few tags or too small a table with the rounds that were tried; or a bad file's
/// line.
///
/// It packs once, makes evidence for the packed rounds where they may be written, and makes the plan of two phases where there is no
/// ordered one of at most twelve rounds. The one-by-one search runs only where packing ends stuck.
///
/// # Errors
///
/// The early end of a reading, or want of memory.
pub fn pack<S: Source>(alloc: Global, source: &mut S, names: &PackNames<'_>) -> Result<Reply, Exit>
    ensures meets { Meets (IsPacked names.now.kind) (S.held source.old)
        (reading_update (names_seen names.now.files))
        (S.faults source.old) (S.faults source.new) result (S.selected source.new)
        (S.taken source.new) }
    ensures held { S.held source.new ≡ S.held source.old }
    ensures later { S.faults source.old ≤ S.faults source.new }
{
    let files = read_update(alloc, source, &names.files)?;
    let reply = say_pack(alloc, &files, names.kind);
    drop(files);
    reply
}
