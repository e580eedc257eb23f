//! Files of each kind, fetched whole.
ghost use Rattle.std.specs.Prelude.{◌≡◌, ◌≤◌, length, IfOk, IfErr, OnOk, Some, Option};
ghost use Rattle.file_access.specs.Outside.{IsFile};
ghost use Rattle.command_base.specs.Kinds.{limit_of};
ghost use Rattle.command_base.specs.Answers.{too_long};
ghost use Rattle.command_base.specs.Dialogues.{Ends, Reads, FileRead, file_read, IsWhole};
ghost use Rattle.command_base.specs.Replies.{answer_of, EndsEarly};

use crate::exit::Exit;
use crate::kinds::FileKind;
use crate::lines::too_long_line;
use crate::reply::Reply;
use crate::status::Status;
use file_access::{FetchFault, Source, fetch};
use net_base::Memory;
use std::alloc::Global;

fn too_long_reply(alloc: Global, kind: FileKind) -> Result<Reply, Memory>
    ensures { IfOk result (λ r. answer_of r ≡ too_long kind) }
{
    Ok(Reply {
        status: Status::BadFile,
        text: too_long_line(alloc, kind)?,
    })
}

/// The bytes of a file of the source, at most as many as its kind may have.
///
/// # Errors
///
/// `ReadFault` where the source failed or doesn't hold the file; `Says` the line on a file that is too long; `Memory`.
pub fn fetch_file<S: Source>(
    alloc: Global,
    source: &mut S,
    kind: FileKind,
    name: &str,
) -> Result<Vec<u8>, Exit>
    ensures file { IfOk result (λ v. IsFile (S.held source.old) name.now v.items) }
    ensures within { IfOk result (λ v. length v.items ≤ limit_of kind) }
    ensures whole { OnOk result
        (IsWhole (Some (file_read kind name.now)) (S.selected source.new) (S.taken source.new)) }
    ensures stops { IfErr result (λ e. (last : Option FileRead)
        → EndsEarly (S.held source.old) last (Reads kind name.now Ends) (S.faults source.old)
        (S.faults source.new) e (S.selected source.new) (S.taken source.new)) }
    ensures held { S.held source.new ≡ S.held source.old }
    ensures later { S.faults source.old ≤ S.faults source.new }
{
    match fetch(alloc, source, name, kind.limit()) {
        Ok(bytes) => Ok(bytes),
        Err(FetchFault::ReadFault) => Err(Exit::ReadFault),
        Err(FetchFault::Memory) => Err(Exit::Memory),
        Err(FetchFault::TooLong) => Err(Exit::Says(too_long_reply(alloc, kind)?)),
    }
}
