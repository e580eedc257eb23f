//! Whole files in, whole texts out.
ghost use Rattle.std.specs.Prelude.{◌≡◌, ◌⊎◌, ◌↔◌, ◌+◌, ◌^◌, ◌<◌, ◌≤◌, length, IsOk, IfOk, OnOk, OnErr, IsErrOf};
ghost use Rattle.std.specs.Io.KnownBytes.{Appends};
ghost use Rattle.file_access.specs.declared.transfer.FetchFault.TheVariants.{Memory};
ghost use Rattle.file_access.specs.Causes.{Rose};
ghost use Rattle.file_access.specs.Outside.{IsMissing, IsFile, IsLonger, AppendsFront};

use crate::{Failed, Sink, Source};
use std::alloc::{AllocError, Global};

const PIECE: usize = 4096;

/// Why a file isn't there whole.
#[derive(Clone, Copy, Debug, PartialEq, Eq)]
pub enum FetchFault {
    /// The source holds no file of the name, or failed at the select or at a take.
    ReadFault,
    /// The file has more bytes than the limit.
    TooLong,
    /// Memory was wanting for its bytes.
    Memory,
}

impl From<AllocError> for FetchFault {
    ghost from_gives = { λ _ e. e ≡ Memory };

    fn from(_: AllocError) -> Self {
        FetchFault::Memory
    }
}

/// The sink failed before all was written: what it has taken by then is a front of the bytes.
#[derive(Clone, Copy, Debug, PartialEq, Eq)]
pub struct WriteFault;

/// The bytes of the file of this name, whole: at most `limit` of them, from its beginning to its end.
///
/// It selects the file, and takes its bytes in pieces until the end, or until it has one byte more than the limit. So it
/// takes at most `limit + 1` bytes, however long the file is. After `Ok` and `TooLong` the file is the one that the source
/// has selected last. What the source holds stays the same.
///
/// The cause of an error is the `FetchFault`.
pub fn fetch<S: Source>(
    alloc: Global,
    src: &mut S,
    name: &str,
    limit: u64,
) -> Result<Vec<u8>, FetchFault>
    requires { limit < 2 ^ 63 }

    ensures whole { IfOk result (λ v. IsFile (S.held src.old) name.now v.items) }
    ensures count { IfOk result (λ v. length v.items ≡ S.taken src.new) }
    ensures within { IfOk result (λ v. length v.items ≤ limit) }

    ensures read_fault { IsErrOf result FetchFault.ReadFault
        → Rose (S.faults src.old) (S.faults src.new) ⊎ IsMissing (S.held src.old) name.now }
    ensures too_long { IsErrOf result FetchFault.TooLong ↔ (S.taken src.new ≡ limit + 1) }
    ensures longer { IsErrOf result FetchFault.TooLong → IsLonger (S.held src.old) name.now limit }

    // No more than one byte past the limit is taken.
    ensures at_most { S.taken src.new ≤ limit + 1 }
    ensures selected { IsOk result ⊎ IsErrOf result FetchFault.TooLong
        → S.selected src.new ≡ name.now }
    ensures held { S.held src.new ≡ S.held src.old }
    ensures later { S.faults src.old ≤ S.faults src.new }
{
    if src.select(name).is_err() {
        return Err(FetchFault::ReadFault);
    }
    let mut bytes = Vec::new(alloc);
    let mut piece = [0u8; PIECE];
    let mut room = limit + 1;
    'takes: loop {
        let most = room.min(PIECE as u64) as usize;
        match src.take(&mut piece[..most]) {
            Err(Failed) => return Err(FetchFault::ReadFault),
            Ok(0) => return Ok(bytes),
            Ok(count) => {
                if count as u64 == room {
                    return Err(FetchFault::TooLong);
                }
                bytes.extend_from_slice(&piece[..count])?;
                room -= count as u64;
            }
        }
    }
}

/// Writes all of the bytes to the sink, in their order, in as many puts as it takes; none where there are no bytes.
///
/// The first put that fails ends it by a `WriteFault`; a front of the bytes, maybe an empty one, is then written.
pub fn pour<K: Sink>(sink: &mut K, bytes: &[u8]) -> Result<(), WriteFault>
    ensures all { OnOk result (Appends (K.written sink.old) (K.written sink.new) bytes.now) }
    ensures front { OnErr result (AppendsFront (K.written sink.old) (K.written sink.new)
        bytes.now) }
    ensures cause { OnErr result (Rose (K.faults sink.old) (K.faults sink.new)) }
    ensures later { K.faults sink.old ≤ K.faults sink.new }
{
    let mut rest = bytes;
    'puts: while !rest.is_empty() {
        match sink.put(rest) {
            Ok(count) => rest = &rest[count..],
            Err(Failed) => return Err(WriteFault),
        }
    }
    Ok(())
}
