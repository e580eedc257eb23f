//! Why a session failed, in words.
ghost use Rattle.std.specs.Prelude.{◌≡◌, IfOk};
ghost use Rattle.switch_session.specs.Causes as causes;

use crate::Cause;
use net_base::Memory;
use std::alloc::Global;

/// A cause by its name, and behind it the numbers that the switch sent, in decimal: `Length`, `Error 3 0`, `Xid 7`.
pub fn cause_text(alloc: Global, cause: Cause) -> Result<Vec<u8>, Memory>
    ensures { IfOk result (λ t. t.items ≡ causes.cause_text cause) }
{
    match cause {
        Cause::Length => Ok(b"Length".to_vec(alloc)?),
        Cause::Version => Ok(b"Version".to_vec(alloc)?),
        Cause::NoHello => Ok(b"NoHello".to_vec(alloc)?),
        Cause::Error(kind, code) => Ok(format!(in alloc; "Error {kind} {code}")?.into_bytes()),
        Cause::Xid(xid) => Ok(format!(in alloc; "Xid {xid}")?.into_bytes()),
    }
}
