//! Lines on a switch.
ghost use Rattle.std.specs.Prelude.{◌≡◌, IfOk};
ghost use Rattle.switch_session.specs.Lines as lines;

use crate::Cause;
use crate::causes::cause_text;
use hex::encode;
use net_base::Memory;
use std::alloc::Global;

/// The line on bytes that were sent to a switch of this name: a word with the space behind it, the name, and the bytes in
/// hexadecimal digits.
pub fn bytes_line(alloc: Global, word: &str, name: &str, bytes: &[u8]) -> Result<Vec<u8>, Memory>
    ensures { IfOk result (λ t. t.items ≡ lines.bytes_line word.now name.now bytes.now) }
{
    let digits = encode(alloc, bytes)?;
    let mut text = format!(in alloc; "{word}{name} ")?.into_bytes();
    text.extend_from_slice(digits.as_bytes())?;
    Ok(text)
}

/// The line on a session that failed, with a switch of this name: a word with the space behind it, the name, and the cause.
pub fn cause_line(alloc: Global, word: &str, name: &str, cause: Cause) -> Result<Vec<u8>, Memory>
    ensures { IfOk result (λ t. t.items ≡ lines.cause_line word.now name.now cause) }
{
    let mut text = format!(in alloc; "{word}{name} ")?.into_bytes();
    text.extend_from_slice(&cause_text(alloc, cause)?)?;
    Ok(text)
}
