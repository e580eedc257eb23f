//! What stands at the front of bytes that came from a switch.
ghost use Rattle.std.specs.Prelude.{◌≡◌};
ghost use Rattle.switch_session.specs.Fronts.{front_of, is_wrong_length, is_wrong_version};

use crate::Cause;
use openflow10::{u8_at, u16_at};

/// How many bytes a header has (OpenFlow 1.0.0, section 5.1).
const HEADER_LENGTH: usize = 8;

/// The version of OpenFlow 1.0.
const VERSION: u8 = 1;

/// OFPT_HELLO.
pub(crate) const HELLO: u8 = 0;

/// OFPT_ERROR.
pub(crate) const ERROR: u8 = 1;

/// OFPT_ECHO_REQUEST.
pub(crate) const ECHO_REQUEST: u8 = 2;

/// OFPT_ECHO_REPLY.
pub(crate) const ECHO_REPLY: u8 = 3;

/// OFPT_BARRIER_REPLY.
pub(crate) const BARRIER_REPLY: u8 = 19;

/// What stands at the front of bytes.
#[derive(Clone, Copy, Debug, PartialEq, Eq)]
pub enum Front {
    /// Fewer bytes than a header has, or than the header says.
    Short,
    /// A header that ends the session.
    Fault(Cause),
    /// A whole message, of so many bytes.
    Message(usize),
}

/// Whether a message of the type may not have the version: 1, or in a HELLO any but 0.
fn is_wrong_version(version: u8, kind: u8) -> bool
    ensures { result ≡ is_wrong_version version kind }
{
    version == 0 || version != VERSION && kind != HELLO
}

/// Whether a message of the type may not have the length.
fn is_wrong_length(kind: u8, length: u16) -> bool
    ensures { result ≡ is_wrong_length kind length }
{
    length < 8 || kind == BARRIER_REPLY && length != 8 || kind == ERROR && length < 12
}

/// What stands at the front of the bytes. Looks at 4 bytes at most.
#[tactic(auto, unfolding(crate::specs::Fronts::front_of))]
pub(crate) fn front_of(bytes: &[u8]) -> Front
    ensures { result ≡ front_of bytes.now }
{
    if bytes.len() < HEADER_LENGTH {
        return Front::Short;
    }
    let kind = u8_at(bytes, 1);
    if is_wrong_version(u8_at(bytes, 0), kind) {
        return Front::Fault(Cause::Version);
    }
    let length = u16_at(bytes, 2);
    if is_wrong_length(kind, length) {
        return Front::Fault(Cause::Length);
    }
    let length = usize::from(length);
    if bytes.len() < length {
        return Front::Short;
    }
    Front::Message(length)
}
