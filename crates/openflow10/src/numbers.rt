//! Big-endian numbers in messages.
ghost use Rattle.std.specs.Prelude.{◌≡◌, ◌+◌, ◌≤◌, ◌++◌, length, replicate, IfOk};
ghost use Rattle.openflow10.specs.Layout.{number_at, number_bytes};

use byteorder::{BigEndian, ByteOrder};
use net_base::Memory;

/// The byte at an offset.
#[tactic(auto, unfolding(crate::specs::Layout::number_at))]
pub fn u8_at(bytes: &[u8], offset: usize) -> u8
    requires { offset + 1 ≤ length bytes.now }
    ensures { result ≡ number_at offset 1 bytes.now }
{
    bytes[offset]
}

/// The number in the two bytes from an offset on.
pub fn u16_at(bytes: &[u8], offset: usize) -> u16
    requires { offset + 2 ≤ length bytes.now }
    ensures { result ≡ number_at offset 2 bytes.now }
{
    let from_offset = &bytes[offset..];
    BigEndian::read_u16(from_offset)
}

/// The number in the four bytes from an offset on.
pub fn u32_at(bytes: &[u8], offset: usize) -> u32
    requires { offset + 4 ≤ length bytes.now }
    ensures { result ≡ number_at offset 4 bytes.now }
{
    let from_offset = &bytes[offset..];
    BigEndian::read_u32(from_offset)
}

/// The number in the six bytes from an offset on.
pub fn u48_at(bytes: &[u8], offset: usize) -> u64
    requires { offset + 6 ≤ length bytes.now }
    ensures { result ≡ number_at offset 6 bytes.now }
{
    let from_offset = &bytes[offset..];
    BigEndian::read_u48(from_offset)
}

/// The number in the eight bytes from an offset on.
pub fn u64_at(bytes: &[u8], offset: usize) -> u64
    requires { offset + 8 ≤ length bytes.now }
    ensures { result ≡ number_at offset 8 bytes.now }
{
    let from_offset = &bytes[offset..];
    BigEndian::read_u64(from_offset)
}

/// Appends a byte.
#[tactic(auto, unfolding(crate::specs::Layout::number_bytes))]
pub(crate) fn push_u8(out: &mut Vec<u8>, value: u8) -> Result<(), Memory>
    ensures { IfOk result (λ _. out.new.items ≡ out.old.items ++ number_bytes 1 value) }
{
    out.push(value)?;
    Ok(())
}

/// Appends a number of two bytes.
#[tactic(auto, unfolding(crate::specs::Layout::number_bytes))]
pub(crate) fn push_u16(out: &mut Vec<u8>, value: u16) -> Result<(), Memory>
    ensures { IfOk result (λ _. out.new.items ≡ out.old.items ++ number_bytes 2 value) }
{
    let mut bytes = [0u8; 2];
    BigEndian::write_u16(&mut bytes, value);
    out.extend_from_slice(&bytes)?;
    Ok(())
}

/// Appends a number of four bytes.
#[tactic(auto, unfolding(crate::specs::Layout::number_bytes))]
pub(crate) fn push_u32(out: &mut Vec<u8>, value: u32) -> Result<(), Memory>
    ensures { IfOk result (λ _. out.new.items ≡ out.old.items ++ number_bytes 4 value) }
{
    let mut bytes = [0u8; 4];
    BigEndian::write_u32(&mut bytes, value);
    out.extend_from_slice(&bytes)?;
    Ok(())
}
