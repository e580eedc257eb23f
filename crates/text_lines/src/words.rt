//! What the words of a line spell.
ghost use Rattle.std.specs.Prelude.{◌≡◌, IfOk, option_map};
ghost use Rattle.text_lines.specs.Words as spelled;

use hex::FromHexError;
use net_base::{MAX_VLAN, Memory, Vlan, read_decimal};
use std::alloc::Global;

/// The bytes that pairs of hexadecimal digits of either case spell, at least one pair; none where the text isn't such pairs. The
/// cost is that of one pass over the text.
pub fn read_digits(alloc: Global, digits: &str) -> Result<Option<Vec<u8>>, Memory>
    ensures { IfOk result
        (λ bytes. option_map (λ v. v.items) bytes ≡ spelled.bytes_in digits.now) }
{
    if digits.is_empty() {
        return Ok(None);
    }
    match hex::decode(alloc, digits) {
        Ok(bytes) => Ok(Some(bytes)),
        Err(FromHexError::OutOfMemory) => Err(Memory),
        Err(_) => Ok(None),
    }
}

/// The id of a VLAN.
#[tactic(auto, unfolding(crate::specs::Words::id_in))]
fn read_id(text: &str) -> Option<Vlan>
    ensures { result ≡ spelled.id_in text.now }
{
    let id = read_decimal(text, MAX_VLAN)?;
    if id < 1 {
        return None;
    }
    Some(Vlan::Id(id as u16))
}

/// The VLAN that a text spells: `untagged`, or an id from 1 to 4094 in decimal digits; none in other texts.
pub fn read_vlan(text: &str) -> Option<Vlan>
    ensures { result ≡ spelled.vlan_in text.now }
{
    if text == "untagged" {
        return Some(Vlan::Untagged);
    }
    read_id(text)
}
