//! How addresses, prefixes and VLANs are written.
ghost use Rattle.std.specs.Prelude.{◌≡◌, IfOk, string_bytes};
ghost use Rattle.net_base.specs.Text as texts;

use crate::{Memory, Prefix, Vlan};
use std::alloc::Global;

/// The text of an address: four decimals joined by `.`.
pub fn addr_text(alloc: Global, a: u32) -> Result<Vec<u8>, Memory>
    ensures { IfOk result (λ t. t.items ≡ texts.address_text a) }
{
    let w = a >> 24;
    let x = (a >> 16) % 256;
    let y = (a >> 8) % 256;
    let z = a % 256;
    Ok(format!(in alloc; "{w}.{x}.{y}.{z}")?.into_bytes())
}

/// The text of a prefix: its first address, `/` and its length.
pub fn prefix_string(alloc: Global, p: Prefix) -> Result<String, Memory>
    ensures { IfOk result (λ s. string_bytes s ≡ texts.prefix_text p) }
{
    let w = p.base >> 24;
    let x = (p.base >> 16) % 256;
    let y = (p.base >> 8) % 256;
    let z = p.base % 256;
    let len = p.len;
    Ok(format!(in alloc; "{w}.{x}.{y}.{z}/{len}")?)
}

/// The bytes of the text of a prefix.
pub fn prefix_text(alloc: Global, p: Prefix) -> Result<Vec<u8>, Memory>
    ensures { IfOk result (λ t. t.items ≡ texts.prefix_text p) }
{
    Ok(prefix_string(alloc, p)?.into_bytes())
}

/// The text of a VLAN: `untagged`, or its id.
pub fn vlan_text(alloc: Global, v: Vlan) -> Result<Vec<u8>, Memory>
    ensures { IfOk result (λ t. t.items ≡ texts.vlan_text v) }
{
    match v {
        Vlan::Untagged => Ok(b"untagged".to_vec(alloc)?),
        Vlan::Id(id) => Ok(format!(in alloc; "{id}")?.into_bytes()),
    }
}
