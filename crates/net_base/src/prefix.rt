//! Address prefixes.
ghost use Rattle.std.specs.Prelude.{◌≡◌, ◌≢◌, ◌<◌, ◌≤◌, ◌^◌, ◌%◌, ◌-◌, ℕ, IfSome, IfOk, OnErr};
ghost use Rattle.std.specs.Result.{result_ok};
ghost use Rattle.net_base.specs.Blocks.{in_block, Block, IsBlock};
ghost use Rattle.net_base.specs.Text as texts;

use crate::text::{cut_first, read_decimal};
use std::marker::Model;

/// A destination prefix: the addresses that share its first `len` bits. The bits of `base` below its length are zero.
#[derive(Clone, Copy, Debug, PartialEq, Eq, PartialOrd, Ord, Hash)]
pub struct Prefix {
    /// The first address, as a number.
    pub base: u32,
    /// How many leading bits count, 0 to 32.
    pub len: u8,
}

impl Model for Prefix {
    ghost use Rattle.net_base.specs.Blocks.{Block, IsBlock};

    ghost Value = { Block };

    ghost view = { λ p. record { base = p.base; len = p.len } };

    ghost invariant = { λ p. IsBlock (record { base = p.base; len = p.len }) };

    ghost inverse = { λ b. record { base = b.base; len = b.len } };
}

impl Prefix {
    /// Whether the prefix has the address.
    pub fn has(&self, address: u32) -> bool
        ensures { result ≡ in_block self.now address }
    {
        let base = self.base as u64;
        let size = 1u64 << (32 - self.len);
        base <= address as u64 && (address as u64) < base + size
    }
}

/// The text is no prefix.
#[derive(Clone, Copy, Debug, PartialEq, Eq)]
pub struct BadPrefix;

fn read_byte(text: &str) -> Option<u32>
    ensures value { result ≡ texts.decimal_in text.now 255 }
    ensures small { IfSome result (λ n. n ≤ 255) }
{
    match read_decimal(text, 255) {
        Some(n) => Some(n as u32),
        None => None,
    }
}

/// The address that the text spells: four decimals from 0 to 255, joined by `.`.
#[tactic(auto, unfolding(crate::specs::Text::address_in))]
pub fn read_address(text: &str) -> Option<u32>
    ensures { result ≡ texts.address_in text.now }
{
    let (w, rest) = cut_first(text, '.')?;
    let (x, rest) = cut_first(rest, '.')?;
    let (y, z) = cut_first(rest, '.')?;
    let w = read_byte(w)?;
    let x = read_byte(x)?;
    let y = read_byte(y)?;
    let z = read_byte(z)?;
    Some(((w * 256 + x) * 256 + y) * 256 + z)
}

fn is_based(base: u32, len: u8) -> bool
    requires { len ≤ 32 }
    ensures { result ≡ texts.is_based base len }
{
    u64::from(base) % (1u64 << (32 - len)) == 0
}

#[tactic(auto, unfolding(crate::specs::Text::prefix_in))]
fn prefix_of(text: &str) -> Option<Prefix>
    ensures { result ≡ texts.prefix_in text.now }
{
    let (address, len) = cut_first(text, '/')?;
    let base = read_address(address)?;
    let len = read_decimal(len, 32)? as u8;
    if !is_based(base, len) {
        return None;
    }
    Some(Prefix { base, len })
}

/// The prefix that the text spells: an address, `/` and a length from 0 to 32, without leading zeros.
pub fn read_prefix(text: &str) -> Result<Prefix, BadPrefix>
    ensures value { result_ok result ≡ texts.prefix_in text.now }
    // It is the one spelling of the prefix.
    ensures spelled { IfOk result (λ p. text.now ≡ texts.prefix_text p) }
    ensures refused { OnErr result ((block : Block) → IsBlock block
        → text.now ≢ texts.prefix_text block) }
{
    prefix_of(text).ok_or(BadPrefix)
}
