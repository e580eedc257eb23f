//! Port references.
ghost use Rattle.std.specs.Prelude.{◌≡◌, option_map};
ghost use Rattle.topology.specs.References as references;

use net_base::{cut_last, read_decimal};

const MOST: u64 = 99999;

/// The parts of a port reference round its last `:`: the name of a switch, and a decimal of at most five digits without
/// leading zero. Whether there is such a switch and such a port is not looked at.
#[tactic(auto, unfolding(crate::specs::References::reference_parts))]
pub fn reference_parts(text: &str) -> Option<(&str, u64)>
    ensures { option_map (λ p. (p.0.now, p.1)) result ≡ references.reference_parts text.now }
{
    let (name, number) = cut_last(text, ':')?;
    let number = read_decimal(number, MOST)?;
    Some((name, number))
}
