//! The words of `sample`.
ghost use Rattle.std.specs.Prelude.{◌≡◌, map, string_bytes, option_map};
ghost use Rattle.net_base.specs.Text.{decimal_in};
ghost use Rattle.sample_command.specs.Sizes as spelled;
ghost use Rattle.net_base.specs.Switches.{most_switches};

use net_base::{MAX_SWITCHES, read_decimal};
use ring_sample::RingSize;

const FEWEST: u64 = 4;

const MOST: u64 = MAX_SWITCHES as u64;

/// The number of switches that the word spells.
fn size_of(word: &str) -> Option<RingSize>
    ensures { option_map (λ s. s.switches) result
        ≡ spelled.from_four (decimal_in word.now most_switches) }
{
    let switches = read_decimal(word, MOST)?;
    if switches < FEWEST {
        return None;
    }
    Some(RingSize {
        switches: switches as u32,
    })
}

/// The number of switches in the words after `sample`, which are N, a decimal from 4 to 128; none in other words.
pub fn ring_size(words: &[String]) -> Option<RingSize>
    ensures { option_map (λ s. s.switches) result ≡ spelled.size_in (map string_bytes words.now) }
{
    match words {
        [word] => size_of(word.as_str()),
        _ => None,
    }
}
