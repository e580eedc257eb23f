//! Decimals, and the parts of a text round a character.
ghost use Rattle.std.specs.Prelude.{◌≡◌, ◌≢◌, ◌<◌, ◌≤◌, ◌^◌, ℕ, option_map, IfSome, IfNone, decimal};
ghost use Rattle.std.specs.Char.{is_ascii_digit};
ghost use Rattle.std.specs.List.{list_all};
ghost use Rattle.net_base.specs.Text as texts;
ghost use Rattle.net_base.specs.Reading as places;

fn is_digits(text: &str) -> bool
    ensures { result ≡ list_all is_ascii_digit text.now }
{
    text.as_bytes().iter().all(u8::is_ascii_digit)
}

/// Whether the text is digits, with no 0 before another.
fn is_decimal(text: &str) -> bool
    ensures { result ≡ texts.is_decimal text.now }
{
    !text.is_empty() && is_digits(text) && (text.len() == 1 || text.as_bytes()[0] != b'0')
}

fn decimal_of(text: &str, most: u64) -> Option<u64>
    ensures { result ≡ texts.decimal_in text.now most }
{
    if !is_decimal(text) {
        return None;
    }
    match text.parse::<u64>() {
        Ok(n) if n <= most => Some(n),
        _ => None,
    }
}

/// The number that the text spells, where that is at most `most`: at least one decimal digit (`0` to `9`), no sign, no space,
/// and no leading zero but in `0` itself. None says that the text spells no such number.
pub fn read_decimal(text: &str, most: u64) -> Option<u64>
    ensures value { result ≡ texts.decimal_in text.now most }
    // It is the one spelling of the number.
    ensures some { IfSome result (λ n. (text.now ≡ decimal n) × (n ≤ most)) }
    ensures none { IfNone result ((n : ℕ) → n ≤ most → text.now ≢ decimal n) }
{
    decimal_of(text, most)
}

/// The parts round the first such character.
pub fn cut_first(text: &str, at: char) -> Option<(&str, &str)>
    requires { at < 128 }
    ensures { option_map (λ p. (p.0.now, p.1.now)) result ≡ texts.cut_first at text.now }
{
    text.split_once(at)
}

/// The parts round the last such character.
pub fn cut_last(text: &str, at: char) -> Option<(&str, &str)>
    requires { at < 128 }
    ensures { option_map (λ p. (p.0.now, p.1.now)) result ≡ texts.cut_last at text.now }
{
    text.rsplit_once(at)
}

/// The place of an item in a list.
pub fn place_of(i: usize) -> u32
    ensures { result ≡ places.place_of i }
{
    i.min(u32::MAX as usize) as u32
}
