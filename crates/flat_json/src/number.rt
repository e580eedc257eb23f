//! The numbers of a text.
ghost use Rattle.std.specs.Prelude.{◌≡◌, ◌==◌, ◌<◌, ℕ, List, false, true, option_map, length, slice_index, IsTrue};
ghost use Rattle.fast_float.specs.Text.{scan};
ghost use Rattle.serde_json.specs.Read.{number_of, number_from, float_of};
ghost use Rattle.serde_json.specs.Data.{Data, number};
ghost use Rattle.flat_json.specs.Nodes.{meaning, is_within};
ghost use Rattle.flat_json.specs.Numbers.{num_of};

use crate::node::Node;
use fast_float::Numeral;

/// A number: whole and below 2 ^ 64, whole and below 0, or another that is finite.
#[derive(Clone, Copy, Drop)]
pub(crate) enum Number {
    Whole(u64),
    Negative(i64),
    Float(f64),
}

/// The node of a number.
pub(crate) fn node_of(n: Number) -> Node
    ensures means { (texts : List (List ℕ)) → (before : List Data)
        → meaning texts before result ≡ number (num_of n) }
    ensures within { is_within 0 0 result ≡ true }
{
    match n {
        Number::Whole(n) => Node::Whole(n),
        Number::Negative(n) => Node::Negative(n),
        Number::Float(x) => Node::Float(x),
    }
}

/// The number of this text.
pub(crate) fn read_number(text: &str) -> Option<Number>
    ensures { option_map num_of result ≡ number_of text.now }
{
    let bytes = text.as_bytes();
    if has_minus(bytes) {
        below_zero(&bytes[1..])
    } else {
        from_zero(bytes)
    }
}

fn has_minus(bytes: &[u8]) -> bool
    ensures value { result ≡ (slice_index bytes.now 0 == 45) }
    ensures len { IsTrue result → 0 < length bytes.now }
{
    !bytes.is_empty() && bytes[0] == b'-'
}

fn from_zero(bytes: &[u8]) -> Option<Number>
    ensures { option_map num_of result ≡ number_from false (scan bytes.now) }
{
    match Numeral::scan(bytes).to_u64() {
        Some(n) => Some(Number::Whole(n)),
        None => nearest(false, bytes),
    }
}

fn below_zero(bytes: &[u8]) -> Option<Number>
    ensures { option_map num_of result ≡ number_from true (scan bytes.now) }
{
    if let Some(n) = Numeral::scan(bytes).to_i64(true) {
        if n < 0 {
            return Some(Number::Negative(n));
        }
    }
    nearest(true, bytes)
}

/// The nearest float, where it is finite.
#[cold]
#[inline(never)]
fn nearest(negative: bool, bytes: &[u8]) -> Option<Number>
    ensures { option_map num_of result ≡ float_of negative (scan bytes.now) }
{
    let x = Numeral::scan(bytes).to_float::<f64>(negative);
    if x.is_finite() {
        Some(Number::Float(x))
    } else {
        None
    }
}
