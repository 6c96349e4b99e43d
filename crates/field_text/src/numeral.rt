// The parts of a decimal numeral.

ghost use Rattle.std.specs.Prelude.{◌≡◌, ◌+◌, ◌≤◌, ℤ, nat_le, false, if◌then◌else◌, None};
ghost use Rattle.std.specs.Prelude.{[], length, position};
ghost use Rattle.field_text.specs.Numerals;
ghost use Rattle.field_text.specs.Grammars.{degree_within, is_exponent_mark, is_minus, unsigned};

use crate::parts::{split_at, split_at_byte};

// A numeral in parts: its sign, the digits before the point and after it, and the sign and the
// digits of its exponent. Whether these are digits is not yet known.
#[derive(Clone, Copy)]
pub(crate) struct Numeral<'a> {
    pub(crate) is_negative: bool,
    pub(crate) whole: &'a [u8],
    pub(crate) fraction: &'a [u8],
    pub(crate) has_exponent: bool,
    pub(crate) is_small: bool,
    pub(crate) exponent: &'a [u8],
}

// The index of the mark of an exponent.
fn index_of_mark(text: &[u8]) -> Option<usize>
    ensures { result ≡ position is_exponent_mark text.now }
{
    text.iter().position(|byte| *byte == b'e' || *byte == b'E')
}

// Whether a text begins with a minus, and the text without one sign at its start.
fn split_sign(text: &[u8]) -> (bool, &[u8])
    ensures minus { result.0 ≡ is_minus text.now }
    ensures rest { result.1.now ≡ unsigned text.now }
{
    match text {
        [b'-', rest @ ..] => (true, rest),
        [b'+', rest @ ..] => (false, rest),
        _ => (false, text),
    }
}

// The parts of a text, which may be no numeral.
pub(crate) fn numeral_of(text: &[u8]) -> Numeral<'_>
    ensures degree { (greatest : ℤ) → degree_within greatest text.now ≡
        (if nat_le (length text.now) 64 then Numerals.degree_of_numeral greatest result else None) }
    ensures short { length result.whole.now + length result.fraction.now ≤ length text.now }
    ensures given { result.has_exponent ≡ false → result.exponent.now ≡ [] }
{
    let mark = index_of_mark(text);
    let (numeral, exponent) = split_at(text, mark);
    let (is_negative, mantissa) = split_sign(numeral);
    let (whole, fraction) = split_at_byte(mantissa, b'.');
    let (is_small, exponent) = split_sign(exponent);
    Numeral {
        is_negative,
        whole,
        fraction,
        has_exponent: mark.is_some(),
        is_small,
        exponent,
    }
}
