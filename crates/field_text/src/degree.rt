// Degrees, read exactly and cut towards zero.

ghost use Rattle.std.specs.Prelude.{◌≡◌, ◌==◌, ◌+◌, ◌-◌, ◌*◌, ◌^◌, ◌<◌, ◌≤◌, ◌-ℤ◌, ◌+ℤ◌, ◌≤ℤ◌, pos};
ghost use Rattle.std.specs.Prelude.{unsigned_abs, nat_le, false, not, ◌&&◌, ◌||◌, if◌then◌else◌};
ghost use Rattle.std.specs.Prelude.{[], ◌++◌, length, position, take, IfOk, IfSome};
ghost use Rattle.std.specs.Result.{result_ok};
ghost use Rattle.field_text.specs.Numerals;
ghost use Rattle.field_text.specs.Grammars.{degree_within, has_digits, is_exponent_mark, is_minus};
ghost use Rattle.field_text.specs.Grammars.{number, scaled, signed, some_if, unsigned};

use crate::digits::{digits_within, is_digits, number_after, with_zeros};
use crate::numeral::{Numeral, numeral_of};
use flex_model::limits::MOST_DEGREE_BYTES;

/// A text that is no degree, or one whose size is past the greatest.
#[derive(Clone, Copy, Debug, PartialEq, Eq)]
pub struct BadCoordinate;

// How many decimals of a degree are kept.
const DECIMALS: usize = 15;

// The size of an exponent, which is 0 where none is given.
fn exponent_size(is_given: bool, digits: &[u8]) -> Option<u64>
    requires { is_given ≡ false → digits.now ≡ [] }
    ensures value { result
        ≡ some_if (not is_given || has_digits 1 4 digits.now) (number digits.now) }
    ensures bound { IfSome result (λ size. size ≤ 9999) }
{
    if is_given {
        digits_within(digits, 1, 4, 9999)
    } else {
        Some(0)
    }
}

// How many digits of a numeral count, from its first on, where those past its end are zeros: those
// before the point, moved by the exponent, and the decimals after it.
fn kept_digits(whole_len: usize, is_small: bool, exponent: u64) -> usize
    requires whole { whole_len ≤ 64 }
    requires exponent { exponent ≤ 9999 }
    ensures { result ≡ (if is_small then whole_len + 15 - exponent else whole_len + 15 + exponent) }
{
    let digits = whole_len + DECIMALS;
    let exponent = exponent as usize;
    if is_small {
        digits.saturating_sub(exponent)
    } else {
        digits + exponent
    }
}

// The number of the digits that count, up to the greatest.
fn number_of_kept(whole: &[u8], fraction: &[u8], kept: usize, greatest: u64) -> Option<u64>
    requires kept { kept < 2 ^ 32 }
    requires whole { length whole.now ≤ 64 }
    requires fraction { length fraction.now ≤ 64 }
    ensures { let digits = whole.now ++ fraction.now in
        let size = number (take kept digits) * 10 ^ (kept - length digits) in
        result ≡ some_if (nat_le size greatest) size }
{
    let of_whole = kept.min(whole.len());
    let of_fraction = (kept - of_whole).min(fraction.len());
    let zeros = kept - of_whole - of_fraction;
    let number = number_after(0, &whole[..of_whole], greatest)?;
    let number = number_after(number, &fraction[..of_fraction], greatest)?;
    with_zeros(number, zeros as u32, greatest)
}

// The size of a numeral in units of 10^-15 degree, cut, up to the greatest.
fn size_of(
    whole: &[u8],
    fraction: &[u8],
    is_small: bool,
    exponent: u64,
    greatest: u64,
) -> Option<u64>
    requires exponent { exponent ≤ 9999 }
    requires short { length whole.now + length fraction.now ≤ 64 }
    ensures { let digits = whole.now ++ fraction.now in
        let power = (signed is_small exponent -ℤ pos (length fraction.now)) +ℤ pos 15 in
        let size = scaled (number digits) power in
        result ≡ some_if (has_digits 1 64 digits && nat_le size greatest) size }
{
    if !is_digits(whole) || !is_digits(fraction) || whole.len() + fraction.len() == 0 {
        return None;
    }
    let kept = kept_digits(whole.len(), is_small, exponent);
    number_of_kept(whole, fraction, kept, greatest)
}

// A size with its sign.
fn with_sign(is_negative: bool, size: u64) -> i64
    requires { size < 2 ^ 63 }
    ensures { result ≡ signed is_negative size }
{
    let size = size as i64;
    if is_negative { -size } else { size }
}

// The degree of a numeral, whose size is at most the greatest.
fn degree_of_numeral(numeral: &Numeral<'_>, greatest: u64) -> Option<i64>
    requires greatest { greatest < 2 ^ 63 }
    requires short { length numeral.now.whole.now + length numeral.now.fraction.now ≤ 64 }
    requires given { numeral.now.has_exponent ≡ false → numeral.now.exponent.now ≡ [] }
    ensures { result ≡ Numerals.degree_of_numeral (pos greatest) numeral.now }
{
    let exponent = exponent_size(numeral.has_exponent, numeral.exponent)?;
    let size = size_of(
        numeral.whole,
        numeral.fraction,
        numeral.is_small,
        exponent,
        greatest,
    )?;
    Some(with_sign(numeral.is_negative, size))
}

// The degree of a text, whose size is at most the greatest.
fn degree_of(text: &[u8], greatest: u64) -> Option<i64>
    requires { greatest < 2 ^ 63 }
    ensures { result ≡ degree_within (pos greatest) text.now }
{
    if text.len() > MOST_DEGREE_BYTES {
        return None;
    }
    degree_of_numeral(&numeral_of(text), greatest)
}

/// Reads a degree in units of 10^-15 degree, cut towards zero, whose size is at most the greatest
/// in the same unit: with the greatest value 180 degrees, that is 180,000,000,000,000,000. The text
/// has at most 64 bytes: an optional sign, digits with or without a point among, before or after
/// them, and maybe `e` or `E` with an exponent of one to four digits and an optional sign. Every
/// other text, and every text where the greatest is negative, is a `BadCoordinate`.
pub fn read_degree(text: &str, greatest: i64) -> Result<i64, BadCoordinate>
    ensures value { result_ok result ≡ degree_within greatest text.now }
    ensures bound { IfOk result (λ degree. pos (unsigned_abs degree) ≤ℤ greatest) }
{
    let Ok(greatest) = u64::try_from(greatest) else {
        return Err(BadCoordinate);
    };
    degree_of(text.as_bytes(), greatest).ok_or(BadCoordinate)
}
