// Numbers of decimal digits, up to a greatest one.

ghost use Rattle.std.specs.Prelude.{◌≡◌, ◌*◌, ◌^◌, nat_le};
ghost use Rattle.std.specs.Char.{is_ascii_digit};
ghost use Rattle.std.specs.List.{list_all};
ghost use Rattle.field_text.specs.Grammars;

// Whether a text has digits alone.
pub(crate) fn is_digits(text: &[u8]) -> bool
    ensures { result ≡ list_all is_ascii_digit text.now }
{
    text.iter().all(|byte| byte.is_ascii_digit())
}

// Whether a text has so many digits, and nothing else.
pub(crate) fn has_digits(text: &[u8], fewest: usize, most: usize) -> bool
    ensures { result ≡ Grammars.has_digits fewest most text.now }
{
    is_digits(text) && fewest <= text.len() && text.len() <= most
}

// The number that digits write after those of another number, up to the greatest.
pub(crate) fn number_after(before: u64, digits: &[u8], greatest: u64) -> Option<u64>
    ensures { let number = Grammars.number_after before digits.now in
        result ≡ Grammars.some_if (nat_le number greatest) number }
{
    let mut number = before;
    for digit in digits {
        // a number past 64 bits is past the greatest, and further digits only add to it
        let value = digit.saturating_sub(b'0');
        number = number.checked_mul(10)?.checked_add(u64::from(value))?;
    }
    if number <= greatest {
        Some(number)
    } else {
        None
    }
}

// A number with so many zeros after it, up to the greatest.
pub(crate) fn with_zeros(number: u64, zeros: u32, greatest: u64) -> Option<u64>
    ensures { let product = number * 10 ^ zeros in
        result ≡ Grammars.some_if (nat_le product greatest) product }
{
    if number == 0 {
        return Some(0);
    }
    let product = 10u64.checked_pow(zeros)?.checked_mul(number)?;
    if product <= greatest {
        Some(product)
    } else {
        None
    }
}

// The number that a text of so many digits writes, up to the greatest.
pub(crate) fn digits_within(text: &[u8], fewest: usize, most: usize, greatest: u64) -> Option<u64>
    ensures { result ≡ Grammars.digits_within fewest most greatest text.now }
{
    if has_digits(text, fewest, most) {
        number_after(0, text, greatest)
    } else {
        None
    }
}
