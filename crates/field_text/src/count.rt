// Counts: digits, and nothing else.

ghost use Rattle.std.specs.Prelude.{◌≡◌};
ghost use Rattle.std.specs.Result.{result_ok};
ghost use Rattle.field_text.specs.Grammars.{count};

use crate::digits::digits_within;

/// A text that is no count, or one of too great a number.
#[derive(Clone, Copy, Debug, PartialEq, Eq)]
pub struct BadNumber;

/// Reads a count: one to twenty digits, leading zeros allowed, of a number up to the greatest.
/// Every other text is a `BadNumber`.
pub fn read_count(text: &str, greatest: u64) -> Result<u64, BadNumber>
    ensures { result_ok result ≡ count greatest text.now }
{
    digits_within(text.as_bytes(), 1, 20, greatest).ok_or(BadNumber)
}
