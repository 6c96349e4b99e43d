// Numbers as they are printed.

ghost use Rattle.std.specs.Prelude.{◌≡◌, ◌++◌, OnErr, OnOk, decimal};

use flex_model::{NoMemory, Text};
use itoa::Buffer;

/// Appends a number in decimal digits without leading zeros.
pub fn write_number(number: u64, into: &mut Text) -> Result<(), NoMemory>
    ensures ok { OnOk result (into.new ≡ into.old ++ decimal number) }
    ensures err { OnErr result (into.new ≡ into.old) }
{
    let mut buffer = Buffer::new();
    into.append(buffer.format(number))
}
