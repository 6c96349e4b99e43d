// Numbers of answers and labels.

ghost use Rattle.std.specs.Prelude.{◌≡◌, ◌+◌, ◌^◌, ◌<◌};

/// The number, counted from 1, of the item at the index.
pub(crate) fn number_at(index: usize) -> u64
    requires { index + 1 < 2 ^ 64 }
    ensures { result ≡ index + 1 }
{
    index as u64 + 1
}
