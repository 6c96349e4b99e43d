// Texts of ASCII bytes.

ghost use Rattle.std.specs.Prelude.{◌≡◌, IsAscii};

use std::str;

// The text of ASCII bytes.
pub(crate) fn ascii_text(bytes: &[u8]) -> &str
    requires { IsAscii bytes.now }
    ensures { result.now ≡ bytes.now }
{
    str::from_utf8(bytes).unwrap()
}
