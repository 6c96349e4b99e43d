// The bytes that the grammar of JSON names.

ghost use Rattle.std.specs.Prelude.{◌≡◌};
ghost use Rattle.json_text.specs.Byte;

/// A space, a tab, a line feed or a carriage return.
pub fn is_white(byte: u8) -> bool
    ensures { result ≡ Byte.is_white byte }
{
    byte == b' ' || byte == b'\t' || byte == b'\n' || byte == b'\r'
}

pub fn is_digit(byte: u8) -> bool
    ensures { result ≡ Byte.is_digit byte }
{
    b'0' <= byte && byte <= b'9'
}

/// A digit other than 0.
pub fn is_first_digit(byte: u8) -> bool
    ensures { result ≡ Byte.is_first_digit byte }
{
    b'1' <= byte && byte <= b'9'
}

pub fn is_hex_digit(byte: u8) -> bool
    ensures { result ≡ Byte.is_hex_digit byte }
{
    is_digit(byte) || (b'A' <= byte && byte <= b'F') || (b'a' <= byte && byte <= b'f')
}

/// Begins the exponent of a number.
pub fn is_exponent(byte: u8) -> bool
    ensures { result ≡ Byte.is_exponent byte }
{
    byte == b'e' || byte == b'E'
}

/// Stands for itself in a string.
pub fn is_plain(byte: u8) -> bool
    ensures { result ≡ Byte.is_plain byte }
{
    byte != b'"' && byte != b'\\' && b' ' <= byte
}

/// Stands for a character after a backslash.
pub fn is_escape(byte: u8) -> bool
    ensures { result ≡ Byte.is_escape byte }
{
    byte == b'"'
        || byte == b'\\'
        || byte == b'/'
        || byte == b'b'
        || byte == b'f'
        || byte == b'n'
        || byte == b'r'
        || byte == b't'
}
