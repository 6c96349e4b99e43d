// A text before and after a byte of it.

ghost use Rattle.std.specs.Prelude.{◌≡◌, ◌==◌, ◌+◌, ◌<◌, length, position, unwrap_or, take, drop};
ghost use Rattle.std.specs.List.{after_first, before_first};
ghost use Rattle.std.specs.Option.{ForSome};

// The index of the first such byte.
fn index_of(text: &[u8], byte: u8) -> Option<usize>
    ensures { result ≡ position (λ b. b == byte) text.now }
{
    text.iter().position(|b| *b == byte)
}

// What stands before an index and after it, or all and nothing where there is no index.
pub(crate) fn split_at(text: &[u8], index: Option<usize>) -> (&[u8], &[u8])
    requires { ForSome index (λ k. k < length text.now) }
    ensures before { result.0.now ≡ take (unwrap_or index (length text.now)) text.now }
    ensures after { result.1.now ≡ drop (unwrap_or index (length text.now) + 1) text.now }
{
    match index {
        Some(index) => (&text[..index], &text[index + 1..]),
        None => (text, &[]),
    }
}

// What stands before the first such byte and after it. Where there is none, all stands before it.
pub(crate) fn split_at_byte(text: &[u8], byte: u8) -> (&[u8], &[u8])
    ensures before { result.0.now ≡ before_first (λ b. b == byte) text.now }
    ensures after { result.1.now ≡ after_first (λ b. b == byte) text.now }
{
    split_at(text, index_of(text, byte))
}
