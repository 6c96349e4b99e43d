// The words that rules are written in.

ghost use Rattle.std.specs.Prelude.{◌≡◌, ◌&&◌, is_none};
ghost use Rattle.std.specs.Str.{bytes_eq};
ghost use Rattle.feed_meaning.specs.FeedRules;
ghost use Rattle.feed_meaning.specs.Rules;
ghost use Rattle.feed_tables.specs.Refusals;

/// Whether a text is empty.
pub fn is_empty(text: &str) -> bool
    ensures { result ≡ Rules.is_empty text.now }
{
    text.is_empty()
}

/// Whether a text isn't empty.
pub fn is_given(text: &str) -> bool
    ensures { result ≡ Refusals.is_given text.now }
{
    !text.is_empty()
}

/// Whether a text is this word.
pub fn is_text(text: &str, word: &str) -> bool
    ensures { result ≡ bytes_eq text.now word.now }
{
    text == word
}

/// Whether a text is given without a value of its kind.
pub fn is_bad<T: Copy>(text: &str, value: Option<T>) -> bool
    ensures { result ≡ (Refusals.is_given text.now && is_none value) }
{
    !text.is_empty() && value.is_none()
}

/// Whether both are there, and the first is greater.
pub fn is_later(a: Option<u32>, b: Option<u32>) -> bool
    ensures { result ≡ Rules.stand FeedRules.is_later a b }
{
    match (a, b) {
        (Some(a), Some(b)) => b < a,
        _ => false,
    }
}
