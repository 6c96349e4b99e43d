// The words of a line.

ghost use Rattle.std.specs.Prelude.{◌≡◌, Ok, map, position};
ghost use Rattle.std.specs.List.{count_by, slice_split};
ghost use Rattle.bound_cert.specs.Given.{Gives};
ghost use Rattle.bound_cert.specs.Reading.{is_space, words_at};
ghost use Rattle.bound_cert.specs.Syntax.{is_line_feed};

use crate::error::ReadError;
use std::alloc::Global;
use std::str;

// The most spaces of a line: a ride with a start has ten words.
const MOST_SPACES: usize = 9;

// How many spaces a line has.
fn count_spaces(line: &[u8]) -> usize
    ensures { result ≡ count_by is_space line.now }
{
    line.iter().filter(|byte| **byte == b' ').count()
}

// The words of a text, which spaces part.
fn words_of(alloc: Global, text: &str) -> Result<Vec<&str>, ReadError>
    ensures { Gives (λ words. map (λ word. word.now) words.items) result
        (Ok (slice_split is_space text.now)) }
{
    let mut words = Vec::new(alloc);
    let mut rest = text;
    'words: while let Some((word, after)) = rest.split_once(' ') {
        words.push(word)?;
        rest = after;
    }
    words.push(rest)?;
    Ok(words)
}

// Where the first line feed stands.
fn line_end(bytes: &[u8]) -> Option<usize>
    ensures { result ≡ position is_line_feed bytes.now }
{
    bytes.iter().position(|byte| *byte == b'\n')
}

// The words of the first line, and what follows its line feed. A line without its line feed, one
// that is no text and one of too many words is bad.
pub(crate) fn read_words(alloc: Global, bytes: &[u8]) -> Result<(Vec<&str>, &[u8]), ReadError>
    ensures { Gives (λ x. (map (λ word. word.now) x.0.items, x.1.now)) result
        (words_at bytes.now) }
{
    let left = bytes.len();
    let Some(end) = line_end(bytes) else {
        return Err(ReadError::Bad { left });
    };
    let line = &bytes[..end];
    if count_spaces(line) > MOST_SPACES {
        return Err(ReadError::Bad { left });
    }
    let Ok(text) = str::from_utf8(line) else {
        return Err(ReadError::Bad { left });
    };
    let words = words_of(alloc, text)?;
    Ok((words, &bytes[end + 1..]))
}
