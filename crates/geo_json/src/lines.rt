// Lines of a text.

ghost use Rattle.std.specs.Prelude.{◌≡◌, ◌≤◌, ◌<◌, ◌^◌, count_by, length, nat_eq};
ghost use Rattle.feed_meaning.specs.Locations.{row_at};

use std::marker::Model;

/// How many line feeds there are.
fn line_feeds(bytes: &[u8]) -> u64
    ensures { result ≡ count_by (nat_eq 10) bytes.now }
{
    bytes.iter().filter(|byte| **byte == b'\n').count() as u64
}

/// Tells the lines of offsets into a text. It counts on from the last one, so that rising offsets
/// take one pass. Contracts see the text's bytes.
#[derive(Drop)]
pub(crate) struct Lines<'a> {
    text: &'a [u8],
    offset: usize,
    line: u64,
}

impl<'a> Model for Lines<'a> {
    ghost use Rattle.std.specs.Prelude.{◌≡◌, ◌<◌, ◌≤◌, ◌^◌, List, ℕ, length};
    ghost use Rattle.feed_meaning.specs.Locations.{row_at};

    ghost Value = { List ℕ };

    ghost view = { λ lines. lines.text.now };

    ghost invariant = { λ lines. (length lines.text.now < 2 ^ 32)
        × (lines.offset ≤ length lines.text.now)
        × (lines.line ≡ row_at lines.text.now lines.offset) };
}

impl<'a> Lines<'a> {
    pub(crate) fn new(text: &'a str) -> Lines<'a>
        requires { length text.now < 2 ^ 32 }
        ensures { result ≡ text.now }
    {
        Lines {
            text: text.as_bytes(),
            offset: 0,
            line: 1,
        }
    }

    /// An offset up to this one from which to count, with its line.
    fn start_for(&self, offset: usize) -> (usize, u64)
        ensures before { result.0 ≤ offset }
        ensures line { result.1 ≡ row_at self.now result.0 }
    {
        if offset < self.offset {
            (0, 1)
        } else {
            (self.offset, self.line)
        }
    }

    /// The line of an offset, counted from 1.
    pub(crate) fn line_at(&mut self, offset: u64) -> u64
        ensures line { result ≡ row_at self.old offset }
        ensures same { self.new ≡ self.old }
    {
        let end = (offset as usize).min(self.text.len());
        let (start, line) = self.start_for(end);
        self.line = line + line_feeds(&self.text[start..end]);
        self.offset = end;
        self.line
    }
}
