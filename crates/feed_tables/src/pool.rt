// Texts one after the other in one buffer.

ghost use Rattle.std.specs.Prelude.{◌≡◌, ◌+◌, ◌<◌, ◌^◌, ◌++◌, ◌∷◌, [], IfOk, OnErr, OnOk};
ghost use Rattle.std.specs.Prelude.{get_or, length, sum_by};

use flex_model::NoMemory;
use std::alloc::Global;
use std::marker::Model;

/// Texts in one buffer, seen as the list of them.
#[derive(Drop)]
pub(crate) struct Pool {
    buffer: String,
    // Where each text ends in the buffer.
    ends: Vec<u32>,
}

impl Model for Pool {
    ghost use Rattle.std.specs.Prelude.{ℕ, List, string_bytes};
    ghost use Rattle.feed_tables.specs.Parts.{IsCut, parts};

    ghost Value = { List (List ℕ) };

    ghost view = { λ p. parts 0 p.ends.items (string_bytes p.buffer) };

    ghost invariant = { λ p. IsCut p.ends.items (string_bytes p.buffer) };
}

// Where the text at an index starts: at the end of the one before.
fn start_of(ends: &Vec<u32>, index: usize) -> u32
    requires { index < length ends.now.items }
    ensures { result ≡ get_or (0 ∷ ends.now.items) index 0 }
{
    if index == 0 { 0 } else { ends[index - 1] }
}

impl Pool {
    /// A pool with no text, and with room for so many bytes.
    pub(crate) fn with_room(alloc: Global, bytes: usize) -> Result<Pool, NoMemory>
        ensures { IfOk result (λ pool. pool ≡ []) }
    {
        Ok(Pool {
            buffer: String::with_capacity(alloc, bytes)?,
            ends: Vec::new(alloc),
        })
    }

    /// How many texts there are.
    pub(crate) fn len(&self) -> usize
        ensures { result ≡ length self.now }
    {
        self.ends.len()
    }

    /// The text at an index, empty past the last one.
    pub(crate) fn get(&self, index: usize) -> &str
        ensures { result.now ≡ get_or self.now index [] }
    {
        if index >= self.ends.len() {
            return "";
        }
        let start = start_of(&self.ends, index);
        let end = self.ends[index];
        &self.buffer.as_str()[start as usize..end as usize]
    }

    /// Adds a text at the end.
    pub(crate) fn push(&mut self, text: &str) -> Result<(), NoMemory>
        requires { sum_by length self.old + length text.now < 2 ^ 32 }
        ensures ok { OnOk result (self.new ≡ self.old ++ text.now ∷ []) }
        ensures err { OnErr result (self.new ≡ self.old) }
    {
        self.ends.reserve(1)?;
        self.buffer.push_str(text)?;
        self.ends.push_reserved(self.buffer.len() as u32);
        Ok(())
    }
}
