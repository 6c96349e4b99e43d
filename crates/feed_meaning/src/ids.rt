// Ids that were met.

ghost use Rattle.std.specs.Prelude.{◌≡◌, ◌==◌, ◌&&◌, [], IfOk, OnErr, OnOk, length, position, slice_get};
ghost use Rattle.std.specs.List.{list_any};
ghost use Rattle.std.specs.Option.{option_map};
ghost use Rattle.std.specs.Str.{bytes_eq};
ghost use Rattle.feed_tables.specs.Refusals.{is_given};
ghost use Rattle.feed_meaning.specs.Noted.{noted};

use flex_model::NoMemory;
use indexmap::IndexSet;
use std::alloc::Global;
use std::marker::Model;

// The most ids that are kept, so that a `u32` tells their number.
const MOST_IDS: usize = 4_294_967_295;

/// Ids that were met, each once, by their first appearance.
#[derive(Drop)]
pub struct Ids<'a> {
    set: IndexSet<&'a str>,
}

impl<'a> Model for Ids<'a> {
    ghost use Rattle.std.specs.Prelude.{ℕ, List, ◌<◌, ◌^◌, length, map};

    ghost Value = { List (List ℕ) };

    ghost view = { λ ids. map (λ id. id.now) ids.set.keys };

    ghost invariant = { λ ids. length ids.set.keys < 2 ^ 32 };
}

impl<'a> Ids<'a> {
    /// No ids.
    pub fn new(alloc: Global) -> Ids<'a>
        ensures { result ≡ [] }
    {
        Ids {
            set: IndexSet::new(alloc),
        }
    }

    /// Notes a text, which is an id unless it is empty, and says whether that id was met before.
    /// Once 2^32 - 1 ids are kept there is no memory for more.
    pub fn note(&mut self, text: &'a str) -> Result<bool, NoMemory>
        ensures repeated { IfOk result (λ is_repeated.
            is_repeated ≡ (is_given text.now && list_any (bytes_eq text.now) self.old)) }
        ensures noted { OnOk result (self.new ≡ noted self.old text.now) }
        ensures err { OnErr result (self.new ≡ self.old) }
    {
        if text.is_empty() {
            return Ok(false);
        }
        if self.set.len() >= MOST_IDS {
            return Err(NoMemory);
        }
        let is_new = self.set.insert(text)?;
        Ok(!is_new)
    }

    /// Whether a text was met as an id.
    pub fn has(&self, text: &str) -> bool
        ensures { result ≡ list_any (bytes_eq text.now) self.now }
    {
        self.set.contains(text)
    }

    /// The place of an id among those that were met.
    pub fn index_of(&self, text: &str) -> Option<u32>
        ensures { result ≡ position (bytes_eq text.now) self.now }
    {
        match self.set.get_index_of(text) {
            Some(index) => Some(index as u32),
            None => None,
        }
    }

    /// How many ids were met.
    pub fn len(&self) -> u32
        ensures { result ≡ length self.now }
    {
        self.set.len() as u32
    }

    /// Whether no id was met.
    pub fn is_empty(&self) -> bool
        ensures { result ≡ (length self.now == 0) }
    {
        self.set.is_empty()
    }

    /// The id at a place.
    pub fn at(&self, index: u32) -> Option<&'a str>
        ensures { option_map (λ id. id.now) result ≡ slice_get self.now index }
    {
        self.set.get_index(index as usize).copied()
    }
}
