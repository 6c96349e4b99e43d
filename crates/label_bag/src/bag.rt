// Bags, and offers to them.

ghost use Rattle.std.specs.Prelude.{◌≡◌, ◌↔◌, ◌⊎◌, ◌++◌, ◌∷◌, Contains, IsTrue, OnErr, []};
ghost use Rattle.flex_model.specs.Triple.{CoversPair};
ghost use Rattle.label_bag.specs.Bag.{HasCovering, IsBag, IsBestBy};

use crate::indices::{index_for, is_covered, latest_by, reach, take_out};
use flex_model::{Deadline, Moment, NoMemory, Pair};
use std::alloc::Allocator;
use std::marker::Model;

/// What became of an offered pair.
#[derive(Clone, Copy, Debug, PartialEq, Eq)]
pub enum Offered {
    /// It is kept, and the pairs that it covers are gone.
    Added,
    /// A kept pair covers it, and nothing changed.
    Covered,
}

/// The Pareto-best ones of the offered pairs, each with an item. Contracts see a bag as the list of
/// its pairs with their items. They rise by arrival, and then by walk, and none covers another one.
/// A bag grows in the allocator that it was made with.
#[derive(Drop)]
pub struct Bag<T: Copy, A: Allocator> {
    entries: Vec<(Pair, T), A>,

    // No kept pair walks farther.
    longest: u32,
}

impl<T: Copy, A: Allocator> Model for Bag<T, A> {
    ghost use Rattle.std.specs.Prelude.{List};
    ghost use Rattle.flex_model.specs.declared.answer.Pair.{Pair};
    ghost use Rattle.label_bag.specs.Bag.{IsBagWithin};

    ghost Value = { List (Pair × T) };

    ghost view = { λ bag. bag.entries.items };

    ghost invariant = { λ bag. IsBagWithin bag.entries.items bag.longest };
}

impl<T: Copy, A: Allocator> Bag<T, A> {
    /// The empty bag. It takes no memory.
    pub fn new(alloc: A) -> Bag<T, A>
        ensures { result ≡ [] }
    {
        Bag {
            entries: Vec::new(alloc),
            longest: 0,
        }
    }

    /// Offers a pair with an item. It is covered exactly where a kept pair covers it, be it the
    /// same pair, and then nothing changes. Otherwise it is added, and exactly the pairs that it
    /// covers go. Where memory is wanted nothing changes.
    pub fn offer(&mut self, pair: Pair, item: T) -> Result<Offered, NoMemory>
        ensures covered { (result ≡ Ok Offered.Covered) ↔ HasCovering self.old pair }
        ensures same { result ≡ Ok Offered.Covered → self.new ≡ self.old }
        ensures err { OnErr result (self.new ≡ self.old) }
        ensures added { result ≡ Ok Offered.Added → (entry : Pair × T) → Contains self.new entry
            ↔ ((entry ≡ (pair, item)) ⊎ (Contains self.old entry × ¬ CoversPair pair entry.0)) }
        ensures apart { IsBag self.new }
    {
        if is_covered(self.entries.as_slice(), &pair) {
            return Ok(Offered::Covered);
        }
        let at = index_for(self.entries.as_slice(), &pair);
        let end = reach(self.entries.as_slice(), at, &pair);
        self.entries.insert(at, (pair, item))?;
        take_out(&mut self.entries, at + 1, end + 1, &pair);
        self.longest = self.longest.max(pair.walk);
        Ok(Offered::Added)
    }

    /// Whether a kept pair covers this one, without memory.
    pub fn is_covered(&self, pair: &Pair) -> bool
        ensures { IsTrue result ↔ HasCovering self.now pair.now }
    {
        is_covered(self.entries.as_slice(), pair)
    }

    /// The latest deadline of the pairs that arrive by then. There is none exactly where no pair
    /// does.
    pub fn best_by(&self, arrival: Moment) -> Option<Deadline>
        ensures { IsBestBy self.now arrival result }
    {
        latest_by(self.entries.as_slice(), self.longest, &arrival)
    }

    /// The pairs with their items, rising by arrival, and then by walk, without memory.
    pub fn pairs(&self) -> &[(Pair, T)]
        ensures pairs { result.now ≡ self.now }
        ensures apart { IsBag self.now }
    {
        self.entries.as_slice()
    }
}
