// The labels of one place.

ghost use Rattle.std.specs.Prelude.{◌≡◌, ◌↔◌, ◌⊎◌, [], Contains, IsTrue, OnErr, OnOk};
ghost use Rattle.label_bag.specs.Bag.{IsBag};
ghost use Rattle.round_engine.specs.Bags.{Entry, IsKept};

use crate::label::Label;
use bumpalo::Bump;
use flex_model::{NoMemory, Pair};
use label_bag::Bag;
use std::alloc::Global;
use std::marker::Model;

/// The best labels of a place, or of the destination with the walk to it, in the arena. Contracts see it as a bag.
#[derive(Drop)]
pub(crate) struct PlaceBag<'a> {
    labels: Bag<&'a Label<'a>, &'a Bump<Global>>,
}

impl<'a> Model for PlaceBag<'a> {
    ghost use Rattle.std.specs.Prelude.{List, []};
    ghost use Rattle.std.specs.Borrow.{Bor};
    ghost use Rattle.std.specs.Coded.{codes};
    ghost use Rattle.flex_model.specs.declared.answer.Pair.{Pair};
    ghost use Rattle.round_engine.specs.declared.label.Label.{Label};
    ghost use Rattle.round_engine.specs.contracts.label.Label as of_label;
    ghost use mir.Syntax.{named};

    ghost Value = { List (Pair × Bor Label) };

    ghost coded = { Prim.hlevel (codes, (of_label.the_row (record { mir = named 0; lft = [] })).coded) };

    ghost view = { λ bag. bag.labels };
}

impl<'a> PlaceBag<'a> {
    pub(crate) fn new(bump: &'a Bump<Global>) -> PlaceBag<'a>
        ensures { result ≡ [] }
    {
        PlaceBag {
            labels: Bag::new(bump),
        }
    }

    /// Offers a pair with its label. After it the bag keeps the pair, and all that it kept before.
    pub(crate) fn offer(&mut self, pair: Pair, label: &'a Label<'a>) -> Result<(), NoMemory>
        ensures kept { OnOk result (IsKept self.new pair) }
        ensures grows { (other : Pair) → IsKept self.old other → IsKept self.new other }
        ensures came { (other : Entry) → Contains self.new other
            → Contains self.old other ⊎ (other ≡ (pair, label.entry)) }
    {
        let _offered = self.labels.offer(pair, label)?;
        Ok(())
    }

    /// The pairs with their labels, rising by arrival.
    pub(crate) fn pairs(&self) -> &[(Pair, &'a Label<'a>)]
        ensures pairs { result.now ≡ self.now }
        ensures apart { IsBag self.now }
    {
        self.labels.pairs()
    }

    /// Whether a pair of the bag is as good as this one.
    pub(crate) fn keeps(&self, pair: &Pair) -> bool
        ensures { IsTrue result ↔ IsKept self.now pair.now }
    {
        self.labels.is_covered(pair)
    }
}
