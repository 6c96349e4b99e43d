// The labels of one round.

ghost use Rattle.std.specs.Prelude.{◌≡◌, ◌<◌, ◌↔◌, ◌⊎◌, ◌++◌, ◌∷◌, ℕ, [], All, Contains, IfOk, IsTrue, OnErr, OnOk, length, replicate};
ghost use Rattle.label_bag.specs.Bag.{IsBag};
ghost use Rattle.round_engine.specs.Bags.{Entry, IsKept, IsKeptInAny, IsOffer, bag_at, round_at};

use crate::label::Label;
use crate::place_bag::PlaceBag;
use bumpalo::Bump;
use flex_model::{NoMemory, Pair};
use std::alloc::Global;
use std::marker::Model;

/// The labels of a round, a bag for the number of each place. Contracts see the list of these bags.
#[derive(Drop)]
pub(crate) struct Bags<'a> {
    bags: Vec<PlaceBag<'a>, &'a Bump<Global>>,
    /// The numbers of the bags that have labels, so that the next round passes over all others.
    marked: Vec<usize, &'a Bump<Global>>,
}

impl<'a> Model for Bags<'a> {
    ghost use Rattle.std.specs.Prelude.{List, []};
    ghost use Rattle.std.specs.Borrow.{Bor};
    ghost use Rattle.std.specs.Coded.{codes};
    ghost use Rattle.flex_model.specs.declared.answer.Pair.{Pair};
    ghost use Rattle.round_engine.specs.declared.label.Label.{Label};
    ghost use Rattle.round_engine.specs.contracts.label.Label as of_label;
    ghost use Rattle.round_engine.specs.Bags.{AreMarked};
    ghost use mir.Syntax.{named};

    ghost Value = { List (List (Pair × Bor Label)) };

    ghost coded = { Prim.hlevel (codes, (of_label.the_row (record { mir = named 0; lft = [] })).coded) };

    ghost view = { λ round. round.bags.items };

    ghost invariant = { λ round. AreMarked round.bags.items round.marked.items };
}

// Adds the number of the bag to the marked ones, unless the bag has labels already.
fn mark<'a>(
    bag: &PlaceBag<'_>,
    at: usize,
    marked: &mut Vec<usize, &'a Bump<Global>>,
) -> Result<(), NoMemory>
    ensures kept { (i : ℕ) → Contains marked.old.items i → Contains marked.new.items i }
    ensures came { (i : ℕ) → Contains marked.new.items i
        → Contains marked.old.items i ⊎ (i ≡ at) }
    ensures marked { OnOk result (bag.now ≡ [] → Contains marked.new.items at) }
{
    if !bag.pairs().is_empty() {
        return Ok(());
    }
    marked.push(at)?;
    Ok(())
}

impl<'a> Bags<'a> {
    /// No bags.
    pub(crate) fn empty(bump: &'a Bump<Global>) -> Bags<'a>
        ensures { result ≡ [] }
    {
        Bags {
            bags: Vec::new(bump),
            marked: Vec::new(bump),
        }
    }

    /// Adds an empty bag at the end.
    pub(crate) fn add_bag(&mut self, bump: &'a Bump<Global>) -> Result<(), NoMemory>
        ensures ok { OnOk result (self.new ≡ self.old ++ [] ∷ []) }
        ensures err { OnErr result (self.new ≡ self.old) }
    {
        if self.bags.push(PlaceBag::new(bump)).is_err() {
            return Err(NoMemory);
        }
        Ok(())
    }

    fn add_bags(&mut self, bump: &'a Bump<Global>, count: usize) -> Result<(), NoMemory>
        ensures { OnOk result (self.new ≡ self.old ++ replicate count []) }
    {
        for _i in 0..count {
            self.add_bag(bump)?;
        }
        Ok(())
    }

    /// A round without labels, with so many bags.
    pub(crate) fn new(bump: &'a Bump<Global>, count: usize) -> Result<Bags<'a>, NoMemory>
        ensures { IfOk result (λ round. round ≡ replicate count []) }
    {
        let mut round = Bags::empty(bump);
        round.add_bags(bump, count)?;
        Ok(round)
    }

    /// How many bags there are.
    pub(crate) fn width(&self) -> usize
        ensures { result ≡ length self.now }
    {
        self.bags.len()
    }

    /// The numbers of bags, those of all that have labels among them.
    pub(crate) fn marked(&self) -> &[usize]
        ensures within { All (λ at. at < length self.now) result.now }
        ensures whole { (i : ℕ) (entry : Entry) → Contains (bag_at self.now i) entry
            → Contains result.now i }
    {
        self.marked.as_slice()
    }

    /// The labels of one bag, rising by arrival.
    pub(crate) fn labels(&self, at: usize) -> &[(Pair, &'a Label<'a>)]
        requires { at < length self.now }
        ensures labels { result.now ≡ bag_at self.now at }
        ensures apart { IsBag (bag_at self.now at) }
    {
        let bag = &self.bags[at];
        bag.pairs()
    }

    /// Whether a pair of the bag is as good as this one.
    pub(crate) fn keeps(&self, at: usize, pair: &Pair) -> bool
        requires { at < length self.now }
        ensures { IsTrue result ↔ IsKept (bag_at self.now at) pair.now }
    {
        let bag = &self.bags[at];
        bag.keeps(pair)
    }

    /// Offers a pair with its label to one bag.
    pub(crate) fn offer(
        &mut self,
        at: usize,
        pair: Pair,
        label: &'a Label<'a>,
    ) -> Result<(), NoMemory>
        requires { at < length self.old }
        ensures kept { OnOk result (IsKept (bag_at self.new at) pair) }
        ensures offer { IsOffer at (pair, label.entry) self.old self.new }
    {
        mark(&self.bags[at], at, &mut self.marked)?;
        let bag = &mut self.bags[at];
        bag.offer(pair, label)?;
        Ok(())
    }
}

/// Whether a pair of one of the rounds at the place is as good as this one.
pub(crate) fn any_keeps(rounds: &[Bags<'_>], at: usize, pair: &Pair) -> bool
    requires { All (λ round. at < length round) rounds.now }
    ensures { IsTrue result → IsKeptInAny rounds.now at pair.now }
{
    for round in rounds {
        if round.keeps(at, pair) {
            return true;
        }
    }
    false
}
