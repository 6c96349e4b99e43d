// The best ways to the destination so far.

ghost use Rattle.std.specs.Prelude.{◌≡◌, ◌<◌, ◌-◌, ◌↔◌, ◌++◌, ◌∷◌, [], Contains, IsTrue, OnErr, OnOk, length};
ghost use Rattle.label_bag.specs.Bag.{IsBag};
ghost use Rattle.round_engine.specs.Bags.{AreApartBags, IsKeptByAny, IsOffer, bag_at};
ghost use Rattle.round_engine.specs.Limits.{IsInAny, IsLimitOver};

use crate::bags::Bags;
use crate::label::Label;
use crate::offer::is_no_later;
use bumpalo::Bump;
use flex_model::{Deadline, Moment, NoMemory, Pair};
use std::alloc::Global;
use std::marker::Model;

/// The best pairs at the destination, a bag for each number of transfers. A pair's arrival has the walk to the destination
/// in it. No pair is covered by one with fewer transfers.
#[derive(Drop)]
pub(crate) struct Ends<'a> {
    bags: Bags<'a>,
}

impl<'a> Model for Ends<'a> {
    ghost use Rattle.std.specs.Prelude.{List, []};
    ghost use Rattle.std.specs.Borrow.{Bor};
    ghost use Rattle.std.specs.Coded.{codes};
    ghost use Rattle.flex_model.specs.declared.answer.Pair.{Pair};
    ghost use Rattle.round_engine.specs.declared.label.Label.{Label};
    ghost use Rattle.round_engine.specs.contracts.label.Label as of_label;
    ghost use Rattle.round_engine.specs.Bags.{AreApartBags};
    ghost use mir.Syntax.{named};

    ghost Value = { List (List (Pair × Bor Label)) };

    ghost coded = { Prim.hlevel (codes, (of_label.the_row (record { mir = named 0; lft = [] })).coded) };

    ghost view = { λ ends. ends.bags };

    ghost invariant = { λ ends. AreApartBags ends.bags };
}

// Whether one of the bags keeps the pair.
fn any_bag_keeps(bags: &Bags<'_>, pair: &Pair) -> bool
    ensures { IsTrue result ↔ IsKeptByAny bags.now pair.now }
{
    for i in 0..bags.width() {
        if bags.keeps(i, pair) {
            return true;
        }
    }
    false
}

// The lesser one of the limit and the pair's arrival, if it is booked no earlier and walks no farther.
fn limit_by(entry: &(Pair, &Label<'_>), deadline: Deadline, walk: u32, limit: Moment) -> Moment
    ensures { IsLimitOver (λ other. other ≡ entry.now) deadline walk limit result }
{
    if limit <= entry.0.arrival {
        return limit;
    }
    if walk < entry.0.walk {
        return limit;
    }
    if is_no_later(deadline, entry.0.deadline) {
        return entry.0.arrival;
    }
    limit
}

// The same for all pairs of a bag.
fn limit_in(entries: &[(Pair, &Label<'_>)], deadline: Deadline, walk: u32, limit: Moment) -> Moment
    ensures { IsLimitOver (λ entry. Contains entries.now entry) deadline walk limit result }
{
    let mut least = limit;
    for entry in entries {
        least = limit_by(entry, deadline, walk, least);
    }
    least
}

// The same for all pairs of the bags.
fn limit_over(bags: &Bags<'_>, deadline: Deadline, walk: u32, limit: Moment) -> Moment
    ensures { IsLimitOver (IsInAny bags.now) deadline walk limit result }
{
    let mut least = limit;
    for t in 0..bags.width() {
        least = limit_in(bags.labels(t), deadline, walk, least);
    }
    least
}

impl<'a> Ends<'a> {
    pub(crate) fn new(bump: &'a Bump<Global>) -> Ends<'a>
        ensures { result ≡ [] }
    {
        Ends {
            bags: Bags::empty(bump),
        }
    }

    /// Begins with the next number of transfers.
    pub(crate) fn open(&mut self, bump: &'a Bump<Global>) -> Result<(), NoMemory>
        ensures { OnOk result (self.new ≡ self.old ++ [] ∷ []) }
    {
        self.bags.add_bag(bump)?;
        Ok(())
    }

    /// Whether one of the pairs is as good as this one.
    pub(crate) fn keep(&self, pair: &Pair) -> bool
        ensures { IsTrue result ↔ IsKeptByAny self.now pair.now }
    {
        any_bag_keeps(&self.bags, pair)
    }

    /// Takes a pair of the number of transfers that was begun last, unless one of the pairs is as good.
    pub(crate) fn offer(&mut self, pair: Pair, label: &'a Label<'a>) -> Result<(), NoMemory>
        requires { 0 < length self.old }
        ensures kept { OnOk result (IsKeptByAny self.new pair) }
        ensures offer { IsOffer (length self.old - 1) (pair, label.entry) self.old self.new }
    {
        if any_bag_keeps(&self.bags, &pair) {
            return Ok(());
        }
        let last = self.bags.width() - 1;
        self.bags.offer(last, pair, label)?;
        Ok(())
    }

    /// The lesser one of the limit and the least arrival of the pairs that are booked no earlier than the deadline and walk
    /// no farther.
    pub(crate) fn limit_for(&self, deadline: Deadline, walk: u32, limit: Moment) -> Moment
        ensures { IsLimitOver (IsInAny self.now) deadline walk limit result }
    {
        limit_over(&self.bags, deadline, walk, limit)
    }

    /// How many numbers of transfers there are.
    pub(crate) fn count(&self) -> usize
        ensures count { result ≡ length self.now }
        ensures apart { AreApartBags self.now }
    {
        self.bags.width()
    }

    /// The pairs of a number of transfers, rising by arrival.
    pub(crate) fn pairs(&self, transfers: usize) -> &[(Pair, &'a Label<'a>)]
        requires { transfers < length self.now }
        ensures pairs { result.now ≡ bag_at self.now transfers }
        ensures apart { IsBag (bag_at self.now transfers) }
    {
        self.bags.labels(transfers)
    }
}
