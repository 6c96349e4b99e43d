// What a search gives.

ghost use Rattle.std.specs.Prelude.{◌≡◌, ◌<◌, ◌≤◌, ◌-◌, ◌++◌, [], ℕ, OnOk, length, map};
ghost use Rattle.label_bag.specs.Bag.{IsBag};
ghost use Rattle.round_engine.specs.Attained.{number_of};
ghost use Rattle.round_engine.specs.Bags.{AreApartBags, bag_at, round_at};
ghost use Rattle.round_engine.specs.Table.{final_at, finals_from, labels_at};

use crate::bags::Bags;
use crate::ends::Ends;
use crate::label::{Final, Label};
use crate::places::place_number;
use bumpalo::Bump;
use flex_model::{NoMemory, Pair, Place, Triple};
use std::alloc::Global;
use std::marker::Model;

/// The labels of all rounds, and the finals, in the arena. Contracts see the rounds, each a list of bags by the number of the
/// place, and the list of finals.
#[derive(Drop)]
pub struct RoundTable<'a> {
    rounds: Vec<Bags<'a>, &'a Bump<Global>>,
    finals: Vec<Final<'a>, &'a Bump<Global>>,
}

impl<'a> Model for RoundTable<'a> {
    ghost use Rattle.std.specs.Prelude.{List, []};
    ghost use Rattle.std.specs.Borrow.{Bor};
    ghost use Rattle.std.specs.Coded.{codes};
    ghost use Rattle.flex_model.specs.declared.answer.Pair.{Pair};
    ghost use Rattle.round_engine.specs.declared.label.Final.{Final};
    ghost use Rattle.round_engine.specs.declared.label.Label.{Label};
    ghost use Rattle.round_engine.specs.contracts.label.Label as of_label;
    ghost use mir.Syntax.{named};

    ghost Value = { List (List (List (Pair × Bor Label))) × List Final };

    ghost coded = { Prim.hlevel (codes, (of_label.the_row (record { mir = named 0; lft = [] })).coded) };

    ghost view = { λ table. (table.rounds.items, table.finals.items) };
}

impl<'a> RoundTable<'a> {
    pub(crate) fn new(
        rounds: Vec<Bags<'a>, &'a Bump<Global>>,
        finals: Vec<Final<'a>, &'a Bump<Global>>,
    ) -> RoundTable<'a>
        ensures { result ≡ (rounds.entry.items, finals.entry.items) }
    {
        RoundTable { rounds, finals }
    }

    /// The labels of the round at the place, rising by arrival and then by walk, each beside its own pair. Rounds count from 1.
    pub fn labels(&self, round: u8, place: Place) -> &[(Pair, &'a Label<'a>)]
        requires some { 0 < round }
        requires round { round ≤ length self.now.0 }
        requires width { 0 < length (round_at self.now.0 (round - 1)) }
        requires place { number_of (length (round_at self.now.0 (round - 1)) - 1) place
            < length (round_at self.now.0 (round - 1)) }
        ensures labels { result.now ≡ labels_at self.now.0 round place }
        ensures apart { IsBag (labels_at self.now.0 round place) }
    {
        let these = &self.rounds[round as usize - 1];
        these.labels(place_number(these.width() - 1, place))
    }

    /// The Pareto-best triples, rising by transfers, then by arrival and then by walk, each with its label.
    pub fn finals(&self) -> &[Final<'a>]
        ensures { result.now ≡ self.now.1 }
    {
        self.finals.as_slice()
    }
}

// The final of a pair at the destination.
fn final_of<'a>(transfers: u8, entry: &(Pair, &'a Label<'a>)) -> Final<'a>
    ensures { result ≡ final_at transfers entry.now }
{
    Final {
        triple: Triple {
            deadline: entry.0.deadline,
            arrival: entry.0.arrival,
            transfers,
            walk: entry.0.walk,
        },
        label: entry.1,
    }
}

// Adds the finals of one number of transfers.
fn add_finals<'a>(
    ends: &Ends<'a>,
    transfers: usize,
    into: &mut Vec<Final<'a>, &'a Bump<Global>>,
) -> Result<(), NoMemory>
    requires within { transfers < length ends.now }
    requires fits { transfers < 256 }
    ensures finals { OnOk result (into.new.items
        ≡ into.old.items ++ map (final_at transfers) (bag_at ends.now transfers)) }
    ensures bag { IsBag (bag_at ends.now transfers) }
{
    let entries = ends.pairs(transfers);
    for entry in entries {
        into.push(final_of(transfers as u8, entry))?;
    }
    Ok(())
}

/// The finals of all numbers of transfers, in order.
pub(crate) fn finals_of<'a>(
    ends: &Ends<'a>,
    into: &mut Vec<Final<'a>, &'a Bump<Global>>,
) -> Result<(), NoMemory>
    requires few { length ends.now ≤ 256 }
    requires none { into.old.items ≡ [] }
    ensures finals { OnOk result (into.new.items ≡ finals_from 0 ends.now) }
    ensures bags { OnOk result ((t : ℕ) → t < length ends.now → IsBag (bag_at ends.now t)) }
    ensures apart { AreApartBags ends.now }
{
    for transfers in 0..ends.count() {
        add_finals(ends, transfers, into)?;
    }
    Ok(())
}
