// Where pairs stand in a bag.

ghost use Rattle.std.specs.Prelude.{◌≡◌, ◌↔◌, ◌≤◌, ◌<◌, All, IsTrue, int_le, length};
ghost use Rattle.flex_model.specs.Triple.{IsPairBefore};
ghost use Rattle.label_bag.specs.Bag.{AreUncovered, AreWithin, HasCovering, IsBag, IsBestBy, IsCountByThen, IsIndexFor, IsWithout};

use crate::pairs::{comes_before, covers, is_later, later};
use flex_model::{Deadline, Moment, Pair};
use std::alloc::Allocator;

// How many pairs arrive by then. They stand first.
fn count_by_then<T: Copy>(entries: &[(Pair, T)], arrival: &Moment) -> usize
    requires { IsBag entries.now }
    ensures { IsCountByThen entries.now arrival.now result }
{
    let limit = *arrival;
    entries.partition_point(
        |entry: &(Pair, T)| -> bool
            ensures { result ≡ int_le entry.now.0.arrival limit }
        { entry.0.arrival <= limit },
    )
}

// How many pairs stand before this one.
pub(crate) fn index_for<T: Copy>(entries: &[(Pair, T)], pair: &Pair) -> usize
    requires { IsBag entries.now }
    ensures { IsIndexFor entries.now pair.now result }
{
    let limit = *pair;
    entries.partition_point(
        |entry: &(Pair, T)| -> bool
            ensures { IsTrue result ↔ IsPairBefore entry.now.0 limit }
        { comes_before(&entry.0, &limit) },
    )
}

// Whether one of the pairs covers this one. Of those that arrive no later, the last one that walks
// just as far decides, since it would be covered by each earlier one that covers this one.
pub(crate) fn is_covered<T: Copy>(entries: &[(Pair, T)], pair: &Pair) -> bool
    requires { IsBag entries.now }
    ensures { IsTrue result ↔ HasCovering entries.now pair.now }
{
    let mut left = count_by_then(entries, &pair.arrival);
    while 0 < left {
        left -= 1;
        let kept = &entries[left].0;
        if covers(kept, pair) {
            return true;
        }
        if kept.walk == pair.walk {
            return false;
        }
    }
    false
}

// Up to where, from its index on, pairs can be covered by this one. The first one that it doesn't
// cover and that walks no farther ends it, since it would cover each later one that this one
// covers.
pub(crate) fn reach<T: Copy>(entries: &[(Pair, T)], at: usize, pair: &Pair) -> usize
    requires bag { IsBag entries.now }
    requires at { at ≤ length entries.now }
    ensures from { at ≤ result }
    ensures to { result ≤ length entries.now }
    ensures beyond { AreUncovered entries.now pair.now result }
{
    for k in at..entries.len() {
        let kept = &entries[k].0;
        if is_later(kept.deadline, pair.deadline) && kept.walk <= pair.walk {
            return k;
        }
    }
    entries.len()
}

// Takes those out from the one index to the other that the pair covers.
pub(crate) fn take_out<T: Copy, A: Allocator>(
    entries: &mut Vec<(Pair, T), A>,
    from: usize,
    to: usize,
    pair: &Pair,
)
    requires from { from ≤ to }
    requires to { to ≤ length entries.old.items }
    requires beyond { AreUncovered entries.old.items pair.now to }
    ensures { IsWithout entries.old.items pair.now from entries.new.items }
{
    let mut left = to;
    while from < left {
        left -= 1;
        if covers(pair, &entries[left].0) {
            let _ = entries.remove(left);
        }
    }
}

// The latest deadline of the pairs that arrive by then, where none walks farther than `longest`. Of
// those that arrive by then, the last one that walks so far ends the search, since it would be
// covered by each earlier one with a later deadline.
pub(crate) fn latest_by<T: Copy>(
    entries: &[(Pair, T)],
    longest: u32,
    arrival: &Moment,
) -> Option<Deadline>
    requires bag { IsBag entries.now }
    requires within { AreWithin entries.now longest }
    ensures { IsBestBy entries.now arrival.now result }
{
    let mut left = count_by_then(entries, arrival);
    let mut best = None;
    while 0 < left {
        left -= 1;
        let kept = &entries[left].0;
        best = Some(later(best, kept.deadline));
        if kept.walk == longest {
            return best;
        }
    }
    best
}
