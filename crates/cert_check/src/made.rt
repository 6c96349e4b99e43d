// Pairs that are asked for: what rides make of a way so far.

ghost use Rattle.std.specs.Prelude.{◌≡◌, ◌↔◌, ◌≤ℤ◌, ◌+ℤ◌, ◌*◌, ◌≤◌, IsTrue, pos};
ghost use Rattle.flex_model.specs.Deadline.{IsNoLater, lesser};
ghost use Rattle.flex_model.specs.Journey.{change_walk, counted, limit};
ghost use Rattle.flex_model.specs.SoundQuery.{IsQueryMoment};

use flex_model::{Deadline, Moment, Place, Query};

/// A pair, with a walk as long as sums of two walks are.
#[derive(Clone, Copy)]
pub(crate) struct Made {
    pub(crate) deadline: Deadline,
    pub(crate) arrival: Moment,
    /// In seconds.
    pub(crate) walk: u64,
}

/// A way so far, after which a ride is boarded: its deadline, its walk, and the round in which the
/// ride is to be held.
#[derive(Clone, Copy)]
pub(crate) struct Boarded {
    pub(crate) deadline: Deadline,
    /// In seconds.
    pub(crate) walk: u64,
    pub(crate) round: u64,
}

/// Whether the one deadline is no later than the other.
pub(crate) fn is_no_later(a: Deadline, b: Deadline) -> bool
    ensures { IsTrue result ↔ IsNoLater a b }
{
    a <= b
}

/// The lesser of two deadlines.
pub(crate) fn earlier(a: Deadline, b: Deadline) -> Deadline
    ensures { result ≡ lesser a b }
{
    match (a, b) {
        (Deadline::Never, other) => other,
        (Deadline::At(first), Deadline::Never) => Deadline::At(first),
        (Deadline::At(first), Deadline::At(second)) => Deadline::At(first.min(second)),
    }
}

/// So many seconds after the moment.
pub(crate) fn later(moment: Moment, seconds: u32) -> Moment
    requires { moment ≤ℤ pos 20000000000 }
    ensures { result ≡ moment +ℤ pos seconds }
{
    moment + seconds as i64
}

/// The latest arrival that the query allows.
pub(crate) fn limit_of(query: &Query) -> Moment
    requires depart { IsQueryMoment query.now.depart }
    requires horizon { query.now.horizon ≤ 2880 }
    ensures { result ≡ limit query.entry.now }
{
    later(query.depart, 60 * query.horizon)
}

/// How much of a walk counts for the query: none where it doesn't ask for walking.
pub(crate) fn counted_walk(query: &Query, seconds: u32) -> u32
    ensures { result ≡ counted query.entry.now seconds }
{
    if query.walking { seconds } else { 0 }
}

/// The seconds of a change that are walked: all of them between two different stops, and none
/// within a stop.
pub(crate) fn walk_between(a: Place, b: Place, seconds: u32) -> u32
    ensures { result ≡ change_walk a b seconds }
{
    match (a, b) {
        (Place::Stop(from), Place::Stop(to)) => { if from == to { 0 } else { seconds } }
        (_, _) => 0,
    }
}
