// Sums of moments and seconds, and the walks that count.

ghost use Rattle.std.specs.Prelude.{◌≡◌, ◌≤ℤ◌, ◌+ℤ◌, ◌≤◌, pos};
ghost use Rattle.flex_model.specs.Journey.{change_walk, counted, limit};
ghost use Rattle.flex_model.specs.SoundQuery.{IsQueryMoment};

use flex_model::{Moment, Place, Query};

/// So many seconds after the moment.
pub(crate) fn later(moment: Moment, seconds: u32) -> Moment
    requires { moment ≤ℤ pos 20000000000 }
    ensures { result ≡ moment +ℤ pos seconds }
{
    moment + seconds as i64
}

/// The latest arrival that the query allows.
pub(crate) fn limit_of(query: &Query) -> Moment
    requires depart { IsQueryMoment query.now.depart }
    requires horizon { query.now.horizon ≤ 2880 }
    ensures { result ≡ limit query.entry.now }
{
    later(query.depart, 60 * query.horizon)
}

/// How much of a walk counts for the query: none where it doesn't ask for walking.
pub(crate) fn counted_walk(query: &Query, seconds: u32) -> u32
    ensures { result ≡ counted query.entry.now seconds }
{
    if query.walking { seconds } else { 0 }
}

/// The seconds of a change that are walked: all of them between two different stops, and none within a stop.
pub(crate) fn walk_between(a: Place, b: Place, seconds: u32) -> u32
    ensures { result ≡ change_walk a b seconds }
{
    match (a, b) {
        (Place::Stop(from), Place::Stop(to)) => { if from == to { 0 } else { seconds } }
        (_, _) => 0,
    }
}
