// The answers to a query.

ghost use Rattle.std.specs.Prelude.{IfOk};
ghost use Rattle.flex_model.specs.Answer.{IsExactAnswer};
ghost use Rattle.flex_model.specs.SoundFeed.{IsSoundFeed};
ghost use Rattle.flex_model.specs.SoundQuery.{IsDayTableOf, IsSoundDayTable, IsSoundQuery};
ghost use Rattle.flex_model.specs.SoundTimes.{AreSoundTimes};
ghost use Rattle.ride_index.specs.Index.{IsIndexOf};

use crate::rides::answers_of;
use bumpalo::Bump;
use flex_model::{Answer, DayTable, Feed, Listed, NoMemory, Query, Times};
use ride_index::RideIndex;
use round_engine::search_with;
use std::alloc::Global;

/// An exact answer to the query, found in an arena of its own. Which of several journeys with one triple it has is left open.
/// Want of memory is its only refusal.
pub fn exact_answers(
    alloc: Global,
    index: &RideIndex,
    feed: &Feed,
    times: &Times,
    days: &DayTable,
    query: &Query,
) -> Result<Listed<Answer>, NoMemory>
    requires feed { IsSoundFeed feed.now }
    requires times { AreSoundTimes feed.now times.now }
    requires days { IsSoundDayTable days.now }
    requires of_query { IsDayTableOf query.now days.now }
    requires query { IsSoundQuery feed.now times.now query.now }
    requires index { IsIndexOf feed.now index.now }
    ensures { IfOk result
        (λ answers. IsExactAnswer feed.now times.now days.now query.entry.now answers) }
{
    let bump = Bump::new(alloc);
    let table = search_with(alloc, &bump, index, feed, times, days, query)?;
    answers_of(alloc, table.finals())
}
