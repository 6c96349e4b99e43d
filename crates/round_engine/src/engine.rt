// The search, round by round.

ghost use Rattle.std.specs.Prelude.{◌≡◌, ◌≤◌, ◌+◌, ◌++◌, ◌∷◌, [], IfOk, OnOk, length};
ghost use Rattle.flex_model.specs.SoundFeed.{IsSoundFeed};
ghost use Rattle.flex_model.specs.SoundQuery.{IsDayTableOf, IsSoundDayTable, IsSoundQuery};
ghost use Rattle.flex_model.specs.SoundTimes.{AreSoundTimes};
ghost use Rattle.ride_index.specs.Index.{IsIndexOf};
ghost use Rattle.round_engine.specs.Attained.{IsSoundTask};
ghost use Rattle.round_engine.specs.Offers.{AreLookupsOf};
ghost use Rattle.round_engine.specs.Searched.{IsSearchState};
ghost use Rattle.round_engine.specs.Table.{IsSearchTable};

use crate::bags::Bags;
use crate::boarding::boardings_after;
use crate::ends::Ends;
use crate::step::ride_on;
use crate::table::{RoundTable, finals_of};
use crate::task::{Lookups, Task};
use bumpalo::Bump;
use flex_model::{DayTable, Feed, NoMemory, Query, Times};
use ride_index::{ActiveDays, RideIndex};
use std::alloc::Global;

// One more round.
fn next_round<'a, 's>(
    alloc: Global,
    bump: &'a Bump<Global>,
    lookups: &Lookups<'s>,
    task: &Task<'s>,
    earlier: &[Bags<'a>],
    ends: &mut Ends<'a>,
) -> Result<Bags<'a>, NoMemory>
    requires task { IsSoundTask task.now }
    requires lookups { AreLookupsOf task.now lookups.now }
    requires few { length earlier.now ≤ task.now.query.now.transfers }
    requires state { IsSearchState task.now earlier.now ends.old }
    ensures { IfOk result (λ round. IsSearchState task.now (earlier.now ++ round ∷ []) ends.new) }
{
    let mut boardings = Vec::new(bump);
    boardings_after(task, earlier, &mut boardings)?;
    let mut round = Bags::new(bump, task.feed.stops.as_slice().len() + 1)?;
    ends.open(bump)?;
    ride_on(
        alloc,
        bump,
        lookups,
        task,
        earlier,
        &mut round,
        ends,
        boardings.as_slice(),
    )?;
    Ok(round)
}

// All rounds, put into an empty list.
fn search_rounds<'a, 's>(
    alloc: Global,
    bump: &'a Bump<Global>,
    lookups: &Lookups<'s>,
    task: &Task<'s>,
    rounds: &mut Vec<Bags<'a>, &'a Bump<Global>>,
    ends: &mut Ends<'a>,
) -> Result<(), NoMemory>
    requires task { IsSoundTask task.now }
    requires lookups { AreLookupsOf task.now lookups.now }
    requires no_rounds { rounds.old.items ≡ [] }
    requires no_ends { ends.old ≡ [] }
    ensures state { OnOk result (IsSearchState task.now rounds.new.items ends.new) }
    ensures count { OnOk result (length rounds.new.items ≡ task.now.query.now.transfers + 1) }
{
    let count = task.query.transfers as usize + 1;
    for _round in 0..count {
        let round = next_round(alloc, bump, lookups, task, rounds.as_slice(), ends)?;
        if rounds.push(round).is_err() {
            return Err(NoMemory);
        }
    }
    Ok(())
}

/// Searches with an index of the feed that was built before. Want of memory is its only refusal.
pub fn search_with<'a>(
    alloc: Global,
    bump: &'a Bump<Global>,
    index: &RideIndex,
    feed: &Feed,
    times: &Times,
    days: &DayTable,
    query: &Query,
) -> Result<RoundTable<'a>, NoMemory>
    requires feed { IsSoundFeed feed.now }
    requires times { AreSoundTimes feed.now times.now }
    requires days { IsSoundDayTable days.now }
    requires of_query { IsDayTableOf query.now days.now }
    requires query { IsSoundQuery feed.now times.now query.now }
    requires index { IsIndexOf feed.now index.now }
    ensures { IfOk result (λ table. IsSearchTable
        (record { feed = feed.entry; times = times.entry; days = days.entry; query = query.entry })
        table.0 table.1) }
{
    let task = Task {
        feed,
        times,
        days,
        query,
    };
    let active = ActiveDays::build(alloc, feed, days)?;
    let lookups = Lookups {
        index,
        active: &active,
    };
    let mut rounds = Vec::new(bump);
    let mut ends = Ends::new(bump);
    search_rounds(alloc, bump, &lookups, &task, &mut rounds, &mut ends)?;
    let mut finals = Vec::new(bump);
    finals_of(&ends, &mut finals)?;
    Ok(RoundTable::new(rounds, finals))
}

/// Searches for the best journeys of the query, over an index that it builds. Want of memory is its only refusal. Labels
/// lie in the arena, those among them that left their bags.
pub fn search<'a>(
    alloc: Global,
    bump: &'a Bump<Global>,
    feed: &Feed,
    times: &Times,
    days: &DayTable,
    query: &Query,
) -> Result<RoundTable<'a>, NoMemory>
    requires feed { IsSoundFeed feed.now }
    requires times { AreSoundTimes feed.now times.now }
    requires days { IsSoundDayTable days.now }
    requires of_query { IsDayTableOf query.now days.now }
    requires query { IsSoundQuery feed.now times.now query.now }
    ensures { IfOk result (λ table. IsSearchTable
        (record { feed = feed.entry; times = times.entry; days = days.entry; query = query.entry })
        table.0 table.1) }
{
    let index = RideIndex::build(alloc, feed)?;
    search_with(alloc, bump, &index, feed, times, days, query)
}
