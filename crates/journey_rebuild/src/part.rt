// The part of a certificate that a search finds.

ghost use Rattle.std.specs.Prelude.{◌≡◌, IfOk};
ghost use Rattle.bound_cert.specs.Parts.{IsFoundPart};
ghost use Rattle.flex_model.specs.SoundFeed.{IsSoundFeed};
ghost use Rattle.flex_model.specs.SoundQuery.{IsDayTableOf, IsSoundDayTable, IsSoundQuery};
ghost use Rattle.flex_model.specs.SoundTimes.{AreSoundTimes};
ghost use Rattle.ride_index.specs.Index.{IsIndexOf};
ghost use Rattle.journey_rebuild.specs.PrintableParts.{AreCountable};

use crate::rides::answers_of;
use crate::rounds::rounds_of;
use bound_cert::CertPart;
use bumpalo::Bump;
use flex_model::{DayTable, Feed, NoMemory, Query, Text, Times};
use ride_index::RideIndex;
use round_engine::search_with;
use std::alloc::Global;

// The same text once more.
fn copy_of(alloc: Global, text: &str) -> Result<Text, NoMemory>
    ensures { IfOk result (λ copy. copy ≡ text.now) }
{
    let mut copy = Text::new(alloc);
    copy.append(text)?;
    Ok(copy)
}

/// The part of a certificate for the query: its exact answers, and beside them all labels of a search, which show that there
/// are no better ones. Each label is attained, none of a round and place covers another, and those of a round stand in the
/// order of places, stops first, and at each place by rising arrival and then by rising walk. Want of memory is its only
/// refusal.
pub fn find_part(
    alloc: Global,
    index: &RideIndex,
    feed: &Feed,
    times: &Times,
    days: &DayTable,
    query: &Query,
) -> Result<CertPart, NoMemory>
    requires feed { IsSoundFeed feed.now }
    requires times { AreSoundTimes feed.now times.now }
    requires days { IsSoundDayTable days.now }
    requires of_query { IsDayTableOf query.now days.now }
    requires query { IsSoundQuery feed.now times.now query.now }
    requires index { IsIndexOf feed.now index.now }
    ensures found { IfOk result
        (IsFoundPart feed.now times.now days.now query.entry.now) }
    ensures countable { IfOk result AreCountable }
{
    let bump = Bump::new(alloc);
    let table = search_with(alloc, &bump, index, feed, times, days, query)?;
    let answers = answers_of(alloc, table.finals())?;
    let stops = feed.stops.as_slice().len();
    let rounds = rounds_of(alloc, &table, stops, query.transfers + 1)?;
    let id = copy_of(alloc, query.id.as_str())?;
    Ok(CertPart {
        query: id,
        walking: query.walking,
        answers,
        rounds,
    })
}
