// One round: the rides after each boarding.

ghost use Rattle.std.specs.Prelude.{◌≡◌, ◌<◌, ◌+◌, ℕ, All, Contains, IsTrue, OnOk, length};
ghost use Rattle.flex_model.specs.declared.moment.Deadline.{Deadline};
ghost use Rattle.flex_model.specs.declared.ride.Ride.{Ride};
ghost use Rattle.flex_model.specs.Deadline.{IsNoLater, lesser};
ghost use Rattle.flex_model.specs.Journey.{limit};
ghost use Rattle.round_engine.specs.Attained.{AreEnds, IsBoarding, IsEndKept, IsEndOf, IsHeldNow, IsInTime, IsLabel, IsOfferFrom, IsRoundState, IsSoundTask, IsStep, number_of};
ghost use Rattle.round_engine.specs.Bags.{BagsGrow, GainsAtLast, IsKeptByAny};
ghost use Rattle.round_engine.specs.Chain.{deadline_up_to};
ghost use Rattle.round_engine.specs.Limits.{IsInAny, IsLimitOver};
ghost use Rattle.round_engine.specs.Made.{made_pair};
ghost use Rattle.round_engine.specs.Ridden.{AreRidden};
ghost use Rattle.round_engine.specs.declared.boarding.Boarding.{Boarding};
ghost use Rattle.round_engine.specs.declared.offer.Offer.{Offer};
ghost use Rattle.round_engine.specs.Offers.{AreLookupsOf, nth_offer, wanted_from};
ghost use Rattle.ride_index.specs.OfferedRuns.{AreOfferedFrom};
ghost use Rattle.ride_index.specs.declared.offered_run.OfferedRun.{OfferedRun};

use crate::bags::{Bags, any_keeps};
use crate::boarding::Boarding;
use crate::ends::Ends;
use crate::label::{Label, carried_by, deadline_with, label_after, pair_after};
use crate::moments::{counted_walk, later, limit_of};
use crate::offer::{Offer, is_no_later, offer_at, wanted_at};
use crate::places::number_in;
use crate::task::{Lookups, Task};
use bumpalo::Bump;
use flex_model::{Moment, NoMemory, Pair};
use ride_index::{Boarded, Carried, OfferedRun, offers_after};
use std::alloc::Global;
use transfers::egress;

// The pair at the destination, coming from the label, if it is reached in time.
fn end_of(task: &Task<'_>, label: &Label<'_>) -> Option<Pair>
    requires task { IsSoundTask task.now }
    requires label { IsInTime task.now label.now }
    ensures { IsEndOf task.now label.now result }
{
    let Some(seconds) = egress(task.times, task.query, label.place) else {
        return None;
    };
    let arrival = later(label.pair.arrival, seconds);
    if arrival > limit_of(task.query) {
        return None;
    }
    Some(Pair {
        deadline: label.pair.deadline,
        arrival,
        walk: label.pair.walk + counted_walk(task.query, seconds),
    })
}

// Ends at the destination, where it is reached from the label in time.
fn end_from<'a>(task: &Task<'_>, label: &'a Label<'a>, ends: &mut Ends<'a>) -> Result<(), NoMemory>
    requires task { IsSoundTask task.now }
    requires label { IsLabel task.now (length ends.old) label.now }
    requires some { 0 < length ends.old }
    requires ends { AreEnds task.now ends.old }
    ensures kept { OnOk result (IsEndKept task.now label.now ends.new) }
    ensures grow { OnOk result (BagsGrow ends.old ends.new) }
    ensures at_last { OnOk result (GainsAtLast ends.old ends.new) }
    ensures ends { OnOk result (AreEnds task.now ends.new) }
{
    let Some(pair) = end_of(task, label) else {
        return Ok(());
    };
    ends.offer(pair, label)?;
    Ok(())
}

// Whether the pair is held at the place.
fn is_held(earlier: &[Bags<'_>], round: &Bags<'_>, ends: &Ends<'_>, at: usize, pair: &Pair) -> bool
    requires earlier { All (λ these. at < length these) earlier.now }
    requires round { at < length round.now }
    ensures held { IsTrue result → IsHeldNow earlier.now round.now ends.now at pair.now }
    ensures ended { IsKeptByAny ends.now pair.now → IsTrue result }
{
    round.keeps(at, pair) || ends.keep(pair) || any_keeps(earlier, at, pair)
}

// Takes the offered ride after the boarding into the round, unless what it makes is held already.
fn take_in<'a>(
    bump: &'a Bump<Global>,
    task: &Task<'_>,
    earlier: &[Bags<'a>],
    round: &mut Bags<'a>,
    ends: &mut Ends<'a>,
    boarding: &Boarding<'a>,
    offer: &Offer,
) -> Result<(), NoMemory>
    requires task { IsSoundTask task.now }
    requires state { IsRoundState task.now earlier.now round.old ends.old }
    requires boarding { IsBoarding task.now (length earlier.now) boarding.now }
    requires offer { IsOfferFrom task.now boarding.now offer.now }
    ensures step { OnOk result
        (IsStep task.now earlier.now round.old ends.old round.new ends.new) }
    ensures held { OnOk result (IsHeldNow earlier.now round.new ends.new
        (number_of (length task.now.feed.now.stops) offer.now.ride.alight)
        (made_pair boarding.now offer.now)) }
{
    let pair = pair_after(boarding, offer);
    let at = number_in(task, offer.ride.alight);
    if is_held(earlier, round, ends, at, &pair) {
        return Ok(());
    }
    let number = earlier.len() + 1;
    let label = label_after(bump, number as u8, boarding, offer)?;
    end_from(task, label, ends)?;
    round.offer(at, pair, label)?;
    Ok(())
}

// Whether no ride of the run that is taken after the boarding can be booked later than the offered one.
fn is_last_booked(boarding: &Boarding<'_>, run: &OfferedRun, offer: &Offer) -> bool
    ensures { IsTrue result → IsNoLater (lesser (deadline_up_to boarding.now.parent) run.now.latest)
        (lesser (deadline_up_to boarding.now.parent) offer.now.deadline) }
{
    let latest = deadline_with(boarding, run.latest);
    is_no_later(latest, deadline_with(boarding, offer.deadline))
}

// Takes the rides of the run after the boarding into the round, up to one after which each could be booked no later.
fn take_run<'a>(
    bump: &'a Bump<Global>,
    task: &Task<'_>,
    earlier: &[Bags<'a>],
    round: &mut Bags<'a>,
    ends: &mut Ends<'a>,
    boarding: &Boarding<'a>,
    run: &OfferedRun,
) -> Result<(), NoMemory>
    requires task { IsSoundTask task.now }
    requires state { IsRoundState task.now earlier.now round.old ends.old }
    requires boarding { IsBoarding task.now (length earlier.now) boarding.now }
    requires offers { (k : ℕ) → k < run.now.count
        → IsOfferFrom task.now boarding.now (nth_offer run.now k) }
    ensures step { OnOk result
        (IsStep task.now earlier.now round.old ends.old round.new ends.new) }
    ensures held { OnOk result ((k : ℕ) → k < run.now.count
        → IsHeldNow earlier.now round.new ends.new
        (number_of (length task.now.feed.now.stops) run.now.ride.alight)
        (made_pair boarding.now (nth_offer run.now k))) }
{
    for number in 0..run.count {
        let offer = offer_at(run, number);
        take_in(bump, task, earlier, round, ends, boarding, &offer)?;
        if is_last_booked(boarding, run, &offer) {
            return Ok(());
        }
    }
    Ok(())
}

// Takes the rides of the runs after the boarding into the round.
fn take_all<'a>(
    bump: &'a Bump<Global>,
    task: &Task<'_>,
    earlier: &[Bags<'a>],
    round: &mut Bags<'a>,
    ends: &mut Ends<'a>,
    boarding: &Boarding<'a>,
    runs: &[OfferedRun],
) -> Result<(), NoMemory>
    requires task { IsSoundTask task.now }
    requires state { IsRoundState task.now earlier.now round.old ends.old }
    requires boarding { IsBoarding task.now (length earlier.now) boarding.now }
    requires offers { All (λ run. (k : ℕ) → k < run.count
        → IsOfferFrom task.now boarding.now (nth_offer run k)) runs.now }
    ensures step { OnOk result
        (IsStep task.now earlier.now round.old ends.old round.new ends.new) }
    ensures held { OnOk result (All (λ run. (k : ℕ) → k < run.count
        → IsHeldNow earlier.now round.new ends.new
        (number_of (length task.now.feed.now.stops) run.ride.alight)
        (made_pair boarding.now (nth_offer run k))) runs.now) }
{
    for run in runs {
        take_run(bump, task, earlier, round, ends, boarding, run)?;
    }
    Ok(())
}

// So many notes there are on which trips were boarded in a round. Fewer only cost time.
const NOTES: usize = 16_384;

// By when a ride from the boarding has to arrive so that no end covers what it makes: the query's limit, or the arrival of an
// end with no earlier a deadline and no longer a walk.
fn limit_after(task: &Task<'_>, ends: &Ends<'_>, carried: &Carried) -> Moment
    requires task { IsSoundTask task.now }
    ensures { IsLimitOver (IsInAny ends.now) carried.now.deadline carried.now.walk
        (limit task.now.query.now) result }
{
    ends.limit_for(carried.deadline, carried.walk, limit_of(task.query))
}

/// Takes the rides after the boardings into the round.
pub(crate) fn ride_on<'a, 's>(
    alloc: Global,
    bump: &'a Bump<Global>,
    lookups: &Lookups<'s>,
    task: &Task<'s>,
    earlier: &[Bags<'a>],
    round: &mut Bags<'a>,
    ends: &mut Ends<'a>,
    boardings: &[Boarding<'a>],
) -> Result<(), NoMemory>
    requires task { IsSoundTask task.now }
    requires lookups { AreLookupsOf task.now lookups.now }
    requires state { IsRoundState task.now earlier.now round.old ends.old }
    requires boardings { All (IsBoarding task.now (length earlier.now)) boardings.now }
    ensures step { OnOk result
        (IsStep task.now earlier.now round.old ends.old round.new ends.new) }
    ensures ridden { OnOk result
        (All (AreRidden task.now earlier.now round.new ends.new) boardings.now) }
{
    let mut runs = Vec::new(alloc);
    let mut boarded = Boarded::new(alloc, NOTES)?;
    for boarding in boardings {
        let carried = carried_by(boarding);
        let limit = limit_after(task, ends, &carried);
        let wanted = wanted_at(
            task,
            lookups.active,
            boarding.place,
            boarding.earliest,
            limit,
        );
        offers_after(
            alloc,
            lookups.index,
            &wanted,
            &carried,
            &mut boarded,
            &mut runs,
        )?;
        take_all(bump, task, earlier, round, ends, boarding, runs.as_slice())?;
    }
    Ok(())
}
