// Offers of the rides between two records of which one has a window.

ghost use Rattle.std.specs.Prelude.{◌≡◌, ◌↔◌, ◌<◌, ◌≤ℤ◌, ◌+ℤ◌, ◌*◌, ℕ, ℤ, pos, IfSome, option_to_list};
ghost use Rattle.flex_model.specs.Run.{IsInRuns};
ghost use Rattle.booking_rules.specs.Departures.{LeavesInRange, nth_departure, ride_at};
ghost use Rattle.booking_rules.specs.Openings.{IsInRange};
ghost use Rattle.flex_trips.specs.Windows.{HasWindowRow};
ghost use Rattle.ride_index.specs.Legs.{IsInTime, IsKeptRun, IsLegOf, IsLegRide, RunsThen, arrival_then};
ghost use Rattle.ride_index.specs.OfferedRuns.{AreOffersOf, IsSoundWanted};

use crate::offered_run::OfferedRun;
use crate::offers::deadline_of;
use crate::wanted::Wanted;
use booking_rules::narrow;
use flex_model::{Arrives, Moment, Ride, Run};
use flex_trips::running_flex_run;

// How many moments a minute apart there are from the one moment to the other.
fn minutes_to(first: Moment, last: Moment) -> u32
    ensures { (k : ℕ) → k < 4294967295 → (k < result) ↔ ((first +ℤ pos (60 * k)) ≤ℤ last) }
{
    let gap = i128::from(last) - i128::from(first);
    if gap < 0 {
        return 0;
    }
    let minutes = gap / 60;
    if 4_294_967_294 <= minutes {
        return u32::MAX;
    }
    minutes as u32 + 1
}

// When a ride of the run arrives that leaves then.
fn arrival(arrives: Arrives, departs: Moment) -> Moment
    requires { IsInRange departs }
    ensures { result ≡ arrival_then arrives departs }
{
    match arrives {
        Arrives::After(seconds) => departs + i64::from(seconds),
        Arrives::At(moment) => moment,
    }
}

// How many rides of the run arrive by the limit, or more: the first ones do.
fn count_in_time(run: &Run, limit: Moment) -> u32
    requires some { 0 < run.now.count }
    requires departs { LeavesInRange run.now }
    ensures { (k : ℕ) → k < run.now.count → (k < result)
        ↔ (arrival_then run.now.arrives (nth_departure run.now k) ≤ℤ limit) }
{
    match run.arrives {
        Arrives::After(seconds) => minutes_to(run.first + i64::from(seconds), limit),
        Arrives::At(moment) => {
            if limit < moment {
                return 0;
            }
            run.count
        }
    }
}

// The rides of the run that arrive by the limit, where there are some.
fn in_time(run: &Run, limit: Moment) -> Option<Run>
    requires some { 0 < run.now.count }
    requires departs { LeavesInRange run.now }
    ensures rides { (departs arrives : ℤ) → IsInRuns result departs arrives
        ↔ IsInTime run.now limit departs arrives }
    ensures some { IfSome result (λ cut. 0 < cut.count) }
    ensures departs { IfSome result LeavesInRange }
{
    let count = run.count.min(count_in_time(run, limit));
    if count == 0 {
        return None;
    }
    Some(Run { count, ..*run })
}

// The ride of the leg at the departure of the run with this number.
fn ride_then(leg: &Ride, run: &Run, number: u32) -> Ride
    requires { IsInRange (nth_departure run.now number) }
    ensures { result ≡ ride_at leg.now (nth_departure run.now number)
        (arrival_then run.now.arrives (nth_departure run.now number)) }
{
    let departs = run.first + 60 * i64::from(number);
    Ride {
        departs,
        arrives: arrival(run.arrives, departs),
        ..*leg
    }
}

// The offer of the rides of the leg that a run has.
fn offer_of_kept(wanted: &Wanted<'_>, leg: &Ride, kept: &Run) -> Option<OfferedRun>
    requires wanted { IsSoundWanted wanted.now }
    requires leg { IsLegOf wanted.now leg.now }
    requires kept { IsKeptRun wanted.now leg.now kept.now }
    ensures { AreOffersOf (IsLegRide wanted.now leg.now) (option_to_list result) }
{
    let first = ride_then(leg, kept, 0);
    let last = ride_then(leg, kept, kept.count - 1);
    let Some(closes) = deadline_of(wanted, &first) else {
        return None;
    };
    let Some(latest) = deadline_of(wanted, &last) else {
        return None;
    };
    Some(OfferedRun {
        ride: first,
        count: kept.count,
        closes,
        latest,
    })
}

// The offer of the rides of the leg, of which one record has a window and whose trip runs on its day.
pub(crate) fn offer_of_leg(wanted: &Wanted<'_>, leg: &Ride) -> Option<OfferedRun>
    requires wanted { IsSoundWanted wanted.now }
    requires leg { IsLegOf wanted.now leg.now }
    requires rows { HasWindowRow wanted.now.feed.now leg.now.trip leg.now.from_row leg.now.to_row }
    requires runs { RunsThen wanted.now leg.now.trip leg.now.day }
    ensures { AreOffersOf (IsLegRide wanted.now leg.now) (option_to_list result) }
{
    let Some(run) = running_flex_run(
        wanted.feed,
        wanted.times,
        wanted.days,
        leg.trip,
        leg.day,
        leg.from_row,
        leg.to_row,
        leg.board,
        leg.alight,
    ) else {
        return None;
    };
    let Some(run) = in_time(&run, wanted.limit) else {
        return None;
    };
    let Some(kept) = narrow(
        wanted.feed,
        wanted.days,
        leg,
        &run,
        wanted.asked,
        wanted.earliest,
    ) else {
        return None;
    };
    offer_of_kept(wanted, leg, &kept)
}
