// Offers: single rides of the runs that are offered from a place.

ghost use Rattle.std.specs.Prelude.{◌≡◌, ◌↔◌, ◌≤ℤ◌, ◌+ℤ◌, ◌*◌, IsTrue, pos};
ghost use Rattle.flex_model.specs.Deadline.{IsNoLater, lesser};
ghost use Rattle.booking_rules.specs.Departures.{later as deadline_after};
ghost use Rattle.round_engine.specs.Offers.{IsModest, IsModestDeadline, nth_offer, wanted_from};

use crate::label::earlier;
use crate::task::Task;
use flex_model::{Deadline, Moment, Place, Ride};
use ride_index::{ActiveDays, OfferedRun, Wanted};

/// A ride that can be taken next, with its deadline.
#[derive(Clone, Copy)]
pub(crate) struct Offer {
    /// The ride.
    pub(crate) ride: Ride,
    /// Until when it can be booked.
    pub(crate) deadline: Deadline,
}

/// The rides that are wanted from the place, where one can be at the moment, by the limit.
pub(crate) fn wanted_at<'s>(
    task: &Task<'s>,
    active: &'s ActiveDays,
    place: Place,
    earliest: Moment,
    limit: Moment,
) -> Wanted<'s>
    ensures { result ≡ wanted_from task.now active.entry place earliest limit }
{
    Wanted {
        feed: task.feed,
        times: task.times,
        days: task.days,
        active,
        asked: task.query.now,
        destination: task.query.destination,
        place,
        earliest,
        limit,
    }
}

// So many minutes after the moment.
fn minutes_after(moment: Moment, number: u32) -> Moment
    requires { moment ≤ℤ pos 30000000000 }
    ensures { result ≡ moment +ℤ pos (60 * number) }
{
    let seconds = 60 * number as u64;
    moment + seconds as i64
}

/// Whether the one deadline is no later than the other.
pub(crate) fn is_no_later(a: Deadline, b: Deadline) -> bool
    ensures { IsTrue result ↔ IsNoLater a b }
{
    a <= b
}

// The deadline so many minutes later, and no later than the latest.
fn deadline_at(closes: Deadline, latest: Deadline, number: u32) -> Deadline
    requires { IsModestDeadline (lesser (deadline_after closes (60 * number)) latest) }
    ensures { result ≡ lesser (deadline_after closes (60 * number)) latest }
{
    if is_no_later(latest, closes) {
        return latest;
    }
    match closes {
        Deadline::Never => latest,
        Deadline::At(first) => earlier(Deadline::At(minutes_after(first, number)), latest),
    }
}

/// The ride of the run with this number, counted from 0.
pub(crate) fn offer_at(run: &OfferedRun, number: u32) -> Offer
    requires { IsModest (nth_offer run.now number) }
    ensures { result ≡ nth_offer run.now number }
{
    Offer {
        ride: Ride {
            departs: minutes_after(run.ride.departs, number),
            arrives: minutes_after(run.ride.arrives, number),
            ..run.ride
        },
        deadline: deadline_at(run.closes, run.latest, number),
    }
}
