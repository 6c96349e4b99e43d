// Whether a ride can be booked, and until when.

ghost use Rattle.std.specs.Prelude.{◌≡◌, ◌↔◌, IfNone, IfSome, IsTrue};
ghost use Rattle.flex_model.specs.Booking.{IsBookable, IsDeadline};
ghost use Rattle.flex_model.specs.Deadline as Deadlines;
ghost use Rattle.flex_model.specs.ServiceDay.{IsTravelDay};
ghost use Rattle.flex_model.specs.SoundFeed.{IsSoundFeed, IsSoundWay};
ghost use Rattle.flex_model.specs.SoundQuery.{IsSoundDayTable};
ghost use Rattle.booking_rules.specs.Ends.{AreWays, CanBookEnd, HasRows, IsEndDeadline};
ghost use Rattle.booking_rules.specs.Openings.{IsInRange, OpensBefore};

use crate::closings::closing;
use crate::openings::opening;
use crate::opens::Opening;
use flex_model::{DayTable, Deadline, Feed, Moment, Ride, Way};

// Whether the booking has opened by the moment, if not before.
fn opens_by(opening: Opening, moment: Moment) -> bool
    ensures { IsTrue result ↔ OpensBefore opening moment }
{
    match opening {
        Opening::Always => true,
        Opening::From(opens) => opens <= moment,
        Opening::Never => false,
    }
}

// Until when this end of the ride can be booked. There is no deadline where the end has a booking
// that can't be made.
fn end_deadline(
    feed: &Feed,
    days: &DayTable,
    ride: &Ride,
    way: Way,
    now: Moment,
) -> Option<Deadline>
    requires feed { IsSoundFeed feed.now }
    requires days { IsSoundDayTable days.now }
    requires way { IsSoundWay feed.now way }
    requires day { IsTravelDay days.now ride.now.day }
    requires departs { IsInRange ride.now.departs }
    ensures booked { IfSome result (λ deadline. CanBookEnd feed.now days.now ride.now way now
        × IsEndDeadline feed.now days.now ride.now way deadline) }
    ensures refused { IfNone result (CanBookEnd feed.now days.now ride.now way now → ⊥) }
{
    let Way::Book(rule) = way else {
        return Some(Deadline::Never);
    };
    let closes = closing(feed, days, rule, ride.day, ride.departs)?;
    if closes < now || !opens_by(opening(feed, days, rule, ride.day, ride.departs), closes) {
        return None;
    }
    Some(Deadline::At(closes))
}

// How the ride is boarded, and how it is left.
pub(crate) fn ways_of(feed: &Feed, ride: &Ride) -> (Way, Way)
    requires feed { IsSoundFeed feed.now }
    requires rows { HasRows feed.now ride.now }
    ensures ways { AreWays feed.now ride.now result.0 result.1 }
    ensures pickup { IsSoundWay feed.now result.0 }
    ensures drop_off { IsSoundWay feed.now result.1 }
{
    let rows = feed.trips[ride.trip as usize].rows.as_slice();
    (
        rows[ride.from_row as usize].pickup,
        rows[ride.to_row as usize].drop_off,
    )
}

// The lesser of the two deadlines.
fn lesser(a: Deadline, b: Deadline) -> Deadline
    ensures { result ≡ Deadlines.lesser a b }
{
    a.min(b)
}

/// Until when the ride can be booked, at `now` or later, without memory: the least closing of its
/// bookings, and never where none of its two ends is booked. There is no deadline exactly where one
/// of its bookings can't be made. Only the ride's trip, day, records and departure are looked at.
pub fn bookable(feed: &Feed, days: &DayTable, ride: &Ride, now: Moment) -> Option<Deadline>
    requires feed { IsSoundFeed feed.now }
    requires days { IsSoundDayTable days.now }
    requires rows { HasRows feed.now ride.now }
    requires day { IsTravelDay days.now ride.now.day }
    requires departs { IsInRange ride.now.departs }
    ensures booked { IfSome result (λ deadline. IsBookable feed.now days.now ride.now now
        × IsDeadline feed.now days.now ride.now deadline) }
    ensures refused { IfNone result (IsBookable feed.now days.now ride.now now → ⊥) }
{
    let (pickup, drop_off) = ways_of(feed, ride);
    let boarding = end_deadline(feed, days, ride, pickup, now)?;
    let alighting = end_deadline(feed, days, ride, drop_off, now)?;
    Some(lesser(boarding, alighting))
}
