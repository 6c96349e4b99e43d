// Until when bookings can be made.

ghost use Rattle.std.specs.Prelude.{◌≡◌, ◌↔◌, ◌<◌, ◌≤ℤ◌, ◌+ℤ◌, ℤ, pos, IfSome, Some, length};
ghost use Rattle.flex_model.specs.Booking.{Closes, ClosesAt};
ghost use Rattle.flex_model.specs.ServiceDay.{IsTravelDay};
ghost use Rattle.flex_model.specs.SoundFeed.{IsSoundFeed, IsSoundNotice};
ghost use Rattle.flex_model.specs.SoundQuery.{IsSoundDayTable};
ghost use Rattle.booking_rules.specs.Openings.{IsInRange};

use crate::notices::{moment_back, notice_of};
use flex_model::{DayTable, Feed, Moment, Notice};

// Until when a booking under the notice can be made.
fn closing_of(
    feed: &Feed,
    days: &DayTable,
    notice: Notice,
    day: i32,
    departs: Moment,
) -> Option<Moment>
    requires notice { IsSoundNotice feed.now notice }
    requires days { IsSoundDayTable days.now }
    requires day { IsTravelDay days.now day }
    requires departs { IsInRange departs }
    ensures closings { (closing : ℤ) → Closes feed.now days.now notice day departs closing
        ↔ (result ≡ Some closing) }
    ensures low { IfSome result (λ closing. pos 0 ≤ℤ (closing +ℤ pos 60000000)) }
    ensures high { IfSome result (λ closing. closing ≤ℤ departs) }
{
    match notice {
        Notice::RealTime => Some(departs),
        Notice::Ahead { least, .. } => Some(departs - 60 * i64::from(least)),
        Notice::Days { last, service, .. } => {
            let latest = moment_back(feed, days, service, day, last)?;
            Some(departs.min(latest))
        }
    }
}

/// When a booking under the rule closes for a ride of the service day with this departure, without
/// memory. There is no closing exactly where the rule counts days back and there is no day so far
/// back.
pub fn closing(
    feed: &Feed,
    days: &DayTable,
    rule: Option<u32>,
    day: i32,
    departs: Moment,
) -> Option<Moment>
    requires feed { IsSoundFeed feed.now }
    requires days { IsSoundDayTable days.now }
    requires rule { IfSome rule (λ r. r < length feed.now.rules) }
    requires day { IsTravelDay days.now day }
    requires departs { IsInRange departs }
    ensures closings { (closing : ℤ) → ClosesAt feed.now days.now rule day departs closing
        ↔ (result ≡ Some closing) }

    // Bounds, for the sums of callers.
    ensures low { IfSome result (λ closing. pos 0 ≤ℤ (closing +ℤ pos 60000000)) }
    ensures high { IfSome result (λ closing. closing ≤ℤ departs) }
{
    closing_of(feed, days, notice_of(feed, rule), day, departs)
}
