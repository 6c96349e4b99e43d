// From when on bookings can be made.

ghost use Rattle.std.specs.Prelude.{◌≡◌, ◌↔◌, ◌<◌, IfSome, length};
ghost use Rattle.flex_model.specs.ServiceDay.{IsTravelDay};
ghost use Rattle.flex_model.specs.SoundFeed.{IsSoundFeed, IsSoundNotice};
ghost use Rattle.flex_model.specs.SoundQuery.{IsSoundDayTable};
ghost use Rattle.booking_rules.specs.Openings.{IsInRange, IsOpening, Opens, opening_at};

use crate::notices::{moment_back, notice_of};
use crate::opens::Opening;
use flex_model::{DayTable, Feed, Moment, Notice, SameDay};

// The opening at this moment, if there is one.
fn from(moment: Option<Moment>) -> Opening
    ensures { result ≡ opening_at moment }
{
    match moment {
        Some(moment) => Opening::From(moment),
        None => Opening::Never,
    }
}

// From when on a booking under the notice can be made.
fn opening_of(feed: &Feed, days: &DayTable, notice: Notice, day: i32, departs: Moment) -> Opening
    requires notice { IsSoundNotice feed.now notice }
    requires days { IsSoundDayTable days.now }
    requires day { IsTravelDay days.now day }
    requires departs { IsInRange departs }
    ensures { Opens feed.now days.now notice day departs result }
{
    match notice {
        Notice::Ahead {
            opens: SameDay::Greatest(minutes),
            ..
        } => Opening::From(departs - 60 * i64::from(minutes)),
        Notice::Ahead {
            opens: SameDay::Start(prior),
            ..
        } => from(moment_back(feed, days, None, day, prior)),
        Notice::Days {
            first: Some(first),
            service,
            ..
        } => from(moment_back(feed, days, service, day, first)),
        _ => Opening::Always,
    }
}

/// From when on a booking under the rule can be made for a ride of the service day with this
/// departure, without memory. It is `Never` exactly where the rule counts days back for the opening
/// and there is no day so far back.
pub fn opening(
    feed: &Feed,
    days: &DayTable,
    rule: Option<u32>,
    day: i32,
    departs: Moment,
) -> Opening
    requires feed { IsSoundFeed feed.now }
    requires days { IsSoundDayTable days.now }
    requires rule { IfSome rule (λ r. r < length feed.now.rules) }
    requires day { IsTravelDay days.now day }
    requires departs { IsInRange departs }
    ensures { (opening : Opening) → IsOpening feed.now days.now rule day departs opening
        ↔ (result ≡ opening) }
{
    opening_of(feed, days, notice_of(feed, rule), day, departs)
}
