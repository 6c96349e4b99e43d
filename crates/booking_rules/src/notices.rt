// How far ahead a rule wants a booking, and times of earlier days.

ghost use Rattle.std.specs.Prelude.{◌≡◌, ◌↔◌, ◌<◌, ◌≤ℤ◌, ◌+ℤ◌, ℤ, pos, IfSome, Some, length};
ghost use Rattle.flex_model.specs.Booking.{IsNoticeOf};
ghost use Rattle.flex_model.specs.ServiceDay.{IsTravelDay};
ghost use Rattle.flex_model.specs.SoundFeed.{IsSoundFeed, IsSoundNotice, IsSoundPrior};
ghost use Rattle.flex_model.specs.SoundQuery.{IsSoundDayTable};
ghost use Rattle.booking_rules.specs.Openings.{IsMomentBack};

use flex_model::{DayTable, Feed, Moment, Notice, Prior};
use service_days::{count_back, moment};

// How far ahead the rule wants a booking. Without a rule that is up to the departure.
pub(crate) fn notice_of(feed: &Feed, rule: Option<u32>) -> Notice
    requires feed { IsSoundFeed feed.now }
    requires rule { IfSome rule (λ r. r < length feed.now.rules) }
    ensures notice { IsNoticeOf feed.now rule result }
    ensures sound { IsSoundNotice feed.now result }
{
    match rule {
        Some(r) => feed.rules[r as usize].notice,
        None => Notice::RealTime,
    }
}

// The moment of a time of the day so far back from a travel day. There is none where there is no
// such day, or where the table lacks it.
pub(crate) fn moment_back(
    feed: &Feed,
    days: &DayTable,
    service: Option<u32>,
    day: i32,
    prior: Prior,
) -> Option<Moment>
    requires days { IsSoundDayTable days.now }
    requires day { IsTravelDay days.now day }
    requires service { IfSome service (λ s. s < length feed.now.services) }
    requires prior { IsSoundPrior prior }
    ensures moments { (moment : ℤ) → IsMomentBack feed.now days.now service day prior moment
        ↔ (result ≡ Some moment) }
    ensures low { IfSome result (λ moment. pos 0 ≤ℤ (moment +ℤ pos 100000)) }
    ensures high { IfSome result (λ moment. moment ≤ℤ pos 20000000000) }
{
    let earlier = count_back(feed, service, day, prior.days)?;
    moment(days, earlier, prior.time)
}
