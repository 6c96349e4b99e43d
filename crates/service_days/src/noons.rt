// The bases of a zone's days.

ghost use Rattle.std.specs.Prelude.{◌≡◌, ◌≤◌, ◌≤ℤ◌, ◌-ℤ◌, ◌*ℤ◌, pos, unsigned_abs, IfOk};
ghost use Rattle.jiff.specs.Words.{epoch_day, plain_zone};
ghost use Rattle.service_days.specs.Bases.{IsZone, first_day};
ghost use Rattle.service_days.specs.Noons.{HasBasesOf, IsBaseIn};

use crate::zone::{DAY_COUNT, FIRST_DAY};
use flex_model::{Listed, Moment, NoMemory};
use jiff::civil::Date;
use jiff::tz::{Disambiguation, TimeZone};
use jiff::{Timestamp, civil};
use std::alloc::Global;

// The base of a day in a zone.
fn base_of(zone: &TimeZone<'_>, date: Date) -> Moment
    requires low { pos first_day ≤ℤ epoch_day date }
    requires high { epoch_day date ≤ℤ pos 84010 }
    ensures base { IsBaseIn (plain_zone zone.now) (epoch_day date) result }
    ensures near { unsigned_abs (result -ℤ (pos 86400 *ℤ epoch_day date)) ≤ 93599 }
{
    let noon = date.to_datetime(civil::time(12, 0, 0, 0));
    let moment = zone
        .to_ambiguous_timestamp(noon)
        .disambiguate(Disambiguation::Compatible)
        .unwrap();
    moment.as_second() - 43_200
}

// The date of a day.
fn date_of(day: i64) -> Date
    requires low { pos first_day ≤ℤ day }
    requires high { day ≤ℤ pos 84010 }
    ensures { epoch_day result ≡ day }
{
    let midnight = Timestamp::from_second(day * 86_400).unwrap();
    TimeZone::UTC.to_datetime(midnight).date()
}

// The bases of a zone's days, in order.
pub(crate) fn zone_bases(alloc: Global, zone: &TimeZone<'_>) -> Result<Listed<i64>, NoMemory>
    ensures bases { IfOk result (HasBasesOf (plain_zone zone.now)) }
    ensures zone { IfOk result IsZone }
{
    let mut bases = Listed::new(alloc);
    for index in 0..DAY_COUNT {
        bases.push(base_of(zone, date_of(i64::from(FIRST_DAY + index))))?;
    }
    Ok(bases)
}
