// The bases of a zone's days, and the day table of a departure.

ghost use Rattle.std.specs.Prelude.{◌≡◌, ◌+◌, ◌<◌, ◌≤◌, pos, IfOk, Some, slice_get};
ghost use Rattle.flex_model.specs.declared.query.Query.{Query};
ghost use Rattle.flex_model.specs.SoundQuery.{IsDayTableOf, IsQueryMoment, IsSoundDayTable};
ghost use Rattle.service_days.specs.Bases.{IsZone, base_of_noon, day_count, first_day, table_first, table_of, utc_bases, utc_noon};

use flex_model::limits::{TABLE_DAYS, TABLE_DAYS_BEFORE};
use flex_model::{DayTable, Listed, Moment, NoMemory};
use std::alloc::Global;
use std::marker::Model;

// The first day of a zone, and how many days it has.
pub(crate) const FIRST_DAY: u32 = 5_785;

pub(crate) const DAY_COUNT: u32 = 78_226;

/// A time zone, by the begins of its service days: the moments 12 hours before noon, from day 5,785 since 1970-01-01
/// to day 84,010. These are the days of the tables of all departures of the years 1990 to 2199.
#[derive(Drop)]
pub struct ZoneValue {
    // UTC has no list.
    given: Option<Listed<i64>>,
}

impl Model for ZoneValue {
    ghost use Rattle.std.specs.Prelude.{List, ℤ};
    ghost use Rattle.service_days.specs.Bases.{IsZone};
    ghost use Rattle.service_days.specs.Given.{bases_of};

    ghost Value = { List ℤ };

    ghost view = { λ zone. bases_of zone.given };

    ghost invariant = { λ zone. IsZone (bases_of zone.given) };
}

/// The zone UTC, which takes no memory.
pub(crate) fn utc_zone() -> ZoneValue
    ensures { result ≡ utc_bases }
{
    ZoneValue { given: None }
}

impl ZoneValue {
    // The zone with these bases.
    pub(crate) fn of_bases(bases: Listed<i64>) -> ZoneValue
        requires { IsZone bases }
        ensures { result ≡ bases }
    {
        ZoneValue { given: Some(bases) }
    }

    // The base of the day at a index.
    fn base_at(&self, index: usize) -> Moment
        requires { index < day_count }
        ensures { slice_get self.now index ≡ Some result }
    {
        match &self.given {
            Some(bases) => bases[index],
            None => utc_base(FIRST_DAY + index as u32),
        }
    }
}

// The base of a day in UTC.
fn utc_base(day: u32) -> Moment
    ensures { result ≡ base_of_noon (utc_noon (pos day)) }
{
    i64::from(day) * 86_400 + 43_200 - 43_200
}

// The first day of a departure's table.
fn first_of(depart: Moment) -> u32
    requires { IsQueryMoment depart }
    ensures day { pos result ≡ table_first depart }
    ensures low { first_day ≤ result }
    ensures high { result + 1526 ≤ first_day + day_count }
{
    (depart as u64 / 86_400) as u32 - TABLE_DAYS_BEFORE
}

/// The begins of the service days from 1,520 days before the departure's day to 5 days after it. The departure's
/// day is that of UTC.
pub fn day_table(alloc: Global, zone: &ZoneValue, depart: Moment) -> Result<DayTable, NoMemory>
    requires { IsQueryMoment depart }
    ensures table { IfOk result (λ days. days ≡ table_of zone.now depart) }
    ensures of_query { IfOk result (λ days. (query : Query) → query.depart ≡ depart
        → IsDayTableOf query days) }
    ensures sound { IfOk result IsSoundDayTable }
{
    let _given = &zone.given;
    let first = first_of(depart);
    let start = (first - FIRST_DAY) as usize;
    let mut base = Listed::new(alloc);
    for index in start..start + TABLE_DAYS {
        base.push(zone.base_at(index))?;
    }
    Ok(DayTable {
        first: first as i32,
        base,
    })
}
