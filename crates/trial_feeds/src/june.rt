// Moments, and the service days around 4 June 2025.

ghost use Rattle.std.specs.Prelude.{IfOk};
ghost use Rattle.flex_model.specs.SoundQuery.{IsSoundDayTable};

use flex_model::{DayTable, Moment};
use service_days::{ZoneForm, day_table, read_zone};
use std::alloc::Global;
use std::test::Fail;

/// 2025-06-04T08:00:00Z.
pub const EIGHT: Moment = 1_749_024_000;

/// 2025-06-03T17:00:00Z.
pub const DAY_BEFORE: Moment = 1_748_970_000;

/// The days around 4 June 2025 in UTC, of which those from 19 May to 9 June are travel days.
pub fn june_days(alloc: Global) -> Result<DayTable, Fail>
    ensures { IfOk result IsSoundDayTable }
{
    let zone = read_zone(alloc, b"UTC0", ZoneForm::Posix)?;
    Ok(day_table(alloc, &zone, EIGHT)?)
}
