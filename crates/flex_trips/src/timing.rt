// The rides of a day whose records have a window.

ghost use Rattle.std.specs.Prelude.{◌≡◌, ◌↔◌, ◌<◌, ◌≤ℤ◌, ◌+ℤ◌, pos, IfSome};
ghost use Rattle.flex_model.specs.Ride.{HasTimes};
ghost use Rattle.flex_model.specs.Run.{IsInRuns};
ghost use Rattle.flex_model.specs.SoundQuery.{IsSoundDayTable};
ghost use Rattle.flex_model.specs.Times.{AreRisingTimes};
ghost use Rattle.flex_model.specs.declared.ride.Ride.{Ride};
ghost use Rattle.flex_trips.specs.Windows.{HasTiming, arrival_of};

use crate::departures::departures_of;
use flex_model::{Arrives, DayTable, Moment, Place, Run, Times, Timing, direct};
use service_days::begin;

// The moment of a second of the day, which begins then.
fn moment_of(base: Moment, second: u32) -> Moment
    requires low { pos 0 ≤ℤ (base +ℤ pos 100000) }
    requires high { base ≤ℤ pos 10000000000 }
    ensures value { result ≡ base +ℤ pos second }
    ensures low { pos 0 ≤ℤ (result +ℤ pos 100000) }
    ensures high { result ≤ℤ pos 20000000000 }
{
    base + i64::from(second)
}

// When rides of so many seconds arrive at the record, on a day that begins then.
fn arrival(base: Moment, seconds: u32, alighting: Timing) -> Arrives
    requires low { pos 0 ≤ℤ (base +ℤ pos 100000) }
    requires high { base ≤ℤ pos 10000000000 }
    ensures { result ≡ arrival_of base seconds alighting }
{
    match alighting {
        Timing::Times { arrives, .. } => Arrives::At(moment_of(base, arrives)),
        Timing::Window { .. } => Arrives::After(seconds),
    }
}

/// The rides of the day between the two places that leave and arrive as the records say, without a
/// start.
pub(crate) fn timed_run(
    times: &Times,
    days: &DayTable,
    day: i32,
    board: Place,
    alight: Place,
    boarding: Timing,
    alighting: Timing,
) -> Option<Run>
    requires times { AreRisingTimes times.now }
    requires days { IsSoundDayTable days.now }
    requires window { HasTimes boarding × HasTimes alighting → ⊥ }
    ensures rides { (ride : Ride) → ride.day ≡ day → ride.board ≡ board → ride.alight ≡ alight
        → IsInRuns result ride.departs ride.arrives
        ↔ HasTiming times.now days.now ride boarding alighting }
    ensures some { IfSome result (λ run. 0 < run.count) }
{
    let base = begin(days, day)?;
    let seconds = direct(times, board, alight)?;
    let departures = departures_of(seconds, boarding, alighting)?;
    Some(Run {
        first: moment_of(base, departures.first),
        count: departures.count,
        arrives: arrival(base, seconds, alighting),
    })
}
