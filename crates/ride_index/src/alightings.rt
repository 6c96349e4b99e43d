// Where rides that were boarded alight at records with times.

ghost use Rattle.std.specs.Prelude.{◌≡◌, ◌↔◌, ◌⊎◌, ◌+ℤ◌, ◌≤ℤ◌, ◌<ℤ◌, ◌<◌, ◌^◌, ℕ, pos, Contains, IsTrue, OnOk, Some, length};
ghost use Rattle.flex_model.specs.declared.ride.Ride.{Ride};
ghost use Rattle.ride_index.specs.TimedRides.{AlightsAt, AreSoundRows, IsAlighting, IsReachedAt, IsZero};

use flex_model::{Moment, NoMemory, Place, Ride, Row, Spot, Timing, Way};

// A stop, and when it is reached, in seconds of the service day.
#[derive(Clone, Copy)]
struct StopTime {
    stop: u32,
    arrives: u32,
}

// The stop and the arrival of a record with times.
fn stop_time(row: &Row) -> Option<StopTime>
    ensures { (stop arrives : ℕ) → (result ≡ Some (record { stop = stop; arrives = arrives }))
        ↔ IsReachedAt row.now stop arrives }
{
    let Spot::Stop(stop) = row.spot else {
        return None;
    };
    let Timing::Times { arrives, .. } = row.timing else {
        return None;
    };
    Some(StopTime { stop, arrives })
}

// The moment of a time of the service day, which counts from the moment zero.
pub(crate) fn moment_after(zero: Moment, time: u32) -> Moment
    requires { IsZero zero }
    ensures { result ≡ zero +ℤ pos time }
{
    zero + i64::from(time)
}

// Whether the record has times and is reached after the limit.
fn is_late(row: &Row, zero: Moment, limit: Moment) -> bool
    requires { IsZero zero }
    ensures { IsTrue result ↔ ((stop arrives : ℕ) × IsReachedAt row.now stop arrives
        × (limit <ℤ (zero +ℤ pos arrives))) }
{
    let Some(at) = stop_time(row) else {
        return false;
    };
    if limit < moment_after(zero, at.arrives) {
        return true;
    }
    false
}

// The ride that was boarded, where it can alight at the record.
fn ride_to(row: &Row, boarded: &Ride, zero: Moment, to_row: u32) -> Option<Ride>
    requires { IsZero zero }
    ensures { (ride : Ride) → (result ≡ Some ride)
        ↔ AlightsAt row.now boarded.now zero to_row ride }
{
    if row.drop_off == Way::No {
        return None;
    }
    let Some(at) = stop_time(row) else {
        return None;
    };
    Some(Ride {
        to_row,
        alight: Place::Stop(at.stop),
        arrives: moment_after(zero, at.arrives),
        ..*boarded
    })
}

// Adds the ride, if there is one.
fn add_some(ride: Option<Ride>, found: &mut Vec<Ride>) -> Result<(), NoMemory>
    ensures { OnOk result ((x : Ride) → Contains found.new.items x
        ↔ (Contains found.old.items x ⊎ (ride ≡ Some x))) }
{
    let Some(ride) = ride else {
        return Ok(());
    };
    found.push(ride)?;
    Ok(())
}

// Adds the ride that was boarded once for each later record with times at which it can alight by
// the limit. Times of the trip count from the moment zero. They don't fall along the trip, so that
// none after one past the limit is looked at.
pub(crate) fn add_alightings(
    rows: &[Row],
    boarded: &Ride,
    zero: Moment,
    limit: Moment,
    found: &mut Vec<Ride>,
) -> Result<(), NoMemory>
    requires rows { AreSoundRows rows.now }
    requires few { length rows.now < 2 ^ 32 }
    requires zero { IsZero zero }
    ensures { OnOk result ((ride : Ride) → Contains found.new.items ride
        ↔ (Contains found.old.items ride
        ⊎ IsAlighting rows.now boarded.now zero limit ride)) }
{
    for to_row in boarded.from_row as usize + 1..rows.len() {
        let row = &rows[to_row];
        if is_late(row, zero, limit) {
            return Ok(());
        }
        add_some(ride_to(row, boarded, zero, to_row as u32), found)?;
    }
    Ok(())
}
