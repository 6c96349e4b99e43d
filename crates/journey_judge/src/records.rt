// The trip and the two records of a ride.

ghost use Rattle.std.specs.Prelude.{◌≡◌, ◌≢◌, ◌↔◌, IsTrue, MatchOption, Some, slice_get};
ghost use Rattle.std.specs.Option.{option_copied};
ghost use Rattle.flex_model.specs.Flaw.{IsBetween, OnRecords, OnTrip};
ghost use Rattle.flex_model.specs.Place.{Serves};
ghost use Rattle.flex_model.specs.Ride.{RunsOn};
ghost use Rattle.flex_model.specs.SoundFeed.{IsSoundFeed};
ghost use Rattle.flex_model.specs.SoundTimes.{AreSoundTimes};
ghost use Rattle.flex_model.specs.declared.trip.Row.{Row};
ghost use Rattle.flex_model.specs.declared.trip.Trip.{Trip};
ghost use Rattle.flex_model.specs.declared.trip.Way.TheVariants.{No};

use flex_model::{Feed, Place, Ride, Row, Service, Spot, Times, Trip, Way};
use service_days::active;
use zone_test::serves;

/// A trip, with the records of it where a ride is boarded and left.
#[derive(Drop)]
pub struct Records<'a> {
    /// The trip.
    pub trip: &'a Trip,
    /// Where the ride is boarded.
    pub boarding: Row,
    /// Where it is left.
    pub alighting: Row,
}

/// The ride's trip.
pub fn trip_of<'a>(feed: &'a Feed, ride: &Ride) -> Option<&'a Trip>
    ensures { option_copied result ≡ slice_get feed.now.trips ride.now.trip }
{
    feed.trips.get(ride.trip as usize)
}

// The record of the trip that has the number.
fn row_at(trip: &Trip, number: u32) -> Option<Row>
    ensures { result ≡ slice_get trip.now.rows number }
{
    trip.rows.get(number as usize).copied()
}

/// The ride's trip and records. There are none where the feed lacks the trip or the trip one of the
/// records, or where the latter isn't after the former.
pub fn records_of<'a>(feed: &'a Feed, ride: &Ride) -> Option<Records<'a>>
    ensures { MatchOption result
        ((trip : Trip) (boarding alighting : Row)
        → IsBetween feed.now ride.now trip boarding alighting → ⊥)
        (λ records.
        IsBetween feed.now ride.now records.trip.now records.boarding records.alighting) }
{
    let Some(trip) = trip_of(feed, ride) else {
        return None;
    };
    let Some(boarding) = row_at(trip, ride.from_row) else {
        return None;
    };
    let Some(alighting) = row_at(trip, ride.to_row) else {
        return None;
    };
    if ride.to_row <= ride.from_row {
        return None;
    }
    Some(Records {
        trip,
        boarding,
        alighting,
    })
}

// The trip's service.
fn service_of<'a>(feed: &'a Feed, trip: &Trip) -> Option<&'a Service>
    ensures { option_copied result ≡ slice_get feed.now.services trip.now.service }
{
    feed.services.get(trip.service as usize)
}

// Whether the trip's service runs on the day.
fn runs_on(feed: &Feed, trip: &Trip, day: i32) -> bool
    ensures { IsTrue result ↔ RunsOn feed.now trip.now day }
{
    let Some(service) = service_of(feed, trip) else {
        return false;
    };
    active(service, day)
}

/// Whether the service of the ride's trip runs on the ride's day.
pub fn is_active_then(feed: &Feed, ride: &Ride) -> bool
    ensures { IsTrue result ↔ OnTrip feed.now ride.now (λ trip. RunsOn feed.now trip ride.now.day) }
{
    let Some(trip) = trip_of(feed, ride) else {
        return false;
    };
    runs_on(feed, trip, ride.day)
}

// Whether one may board or alight at a record that names this.
fn allows(way: Way) -> bool
    ensures { IsTrue result ↔ (way ≢ No) }
{
    match way {
        Way::No => false,
        Way::Free | Way::Book(_) => true,
    }
}

// Whether one may board or alight at the place, at a record that names this.
fn is_open(feed: &Feed, times: &Times, way: Way, spot: Spot, place: Place) -> bool
    requires feed { IsSoundFeed feed.now }
    requires times { AreSoundTimes feed.now times.now }
    ensures { IsTrue result ↔ (Serves feed.now times.now spot place × (way ≢ No)) }
{
    if !allows(way) {
        return false;
    }
    serves(feed, times, spot, place)
}

/// Whether the ride can be boarded at its place.
pub fn is_boarded(feed: &Feed, times: &Times, ride: &Ride) -> bool
    requires feed { IsSoundFeed feed.now }
    requires times { AreSoundTimes feed.now times.now }
    ensures { IsTrue result ↔ OnRecords feed.now ride.now (λ trip boarding alighting.
        Serves feed.now times.now boarding.spot ride.now.board × (boarding.pickup ≢ No)) }
{
    let Some(records) = records_of(feed, ride) else {
        return false;
    };
    let boarding = records.boarding;
    is_open(feed, times, boarding.pickup, boarding.spot, ride.board)
}

/// Whether the ride can be left at its place.
pub fn is_alighted(feed: &Feed, times: &Times, ride: &Ride) -> bool
    requires feed { IsSoundFeed feed.now }
    requires times { AreSoundTimes feed.now times.now }
    ensures { IsTrue result ↔ OnRecords feed.now ride.now (λ trip boarding alighting.
        Serves feed.now times.now alighting.spot ride.now.alight × (alighting.drop_off ≢ No)) }
{
    let Some(records) = records_of(feed, ride) else {
        return false;
    };
    let alighting = records.alighting;
    is_open(feed, times, alighting.drop_off, alighting.spot, ride.alight)
}
