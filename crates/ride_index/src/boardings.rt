// Offers of the rides that board at a record and go from or to a window.

ghost use Rattle.std.specs.Prelude.{◌≡◌, ◌↔◌, ◌<◌, All, IsTrue, OnOk};
ghost use Rattle.flex_model.specs.declared.trip.Row.{Row};
ghost use Rattle.flex_model.specs.Ride.{HasTimes};
ghost use Rattle.ride_index.specs.Legs.{AreAtRecords, BoardsAt, BoardsOn, BoardsWith, BoardsWithAny, HasRecord, IsWindowRide, RunsThen, leg_from};
ghost use Rattle.ride_index.specs.OfferedRuns.{GainsOffersOf, IsSoundWanted};

use crate::active_days::day_after;
use crate::departure::Departure;
use crate::departures::DepartureList;
use crate::offered_run::OfferedRun;
use crate::rides::running_base;
use crate::times::END_OF_TIMES;
use crate::wanted::Wanted;
use crate::windows::{add_offers_to_row, may_leave};
use flex_model::{NoMemory, Ride, Row, Timing, Way};
use freq_trips::is_timed;
use service_days::first_travel_day;

// Whether neither has a window.
fn are_timed(boarding: Timing, alighting: Timing) -> bool
    ensures { IsTrue result ↔ (HasTimes boarding × HasTimes alighting) }
{
    is_timed(boarding) && is_timed(alighting)
}

// The leg from the departure on the day to the record with this number, to no other place yet.
fn leg_of(wanted: &Wanted<'_>, departure: &Departure, day: i32, to_row: u32) -> Ride
    ensures { result ≡ leg_from wanted.now departure.now day to_row }
{
    Ride {
        trip: departure.trip,
        day,
        start: None,
        from_row: departure.row,
        to_row,
        board: wanted.place,
        alight: wanted.place,
        departs: 0,
        arrives: 0,
    }
}

// Adds the offers of rides of the day from the departure to a later record, where one of the two has
// a window.
fn add_offers_between(
    wanted: &Wanted<'_>,
    departure: &Departure,
    day: i32,
    boarding: &Row,
    alighting: &Row,
    to_row: u32,
    into: &mut Vec<OfferedRun>,
) -> Result<(), NoMemory>
    requires wanted { IsSoundWanted wanted.now }
    requires runs { RunsThen wanted.now departure.now.trip day }
    requires boarding { HasRecord wanted.now.feed.now departure.now.trip departure.now.row
        boarding.now }
    requires alighting { HasRecord wanted.now.feed.now departure.now.trip to_row alighting.now }
    ensures { OnOk result (GainsOffersOf (λ ride deadline. IsWindowRide wanted.now ride deadline
        × BoardsOn departure.now.trip departure.now.row day ride × (ride.to_row ≡ to_row))
        into.old.items into.new.items) }
{
    if alighting.drop_off == Way::No {
        return Ok(());
    }
    if are_timed(boarding.timing, alighting.timing) {
        return Ok(());
    }
    let leg = leg_of(wanted, departure, day, to_row);
    add_offers_to_row(wanted, &leg, into)?;
    Ok(())
}

// Adds the offers of rides of the day with the departure from or to a window, where its trip runs.
fn add_offers_to_rows(
    wanted: &Wanted<'_>,
    departure: &Departure,
    day: i32,
    into: &mut Vec<OfferedRun>,
) -> Result<(), NoMemory>
    requires wanted { IsSoundWanted wanted.now }
    requires runs { RunsThen wanted.now departure.now.trip day }
    requires departure { (row : Row)
        × HasRecord wanted.now.feed.now departure.now.trip departure.now.row row }
    ensures { OnOk result (GainsOffersOf (λ ride deadline. IsWindowRide wanted.now ride deadline
        × BoardsOn departure.now.trip departure.now.row day ride)
        into.old.items into.new.items) }
{
    let trip = &wanted.feed.trips[departure.trip as usize];
    let rows = trip.rows.as_slice();
    let boarding = &rows[departure.row as usize];
    for to_row in departure.row as usize + 1..rows.len() {
        add_offers_between(
            wanted,
            departure,
            day,
            boarding,
            &rows[to_row],
            to_row as u32,
            into,
        )?;
    }
    Ok(())
}

// Adds the offers of rides of the day with the departure from or to a window. Where its trip doesn't
// run on the day, or one can't leave the record between the two moments, nothing else is looked at.
fn add_offers_on_day(
    wanted: &Wanted<'_>,
    departure: &Departure,
    day: i32,
    into: &mut Vec<OfferedRun>,
) -> Result<(), NoMemory>
    requires wanted { IsSoundWanted wanted.now }
    requires departure { (row : Row)
        × HasRecord wanted.now.feed.now departure.now.trip departure.now.row row }
    ensures { OnOk result (GainsOffersOf (λ ride deadline. IsWindowRide wanted.now ride deadline
        × BoardsOn departure.now.trip departure.now.row day ride)
        into.old.items into.new.items) }
{
    let trip = &wanted.feed.trips[departure.trip as usize];
    let Some(base) = running_base(wanted.feed, wanted.days, wanted.active, trip, day) else {
        return Ok(());
    };
    let boarding = trip.rows[departure.row as usize].timing;
    if !may_leave(base, boarding, wanted.earliest, wanted.limit) {
        return Ok(());
    }
    add_offers_to_rows(wanted, departure, day, into)?;
    Ok(())
}

// Adds the offers of rides with the departure from or to a window, on all travel days.
fn add_offers_with(
    wanted: &Wanted<'_>,
    departure: &Departure,
    into: &mut Vec<OfferedRun>,
) -> Result<(), NoMemory>
    requires wanted { IsSoundWanted wanted.now }
    requires departure { (row : Row)
        × HasRecord wanted.now.feed.now departure.now.trip departure.now.row row }
    ensures { OnOk result (GainsOffersOf (λ ride deadline. IsWindowRide wanted.now ride deadline
        × BoardsAt departure.now.trip departure.now.row ride) into.old.items into.new.items) }
{
    let first = first_travel_day(wanted.days);
    for ahead in 0..22_u32 {
        add_offers_on_day(wanted, departure, day_after(first, ahead), into)?;
    }
    Ok(())
}

// Adds the offers of rides with these departures from or to a window.
fn add_offers_of(
    wanted: &Wanted<'_>,
    departures: &[Departure],
    into: &mut Vec<OfferedRun>,
) -> Result<(), NoMemory>
    requires wanted { IsSoundWanted wanted.now }
    requires departures { AreAtRecords wanted.now.feed.now departures.now }
    ensures { OnOk result (GainsOffersOf (λ ride deadline. IsWindowRide wanted.now ride deadline
        × BoardsWithAny departures.now ride) into.old.items into.new.items) }
{
    for departure in departures {
        add_offers_with(wanted, departure, into)?;
    }
    Ok(())
}

// Adds the offers of rides from or to a window with the departures of the list that name this.
pub(crate) fn add_offers_at(
    wanted: &Wanted<'_>,
    departures: &DepartureList,
    named: u32,
    into: &mut Vec<OfferedRun>,
) -> Result<(), NoMemory>
    requires wanted { IsSoundWanted wanted.now }
    requires departures { AreAtRecords wanted.now.feed.now departures.now }
    requires times { All (λ departure. departure.departs < 604800) departures.now }
    ensures { OnOk result (GainsOffersOf (λ ride deadline. IsWindowRide wanted.now ride deadline
        × BoardsWith departures.now named ride) into.old.items into.new.items) }
{
    add_offers_of(wanted, departures.between(named, 0, END_OF_TIMES), into)?;
    Ok(())
}
