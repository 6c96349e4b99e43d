// The texts of answers.

ghost use Rattle.std.specs.Prelude.{◌≡◌, ◌≢◌, [], ◌∷◌, IfOk, false, length};
ghost use Rattle.part_trials.specs.Printed.{HasOneTrip, IsPrinted, one_answer};

use flex_model::{
    Answer, Deadline, Feed, Listed, NoMemory, Place, Position, Query, Repeat, Ride, Row, Spot,
    Stop, Text, Times, Timing, Trip, Triple, Way,
};
use query_io::write_answers;
use std::alloc::Global;
use std::process::Abort;
use std::test::Fail;

fn new_text(alloc: Global, piece: &str) -> Result<Text, NoMemory>
    ensures { IfOk result (λ text. text ≡ piece.now) }
{
    let mut text = Text::new(alloc);
    text.append(piece)?;
    Ok(text)
}

fn new_stop(alloc: Global, id: &str) -> Result<Stop, NoMemory>
    ensures { IfOk result (λ stop. stop.id ≡ id.now) }
{
    Ok(Stop {
        id: new_text(alloc, id)?,
        at: Position { lon: 0, lat: 0 },
        boards: true,
    })
}

fn new_row(sequence: u32, stop: u32, time: u32) -> Row {
    Row {
        sequence,
        spot: Spot::Stop(stop),
        timing: Timing::Times {
            arrives: time,
            departs: time,
        },
        pickup: Way::Free,
        drop_off: Way::Free,
    }
}

// The trip T, with headways or without.
fn new_trip(alloc: Global, repeats: Listed<Repeat>, frequent: bool) -> Result<Trip, NoMemory>
    ensures id { IfOk result (λ trip. trip.id ≢ []) }
    ensures rows { IfOk result (λ trip. length trip.rows ≡ 2) }
    ensures frequent { IfOk result (λ trip. trip.frequent ≡ frequent) }
{
    let mut rows = Listed::new(alloc);
    rows.push(new_row(1, 0, 28_800))?;
    rows.push(new_row(2, 1, 30_000))?;
    Ok(Trip {
        id: new_text(alloc, "T")?,
        service: 0,
        frequent,
        repeats,
        rows,
    })
}

fn new_feed(alloc: Global, trip: Trip) -> Result<Feed, NoMemory>
    requires id { trip.id ≢ [] }
    requires rows { length trip.rows ≡ 2 }
    ensures { IfOk result (HasOneTrip trip.frequent) }
{
    let mut stops = Listed::new(alloc);
    stops.push(new_stop(alloc, "M")?)?;
    stops.push(new_stop(alloc, "N")?)?;
    let mut trips = Listed::new(alloc);
    trips.push(trip)?;
    Ok(Feed {
        stops,
        zones: Listed::new(alloc),
        groups: Listed::new(alloc),
        services: Listed::new(alloc),
        rules: Listed::new(alloc),
        trips,
        changes: Listed::new(alloc),
    })
}

fn new_times(alloc: Global) -> Times {
    Times {
        points: Listed::new(alloc),
        direct: Listed::new(alloc),
        walks: Listed::new(alloc),
    }
}

fn new_query(alloc: Global, id: &str, walking: bool) -> Result<Query, NoMemory>
    ensures id { IfOk result (λ query. query.id ≡ id.now) }
    ensures walking { IfOk result (λ query. query.walking ≡ walking) }
{
    Ok(Query {
        id: new_text(alloc, id)?,
        origin: Place::Stop(0),
        destination: Place::Stop(1),
        depart: 1_749_022_200,
        now: 1_748_952_000,
        transfers: 0,
        horizon: 60,
        walking,
    })
}

// From M at 08:00:00 to N at 08:20:00 on 4 June 2025.
const RIDE: Ride = Ride {
    trip: 0,
    day: 20_243,
    start: None,
    from_row: 0,
    to_row: 1,
    board: Place::Stop(0),
    alight: Place::Stop(1),
    departs: 1_749_024_000,
    arrives: 1_749_025_200,
};

// The ride that starts at 08:05:00.
const LATER_RIDE: Ride = Ride {
    start: Some(29_100),
    departs: 1_749_024_300,
    arrives: 1_749_025_500,
    ..RIDE
};

fn new_answers(alloc: Global, ride: Ride, walk: u32) -> Result<Listed<Answer>, NoMemory>
    ensures { IfOk result (λ answers. answers ≡ one_answer ride walk ∷ []) }
{
    let mut rides = Listed::new(alloc);
    rides.push(ride)?;
    let mut answers = Listed::new(alloc);
    answers.push(Answer {
        triple: Triple {
            deadline: Deadline::Never,
            arrival: ride.arrives,
            transfers: 0,
            walk,
        },
        rides,
    })?;
    Ok(answers)
}

// Asserts the text of a query with one answer, whose journey is this ride with this walk.
fn assert_text(
    rt: &impl Abort,
    alloc: Global,
    feed: &Feed,
    query: &Query,
    ride: Ride,
    walk: u32,
    wanted: &str,
) -> Result<(), Fail>
    requires id { query.now.id ≢ [] }
    requires ride { IsPrinted feed.now ride }
    requires walk { query.now.walking ≡ false → walk ≡ 0 }
{
    let times = new_times(alloc);
    let answers = new_answers(alloc, ride, walk)?;
    let mut text = Text::new(alloc);
    write_answers(feed, &times, query, &answers, &mut text)?;
    assert_eq!(rt; text.as_str(), wanted);
    Ok(())
}

#[test]
fn a_journey_of_one_ride_is_printed(rt: HostRuntime) -> Result<(), Fail> {
    let trip = new_trip(rt.alloc(), Listed::new(rt.alloc()), false)?;
    let feed = new_feed(rt.alloc(), trip)?;
    let query = new_query(rt.alloc(), "q1", false)?;
    assert_text(
        &rt,
        rt.alloc(),
        &feed,
        &query,
        RIDE,
        0,
        "query q1 1\njourney never 2025-06-04T08:20:00Z 0\n\
         ride T 20250604 1 2 M N 2025-06-04T08:00:00Z 2025-06-04T08:20:00Z\n",
    )
}

#[test]
fn the_walk_of_a_journey_is_printed(rt: HostRuntime) -> Result<(), Fail> {
    let trip = new_trip(rt.alloc(), Listed::new(rt.alloc()), false)?;
    let feed = new_feed(rt.alloc(), trip)?;
    let query = new_query(rt.alloc(), "q1", true)?;
    assert_text(
        &rt,
        rt.alloc(),
        &feed,
        &query,
        RIDE,
        1_500,
        "query q1 1 walking\njourney never 2025-06-04T08:20:00Z 0 1500\n\
         ride T 20250604 1 2 M N 2025-06-04T08:00:00Z 2025-06-04T08:20:00Z\n",
    )
}

// The trip runs every ten minutes, first at 08:05:00.
#[test]
fn the_start_of_a_repeated_trip_is_printed(rt: HostRuntime) -> Result<(), Fail> {
    let mut repeats = Listed::new(rt.alloc());
    repeats.push(Repeat {
        first: 29_100,
        end: 30_600,
        headway: 600,
    })?;
    let trip = new_trip(rt.alloc(), repeats, true)?;
    let feed = new_feed(rt.alloc(), trip)?;
    let query = new_query(rt.alloc(), "q1", false)?;
    assert_text(
        &rt,
        rt.alloc(),
        &feed,
        &query,
        LATER_RIDE,
        0,
        "query q1 1\njourney never 2025-06-04T08:25:00Z 0\n\
         ride T 20250604 1 2 M N 2025-06-04T08:05:00Z 2025-06-04T08:25:00Z 29100\n",
    )
}

#[test]
fn no_journeys_are_printed_after_what_stands(rt: HostRuntime) -> Result<(), Fail> {
    let trip = new_trip(rt.alloc(), Listed::new(rt.alloc()), false)?;
    let feed = new_feed(rt.alloc(), trip)?;
    let times = new_times(rt.alloc());
    let answers = Listed::new(rt.alloc());
    let mut text = Text::new(rt.alloc());
    let first = new_query(rt.alloc(), "q1", false)?;
    write_answers(&feed, &times, &first, &answers, &mut text)?;
    let second = new_query(rt.alloc(), "Høj 5%", true)?;
    write_answers(&feed, &times, &second, &answers, &mut text)?;
    assert_eq!(rt;
        text.as_str(),
        "query q1 0\nquery H%C3%B8j%205%25 0 walking\n"
    );
    Ok(())
}
