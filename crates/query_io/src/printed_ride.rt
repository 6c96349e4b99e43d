// Writing the line of a ride.

ghost use Rattle.std.specs.Prelude.{◌≡◌, ◌≢◌, ◌<◌, ◌++◌, [], IfSome, OnErr, OnOk, Some, decimal, length, map, slice_get};
ghost use Rattle.std.specs.Option.{option_to_list};
ghost use Rattle.field_text.specs.Grammars.{escape};
ghost use Rattle.query_io.specs.AnswerText.{line, place_text, ride_line, sequence_text, start_words, words_on_trip};
ghost use Rattle.query_io.specs.Printable.{IsPrintablePlace, IsPrintableRide};
ghost use Rattle.query_io.specs.Word.{IsPrintableWord, word_text};

use crate::word::{Word, write_line};
use flex_model::{Feed, NoMemory, Place, Ride, Text, Times, Trip};

/// The id of a stop or a point.
pub fn place_id<'a>(feed: &'a Feed, times: &'a Times, place: Place) -> &'a str
    requires { IsPrintablePlace feed.now times.now place }
    ensures text { place_text feed.now times.now place ≡ escape result.now }
    ensures given { result.now ≢ [] }
{
    match place {
        Place::Stop(s) => feed.stops[s as usize].id.as_str(),
        Place::Point(p) => times.points[p as usize].id.as_str(),
    }
}

/// The `stop_sequence` of the record of a trip that has this place in the order of its records,
/// counted from 0.
pub fn sequence(trip: &Trip, row: u32) -> u64
    requires { row < length trip.now.rows }
    ensures { decimal result ≡ sequence_text trip.now row }
{
    u64::from(trip.rows[row as usize].sequence)
}

/// The word of the start of a ride, in seconds of the service day, where it has one.
pub fn start_word(start: Option<u32>) -> Option<Word<'static>>
    ensures printable { IfSome result IsPrintableWord }
    ensures text { map word_text (option_to_list result) ≡ start_words start }
{
    match start {
        Some(start) => Some(Word::Number(u64::from(start))),
        None => None,
    }
}

// Appends the line of a ride on a trip.
fn write_on_trip<'a>(
    feed: &'a Feed,
    times: &'a Times,
    ride: &Ride,
    trip: &'a Trip,
    into: &mut Text,
) -> Result<(), NoMemory>
    requires printable { IsPrintableRide feed.now times.now ride.now }
    requires of_trip { slice_get feed.now.trips ride.now.trip ≡ Some trip.now }
    ensures ok { OnOk result
        (into.new ≡ into.old ++ line (words_on_trip feed.now times.now ride.now trip.now)) }
    ensures err { OnErr result (into.new ≡ into.old) }
{
    let words = [
        Word::Id(trip.id.as_str()),
        Word::Day(ride.day),
        Word::Number(sequence(trip, ride.from_row)),
        Word::Number(sequence(trip, ride.to_row)),
        Word::Id(place_id(feed, times, ride.board)),
        Word::Id(place_id(feed, times, ride.alight)),
        Word::At(ride.departs),
        Word::At(ride.arrives),
    ];
    write_line("ride", &words, start_word(ride.start), into)
}

// Appends the line of a ride.
pub(crate) fn write_ride(
    feed: &Feed,
    times: &Times,
    ride: &Ride,
    into: &mut Text,
) -> Result<(), NoMemory>
    requires { IsPrintableRide feed.now times.now ride.now }
    ensures ok { OnOk result (into.new ≡ into.old ++ ride_line feed.now times.now ride.now) }
    ensures err { OnErr result (into.new ≡ into.old) }
{
    let trip = &feed.trips[ride.trip as usize];
    write_on_trip(feed, times, ride, trip, into)
}
