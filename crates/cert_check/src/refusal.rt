// Writing the line by which a part of a certificate is refused.

ghost use Rattle.std.specs.Prelude.{◌≡◌, ◌∷◌, ◌++◌, [], OnErr, OnOk, Some, codes, decimal, drop, slice_get};
ghost use Rattle.field_text.specs.Texts.{IsPrintableMoment};
ghost use Rattle.query_io.specs.AnswerText.{words_on_trip};
ghost use Rattle.query_io.specs.Printable.{IsPrintableDeadline, IsPrintableRide};
ghost use Rattle.cert_check.specs.RefusalText as Lines;
ghost use Rattle.cert_check.specs.RefusalText.{IsPrintableReason, journey_flaw_words, refusal_line};
ghost use Rattle.cert_check.specs.RefusalText.{refused_line, triple_words, words_of_ride};

use crate::reason::Reason;
use bound_cert::CertPart;
use flex_model::{Feed, JourneyFlaw, NoMemory, Query, Ride, RideFlaw, Text, Times, Trip, Triple};
use query_io::{Word, place_id, sequence, start_word, word_if, write_line};

// Appends the line of a reason that has one number.
fn write_one_number(number: u64, name: &str, first: u64, into: &mut Text) -> Result<(), NoMemory>
    ensures ok { OnOk result
        (into.new ≡ into.old ++ refused_line number (name.now ∷ decimal first ∷ [])) }
    ensures err { OnErr result (into.new ≡ into.old) }
{
    let words = [Word::Number(number), Word::Plain(name), Word::Number(first)];
    write_line("refused", &words, None, into)
}

// Appends the line of a reason that has two numbers.
fn write_two_numbers(
    number: u64,
    name: &str,
    first: u64,
    second: u64,
    into: &mut Text,
) -> Result<(), NoMemory>
    ensures ok { OnOk result (into.new ≡ into.old
        ++ refused_line number (name.now ∷ decimal first ∷ decimal second ∷ [])) }
    ensures err { OnErr result (into.new ≡ into.old) }
{
    let words = [
        Word::Number(number),
        Word::Plain(name),
        Word::Number(first),
        Word::Number(second),
    ];
    write_line("refused", &words, None, into)
}

// Appends the line of an answer whose rides fail a test as a whole.
fn write_flaw(number: u64, answer: u64, flaw: &str, into: &mut Text) -> Result<(), NoMemory>
    ensures ok { OnOk result (into.new ≡ into.old
        ++ refused_line number (codes "JOURNEY" ∷ decimal answer ∷ flaw.now ∷ [])) }
    ensures err { OnErr result (into.new ≡ into.old) }
{
    let words = [
        Word::Number(number),
        Word::Plain("JOURNEY"),
        Word::Number(answer),
        Word::Plain(flaw),
    ];
    write_line("refused", &words, None, into)
}

// Appends the line of an answer of which the ride with this number fails a test.
fn write_flaw_at(
    number: u64,
    answer: u64,
    flaw: &str,
    ride: u32,
    into: &mut Text,
) -> Result<(), NoMemory>
    ensures ok { OnOk result (into.new ≡ into.old
        ++ refused_line number (codes "JOURNEY" ∷ decimal answer ∷ flaw.now ∷ decimal ride ∷ [])) }
    ensures err { OnErr result (into.new ≡ into.old) }
{
    let words = [
        Word::Number(number),
        Word::Plain("JOURNEY"),
        Word::Number(answer),
        Word::Plain(flaw),
        Word::Number(u64::from(ride)),
    ];
    write_line("refused", &words, None, into)
}

// The word for the test that a ride fails.
fn ride_flaw_word(flaw: RideFlaw) -> &'static str
    ensures { result.now ≡ Lines.ride_flaw_word flaw }
{
    match flaw {
        RideFlaw::NoTrip => "NO_TRIP",
        RideFlaw::NoRow => "NO_ROW",
        RideFlaw::NoDay => "NO_DAY",
        RideFlaw::NotActive => "NOT_ACTIVE",
        RideFlaw::Frequent => "FREQUENT",
        RideFlaw::NotBoarded => "NOT_BOARDED",
        RideFlaw::NotAlighted => "NOT_ALIGHTED",
        RideFlaw::WrongDeparture => "WRONG_DEPARTURE",
        RideFlaw::NoDirect => "NO_DIRECT",
        RideFlaw::WrongArrival => "WRONG_ARRIVAL",
    }
}

// Appends the line of an answer of which the ride with this number isn't permitted.
fn write_ride_flaw(
    number: u64,
    answer: u64,
    ride: u32,
    flaw: RideFlaw,
    into: &mut Text,
) -> Result<(), NoMemory>
    ensures ok { OnOk result (into.new ≡ into.old ++ refused_line number (codes "JOURNEY"
        ∷ decimal answer ∷ codes "RIDE" ∷ decimal ride ∷ Lines.ride_flaw_word flaw ∷ [])) }
    ensures err { OnErr result (into.new ≡ into.old) }
{
    let words = [
        Word::Number(number),
        Word::Plain("JOURNEY"),
        Word::Number(answer),
        Word::Plain("RIDE"),
        Word::Number(u64::from(ride)),
        Word::Plain(ride_flaw_word(flaw)),
    ];
    write_line("refused", &words, None, into)
}

// Appends the line of an answer whose rides are no permitted journey.
fn write_journey_flaw(
    number: u64,
    answer: u64,
    flaw: JourneyFlaw,
    into: &mut Text,
) -> Result<(), NoMemory>
    ensures ok { OnOk result (into.new ≡ into.old
        ++ refused_line number (codes "JOURNEY" ∷ decimal answer ∷ journey_flaw_words flaw)) }
    ensures err { OnErr result (into.new ≡ into.old) }
{
    match flaw {
        JourneyFlaw::NoRide => write_flaw(number, answer, "NO_RIDE", into),
        JourneyFlaw::TooManyRides => write_flaw(number, answer, "TOO_MANY_RIDES", into),
        JourneyFlaw::Ride(ride, flaw) => write_ride_flaw(number, answer, ride, flaw, into),
        JourneyFlaw::NotBookable(ride) => {
            write_flaw_at(number, answer, "NOT_BOOKABLE", ride, into)
        }
        JourneyFlaw::NoAccess => write_flaw(number, answer, "NO_ACCESS", into),
        JourneyFlaw::NoChange(ride) => write_flaw_at(number, answer, "NO_CHANGE", ride, into),
        JourneyFlaw::TooEarly(ride) => write_flaw_at(number, answer, "TOO_EARLY", ride, into),
        JourneyFlaw::NoEgress => write_flaw(number, answer, "NO_EGRESS", into),
        JourneyFlaw::TooLate => write_flaw(number, answer, "TOO_LATE", into),
    }
}

// Appends the line of an answer whose rides have another triple, which is this one. Its walk is
// told where the query asks for walking.
fn write_triple(
    number: u64,
    answer: u64,
    walking: bool,
    real: &Triple,
    into: &mut Text,
) -> Result<(), NoMemory>
    requires deadline { IsPrintableDeadline real.now.deadline }
    requires arrival { IsPrintableMoment real.now.arrival }
    ensures ok { OnOk result (into.new ≡ into.old ++ refused_line number
        (codes "TRIPLE" ∷ decimal answer ∷ triple_words walking real.now)) }
    ensures err { OnErr result (into.new ≡ into.old) }
{
    let words = [
        Word::Number(number),
        Word::Plain("TRIPLE"),
        Word::Number(answer),
        Word::Until(real.deadline),
        Word::At(real.arrival),
        Word::Number(u64::from(real.transfers)),
    ];
    let walk = word_if(walking, Word::Number(u64::from(real.walk)));
    write_line("refused", &words, walk, into)
}

// Appends the line of a ride on a trip that isn't held.
fn write_uncovered_on<'a>(
    feed: &'a Feed,
    times: &'a Times,
    number: u64,
    from: u64,
    ride: &Ride,
    trip: &'a Trip,
    into: &mut Text,
) -> Result<(), NoMemory>
    requires printable { IsPrintableRide feed.now times.now ride.now }
    requires of_trip { slice_get feed.now.trips ride.now.trip ≡ Some trip.now }
    ensures ok { OnOk result (into.new ≡ into.old ++ refused_line number (codes "UNCOVERED"
        ∷ decimal from ∷ drop 1 (words_on_trip feed.now times.now ride.now trip.now))) }
    ensures err { OnErr result (into.new ≡ into.old) }
{
    let words = [
        Word::Number(number),
        Word::Plain("UNCOVERED"),
        Word::Number(from),
        Word::Id(trip.id.as_str()),
        Word::Day(ride.day),
        Word::Number(sequence(trip, ride.from_row)),
        Word::Number(sequence(trip, ride.to_row)),
        Word::Id(place_id(feed, times, ride.board)),
        Word::Id(place_id(feed, times, ride.alight)),
        Word::At(ride.departs),
        Word::At(ride.arrives),
    ];
    write_line("refused", &words, start_word(ride.start), into)
}

// Appends the line of a ride that isn't held.
fn write_uncovered(
    feed: &Feed,
    times: &Times,
    number: u64,
    from: u64,
    ride: &Ride,
    into: &mut Text,
) -> Result<(), NoMemory>
    requires { IsPrintableRide feed.now times.now ride.now }
    ensures ok { OnOk result (into.new ≡ into.old ++ refused_line number
        (codes "UNCOVERED" ∷ decimal from ∷ words_of_ride feed.now times.now ride.now)) }
    ensures err { OnErr result (into.new ≡ into.old) }
{
    let trip = &feed.trips[ride.trip as usize];
    write_uncovered_on(feed, times, number, from, ride, trip, into)
}

/// Appends the line by which the part with this number is refused: `refused PART REASON`, where
/// REASON is one of
///
/// - `QUERY`;
/// - `ROUNDS TOLD WANTED`, the numbers of the part's rounds and of those that it is to have;
/// - `JOURNEY N FLAW`: the rides of answer N are no permitted journey. FLAW is `NO_RIDE`,
///   `TOO_MANY_RIDES`, `NOT_BOOKABLE K`, `NO_ACCESS`, `NO_CHANGE K`, `TOO_EARLY K`, `NO_EGRESS`,
///   `TOO_LATE`, or `RIDE K` and why ride K isn't permitted: `NO_TRIP`, `NO_ROW`, `NO_DAY`,
///   `NOT_ACTIVE`, `FREQUENT`, `NOT_BOARDED`, `NOT_ALIGHTED`, `WRONG_DEPARTURE`, `NO_DIRECT` or
///   `WRONG_ARRIVAL`;
/// - `TRIPLE N DEADLINE ARRIVAL TRANSFERS`, the triple that the rides of answer N have, and its
///   walk in seconds where the query asks for walking;
/// - `ORDER N`: answer N doesn't come before the next one;
/// - `BEATEN N M`: answer M covers answer N;
/// - `LABEL N`: label N stands where none may;
/// - `FINAL N`: from label N the destination is reached in time, and no answer covers that;
/// - `UNCOVERED N`, with N = 0 for the origin and else the number of a label, and the words of a
///   ride from there that is not held: `TRIP DATE FROM TO PLACE PLACE DEPARTS ARRIVES`, and the
///   start in seconds of the service day where `frequencies.txt` names the trip.
///
/// Answers, rides of an answer and labels count from 1, labels through all rounds. What is printed
/// exists and has an id, moments are of the years 1980 to 2209 and days of the years 0001 to 9999,
/// as they are in each reason that `check` gives over sound values. Where memory runs out, the text
/// is as it was. This project's own.
pub fn write_refusal(
    feed: &Feed,
    times: &Times,
    query: &Query,
    part: &CertPart,
    number: u64,
    reason: &Reason,
    into: &mut Text,
) -> Result<(), NoMemory>
    requires { IsPrintableReason feed.now times.now reason.now }
    ensures ok { OnOk result (into.new ≡ into.old
        ++ refusal_line feed.now times.now query.entry.now part.now number reason.now) }
    ensures err { OnErr result (into.new ≡ into.old) }
{
    match *reason {
        Reason::Query => write_line(
            "refused",
            &[Word::Number(number), Word::Plain("QUERY")],
            None,
            into,
        ),
        Reason::Rounds => {
            let told = part.rounds.as_slice().len() as u64;
            let wanted = u64::from(query.transfers) + 1;
            write_two_numbers(number, "ROUNDS", told, wanted, into)
        }
        Reason::Journey { answer, flaw } => write_journey_flaw(number, answer, flaw, into),
        Reason::TripleDiffers {
            answer,
            told: _,
            real,
        } => write_triple(number, answer, query.walking, &real, into),
        Reason::NotOrdered { answer } => write_one_number(number, "ORDER", answer, into),
        Reason::Beaten { answer, by } => write_two_numbers(number, "BEATEN", answer, by, into),
        Reason::LabelPlace { label } => write_one_number(number, "LABEL", label, into),
        Reason::FinalUncovered { label } => write_one_number(number, "FINAL", label, into),
        Reason::Uncovered { from, ride } => {
            write_uncovered(feed, times, number, from, &ride, into)
        }
    }
}
