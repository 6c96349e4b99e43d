// The stop times of the feed.

ghost use Rattle.std.specs.Prelude.{◌≡◌, ◌++◌, ◌<◌, IfOk, OnOk, string_bytes};
ghost use Rattle.field_text.specs.Texts.{last_digits};
ghost use Rattle.feed_gen.specs.StopTimesText as Texts;
ghost use Rattle.feed_gen.specs.Texts.{record_line};

use crate::draws::pick;
use flex_model::{NoMemory, Text};
use std::alloc::{AllocError, Global};

// A number in two digits.
#[tactic(auto, using(crate::proofs::TwoDigits::in_two_digits))]
fn two_digits(alloc: Global, n: u64) -> Result<String, AllocError>
    requires { n < 100 }
    ensures { IfOk result (λ text. string_bytes text ≡ last_digits 2 n) }
{
    format!(in alloc; "{}{}", n / 10, n % 10)
}

// A time of the service day as HH:MM:SS.
#[tactic(auto, unfolding(crate::specs::StopTimesText::time_text))]
fn clock(alloc: Global, seconds: u64) -> Result<String, AllocError>
    requires { seconds < 360000 }
    ensures { IfOk result (λ text. string_bytes text ≡ Texts.time_text seconds) }
{
    let hours = two_digits(alloc, seconds / 3600)?;
    let minutes = two_digits(alloc, seconds / 60 % 60)?;
    let rest = two_digits(alloc, seconds % 60)?;
    format!(in alloc; "{hours}:{minutes}:{rest}")
}

// When a trip is at a place, in seconds of the service day.
#[tactic(auto, unfolding(crate::specs::StopTimesText::seconds_at))]
fn seconds_at(number: u32, l: u64, k: u64, v: u64) -> u64
    requires route { l < 10 }
    requires trip { k < 24 }
    requires place { v < 8 }
    ensures value { result ≡ Texts.seconds_at number l k v }
    ensures bound { result < 360000 }
{
    21_600 + 1_800 * k + 60 * pick(number, 500 + l, 30) + 300 * v
}

// The line of a trip at a place.
fn stop_time_line(alloc: Global, number: u32, l: u64, k: u64, v: u64) -> Result<String, AllocError>
    requires route { l < 10 }
    requires trip { k < 24 }
    requires place { v < 8 }
    ensures { IfOk result (λ text. string_bytes text
        ≡ record_line (Texts.fixed_record number l k v)) }
{
    let stop = pick(number, 10 * l + v, 40);
    let time = clock(alloc, seconds_at(number, l, k, v))?;
    let trip = format!(in alloc; "f{l}_{k}")?;
    format!(in alloc; "{trip},{v},s{stop},,{time},{time},,,,,,\n")
}

/// The text of stop_times.txt.
#[tactic(auto, using(crate::proofs::LineFacts::line_steps, crate::proofs::TripLines::stop_time_lines), unfolding(crate::specs::StopTimesText::stop_times_text, crate::specs::Texts::table_text))]
pub(crate) fn stop_times_text(alloc: Global, number: u32) -> Result<Text, NoMemory>
    ensures { IfOk result (λ text. text ≡ Texts.stop_times_text number) }
{
    let mut text = Text::new(alloc);
    text.append(
        "trip_id,stop_sequence,stop_id,location_id,arrival_time,departure_time,start_pickup_drop_off_window,end_pickup_drop_off_window,pickup_type,drop_off_type,pickup_booking_rule_id,drop_off_booking_rule_id\n",
    )?;
    for i in 0..1920 {
        let line = stop_time_line(alloc, number, i / 192, i / 8 % 24, i % 8)?;
        text.append(line.as_str())?;
    }
    text.append("za,1,,zA,,,07:00:00,19:00:00,2,1,b1,\nza,2,,zA,,,07:00:00,19:00:00,1,2,,b1\n")?;
    text.append("zb,1,,zB,,,07:00:00,19:00:00,2,1,b2,\nzb,2,,zB,,,07:00:00,19:00:00,1,2,,b2\n")?;
    Ok(text)
}
