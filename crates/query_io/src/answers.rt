// Writing the answers to a query.

ghost use Rattle.std.specs.Prelude.{◌≡◌, ◌≢◌, ◌++◌, [], All, OnOk, OnErr};
ghost use Rattle.query_io.specs.AnswerText.{answer_text, journey_line, journey_lines};
ghost use Rattle.query_io.specs.AnswerText.{named_answers_text, query_line};
ghost use Rattle.query_io.specs.Printable.{IsPrintable, IsPrintableAnswer, IsPrintableDeadline};
ghost use Rattle.field_text.specs.Texts.{IsPrintableMoment};

use crate::printed_ride::write_ride;
use crate::word::{Word, word_if, write_line};
use flex_model::{Answer, Feed, Listed, NoMemory, Query, Text, Times, Triple};

// Appends the line of a journey, with its walk where the query asks for walking.
fn write_journey_line(walking: bool, triple: &Triple, into: &mut Text) -> Result<(), NoMemory>
    requires deadline { IsPrintableDeadline triple.now.deadline }
    requires arrival { IsPrintableMoment triple.now.arrival }
    ensures ok { OnOk result (into.new ≡ into.old ++ journey_line walking triple.now) }
    ensures err { OnErr result (into.new ≡ into.old) }
{
    let words = [
        Word::Until(triple.deadline),
        Word::At(triple.arrival),
        Word::Number(u64::from(triple.transfers)),
    ];
    let walk = word_if(walking, Word::Number(u64::from(triple.walk)));
    write_line("journey", &words, walk, into)
}

// Appends the lines of a journey.
fn write_journey(
    feed: &Feed,
    times: &Times,
    walking: bool,
    answer: &Answer,
    into: &mut Text,
) -> Result<(), NoMemory>
    requires { IsPrintableAnswer feed.now times.now walking answer.now }
    ensures ok { OnOk result
        (into.new ≡ into.old ++ journey_lines feed.now times.now walking answer.now) }
    ensures err { OnErr result (into.new ≡ into.old) }
{
    let old_len = into.as_str().len();
    write_journey_line(walking, &answer.triple, into)?;
    for ride in answer.rides.as_slice() {
        if write_ride(feed, times, ride, into).is_err() {
            into.cut(old_len);
            return Err(NoMemory);
        }
    }
    Ok(())
}

// Appends the line of a query with so many answers.
fn write_query_line(walking: bool, id: &str, count: u64, into: &mut Text) -> Result<(), NoMemory>
    requires { id.now ≢ [] }
    ensures ok { OnOk result (into.new ≡ into.old ++ query_line walking id.now count) }
    ensures err { OnErr result (into.new ≡ into.old) }
{
    let words = [Word::Id(id), Word::Number(count)];
    let walking = word_if(walking, Word::Plain("walking"));
    write_line("query", &words, walking, into)
}

/// Appends the text of answers under the id of a query: the line `query ID COUNT`, and for each
/// answer the line `journey DEADLINE ARRIVAL TRANSFERS` and the lines of its rides, `ride TRIP
/// DATE FROM TO PLACE PLACE DEPARTS ARRIVES`. Ids are escaped, a deadline is a moment or `never`,
/// and FROM and TO are values of `stop_sequence`. For a query that asks for walking the first line
/// ends with the word `walking`, and that of a journey with its walk in seconds. The line of a
/// ride whose trip `frequencies.txt` names ends with its start, in seconds of the service day.
/// What is printed exists and has an id, moments are of the years 1980 to 2209 and days of the
/// years 0001 to 9999. Where memory runs out, the text is as it was.
pub fn write_named_answers(
    feed: &Feed,
    times: &Times,
    walking: bool,
    id: &str,
    answers: &[Answer],
    into: &mut Text,
) -> Result<(), NoMemory>
    requires id { id.now ≢ [] }
    requires each { All (IsPrintableAnswer feed.now times.now walking) answers.now }
    ensures ok { OnOk result (into.new ≡ into.old
        ++ named_answers_text feed.now times.now walking id.now answers.now) }
    ensures err { OnErr result (into.new ≡ into.old) }
{
    let old_len = into.as_str().len();
    write_query_line(walking, id, answers.len() as u64, into)?;
    for answer in answers {
        if write_journey(feed, times, walking, answer, into).is_err() {
            into.cut(old_len);
            return Err(NoMemory);
        }
    }
    Ok(())
}

/// Appends the text of the answers to a query, as `write_named_answers` does under its id. Each
/// exact answer to a sound query has such a text. Where memory runs out, the text is as it was.
pub fn write_answers(
    feed: &Feed,
    times: &Times,
    query: &Query,
    answers: &Listed<Answer>,
    into: &mut Text,
) -> Result<(), NoMemory>
    requires { IsPrintable feed.now times.now query.now answers.now }
    ensures ok { OnOk result
        (into.new ≡ into.old ++ answer_text feed.now times.now query.entry.now answers.now) }
    ensures err { OnErr result (into.new ≡ into.old) }
{
    write_named_answers(
        feed,
        times,
        query.walking,
        query.id.as_str(),
        answers.as_slice(),
        into,
    )
}
