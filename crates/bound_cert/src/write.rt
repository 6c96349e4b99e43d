// Writing certificates.

ghost use Rattle.std.specs.Prelude.{◌≡◌, ◌++◌, All, IfOk, OnErr, OnOk, length};
ghost use Rattle.bound_cert.specs.CertText as Lines;
ghost use Rattle.bound_cert.specs.CertText.{cert_text, heading_line, label_line, part_text};
ghost use Rattle.bound_cert.specs.CertText.{round_text, rounds_text};
ghost use Rattle.bound_cert.specs.PrintableCert.{IsPrintableCert, IsPrintableLabel};
ghost use Rattle.bound_cert.specs.PrintableCert.{IsPrintablePart, IsPrintableRound};

use crate::cert::{Cert, CertLabel, CertPart, CertRound};
use flex_model::{Feed, NoMemory, Text, Times};
use query_io::{Word, place_id, word_if, write_line, write_named_answers};
use std::alloc::Global;

// Appends the line of a label, with its walk in a part that asks for walking.
fn write_label(
    feed: &Feed,
    times: &Times,
    walking: bool,
    label: &CertLabel,
    into: &mut Text,
) -> Result<(), NoMemory>
    requires { IsPrintableLabel feed.now times.now walking label.now }
    ensures ok { OnOk result
        (into.new ≡ into.old ++ label_line feed.now times.now walking label.now) }
    ensures err { OnErr result (into.new ≡ into.old) }
{
    let words = [
        Word::Id(place_id(feed, times, label.place)),
        Word::Until(label.deadline),
        Word::At(label.arrival),
    ];
    let walk = word_if(walking, Word::Number(u64::from(label.walk)));
    write_line("label", &words, walk, into)
}

// Appends a round.
fn write_round(
    feed: &Feed,
    times: &Times,
    walking: bool,
    number: u64,
    round: &CertRound,
    into: &mut Text,
) -> Result<(), NoMemory>
    requires { IsPrintableRound feed.now times.now walking round.now }
    ensures ok { OnOk result
        (into.new ≡ into.old ++ round_text feed.now times.now walking number round.now) }
    ensures err { OnErr result (into.new ≡ into.old) }
{
    let old_len = into.as_str().len();
    let labels = round.labels.as_slice();
    let words = [Word::Number(number), Word::Number(labels.len() as u64)];
    write_line("round", &words, None, into)?;
    for label in labels {
        if write_label(feed, times, walking, label, into).is_err() {
            into.cut(old_len);
            return Err(NoMemory);
        }
    }
    Ok(())
}

// Appends rounds, the first with the number 1.
fn write_rounds(
    feed: &Feed,
    times: &Times,
    walking: bool,
    rounds: &[CertRound],
    into: &mut Text,
) -> Result<(), NoMemory>
    requires { All (IsPrintableRound feed.now times.now walking) rounds.now }
    ensures ok { OnOk result
        (into.new ≡ into.old ++ rounds_text feed.now times.now walking 1 rounds.now) }
    ensures err { OnErr result (into.new ≡ into.old) }
{
    let old_len = into.as_str().len();
    for (i, round) in rounds.iter().enumerate() {
        let number = i as u64 + 1;
        if write_round(feed, times, walking, number, round, into).is_err() {
            into.cut(old_len);
            return Err(NoMemory);
        }
    }
    Ok(())
}

// Appends the line that counts rounds.
fn write_round_count(count: u64, into: &mut Text) -> Result<(), NoMemory>
    ensures ok { OnOk result (into.new ≡ into.old ++ Lines.round_count_line count) }
    ensures err { OnErr result (into.new ≡ into.old) }
{
    write_line("rounds", &[Word::Number(count)], None, into)
}

/// Appends the text of a part: that of its answers, the line `rounds COUNT`, and for each round the
/// line `round K COUNT` and the lines of its labels, `label PLACE DEADLINE ARRIVAL`. In a part that
/// asks for walking the line of a label ends with its walk in seconds. What is printed exists and
/// has an id, moments are of the years 1980 to 2209. Where memory runs out, the text is as it was.
pub fn write_part(
    feed: &Feed,
    times: &Times,
    part: &CertPart,
    into: &mut Text,
) -> Result<(), NoMemory>
    requires { IsPrintablePart feed.now times.now part.now }
    ensures ok { OnOk result (into.new ≡ into.old ++ part_text feed.now times.now part.now) }
    ensures err { OnErr result (into.new ≡ into.old) }
{
    let old_len = into.as_str().len();
    let walking = part.walking;
    let answers = part.answers.as_slice();
    let rounds = part.rounds.as_slice();
    write_named_answers(feed, times, walking, part.query.as_str(), answers, into)?;
    if write_round_count(rounds.len() as u64, into).is_err()
        || write_rounds(feed, times, walking, rounds, into).is_err()
    {
        into.cut(old_len);
        return Err(NoMemory);
    }
    Ok(())
}

/// Appends the first line of a certificate of so many parts: `flexcert 2 COUNT` where some part
/// asks for walking, and `flexcert 1 COUNT` where none does. Where memory runs out, the text is as
/// it was.
pub fn write_heading(walking: bool, count: u64, into: &mut Text) -> Result<(), NoMemory>
    ensures ok { OnOk result (into.new ≡ into.old ++ heading_line walking count) }
    ensures err { OnErr result (into.new ≡ into.old) }
{
    let version = if walking { 2 } else { 1 };
    write_line(
        "flexcert",
        &[Word::Number(version), Word::Number(count)],
        None,
        into,
    )
}

// Whether some part asks for walking.
fn some_asks(parts: &[CertPart]) -> bool
    ensures { result ≡ Lines.some_asks parts.now }
{
    parts.iter().any(|part| part.walking)
}

/// The text of a certificate: its first line, and its parts.
pub fn write_cert(alloc: Global, feed: &Feed, times: &Times, cert: &Cert) -> Result<Text, NoMemory>
    requires { IsPrintableCert feed.now times.now cert.now }
    ensures { IfOk result (λ text. text ≡ cert_text feed.now times.now cert.now) }
{
    let parts = cert.parts.as_slice();
    let mut text = Text::new(alloc);
    write_heading(some_asks(parts), parts.len() as u64, &mut text)?;
    for part in parts {
        write_part(feed, times, part, &mut text)?;
    }
    Ok(text)
}
