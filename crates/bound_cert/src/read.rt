// Reading certificates.

ghost use Rattle.std.specs.Prelude.{◌≡◌, ◌||◌, ◌+◌, ◌-◌, ◌≤◌, ℕ, Err, IfOk, false, length, nat_lt};
ghost use Rattle.std.specs.Prelude.{not, take};
ghost use Rattle.std.specs.List.{count_by};
ghost use Rattle.bound_cert.specs.CertText.{cert_text};
ghost use Rattle.bound_cert.specs.Given.{Gives};
ghost use Rattle.bound_cert.specs.HeldCert.{IsWritten};
ghost use Rattle.bound_cert.specs.Known.{IsKnown};
ghost use Rattle.bound_cert.specs.Laws.{AreHeld};
ghost use Rattle.bound_cert.specs.LineWords as Lines;
ghost use Rattle.bound_cert.specs.Reading.{answer_at, begun_at, cert_at, each_at, each_from};
ghost use Rattle.bound_cert.specs.Reading.{later_at, line_at, part_at, parts_from, round_at};
ghost use Rattle.bound_cert.specs.Syntax.{IsSyntaxFault, is_line_feed, label_count};
ghost use Rattle.bound_cert.specs.declared.cert.Cert.{Cert as TheCert};
ghost use Rattle.bound_cert.specs.declared.error.CertError.TheVariants as Errors;
ghost use Rattle.flex_model.specs.SoundFeed.{IsSoundFeed};
ghost use Rattle.flex_model.specs.SoundTimes.{AreSoundTimes};

use crate::cert::{Cert, CertLabel, CertPart, CertRound};
use crate::error::{CertError, ReadError};
use crate::held::look_at;
use crate::known::{Known, all_escapes, index_feed};
use crate::line_values::Asking;
use crate::read_lines::{
    read_heading, read_label, read_label_count, read_query, read_ride, read_round_count,
    read_triple,
};
use flex_model::{Answer, Feed, Listed, Ride, Times};
use std::alloc::Global;

// So many rides.
fn read_rides<'a>(
    alloc: Global,
    known: &Known<'_>,
    count: u64,
    bytes: &'a [u8],
) -> Result<(Listed<Ride>, &'a [u8]), ReadError>
    requires { IsKnown known.now }
    ensures { Gives (λ x. (x.0, x.1.now)) result
        (each_at (line_at (Lines.ride_in known.now.feed.now known.now.times.now)) count
        bytes.now) }
{
    let mut rides = Listed::new(alloc);
    let mut rest = bytes;
    for _ in 0..count {
        let (ride, after) = read_ride(alloc, known, rest)?;
        rides.push(ride)?;
        rest = after;
    }
    Ok((rides, rest))
}

// A journey and its rides.
#[tactic(auto, unfolding(crate::specs::Reading::answer_at))]
fn read_answer<'a>(
    alloc: Global,
    known: &Known<'_>,
    walking: bool,
    bytes: &'a [u8],
) -> Result<(Answer, &'a [u8]), ReadError>
    requires { IsKnown known.now }
    ensures { Gives (λ x. (x.0, x.1.now)) result
        (answer_at known.now.feed.now known.now.times.now walking bytes.now) }
{
    let (triple, rest) = read_triple(alloc, walking, bytes)?;
    let count = u64::from(triple.transfers) + 1;
    let (rides, rest) = read_rides(alloc, known, count, rest)?;
    Ok((Answer { triple, rides }, rest))
}

// So many journeys.
fn read_answers<'a>(
    alloc: Global,
    known: &Known<'_>,
    walking: bool,
    count: u64,
    bytes: &'a [u8],
) -> Result<(Listed<Answer>, &'a [u8]), ReadError>
    requires { IsKnown known.now }
    ensures { Gives (λ x. (x.0, x.1.now)) result
        (each_at (answer_at known.now.feed.now known.now.times.now walking) count bytes.now) }
{
    let mut answers = Listed::new(alloc);
    let mut rest = bytes;
    for _ in 0..count {
        let (answer, after) = read_answer(alloc, known, walking, rest)?;
        answers.push(answer)?;
        rest = after;
    }
    Ok((answers, rest))
}

// So many labels.
fn read_labels<'a>(
    alloc: Global,
    known: &Known<'_>,
    walking: bool,
    count: u64,
    bytes: &'a [u8],
) -> Result<(Listed<CertLabel>, &'a [u8]), ReadError>
    requires { IsKnown known.now }
    ensures { Gives (λ x. (x.0, x.1.now)) result
        (each_at (line_at (Lines.label_in known.now.feed.now known.now.times.now walking)) count
        bytes.now) }
{
    let mut labels = Listed::new(alloc);
    let mut rest = bytes;
    for _ in 0..count {
        let (label, after) = read_label(alloc, known, walking, rest)?;
        labels.push(label)?;
        rest = after;
    }
    Ok((labels, rest))
}

// The round with this number.
#[tactic(auto, unfolding(crate::specs::Reading::round_at))]
fn read_round<'a>(
    alloc: Global,
    known: &Known<'_>,
    walking: bool,
    round: u64,
    bytes: &'a [u8],
) -> Result<(CertRound, &'a [u8]), ReadError>
    requires { IsKnown known.now }
    ensures { Gives (λ x. (x.0, x.1.now)) result
        (round_at known.now.feed.now known.now.times.now walking round bytes.now) }
{
    let (count, rest) = read_label_count(alloc, round, known.has_places, bytes)?;
    let (labels, rest) = read_labels(alloc, known, walking, count, rest)?;
    Ok((CertRound { labels }, rest))
}

// So many rounds, the first with the number 1.
fn read_rounds<'a>(
    alloc: Global,
    known: &Known<'_>,
    walking: bool,
    count: u64,
    bytes: &'a [u8],
) -> Result<(Listed<CertRound>, &'a [u8]), ReadError>
    requires { IsKnown known.now }
    ensures { Gives (λ x. (x.0, x.1.now)) result
        (each_from (round_at known.now.feed.now known.now.times.now walking) 1 count bytes.now) }
{
    let mut rounds = Listed::new(alloc);
    let mut rest = bytes;
    for k in 0..count {
        let (round, after) = read_round(alloc, known, walking, k + 1, rest)?;
        rounds.push(round)?;
        rest = after;
    }
    Ok((rounds, rest))
}

// What follows the first line of a part: the answers, and the count and the list of the rounds.
fn read_later<'a>(
    alloc: Global,
    known: &Known<'_>,
    walking: bool,
    count: u64,
    bytes: &'a [u8],
) -> Result<((Listed<Answer>, (u64, Listed<CertRound>)), &'a [u8]), ReadError>
    requires { IsKnown known.now }
    ensures { Gives (λ x. (x.0, x.1.now)) result
        (later_at known.now.feed.now known.now.times.now walking count bytes.now) }
{
    let (answers, rest) = read_answers(alloc, known, walking, count, bytes)?;
    let (count, rest) = read_round_count(alloc, rest)?;
    let (rounds, rest) = read_rounds(alloc, known, walking, count, rest)?;
    Ok(((answers, (count, rounds)), rest))
}

// The part of a query.
#[tactic(auto, unfolding(crate::specs::Reading::part_at))]
fn read_part<'a>(
    alloc: Global,
    known: &Known<'_>,
    asking: Asking,
    bytes: &'a [u8],
) -> Result<(CertPart, &'a [u8]), ReadError>
    requires { IsKnown known.now }
    ensures { Gives (λ x. (x.0, x.1.now)) result
        (part_at known.now.feed.now known.now.times.now asking.may_ask asking.may_not
        bytes.now) }
{
    let ((query, (walking, count)), rest) = read_query(alloc, asking, known.has_rides, bytes)?;
    let ((answers, (_count, rounds)), rest) = read_later(alloc, known, walking, count, rest)?;
    let part = CertPart {
        query,
        walking,
        answers,
        rounds,
    };
    Ok((part, rest))
}

// Which query may stand in a part after which so many are left, by whether some part of the
// certificate asks for walking, and whether one before this does.
fn asking_of(two: bool, asked: bool, left: u64) -> Asking
    ensures may_ask { result.may_ask ≡ two }
    ensures may_not { result.may_not ≡ (not two || asked || nat_lt 0 left) }
{
    Asking {
        may_ask: two,
        may_not: !two || asked || left > 0,
    }
}

// Whether one or the other holds.
fn either(first: bool, second: bool) -> bool
    ensures { result ≡ (first || second) }
{
    first || second
}

// So many parts, where two says whether some part of the certificate asks for walking.
fn read_parts<'a>(
    alloc: Global,
    known: &Known<'_>,
    two: bool,
    count: u64,
    bytes: &'a [u8],
) -> Result<(Listed<CertPart>, &'a [u8]), ReadError>
    requires { IsKnown known.now }
    ensures { Gives (λ x. (x.0, x.1.now)) result
        (parts_from known.now.feed.now known.now.times.now two false count bytes.now) }
{
    let mut parts = Listed::new(alloc);
    let mut rest = bytes;
    let mut asked = false;
    for k in 0..count {
        let asking = asking_of(two, asked, count - (k + 1));
        let (part, after) = read_part(alloc, known, asking, rest)?;
        asked = either(asked, part.walking);
        parts.push(part)?;
        rest = after;
    }
    Ok((parts, rest))
}

// A certificate, and what follows it.
#[tactic(auto, unfolding(crate::specs::Reading::begun_at))]
fn read_begun<'a>(
    alloc: Global,
    known: &Known<'_>,
    bytes: &'a [u8],
) -> Result<(Cert, &'a [u8]), ReadError>
    requires { IsKnown known.now }
    ensures { Gives (λ x. (x.0, x.1.now)) result
        (begun_at known.now.feed.now known.now.times.now bytes.now) }
{
    let ((two, count), rest) = read_heading(alloc, bytes)?;
    let (parts, rest) = read_parts(alloc, known, two, count, rest)?;
    Ok((Cert { parts }, rest))
}

// A certificate, and nothing after it.
#[tactic(auto, unfolding(crate::specs::Reading::cert_at))]
fn read_all(alloc: Global, known: &Known<'_>, bytes: &[u8]) -> Result<Cert, ReadError>
    requires { IsKnown known.now }
    ensures { Gives (λ x. x) result
        (cert_at known.now.feed.now known.now.times.now bytes.now) }
{
    let (cert, rest) = read_begun(alloc, known, bytes)?;
    if !rest.is_empty() {
        return Err(ReadError::Bad { left: rest.len() });
    }
    Ok(cert)
}

// How many line feeds there are.
fn count_line_feeds(bytes: &[u8]) -> usize
    ensures count { result ≡ count_by is_line_feed bytes.now }
    ensures few { result ≤ length bytes.now }
{
    bytes.iter().filter(|byte| **byte == b'\n').count()
}

// The number of the line at which so many bytes are left.
fn line_number(bytes: &[u8], left: usize) -> u64
    requires { left ≤ length bytes.now }
    ensures { result ≡ count_by is_line_feed (take (length bytes.now - left) bytes.now) + 1 }
{
    let before = &bytes[..bytes.len() - left];
    count_line_feeds(before) as u64 + 1
}

// Reads a certificate over an index of the feed and the times.
fn read_known(
    alloc: Global,
    bytes: &[u8],
    feed: &Feed,
    times: &Times,
    known: &Known<'_>,
) -> Result<Cert, CertError>
    requires feed { IsSoundFeed feed.now }
    requires times { AreSoundTimes feed.now times.now }
    requires held { AreHeld feed.now times.now }
    requires known { IsKnown known.now }
    requires feed_is { known.now.feed.now ≡ feed.now }
    requires times_is { known.now.times.now ≡ times.now }
    ensures written { IfOk result (IsWritten feed.now times.now) }
    ensures text { IfOk result (λ cert. bytes.now ≡ cert_text feed.now times.now cert) }
    ensures back { (cert : TheCert) → IsWritten feed.now times.now cert
        → bytes.now ≡ cert_text feed.now times.now cert → IfOk result (λ read. read ≡ cert) }
    ensures labels { IfOk result (λ cert. label_count cert ≤ length bytes.now) }
    ensures syntax { (line : ℕ) → result ≡ Err (Errors.Syntax line)
        → IsSyntaxFault feed.now times.now bytes.now line }
{
    match read_all(alloc, known, bytes) {
        Ok(cert) => Ok(cert),
        Err(ReadError::NoMemory) => Err(CertError::NoMemory),
        Err(ReadError::Bad { left }) => Err(CertError::Syntax {
            line: line_number(bytes, left),
        }),
    }
}

/// Reads the text of a certificate over this feed and these times, in one pass. Places, trips and
/// records are those of the feed and the times, found in an index that is made once. The ids of
/// queries are any. `Syntax` comes exactly where the bytes are the text of no certificate, and
/// names the first bad line.
pub fn read_cert(alloc: Global, bytes: &[u8], feed: &Feed, times: &Times) -> Result<Cert, CertError>
    requires feed { IsSoundFeed feed.now }
    requires times { AreSoundTimes feed.now times.now }
    ensures written { IfOk result (IsWritten feed.now times.now) }
    ensures text { IfOk result (λ cert. bytes.now ≡ cert_text feed.now times.now cert) }
    ensures back { (cert : TheCert) → IsWritten feed.now times.now cert
        → bytes.now ≡ cert_text feed.now times.now cert → IfOk result (λ read. read ≡ cert) }
    ensures labels { IfOk result (λ cert. label_count cert ≤ length bytes.now) }
    ensures syntax { (line : ℕ) → result ≡ Err (Errors.Syntax line)
        → IsSyntaxFault feed.now times.now bytes.now line }
{
    look_at(feed, times);
    let Ok(escapes) = all_escapes(alloc, feed, times) else {
        return Err(CertError::NoMemory);
    };
    let Ok(known) = index_feed(alloc, feed, times, &escapes) else {
        return Err(CertError::NoMemory);
    };
    read_known(alloc, bytes, feed, times, &known)
}
