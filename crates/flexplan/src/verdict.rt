// What `check` says of a certificate.

ghost use Rattle.std.specs.Prelude.{◌≡◌, ◌∷◌, All, IfOk, codes, length, map};
ghost use Rattle.flex_model.specs.SoundQuery.{IsSoundQuery};
ghost use Rattle.flex_model.specs.declared.fault.RawFile.{RawFile};
ghost use Rattle.flex_model.specs.declared.fault.RawFile.TheVariants as raw_file;
ghost use Rattle.query_io.specs.AnswerText.{line};
ghost use Rattle.query_io.specs.Word.{IsPrintableWord, word_text};
ghost use Rattle.ride_index.specs.Index.{IsIndexOf};
ghost use Rattle.flexplan.specs.Checked.{IsJudged, valid_line};
ghost use Rattle.flexplan.specs.Judging.{ArePartsJudged, IsOnlyCert, IsPartJudged};
ghost use Rattle.flexplan.specs.Opened.{IsSoundInput};

use crate::input::Input;
use crate::status::Status;
use bound_cert::{Cert, CertError, CertPart, read_cert};
use cert_check::{Verdict, check, write_refusal};
use flex_model::{NoMemory, Query, RawFile, Text};
use query_io::{Word, write_line};
use ride_index::RideIndex;
use service_days::day_table;
use std::alloc::Global;

/// The most bytes that a certificate may have: 1 GiB. This project's own.
pub const CERT_LIMIT: u64 = 1_073_741_824;

/// What is said of a certificate.
#[derive(Drop)]
pub struct Judged {
    /// `Done` or `CertRefused`.
    pub status: Status,
    /// The line that is printed.
    pub line: Text,
}

// A refusal of the certificate as a whole: these words follow `refused`.
fn refused(alloc: Global, words: &[Word<'_>]) -> Result<Judged, NoMemory>
    requires { All IsPrintableWord words.now }
    ensures status { IfOk result (λ judged. judged.status ≡ Status.CertRefused) }
    ensures line { IfOk result (λ judged. judged.line
        ≡ line (codes "refused" ∷ map word_text words.now)) }
{
    let mut text = Text::new(alloc);
    write_line("refused", words, None, &mut text)?;
    Ok(Judged {
        status: Status::CertRefused,
        line: text,
    })
}

// That all parts are valid, which are so many.
fn valid(alloc: Global, count: u64) -> Result<Judged, NoMemory>
    ensures status { IfOk result (λ judged. judged.status ≡ Status.Done) }
    ensures line { IfOk result (λ judged. judged.line ≡ valid_line count) }
{
    let mut text = Text::new(alloc);
    write_line("valid", &[Word::Number(count)], None, &mut text)?;
    Ok(Judged {
        status: Status::Done,
        line: text,
    })
}

// The line that refuses a part with this number, or none where it is valid for its query.
fn judge_part(
    alloc: Global,
    index: &RideIndex,
    input: &Input,
    query: &Query,
    part: &CertPart,
    number: u64,
) -> Result<Option<Text>, NoMemory>
    requires index { IsIndexOf input.now.feed index.now }
    requires input { IsSoundInput input.now }
    requires query { IsSoundQuery input.now.feed input.now.times query.now }
    ensures { IfOk result (IsPartJudged input.now.feed input.now.times input.now.zone
        query.entry.now part.now number) }
{
    let days = day_table(alloc, &input.zone, query.depart)?;
    match check(alloc, index, &input.feed, &input.times, &days, query, part)? {
        Verdict::Yes => Ok(None),
        Verdict::No(reason) => {
            let mut text = Text::new(alloc);
            write_refusal(
                &input.feed,
                &input.times,
                query,
                part,
                number,
                &reason,
                &mut text,
            )?;
            Ok(Some(text))
        }
    }
}

// The line that refuses the first part that isn't valid for its query, or none where all are.
fn judge_parts(
    alloc: Global,
    index: &RideIndex,
    input: &Input,
    parts: &[CertPart],
) -> Result<Option<Text>, NoMemory>
    requires index { IsIndexOf input.now.feed index.now }
    requires input { IsSoundInput input.now }
    requires count { length parts.now ≡ length input.now.queries }
    ensures { IfOk result (ArePartsJudged input.now.feed input.now.times input.now.zone
        input.now.queries parts.now) }
{
    let queries = input.queries.as_slice();
    for i in 0..parts.len() {
        let number = i as u64 + 1;
        if let Some(text) = judge_part(alloc, index, input, &queries[i], &parts[i], number)? {
            return Ok(Some(text));
        }
    }
    Ok(None)
}

// What is said of a certificate with as many parts as there are queries.
fn judge_each(alloc: Global, input: &Input, cert: &Cert) -> Result<Judged, NoMemory>
    requires input { IsSoundInput input.now }
    requires count { length cert.now.parts ≡ length input.now.queries }
    ensures { IfOk result (λ judged. (raw : RawFile)
        → IsOnlyCert input.now.feed input.now.times raw cert.now
        → IsJudged input.now.feed input.now.times input.now.zone input.now.queries raw
        judged.status judged.line) }
{
    let index = RideIndex::build(alloc, &input.feed)?;
    let parts = cert.parts.as_slice();
    match judge_parts(alloc, &index, input, parts)? {
        None => valid(alloc, parts.len() as u64),
        Some(text) => {
            Ok(Judged {
                status: Status::CertRefused,
                line: text,
            })
        }
    }
}

// What is said of a certificate.
fn judge_cert(alloc: Global, input: &Input, cert: &Cert) -> Result<Judged, NoMemory>
    requires { IsSoundInput input.now }
    ensures { IfOk result (λ judged. (raw : RawFile)
        → IsOnlyCert input.now.feed input.now.times raw cert.now
        → IsJudged input.now.feed input.now.times input.now.zone input.now.queries raw
        judged.status judged.line) }
{
    let told = cert.parts.as_slice().len();
    let wanted = input.queries.as_slice().len();
    if told != wanted {
        let words = [
            Word::Number(0),
            Word::Plain("PARTS"),
            Word::Number(told as u64),
            Word::Number(wanted as u64),
        ];
        return refused(alloc, &words);
    }
    judge_each(alloc, input, cert)
}

// What is said of a file with these bytes.
fn judge_bytes(alloc: Global, input: &Input, bytes: &[u8]) -> Result<Judged, NoMemory>
    requires { IsSoundInput input.now }
    ensures { IfOk result (λ judged. IsJudged input.now.feed input.now.times input.now.zone
        input.now.queries (raw_file.Bytes bytes.now) judged.status judged.line) }
{
    match read_cert(alloc, bytes, &input.feed, &input.times) {
        Ok(cert) => judge_cert(alloc, input, &cert),
        Err(CertError::NoMemory) => Err(NoMemory),
        Err(CertError::Syntax { line }) => {
            let words = [Word::Number(0), Word::Plain("SYNTAX"), Word::Number(line)];
            refused(alloc, &words)
        }
    }
}

/// What is said of a certificate for the queries of the input: that it is valid, or the first refusal. Want of memory is the
/// only other answer.
pub fn judge(alloc: Global, input: &Input, raw: &RawFile) -> Result<Judged, NoMemory>
    requires { IsSoundInput input.now }
    ensures { IfOk result (λ judged. IsJudged input.now.feed input.now.times input.now.zone
        input.now.queries raw.now judged.status judged.line) }
{
    match raw {
        RawFile::Absent => refused(alloc, &[Word::Number(0), Word::Plain("MISSING")]),
        RawFile::TooLarge => refused(alloc, &[Word::Number(0), Word::Plain("TOO_LARGE")]),
        RawFile::Bytes(bytes) => judge_bytes(alloc, input, bytes.as_slice()),
    }
}
