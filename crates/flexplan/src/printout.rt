// What is printed of accepted input, one put for each piece.

ghost use Rattle.std.specs.Prelude.{◌≡◌, ◌≢◌, ◌≤◌, ◌^◌, ◌<◌, Err, IfOk, IsErrOf, length};
ghost use Rattle.flex_io.specs.Outside.{Gains, HasFailed};
ghost use Rattle.flex_model.specs.SoundQuery.{IsSoundQuery};
ghost use Rattle.ride_index.specs.Index.{IsIndexOf};
ghost use Rattle.bound_cert.specs.CertText.{heading_line};
ghost use Rattle.flexplan.specs.Answers.{IsAnswerText, IsQueryText, RightText, fault_lines};
ghost use Rattle.flexplan.specs.Answers.{IsPrinted, front_of, heading, one_line};
ghost use Rattle.flexplan.specs.Certified.{IsWrittenPartText, some_asks};
ghost use Rattle.flexplan.specs.Opened.{IsSoundInput};
ghost use Rattle.flexplan.specs.Texts.{Prints, PrintsAll};

use crate::faults::write_faults;
use crate::input::Input;
use bound_cert::{look_at_part, write_heading, write_part};
use flex_io::{PutError, Sink};
use flex_model::{Fault, NoMemory, Query, Text};
use journey_rebuild::{exact_answers, find_part};
use query_io::write_answers;
use ride_index::RideIndex;
use service_days::day_table;
use std::alloc::Global;

/// What is printed of accepted input.
#[derive(Clone, Copy, Debug, PartialEq, Eq)]
pub enum Printout {
    /// An exact answer to each query.
    Answers,
    /// The certificate: its first line, and a part for each query.
    Parts,
}

/// Prints the lines of faults.
pub fn print_faults<O: Sink>(alloc: Global, faults: &[Fault], out: &mut O) -> Result<(), PutError>
    ensures printed { Gains (O.contents out.old) (O.contents out.new)
        (Prints RightText (fault_lines faults.now) result) }
    ensures counted { O.faults out.old ≤ O.faults out.new }
    ensures write_fault { IsErrOf result PutError.Failed
        → HasFailed (O.faults out.old) (O.faults out.new) }
    ensures answered { result ≢ Err PutError.Failed → O.faults out.new ≡ O.faults out.old }
{
    let text = write_faults(alloc, faults)?;
    out.put(text.as_str().as_bytes())
}

/// Prints a line that is written.
pub fn print_line<O: Sink>(told: &Text, out: &mut O) -> Result<(), PutError>
    ensures printed { Gains (O.contents out.old) (O.contents out.new)
        (Prints RightText (one_line told.now) result) }
    ensures counted { O.faults out.old ≤ O.faults out.new }
    ensures write_fault { IsErrOf result PutError.Failed
        → HasFailed (O.faults out.old) (O.faults out.new) }
    ensures answered { result ≢ Err PutError.Failed → O.faults out.new ≡ O.faults out.old }
{
    out.put(told.as_str().as_bytes())
}

// The text of an exact answer to a query of the input.
fn answer(alloc: Global, index: &RideIndex, input: &Input, query: &Query) -> Result<Text, NoMemory>
    requires index { IsIndexOf input.now.feed index.now }
    requires input { IsSoundInput input.now }
    requires query { IsSoundQuery input.now.feed input.now.times query.now }
    ensures { IfOk result
        (IsAnswerText input.now.feed input.now.times input.now.zone query.entry.now) }
{
    let days = day_table(alloc, &input.zone, query.depart)?;
    let answers = exact_answers(alloc, index, &input.feed, &input.times, &days, query)?;
    let mut text = Text::new(alloc);
    write_answers(&input.feed, &input.times, query, &answers, &mut text)?;
    Ok(text)
}

// The text of the part of a certificate for a query of the input.
fn part(alloc: Global, index: &RideIndex, input: &Input, query: &Query) -> Result<Text, NoMemory>
    requires index { IsIndexOf input.now.feed index.now }
    requires input { IsSoundInput input.now }
    requires query { IsSoundQuery input.now.feed input.now.times query.now }
    ensures { IfOk result
        (IsWrittenPartText input.now.feed input.now.times input.now.zone query.entry.now) }
{
    let days = day_table(alloc, &input.zone, query.depart)?;
    let part = find_part(alloc, index, &input.feed, &input.times, &days, query)?;
    look_at_part(&part);
    let mut text = Text::new(alloc);
    write_part(&input.feed, &input.times, &part, &mut text)?;
    Ok(text)
}

// What is printed of a query of the input.
fn query_text(
    alloc: Global,
    printout: Printout,
    index: &RideIndex,
    input: &Input,
    query: &Query,
) -> Result<Text, NoMemory>
    requires index { IsIndexOf input.now.feed index.now }
    requires input { IsSoundInput input.now }
    requires query { IsSoundQuery input.now.feed input.now.times query.now }
    ensures { IfOk result
        (IsQueryText printout input.now.feed input.now.times input.now.zone query.entry.now) }
{
    match printout {
        Printout::Answers => answer(alloc, index, input, query),
        Printout::Parts => part(alloc, index, input, query),
    }
}

fn print_query<O: Sink>(
    alloc: Global,
    printout: Printout,
    index: &RideIndex,
    input: &Input,
    query: &Query,
    out: &mut O,
) -> Result<(), PutError>
    requires index { IsIndexOf input.now.feed index.now }
    requires input { IsSoundInput input.now }
    requires query { IsSoundQuery input.now.feed input.now.times query.now }
    ensures printed { Gains (O.contents out.old) (O.contents out.new)
        (Prints (IsQueryText printout input.now.feed input.now.times input.now.zone) query.entry.now
        result) }
    ensures counted { O.faults out.old ≤ O.faults out.new }
    ensures write_fault { IsErrOf result PutError.Failed
        → HasFailed (O.faults out.old) (O.faults out.new) }
    ensures answered { result ≢ Err PutError.Failed → O.faults out.new ≡ O.faults out.old }
{
    let text = query_text(alloc, printout, index, input, query)?;
    out.put(text.as_str().as_bytes())
}

// Prints what is printed of each query, which the index finds.
fn print_with<O: Sink>(
    alloc: Global,
    printout: Printout,
    index: &RideIndex,
    input: &Input,
    out: &mut O,
) -> Result<(), PutError>
    requires index { IsIndexOf input.now.feed index.now }
    requires input { IsSoundInput input.now }
    ensures printed { Gains (O.contents out.old) (O.contents out.new)
        (PrintsAll (IsQueryText printout input.now.feed input.now.times input.now.zone)
        input.now.queries result) }
    ensures counted { O.faults out.old ≤ O.faults out.new }
    ensures write_fault { IsErrOf result PutError.Failed
        → HasFailed (O.faults out.old) (O.faults out.new) }
    ensures answered { result ≢ Err PutError.Failed → O.faults out.new ≡ O.faults out.old }
{
    for query in input.queries.as_slice() {
        print_query(alloc, printout, index, input, query, out)?;
    }
    Ok(())
}

// Prints what is printed of each query of the input, in order. The rides are found through one index of the feed.
fn print_queries<O: Sink>(
    alloc: Global,
    printout: Printout,
    input: &Input,
    out: &mut O,
) -> Result<(), PutError>
    requires { IsSoundInput input.now }
    ensures printed { Gains (O.contents out.old) (O.contents out.new)
        (PrintsAll (IsQueryText printout input.now.feed input.now.times input.now.zone)
        input.now.queries result) }
    ensures counted { O.faults out.old ≤ O.faults out.new }
    ensures write_fault { IsErrOf result PutError.Failed
        → HasFailed (O.faults out.old) (O.faults out.new) }
    ensures answered { result ≢ Err PutError.Failed → O.faults out.new ≡ O.faults out.old }
{
    let index = RideIndex::build(alloc, &input.feed)?;
    print_with(alloc, printout, &index, input, out)
}

// Whether one of the queries asks for walking.
fn some_asks(queries: &[Query]) -> bool
    ensures { result ≡ some_asks queries.now }
{
    queries.iter().any(|query| query.walking)
}

// Prints the first line of a certificate for these queries.
fn print_heading<O: Sink>(alloc: Global, queries: &[Query], out: &mut O) -> Result<(), PutError>
    ensures printed { Gains (O.contents out.old) (O.contents out.new)
        (Prints RightText (heading queries.now) result) }
    ensures counted { O.faults out.old ≤ O.faults out.new }
    ensures write_fault { IsErrOf result PutError.Failed
        → HasFailed (O.faults out.old) (O.faults out.new) }
    ensures answered { result ≢ Err PutError.Failed → O.faults out.new ≡ O.faults out.old }
    ensures few { length queries.now < 2 ^ 64 }
{
    let mut text = Text::new(alloc);
    write_heading(some_asks(queries), queries.len() as u64, &mut text)?;
    out.put(text.as_str().as_bytes())
}

// Prints what a printout begins with.
fn print_front<O: Sink>(
    alloc: Global,
    printout: Printout,
    queries: &[Query],
    out: &mut O,
) -> Result<(), PutError>
    ensures printed { Gains (O.contents out.old) (O.contents out.new)
        (PrintsAll RightText (front_of printout queries.now) result) }
    ensures counted { O.faults out.old ≤ O.faults out.new }
    ensures write_fault { IsErrOf result PutError.Failed
        → HasFailed (O.faults out.old) (O.faults out.new) }
    ensures answered { result ≢ Err PutError.Failed → O.faults out.new ≡ O.faults out.old }
    ensures few { printout ≡ Printout.Parts → length queries.now < 2 ^ 64 }
{
    match printout {
        Printout::Answers => Ok(()),
        Printout::Parts => print_heading(alloc, queries, out),
    }
}

/// Prints what accepted input is asked for: an exact answer to each query in order, or the first line of a certificate and a part for each
/// query, each by one put.
pub fn print_input<O: Sink>(
    alloc: Global,
    printout: Printout,
    input: &Input,
    out: &mut O,
) -> Result<(), PutError>
    requires { IsSoundInput input.now }
    ensures printed { Gains (O.contents out.old) (O.contents out.new)
        (IsPrinted printout input.now.feed input.now.times input.now.zone input.now.queries
        result) }
    ensures counted { O.faults out.old ≤ O.faults out.new }
    ensures write_fault { IsErrOf result PutError.Failed
        → HasFailed (O.faults out.old) (O.faults out.new) }
    ensures answered { result ≢ Err PutError.Failed → O.faults out.new ≡ O.faults out.old }
{
    print_front(alloc, printout, input.queries.as_slice(), out)?;
    print_queries(alloc, printout, input, out)
}
