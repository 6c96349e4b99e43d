// The top call and its stages.

ghost use Rattle.std.specs.Prelude.{◌≡◌, ◌≢◌, ◌↔◌, ◌⊎◌, Err, Option, None, Some, IfSome, IsSome, IsErrOf};
ghost use Rattle.flex_io.specs.Outside.{Gains, HasFailed};
ghost use Rattle.flexplan.specs.Certified.{IsCertified};
ghost use Rattle.flexplan.specs.Opened.{IsOpened, IsSoundInput};
ghost use Rattle.flexplan.specs.Words.{InputPaths, IsCheck, certify, check, lint, paths, request};
ghost use Rattle.flexplan.specs.Words.{request_of, texts};
ghost use Rattle.flexplan.specs.Reply.{IsFinished, MayHavePrinted, PrintsRight, asked, end_of, status_of};
ghost use Rattle.flexplan.specs.ErrorLine.{error_line, IsLineOrNothing};

use crate::input::{Input, Opened, open_input};
use crate::printout::{Printout, print_faults, print_input, print_line};
use crate::status::{Failure, Status};
use crate::verdict::{CERT_LIMIT, judge};
use crate::words::{Command, Paths, command_of};
use feed_load::{Loaded, load};
use feed_meaning::fetch_file;
use flex_io::{Files, PutError, Sink};
use std::alloc::Global;

// How a command ends after its prints.
fn ended(status: Status, printed: Result<(), PutError>) -> Result<Status, Failure>
    requires { IsFinished status }
    ensures end { result ≡ end_of status printed }
    ensures read { status_of result ≢ Status.ReadFault }
    ensures used { status_of result ≢ Status.Usage }
    ensures refused { status ≢ Status.CertRefused → status_of result ≢ Status.CertRefused }
    ensures write { status_of result ≡ Status.WriteFault → IsErrOf printed PutError.Failed }
    ensures written { status_of result ≢ Status.WriteFault → printed ≢ Err PutError.Failed }
{
    printed?;
    Ok(status)
}

// Prints what is asked of the queries of the input.
fn perform_queries<F: Files, O: Sink>(
    alloc: Global,
    printout: Printout,
    input: &Paths<'_>,
    files: &mut F,
    out: &mut O,
) -> Result<Status, Failure>
    ensures printed { PrintsRight (asked printout (paths input.now)) (F.told files.old)
        (status_of result) (O.contents out.old) (O.contents out.new) }
    ensures certified { printout ≡ Printout.Parts → status_of result ≡ Status.Done
        → IfSome (F.told files.old) (λ told. Gains (O.contents out.old) (O.contents out.new)
        (IsCertified told (paths input.now))) }
    ensures silent { status_of result ≡ Status.ReadFault → O.contents out.new ≡ O.contents out.old }
    ensures told { F.told files.new ≡ F.told files.old }
    ensures read_fault { status_of result ≡ Status.ReadFault
        → HasFailed (F.faults files.old) (F.faults files.new) }
    ensures write_fault { status_of result ≡ Status.WriteFault
        → HasFailed (O.faults out.old) (O.faults out.new) }
    ensures answered_read { status_of result ≢ Status.ReadFault
        → F.faults files.new ≡ F.faults files.old }
    ensures answered_write { status_of result ≢ Status.WriteFault
        → O.faults out.new ≡ O.faults out.old }
    ensures used { status_of result ≢ Status.Usage }
    ensures refused { status_of result ≢ Status.CertRefused }
{
    match open_input(alloc, files, input)? {
        Opened::Accepted(held) => ended(Status::Done, print_input(alloc, printout, &held, out)),
        Opened::Refused(status, faults) => {
            ended(status, print_faults(alloc, faults.as_slice(), out))
        }
    }
}

// Says whether the certificate of a path is valid for accepted input.
fn perform_verdict<F: Files, O: Sink>(
    alloc: Global,
    held: &Input,
    cert: &str,
    files: &mut F,
    out: &mut O,
) -> Result<Status, Failure>
    requires { IsSoundInput held.now }
    ensures printed { IfSome (F.told files.old) (λ told. (its : InputPaths)
        → IsOpened told its (Opened.Accepted held.now)
        → Gains (O.contents out.old) (O.contents out.new)
        (MayHavePrinted (check its cert.now) told (status_of result))) }
    ensures silent { status_of result ≡ Status.ReadFault → O.contents out.new ≡ O.contents out.old }
    ensures told { F.told files.new ≡ F.told files.old }
    ensures read_fault { status_of result ≡ Status.ReadFault
        → HasFailed (F.faults files.old) (F.faults files.new) }
    ensures write_fault { status_of result ≡ Status.WriteFault
        → HasFailed (O.faults out.old) (O.faults out.new) }
    ensures answered_read { status_of result ≢ Status.ReadFault
        → F.faults files.new ≡ F.faults files.old }
    ensures answered_write { status_of result ≢ Status.WriteFault
        → O.faults out.new ≡ O.faults out.old }
    ensures used { status_of result ≢ Status.Usage }
{
    let raw = fetch_file(alloc, files, cert, CERT_LIMIT)?;
    let judged = judge(alloc, held, &raw)?;
    ended(judged.status, print_line(&judged.line, out))
}

// Says whether a certificate is valid for the queries of the input.
fn perform_check<F: Files, O: Sink>(
    alloc: Global,
    input: &Paths<'_>,
    cert: &str,
    files: &mut F,
    out: &mut O,
) -> Result<Status, Failure>
    ensures printed { PrintsRight (check (paths input.now) cert.now) (F.told files.old)
        (status_of result) (O.contents out.old) (O.contents out.new) }
    ensures silent { status_of result ≡ Status.ReadFault → O.contents out.new ≡ O.contents out.old }
    ensures told { F.told files.new ≡ F.told files.old }
    ensures read_fault { status_of result ≡ Status.ReadFault
        → HasFailed (F.faults files.old) (F.faults files.new) }
    ensures write_fault { status_of result ≡ Status.WriteFault
        → HasFailed (O.faults out.old) (O.faults out.new) }
    ensures answered_read { status_of result ≢ Status.ReadFault
        → F.faults files.new ≡ F.faults files.old }
    ensures answered_write { status_of result ≢ Status.WriteFault
        → O.faults out.new ≡ O.faults out.old }
    ensures used { status_of result ≢ Status.Usage }
{
    match open_input(alloc, files, input)? {
        Opened::Accepted(held) => perform_verdict(alloc, &held, cert, files, out),
        Opened::Refused(status, faults) => {
            ended(status, print_faults(alloc, faults.as_slice(), out))
        }
    }
}

// Tells the faults of a feed folder.
fn perform_lint<F: Files, O: Sink>(
    alloc: Global,
    folder: &str,
    files: &mut F,
    out: &mut O,
) -> Result<Status, Failure>
    ensures printed { PrintsRight (lint folder.now) (F.told files.old) (status_of result)
        (O.contents out.old) (O.contents out.new) }
    ensures silent { status_of result ≡ Status.ReadFault → O.contents out.new ≡ O.contents out.old }
    ensures told { F.told files.new ≡ F.told files.old }
    ensures read_fault { status_of result ≡ Status.ReadFault
        → HasFailed (F.faults files.old) (F.faults files.new) }
    ensures write_fault { status_of result ≡ Status.WriteFault
        → HasFailed (O.faults out.old) (O.faults out.new) }
    ensures answered_read { status_of result ≢ Status.ReadFault
        → F.faults files.new ≡ F.faults files.old }
    ensures answered_write { status_of result ≢ Status.WriteFault
        → O.faults out.new ≡ O.faults out.old }
    ensures used { status_of result ≢ Status.Usage }
    ensures refused { status_of result ≢ Status.CertRefused }
{
    match load(alloc, files, folder)? {
        Loaded::Clean(_) => Ok(Status::Done),
        Loaded::Faulty(faults) => ended(
            Status::FeedFaulty,
            print_faults(alloc, faults.as_slice(), out),
        ),
    }
}

// Does what a command asks for.
fn perform<F: Files, O: Sink>(
    alloc: Global,
    command: &Command<'_>,
    files: &mut F,
    out: &mut O,
) -> Result<Status, Failure>
    ensures printed { PrintsRight (request command.now) (F.told files.old) (status_of result)
        (O.contents out.old) (O.contents out.new) }
    ensures certified { (its : InputPaths) → request command.now ≡ certify its
        → status_of result ≡ Status.Done
        → IfSome (F.told files.old) (λ told. Gains (O.contents out.old) (O.contents out.new)
        (IsCertified told its)) }
    ensures silent { status_of result ≡ Status.ReadFault → O.contents out.new ≡ O.contents out.old }
    ensures told { F.told files.new ≡ F.told files.old }
    ensures read_fault { status_of result ≡ Status.ReadFault
        → HasFailed (F.faults files.old) (F.faults files.new) }
    ensures write_fault { status_of result ≡ Status.WriteFault
        → HasFailed (O.faults out.old) (O.faults out.new) }
    ensures answered_read { status_of result ≢ Status.ReadFault
        → F.faults files.new ≡ F.faults files.old }
    ensures answered_write { status_of result ≢ Status.WriteFault
        → O.faults out.new ≡ O.faults out.old }
    ensures used { status_of result ≢ Status.Usage }
    ensures refused { status_of result ≡ Status.CertRefused → IsCheck (request command.now) }
{
    match command {
        Command::Plan(input) => perform_queries(alloc, Printout::Answers, input, files, out),
        Command::Certify(input) => perform_queries(alloc, Printout::Parts, input, files, out),
        Command::Check(input, cert) => perform_check(alloc, input, cert, files, out),
        Command::Lint(folder) => perform_lint(alloc, folder, files, out),
    }
}

// The status by which a command ended.
fn status_of(end: Result<Status, Failure>) -> Status
    ensures { result ≡ status_of end }
{
    match end {
        Ok(status) => status,
        Err(Failure::ReadFault) => Status::ReadFault,
        Err(Failure::WriteFault) => Status::WriteFault,
        Err(Failure::NoMemory) => Status::NoMemory,
    }
}

// All but the line to the error stream.
fn answer<F: Files, O: Sink>(alloc: Global, words: &[&str], files: &mut F, out: &mut O) -> Status
    ensures usage { result ≡ Status.Usage ↔ (request_of (texts words.now) ≡ None) }
    ensures printed { IfSome (request_of (texts words.now))
        (λ request. PrintsRight request (F.told files.old) result (O.contents out.old)
        (O.contents out.new)) }
    ensures certified { (its : InputPaths) → request_of (texts words.now) ≡ Some (certify its)
        → result ≡ Status.Done
        → IfSome (F.told files.old) (λ told. Gains (O.contents out.old) (O.contents out.new)
        (IsCertified told its)) }
    ensures refused { result ≡ Status.CertRefused
        → IfSome (request_of (texts words.now)) IsCheck }
    ensures silent_usage { result ≡ Status.Usage → O.contents out.new ≡ O.contents out.old }
    ensures silent_read_fault { result ≡ Status.ReadFault
        → O.contents out.new ≡ O.contents out.old }
    ensures told { F.told files.new ≡ F.told files.old }
    ensures read_fault { result ≡ Status.ReadFault
        → HasFailed (F.faults files.old) (F.faults files.new) }
    ensures write_fault { result ≡ Status.WriteFault
        → HasFailed (O.faults out.old) (O.faults out.new) }
    ensures answered_read { result ≢ Status.ReadFault
        → F.faults files.new ≡ F.faults files.old }
    ensures answered_write { result ≢ Status.WriteFault
        → O.faults out.new ≡ O.faults out.old }
{
    let Some(command) = command_of(words) else {
        return Status::Usage;
    };
    status_of(perform(alloc, &command, files, out))
}

// The line of a status, or nothing.
fn error_line(status: Status) -> &'static str
    ensures { result.now ≡ error_line status }
{
    match status {
        Status::Usage => "flexplan: usage\n",
        Status::ReadFault => "flexplan: read fault\n",
        Status::NoMemory => "flexplan: no memory\n",
        _ => "",
    }
}

// Puts the line of a status. What becomes of that put changes nothing.
fn report<E: Sink>(status: Status, err: &mut E)
    ensures { Gains (E.contents err.old) (E.contents err.new)
        (IsLineOrNothing (E.faults err.old) (E.faults err.new) (error_line status)) }
{
    let line = error_line(status);
    if line.is_empty() {
        return;
    }
    let _ = err.put(line.as_bytes());
}

/// Does what the words ask for. The answer's number is the program's exit status.
pub fn run<F: Files, O: Sink, E: Sink>(
    alloc: Global,
    words: &[&str],
    files: &mut F,
    out: &mut O,
    err: &mut E,
) -> Status
    // Exactly the words of no accepted form are wrong.
    ensures usage { result ≡ Status.Usage ↔ (request_of (texts words.now) ≡ None) }

    // Where files are told, the status and what `out` gained are right for the words and the files.
    ensures printed { IfSome (request_of (texts words.now))
        (λ request. PrintsRight request (F.told files.old) result (O.contents out.old)
        (O.contents out.new)) }

    // What `certify` printed whole is the text of a certificate that is read back from it, with a part that a search finds for
    // each query.
    ensures certified { (its : InputPaths) → request_of (texts words.now) ≡ Some (certify its)
        → result ≡ Status.Done
        → IfSome (F.told files.old) (λ told. Gains (O.contents out.old) (O.contents out.new)
        (IsCertified told its)) }

    // Told or not, only `check` answers that a certificate is refused.
    ensures refused { result ≡ Status.CertRefused
        → IfSome (request_of (texts words.now)) IsCheck }

    // Told or not, these two print nothing.
    ensures silent_usage { result ≡ Status.Usage → O.contents out.new ≡ O.contents out.old }
    ensures silent_read_fault { result ≡ Status.ReadFault
        → O.contents out.new ≡ O.contents out.old }

    // A fault is answered only where one was counted.
    ensures read_fault { result ≡ Status.ReadFault
        → HasFailed (F.faults files.old) (F.faults files.new) }
    ensures write_fault { result ≡ Status.WriteFault
        → HasFailed (O.faults out.old) (O.faults out.new) }

    // A fault that was counted is answered, so that none is passed over and nothing is tried again.
    ensures answered_read { result ≢ Status.ReadFault → F.faults files.new ≡ F.faults files.old }
    ensures answered_write { result ≢ Status.WriteFault → O.faults out.new ≡ O.faults out.old }

    // So accepted words over an outside without faults are answered in full, unless memory runs out.
    ensures complete { IsSome (request_of (texts words.now))
        → ¬ HasFailed (F.faults files.old) (F.faults files.new)
        → ¬ HasFailed (O.faults out.old) (O.faults out.new) → IsFinished result
        ⊎ (result ≡ Status.NoMemory) }

    ensures told { F.told files.new ≡ F.told files.old }

    // The error stream gains the line of the status and nothing else.
    ensures line { Gains (E.contents err.old) (E.contents err.new)
        (IsLineOrNothing (E.faults err.old) (E.faults err.new) (error_line result)) }
{
    let status = answer(alloc, words, files, out);
    report(status, err);
    status
}
