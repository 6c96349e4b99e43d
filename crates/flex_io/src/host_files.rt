// The system's files: a part of the trusted edge. Nothing is told of what they hold.

ghost use Rattle.std.specs.Prelude.{◌≡◌, ◌≢◌, ◌≤◌, ◌+◌, ◌↔◌, None, Ok, Err};
ghost use Rattle.std.specs.Prelude.{IfErr, IsOkAnd, IsErrAnd, IsErrOf};
ghost use Rattle.std.specs.IoError.{error_kind};
ghost use Rattle.flex_io.specs.Outside.{AppendsFile, HasFailed};
ghost use Rattle.flex_io.specs.Answers.{faults_after_fetch};
ghost use Rattle.flex_io.specs.Host.{fetch_faults, AddsSome, AppendsRest, IsLonger, TakesAtMost};

use crate::error::FetchError;
use crate::files::{Files, Got};
use std::alloc::Global;
use std::io::{ErrorKind, Read};
use std::{fs, io, rt};

const CHUNK: u64 = 4096;

/// The files of a system, of which nothing is told. A file that the system reports as not found is
/// absent. Each other refusal of the system to open or to read a file is a fault.
#[derive(Drop)]
pub struct HostFiles<R> {
    system: R,
    faults: u64,
}

impl<R> HostFiles<R> {
    /// The files of the system, none of whose fetches has failed.
    pub fn new(system: R) -> HostFiles<R>
        ensures { fetch_faults result ≡ 0 }
    {
        HostFiles { system, faults: 0 }
    }
}

impl<R: rt::Files> Files for HostFiles<R> {
    ghost told = { λ _. None };

    ghost faults = { fetch_faults };

    fn fetch(
        &mut self,
        _alloc: Global,
        path: &str,
        limit: u64,
        into: &mut Vec<u8>,
    ) -> Result<Got, FetchError>
        ensures whole { result ≡ Ok Got.Whole
            → AppendsFile None path.now limit into.old.items into.new.items }
        ensures unchanged { result ≢ Ok Got.Whole → into.new.items ≡ into.old.items }

        // The count rises exactly where the fetch fails.
        ensures called { fetch_faults self.new ≡ faults_after_fetch result (fetch_faults self.old) }
        ensures counted { fetch_faults self.old ≤ fetch_faults self.new }
        ensures failed { IsErrOf result FetchError.Failed
            → HasFailed (fetch_faults self.old) (fetch_faults self.new) }
        ensures answered { result ≢ Err FetchError.Failed
            → fetch_faults self.new ≡ fetch_faults self.old }
    {
        let got = fetch_opened(fs::open(&self.system, path), limit, into);
        if got == Err(FetchError::Failed) {
            self.faults = self.faults.saturating_add(1);
        }
        got
    }
}

// What becomes of a fetch, by what the system answered when the file was to be opened.
fn fetch_opened<F: Read>(
    opened: io::Result<F>,
    limit: u64,
    into: &mut Vec<u8>,
) -> Result<Got, FetchError>
where
    F: Drop,
    // Exactly a file that isn't found is absent. Each other refusal to open it is a fault.
    ensures absent { (result ≡ Ok Got.Absent)
        ↔ IsErrAnd opened (λ e. error_kind e ≡ ErrorKind.NotFound) }
    ensures refused { IfErr opened (λ e.
        error_kind e ≢ ErrorKind.NotFound → result ≡ Err FetchError.Failed) }

    ensures whole { result ≡ Ok Got.Whole → IsOkAnd opened (λ file.
        AppendsRest limit (F.remaining file) into.old.items into.new.items) }
    ensures too_large { result ≡ Ok Got.TooLarge
        → IsOkAnd opened (λ file. IsLonger limit (F.remaining file)) }
    ensures unchanged { result ≢ Ok Got.Whole → into.new.items ≡ into.old.items }
{
    let start = into.len();
    let got = match opened {
        Ok(mut file) => read_within(&mut file, limit, into),
        Err(e) if e.kind() == ErrorKind::NotFound => Ok(Got::Absent),
        Err(_) => Err(FetchError::Failed),
    };
    if got != Ok(Got::Whole) {
        into.truncate(start);
    }
    got
}

// Reads to the end, or until more than `limit` bytes have come. What was read stays in any case.
fn read_within<F: Read>(file: &mut F, limit: u64, into: &mut Vec<u8>) -> Result<Got, FetchError>
    ensures whole { result ≡ Ok Got.Whole
        → AppendsRest limit (F.remaining file.old) into.old.items into.new.items }
    ensures too_large { result ≡ Ok Got.TooLarge → IsLonger limit (F.remaining file.old) }
    ensures present { result ≢ Ok Got.Absent }
    ensures grows { AddsSome into.old.items into.new.items }

    // It takes at most one byte more than the limit.
    ensures bounded { TakesAtMost (limit + 1) (F.remaining file.old) (F.remaining file.new) }
{
    let mut buffer = [0; CHUNK as usize];
    let mut left = limit;
    loop {
        let most = left.saturating_add(1).min(CHUNK) as usize;
        let Ok(count) = file.read(&mut buffer[..most]) else {
            return Err(FetchError::Failed);
        };
        if count == 0 {
            return Ok(Got::Whole);
        }
        if count as u64 > left {
            return Ok(Got::TooLarge);
        }
        into.extend_from_slice(&buffer[..count])?;
        left -= count as u64;
    }
}
