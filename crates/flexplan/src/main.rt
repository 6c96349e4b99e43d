//! A planner that reads files, answers queries and prints to a sink. Over told files its output is proved right.
#![tactic(auto)]

mod faults;
mod input;
mod laws;
mod printout;
mod run;
mod status;
mod verdict;
mod words;

use flex_io::{HostFiles, HostSink};
use run::run;
use status::Status;
use std::alloc::AllocError;
use std::env;
use std::io::ErrorKind;
use std::process::ExitCode;

fn main(rt: HostRuntime) -> ExitCode {
    let status = match env::args(&rt) {
        Ok(args) => run_words(rt, args).unwrap_or(Status::NoMemory),
        Err(e) if e.kind() == ErrorKind::OutOfMemory => Status::NoMemory,
        // A word that isn't UTF-8.
        Err(_) => Status::Usage,
    };
    ExitCode::from(status.number())
}

// Runs the words that follow the program's name, over the system's files and streams.
fn run_words(rt: HostRuntime, args: env::Args) -> Result<Status, AllocError> {
    let alloc = rt.alloc();
    let texts: Vec<String> = args.skip(1).collect(alloc)?;
    let mut words = Vec::new(alloc);
    for text in &texts {
        words.push(text.as_str())?;
    }
    let mut files = HostFiles::new(rt);
    let mut out = HostSink::new(rt.stdout());
    let mut err = HostSink::new(rt.stderr());
    Ok(run(alloc, &words, &mut files, &mut out, &mut err))
}

#[cfg(test)]
mod cert_tests;
#[cfg(test)]
mod lint_tests;
#[cfg(test)]
mod plan_tests;
#[cfg(test)]
mod tests;
