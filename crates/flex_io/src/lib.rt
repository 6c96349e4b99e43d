//! Where bytes come from and go to: files that may be told or not, sinks that may tell what they
//! were given, and counts of faults, so that an answer that names a fault shows one.
#![tactic(auto)]

mod error;
mod files;
mod host_files;
mod host_sink;
mod mem_files;
mod mem_sink;
mod sink;

pub use error::{FetchError, LoadError, PutError};
pub use files::{Files, Got};
pub use host_files::HostFiles;
pub use host_sink::HostSink;
pub use mem_files::MemFiles;
pub use mem_sink::MemSink;
pub use sink::Sink;
