// The system's output streams: a part of the trusted edge. Nothing is told of what they were given.

ghost use Rattle.std.specs.Prelude.{◌≡◌, ◌≢◌, ◌≤◌, None, Err, IsErrOf, IsTrue, OnOk};
ghost use Rattle.std.specs.Io.KnownBytes.{Appends};
ghost use Rattle.flex_io.specs.Outside.{HasFailed};
ghost use Rattle.flex_io.specs.Answers.{faults_after_put};
ghost use Rattle.flex_io.specs.Host.{put_faults, stream_of, AppendsBeginning};

use crate::error::PutError;
use crate::sink::Sink;
use std::io::Write;

/// An output stream, of which nothing is told. Each refusal of the system to write is a fault, and
/// so is a write that takes nothing of what is left of a piece. No put holds anything back.
#[derive(Drop)]
pub struct HostSink<W> {
    stream: W,
    faults: u64,
}

impl<W> HostSink<W> {
    /// The stream as a sink, none of whose puts has failed.
    pub fn new(stream: W) -> HostSink<W>
        ensures { put_faults result ≡ 0 }
    {
        HostSink { stream, faults: 0 }
    }
}

impl<W: Write> Sink for HostSink<W> {
    ghost contents = { λ _. None };

    ghost faults = { put_faults };

    fn put(&mut self, piece: &[u8]) -> Result<(), PutError>
        // What the stream gained, where it is known.
        ensures whole { OnOk result (Appends (W.contents (stream_of self.old))
            (W.contents (stream_of self.new)) piece.now) }
        ensures part { AppendsBeginning piece.now (W.contents (stream_of self.old))
            (W.contents (stream_of self.new)) }

        // It needs no memory, and the count rises exactly where the put fails.
        ensures memory { result ≢ Err PutError.NoMemory }
        ensures called { put_faults self.new ≡ faults_after_put result (put_faults self.old) }
        ensures counted { put_faults self.old ≤ put_faults self.new }
        ensures failed { IsErrOf result PutError.Failed
            → HasFailed (put_faults self.old) (put_faults self.new) }
        ensures answered { result ≢ Err PutError.Failed
            → put_faults self.new ≡ put_faults self.old }
    {
        if write_whole(&mut self.stream, piece) {
            return Ok(());
        }
        self.faults = self.faults.saturating_add(1);
        Err(PutError::Failed)
    }
}

// Whether the stream took the whole piece and holds none of it back. If not, it took a beginning.
fn write_whole<W: Write>(stream: &mut W, piece: &[u8]) -> bool
    ensures whole { IsTrue result
        → Appends (W.contents stream.old) (W.contents stream.new) piece.now }
    ensures part { AppendsBeginning piece.now (W.contents stream.old) (W.contents stream.new) }
{
    let mut rest = piece;
    while !rest.is_empty() {
        match stream.write(rest) {
            Ok(0) | Err(_) => return false,
            Ok(count) => rest = &rest[count..],
        }
    }
    stream.flush().is_ok()
}
