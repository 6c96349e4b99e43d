// The trait by which the program writes its output.

ghost use Rattle.std.specs.Prelude.{◌≡◌, ◌≢◌, ◌≤◌, ℕ, List, Option, Err, IsErrOf, OnOk};
ghost use Rattle.flex_io.specs.Outside.{HasFailed, grown, Gains, IsBeginning};

use crate::error::PutError;

/// What takes output, a piece at a time.
pub trait Sink {
    /// The bytes that were put, where the sink tells them.
    ghost contents: { Self → Option (List ℕ) };

    /// How often a put has failed, up to the last value of a counter.
    ghost faults: { Self → ℕ };

    /// Appends a piece, or a beginning of it where the put fails.
    fn put(&mut self, piece: &[u8]) -> Result<(), PutError>
        ensures whole { OnOk result (contents self.new ≡ grown (contents self.old) piece.now) }
        ensures part { IsErrOf result PutError.Failed
            → Gains (contents self.old) (contents self.new) (IsBeginning piece.now) }
        ensures nothing { IsErrOf result PutError.NoMemory
            → contents self.new ≡ contents self.old }

        // The count never falls. A put fails only where it rose in this call, or stands at its
        // last value, and a fault that was counted is answered.
        ensures counted { faults self.old ≤ faults self.new }
        ensures failed { IsErrOf result PutError.Failed
            → HasFailed (faults self.old) (faults self.new) }
        ensures answered { result ≢ Err PutError.Failed → faults self.new ≡ faults self.old };
}
