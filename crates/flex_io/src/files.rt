// The trait by which the program reads files.

ghost use Rattle.std.specs.Prelude.{◌≡◌, ◌≢◌, ◌≤◌, ◌<◌, ◌↔◌, ℕ, length, Option, None, Ok, Err};
ghost use Rattle.std.specs.Prelude.{IfSome, IsSomeAnd, IsErrOf, OnOk};
ghost use Rattle.flex_io.specs.Outside.{FileMap, bytes_at, HasFailed, HasFileWithin, AppendsFile};

use crate::error::FetchError;
use std::alloc::Global;

/// What became of a fetch that nothing hindered.
#[derive(Clone, Copy, Debug, PartialEq, Eq)]
pub enum Got {
    /// The file's bytes were fetched, all of them.
    Whole,
    /// There is no such file.
    Absent,
    /// The file has more bytes than the limit, and none was fetched.
    TooLarge,
}

/// Files by their paths.
pub trait Files {
    /// The bytes of each path, where they are told.
    ghost told: { Self → Option FileMap };

    /// How often a fetch has failed, up to the last value of a counter.
    ghost faults: { Self → ℕ };

    /// No fetch will fail from here on.
    ghost is_steady: { Self → Type 0 } = { λ _. ⊥ };

    /// Appends a file's bytes to `into`, where they are at most `limit` many.
    fn fetch(
        &mut self,
        alloc: Global,
        path: &str,
        limit: u64,
        into: &mut Vec<u8>,
    ) -> Result<Got, FetchError>
        // A whole file was appended, within the limit. Where files are told, it is the told one.
        ensures whole { result ≡ Ok Got.Whole
            → AppendsFile (told self.old) path.now limit into.old.items into.new.items }
        ensures unchanged { result ≢ Ok Got.Whole → into.new.items ≡ into.old.items }

        // Where files are told, a file is absent exactly where the map lacks its path, and too
        // large exactly where its bytes are more than the limit, unless the fetch failed or memory
        // ran out.
        ensures absent { OnOk result (IfSome (told self.old) (λ files.
            (result ≡ Ok Got.Absent) ↔ (bytes_at files path.now ≡ None))) }
        ensures too_large { OnOk result (IfSome (told self.old) (λ files.
            (result ≡ Ok Got.TooLarge)
            ↔ IsSomeAnd (bytes_at files path.now) (λ bytes. limit < length bytes))) }

        // Where files are told, memory runs out only for a file that is within the limit.
        ensures memory { IsErrOf result FetchError.NoMemory
            → IfSome (told self.old) (HasFileWithin path.now limit) }

        // What is told never changes, and the count never falls.
        ensures told { told self.new ≡ told self.old }
        ensures counted { faults self.old ≤ faults self.new }

        // A fetch fails only where the count rose in this call, or stands at its last value, and a
        // fault that was counted is answered. It never fails where the files are steady.
        ensures failed { IsErrOf result FetchError.Failed
            → HasFailed (faults self.old) (faults self.new) }
        ensures answered { result ≢ Err FetchError.Failed → faults self.new ≡ faults self.old }
        ensures steady { is_steady self.old
            → is_steady self.new × (faults self.new ≡ faults self.old)
            × (result ≢ Err FetchError.Failed) };
}
