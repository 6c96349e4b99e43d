// Why a text is refused.

use flex_model::NoMemory;
use std::alloc::{AllocError, AllocFailed};

/// Why a text was not scanned. Places are offsets in bytes.
#[derive(Clone, Copy, Debug, PartialEq, Eq)]
pub enum ScanRefusal {
    /// The text is no JSON text, and so many of its first bytes begin one.
    Syntax { at: u64 },
    /// The bracket there opens one more than the 64 arrays and objects that may be open at once.
    Depth { at: u64 },
    NoMemory,
}

impl From<NoMemory> for ScanRefusal {
    ghost use Rattle.std.specs.Prelude.{◌≡◌};
    ghost use Rattle.json_text.specs.declared.refusal.ScanRefusal.TheVariants as Refusal;

    ghost from_gives = { λ _ refusal. refusal ≡ Refusal.NoMemory };

    fn from(_: NoMemory) -> ScanRefusal {
        ScanRefusal::NoMemory
    }
}

impl From<AllocError> for ScanRefusal {
    ghost use Rattle.std.specs.Prelude.{◌≡◌};
    ghost use Rattle.json_text.specs.declared.refusal.ScanRefusal.TheVariants as Refusal;

    ghost from_gives = { λ _ refusal. refusal ≡ Refusal.NoMemory };

    fn from(_: AllocError) -> ScanRefusal {
        ScanRefusal::NoMemory
    }
}

impl<T: Drop> From<AllocFailed<T>> for ScanRefusal {
    ghost use Rattle.std.specs.Prelude.{◌≡◌};
    ghost use Rattle.json_text.specs.declared.refusal.ScanRefusal.TheVariants as Refusal;

    ghost from_gives = { λ _ refusal. refusal ≡ Refusal.NoMemory };

    fn from(_: AllocFailed<T>) -> ScanRefusal {
        ScanRefusal::NoMemory
    }
}
