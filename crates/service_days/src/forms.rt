// The forms in which a zone comes, and why none was read.

use flex_model::NoMemory;

/// The form of a zone's bytes.
#[derive(Clone, Copy, Debug, PartialEq, Eq)]
pub enum ZoneForm {
    /// The text of a POSIX rule, such as `EST5EDT,M3.2.0,M11.1.0`.
    Posix,
    /// A zone file (RFC 9636).
    Tzif,
}

/// Why no zone was read.
#[derive(Clone, Copy, Debug, PartialEq, Eq)]
pub enum ZoneRefusal {
    /// The bytes are no zone of their form.
    BadZone,
    /// Memory ran out.
    NoMemory,
}

impl From<NoMemory> for ZoneRefusal {
    ghost use Rattle.std.specs.Prelude.{◌≡◌};
    ghost use Rattle.service_days.specs.declared.forms.ZoneRefusal.TheVariants as refusal;

    ghost from_gives = { λ _ r. r ≡ refusal.NoMemory };

    fn from(_: NoMemory) -> ZoneRefusal {
        ZoneRefusal::NoMemory
    }
}
