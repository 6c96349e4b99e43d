// Why a text has no zones.

ghost use Rattle.std.specs.Prelude.{◌≡◌, ◌<◌, ◌^◌, length};
ghost use Rattle.geo_json.specs.Refusals as Refusals;

use crate::lines::Lines;
use flex_model::{FaultCode, NoMemory};
use json_text::ScanRefusal;

/// Why no zones were read.
#[derive(Clone, Copy, Debug, PartialEq, Eq)]
pub enum GeoRefusal {
    /// What is wrong with the text, and the line where it is, counted from 1.
    Fault { code: FaultCode, line: u64 },
    NoMemory,
}

/// Why the walk over a text's values ended before its time.
#[derive(Clone, Copy, Debug, PartialEq, Eq)]
pub(crate) enum WalkRefusal {
    /// What is wrong, and the offset of the value's first byte.
    Fault { code: FaultCode, place: u64 },
    NoMemory,
}

impl From<NoMemory> for WalkRefusal {
    ghost use Rattle.std.specs.Prelude.{◌≡◌};
    ghost use Rattle.geo_json.specs.declared.refusal.WalkRefusal.TheVariants as Refusal;

    ghost from_gives = { λ _ refusal. refusal ≡ Refusal.NoMemory };

    fn from(_: NoMemory) -> WalkRefusal {
        WalkRefusal::NoMemory
    }
}

impl WalkRefusal {
    /// The refusal of a text that wasn't scanned.
    pub(crate) fn of_scan(refusal: ScanRefusal) -> WalkRefusal
        ensures { result ≡ Refusals.of_scan refusal }
    {
        match refusal {
            ScanRefusal::Syntax { at } => WalkRefusal::Fault {
                code: FaultCode::JsonSyntax,
                place: at,
            },
            ScanRefusal::Depth { at } => WalkRefusal::Fault {
                code: FaultCode::JsonDepth,
                place: at,
            },
            ScanRefusal::NoMemory => WalkRefusal::NoMemory,
        }
    }

    /// The refusal with the line of its place.
    pub(crate) fn located(self, text: &str) -> GeoRefusal
        requires { length text.now < 2 ^ 32 }
        ensures { result ≡ Refusals.located text.now self }
    {
        match self {
            WalkRefusal::Fault { code, place } => GeoRefusal::Fault {
                code,
                line: Lines::new(text).line_at(place),
            },
            WalkRefusal::NoMemory => GeoRefusal::NoMemory,
        }
    }
}
