// Openings of bookings.

use flex_model::Moment;

/// From when on a booking can be made.
#[derive(Clone, Copy, Debug, PartialEq, Eq)]
pub enum Opening {
    /// There is no opening to wait for.
    Always,
    /// From this moment on, in seconds since 1970-01-01T00:00:00Z.
    From(Moment),
    /// Not at all: the rule names a day so far back that there is none.
    Never,
}
