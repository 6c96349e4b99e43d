// Places, rides and triples on 4 June 2025.

use crate::june::EIGHT;
use flex_model::{Deadline, Moment, Place, Ride, Triple};

/// The stop M.
pub const M: Place = Place::Stop(0);

/// The stop N.
pub const N: Place = Place::Stop(1);

/// The stop O.
pub const O: Place = Place::Stop(2);

/// The stop Q.
pub const Q: Place = Place::Stop(3);

/// The point P.
pub const P: Place = Place::Point(0);

/// From M at 08:00:00 to N at 08:10:00.
pub const RIDE: Ride = Ride {
    trip: 0,
    day: 20_243,
    start: None,
    from_row: 0,
    to_row: 1,
    board: M,
    alight: N,
    departs: EIGHT,
    arrives: EIGHT + 600,
};

/// From P at 08:00:00 to M at 08:10:00.
pub const TO_M: Ride = Ride {
    board: P,
    alight: M,
    ..RIDE
};

/// From M at 08:00:00 to N at 08:20:00, by a second trip.
pub const X1: Ride = Ride {
    trip: 1,
    arrives: EIGHT + 1_200,
    ..RIDE
};

/// From O at 08:25:00 to Q at 08:40:00, by a third trip.
pub const X2: Ride = Ride {
    trip: 2,
    board: O,
    alight: Q,
    departs: EIGHT + 1_500,
    arrives: EIGHT + 2_400,
    ..RIDE
};

/// The triple of a journey without transfers on which no walk counts.
pub const fn arrival(deadline: Deadline, arrival: Moment) -> Triple {
    Triple {
        deadline,
        arrival,
        transfers: 0,
        walk: 0,
    }
}

/// The triple that changes once and arrives at 09:00:00, of which so many seconds on foot.
pub const fn changing(walk: u32) -> Triple {
    Triple {
        deadline: Deadline::Never,
        arrival: EIGHT + 3_600,
        transfers: 1,
        walk,
    }
}
