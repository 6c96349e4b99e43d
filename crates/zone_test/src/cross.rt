// The cross product that tells on which side of an edge a point lies. Coordinates are at most 180 * 10^15, so that it is
// less than 2^119 and can't overflow.

ghost use Rattle.std.specs.Prelude.{◌≡◌, ◌≤◌, ◌*◌, ◌^◌, ◌-ℤ◌, ◌*ℤ◌, unsigned_abs};
ghost use Rattle.flex_model.specs.SoundTimes.{IsOnGlobe};
ghost use Rattle.flex_model.specs.Zone as spec;

use flex_model::Position;

// How far the one coordinate is above the other.
fn gap(to: &i64, from: &i64) -> i128
    requires to { unsigned_abs to.now ≤ 180 * 10 ^ 15 }
    requires from { unsigned_abs from.now ≤ 180 * 10 ^ 15 }
    ensures value { result ≡ to.now -ℤ from.now }
    ensures bound { unsigned_abs result ≤ 2 ^ 59 }
{
    i128::from(*to) - i128::from(*from)
}

// The product of two gaps.
fn product(a: &i128, b: &i128) -> i128
    requires a { unsigned_abs a.now ≤ 2 ^ 59 }
    requires b { unsigned_abs b.now ≤ 2 ^ 59 }
    ensures value { result ≡ a.now *ℤ b.now }
    ensures bound { unsigned_abs result ≤ 2 ^ 118 }
{
    *a * *b
}

// The first number less the second.
fn difference(a: &i128, b: &i128) -> i128
    requires a { unsigned_abs a.now ≤ 2 ^ 118 }
    requires b { unsigned_abs b.now ≤ 2 ^ 118 }
    ensures { result ≡ a.now -ℤ b.now }
{
    *a - *b
}

/// The cross product of the edge and the way from its first end to the point, in 10^-30 square degree: 0 where the point
/// is in line with the edge.
pub fn cross(point: &Position, from: &Position, to: &Position) -> i128
    requires point { IsOnGlobe point.now }
    requires from { IsOnGlobe from.now }
    requires to { IsOnGlobe to.now }
    ensures { result ≡ spec.cross point.now (from.now, to.now) }
{
    let east = product(&gap(&to.lon, &from.lon), &gap(&point.lat, &from.lat));
    let north = product(&gap(&point.lon, &from.lon), &gap(&to.lat, &from.lat));
    difference(&east, &north)
}
