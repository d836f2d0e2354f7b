// Whether a point is outside, inside or on the outline of an ellipsoid, exactly: by sums of 128 bits.
ghost use Rattle.std.specs.Prelude.{◌≡◌};
ghost use Rattle.counter.specs.Ellipsoid.{ellipsoid_position};
ghost use Rattle.counter.specs.Inner.Steps.{SolidWithin, InSpace, matrix_of};

use crate::Position;
use crate::positions::position_by;
use crate::steps::{Point3, Solid};
use wide::{Wide, compare, plus, times};

// The position of a point to an ellipsoid.
// The sum is the left side of the rule less the right, gathered by the entries of the adjugate.
pub fn ellipsoid_position(solid: Solid, point: Point3) -> Position
    requires { SolidWithin solid × InSpace point }
    ensures { result ≡ ellipsoid_position solid.m1 solid.m2 solid.m3 (matrix_of solid) solid.d2 point.x point.y point.z }
{
    let dx = point.x as i64 - solid.m1 as i64;
    let dy = point.y as i64 - solid.m2 as i64;
    let dz = point.z as i64 - solid.m3 as i64;
    let p = solid.c11 as i64;
    let q = solid.c12 as i64;
    let r = solid.c13 as i64;
    let s = solid.c22 as i64;
    let t = solid.c23 as i64;
    let u = solid.c33 as i64;
    let d = solid.d2 as i64;
    let w11 = times(s * u - t * t, dx * dx - d * p);
    let w22 = times(p * u - r * r, dy * dy);
    let w33 = times(p * s - q * q, dz * dz);
    let w12 = times(r * t - q * u, 2 * (dx * dy) - d * q);
    let w13 = times(q * t - r * s, 2 * (dx * dz) - d * r);
    let w23 = times(q * r - p * t, 2 * (dy * dz));
    let sum = plus(plus(plus(w11, w22), w33), plus(plus(w12, w13), w23));
    position_by(compare(sum, Wide::from(0)))
}
