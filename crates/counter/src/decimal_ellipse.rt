// Whether a point is outside, inside or on the outline of an ellipse with decimals, exactly: by sums of 128 bits.
ghost use Rattle.std.specs.Prelude.{◌≡◌};
ghost use Rattle.counter.specs.DecimalEllipse.{decimal_ellipse_position};
ghost use Rattle.counter.specs.Inner.Steps.{DecimalOval, OnPlane};

use crate::Position;
use crate::positions::position_by;
use crate::steps::{Oval, Point};
use wide::{compare, plus, times};

// The position of a point to an ellipse whose matrix and squared distance are in thousandths.
pub fn decimal_ellipse_position(oval: Oval, point: Point) -> Position
    requires { DecimalOval oval × OnPlane point }
    ensures { result ≡ decimal_ellipse_position oval.m1 oval.m2 oval.c11 oval.c12 oval.c22 oval.d2 point.x point.y }
{
    let dx = point.x as i64 - oval.m1 as i64;
    let dy = point.y as i64 - oval.m2 as i64;
    let p = oval.c11 as i64;
    let q = oval.c12 as i64;
    let r = oval.c22 as i64;
    let left = plus(
        times(r * dx - q * dy, 1000000 * dx),
        times(p * dy - q * dx, 1000000 * dy),
    );
    let right = times(oval.d2 as i64, p * r - q * q);
    position_by(compare(left, right))
}
