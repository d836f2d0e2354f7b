// The matrix of an ellipsoid, of any entries: its determinant passes 64 bits.
ghost use Rattle.std.specs.Prelude.{◌≡◌, pos, ◌-ℤ◌, ◌*ℤ◌};
ghost use Rattle.std.specs.Int.Signed.{lt_z};
ghost use Rattle.wide.specs.Inner.Values.{value};
ghost use Rattle.plans.specs.Form.{matrix3_good};
ghost use Rattle.plans.specs.Symmetric.{symmetric};

use crate::matrix::{matrix_good, product};
use wide::{Wide, compare, plus, times};

// a · d − b · c
fn minor(a: i32, b: i32, c: i32, d: i32) -> i64
    ensures { result ≡ a *ℤ d -ℤ b *ℤ c }
{
    product(a, d) - product(b, c)
}

fn is_positive(w: Wide) -> bool
    ensures { result ≡ lt_z (pos 0) (value w) }
{
    compare(w, Wide::from(0)).is_gt()
}

// Whether c11, the upper left 2 by 2 determinant and the whole determinant are above 0.
pub fn matrix3_good(c11: i32, c12: i32, c13: i32, c22: i32, c23: i32, c33: i32) -> bool
    ensures { result ≡ matrix3_good (symmetric c11 c12 c13 c22 c23 c33) }
{
    if matrix_good(c11, c12, c22) {
        let w1 = times(c11 as i64, minor(c22, c23, c23, c33));
        let w2 = times(c12 as i64, minor(c13, c12, c33, c23));
        let w3 = times(c13 as i64, minor(c12, c13, c22, c23));
        return is_positive(plus(plus(w1, w2), w3));
    }
    false
}
