// Signed numbers of 128 bits in two's complement, for every argument: sums, differences and multiples modulo 2^128, exact products, the order.
// Each function is a few instructions: the compiler makes one multiplication of each of `words::product_high` and `words::product_low`.
#![tactic(auto)]

mod words;

ghost use Rattle.std.specs.Prelude.{◌≡◌, ◌+ℤ◌, ◌-ℤ◌, ◌*ℤ◌};
ghost use Rattle.wide.specs.Inner.Values.{value, wrapped, order_of};

use crate::words::{bits_of, product_high, product_low, sign_turned, when};
use std::cmp::Ordering;
use std::num::{wrapping_add_u64, wrapping_sub_u64};

// high · 2^64 + low, where high is read as a signed number.
#[derive(Clone, Copy)]
pub struct Wide {
    pub high: u64,
    pub low: u64,
}

// The same number.
impl From<i64> for Wide {
    ghost from_gives = { λ x w. value w ≡ x };

    fn from(x: i64) -> Wide {
        let high = when(x < 0, 18446744073709551615);
        let low = bits_of(x);
        Wide { high, low }
    }
}

// a + b, modulo 2^128.
pub fn plus(a: Wide, b: Wide) -> Wide
    ensures { value result ≡ wrapped (value a +ℤ value b) }
{
    let low = wrapping_add_u64(a.low, b.low);
    let high = wrapping_add_u64(a.high, b.high);
    let carry = when(low < a.low, 1);
    Wide {
        high: wrapping_add_u64(high, carry),
        low,
    }
}

// a - b, modulo 2^128.
pub fn minus(a: Wide, b: Wide) -> Wide
    ensures { value result ≡ wrapped (value a -ℤ value b) }
{
    let low = wrapping_sub_u64(a.low, b.low);
    let high = wrapping_sub_u64(a.high, b.high);
    let borrow = when(a.low < b.low, 1);
    Wide {
        high: wrapping_sub_u64(high, borrow),
        low,
    }
}

// a · b, modulo 2^128. Below 0 the bits of b are b + 2^64: that is the low word of a too much in the high word.
pub fn scaled(a: Wide, b: i64) -> Wide
    ensures { value result ≡ wrapped (value a *ℤ b) }
{
    let v = bits_of(b);
    let carry = product_high(a.low, v);
    let upper = product_low(a.high, v);
    let low = product_low(a.low, v);
    let sum = wrapping_add_u64(carry, upper);
    let excess = when(b < 0, a.low);
    Wide {
        high: wrapping_sub_u64(sum, excess),
        low,
    }
}

// a · b, exactly. The bits of a number below 0 are 2^64 too much: the bits of the other are taken off the high word.
pub fn times(a: i64, b: i64) -> Wide
    ensures { value result ≡ a *ℤ b }
{
    let u = bits_of(a);
    let v = bits_of(b);
    let high = product_high(u, v);
    let low = product_low(u, v);
    let less = wrapping_sub_u64(high, when(a < 0, v));
    Wide {
        high: wrapping_sub_u64(less, when(b < 0, u)),
        low,
    }
}

// How a compares with b. The tests are flags and not branches: they become moves.
pub fn compare(a: Wide, b: Wide) -> Ordering
    ensures { result ≡ order_of (value a) (value b) }
{
    let x = sign_turned(a.high);
    let y = sign_turned(b.high);
    let less = (x < y) | ((x == y) & (a.low < b.low));
    let same = (x == y) & (a.low == b.low);
    if less {
        return Ordering::Less;
    }
    if same {
        return Ordering::Equal;
    }
    Ordering::Greater
}
