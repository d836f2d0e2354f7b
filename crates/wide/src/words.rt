// Words of 64 bits: the bits of a signed number, the two words of a product, a word where a test holds.
ghost use Rattle.std.specs.Prelude.{◌≡◌, ◌+◌, ◌*◌, ◌/◌, ◌%◌, ◌^◌, if◌then◌else◌};
ghost use Rattle.std.specs.Int.{w64};
ghost use Rattle.std.proofs.Common.{of_z};

use std::num::wrapping_add_u64;

// The bits of x in two's complement.
pub fn bits_of(x: i64) -> u64
    ensures { result ≡ of_z w64 x }
{
    if x < 0 {
        let y = -(x + 1);
        18446744073709551615 - y as u64
    } else {
        x as u64
    }
}

// The upper 64 bits of u · v, by columns of 32 bits. It stands apart from `product_low`, since only so does the compiler see one multiplication in each.
pub fn product_high(u: u64, v: u64) -> u64
    ensures { result ≡ u * v / 2 ^ 64 }
{
    let u0 = u % 4294967296;
    let u1 = u / 4294967296;
    let v0 = v % 4294967296;
    let v1 = v / 4294967296;
    let t = u1 * v0 + u0 * v0 / 4294967296;
    let s = t % 4294967296 + u0 * v1;
    u1 * v1 + t / 4294967296 + s / 4294967296
}

// The lower 64 bits of u · v.
pub fn product_low(u: u64, v: u64) -> u64
    ensures { result ≡ u * v % 2 ^ 64 }
{
    let u0 = u % 4294967296;
    let u1 = u / 4294967296;
    let v0 = v % 4294967296;
    let v1 = v / 4294967296;
    let m = (u1 * v0 % 4294967296 + u0 * v1 % 4294967296) % 4294967296;
    wrapping_add_u64(u0 * v0, m * 4294967296)
}

// x where t holds, else 0.
pub fn when(t: bool, x: u64) -> u64
    ensures { result ≡ (if t then x else 0) }
{
    if t { x } else { 0 }
}

// A high word with its sign bit turned: so signed words compare as unsigned ones do.
pub fn sign_turned(high: u64) -> u64
    ensures { result ≡ (high + 2 ^ 63) % 2 ^ 64 }
{
    wrapping_add_u64(high, 9223372036854775808)
}
