// Numbers with decimals: their form and what is kept of their value.
#![tactic(auto)]

ghost use Rattle.std.specs.Prelude.{◌≡◌, ◌++◌, min, get_or, take};
ghost use Rattle.text.specs.Bytes.{bytes};
ghost use Rattle.text.specs.Numbers.{digits_value};
ghost use Rattle.decimals.specs.Decimals.{has_point, before_point, after_point, unsigned_thousandths, is_whole, is_one_to_three, is_minus_zero, is_decimal};
ghost use Rattle.decimals.specs.Inner.Kept.{read_decimal};

use text::lines::find;
use text::names::same;
use text::numbers::{
    all_digits, digit_value, digits_value, is_number, negative, positive, signed, unsigned,
};
use text::output::rest_from;

// Whether a point stands in s.
pub fn has_point(s: &[u8]) -> bool
    ensures { result ≡ has_point s.now }
{
    s.contains(&b'.')
}

// What stands before the first point, and all of s where there is none.
#[tactic(auto, unfolding(crate::specs::Decimals::before_point, text::specs::Inner::Places::find_from))]
fn before_point(s: &[u8]) -> &[u8]
    ensures { result.now ≡ before_point s.now }
{
    &s[..find(s, 0, b'.')]
}

// What stands after the first point, and nothing where there is none.
#[tactic(auto, unfolding(crate::specs::Decimals::after_point, text::specs::Inner::Places::find_from))]
fn after_point(s: &[u8]) -> &[u8]
    ensures { result.now ≡ after_point s.now }
{
    rest_from(s, find(s, 0, b'.') + 1)
}

// The byte at i, and `0` where there is none.
fn decimal_at(s: &[u8], i: usize) -> u8
    ensures { result ≡ get_or s.now i 48 }
{
    s.get(i).copied().unwrap_or(b'0')
}

// The value of decimals, filled up with zeros to three.
fn three_decimals(s: &[u8]) -> u32
    ensures { result ≡ digits_value 0 (take 3 (s.now ++ bytes "000")) }
{
    let v = digit_value(decimal_at(s, 0)) * 100
        + digit_value(decimal_at(s, 1)) * 10
        + digit_value(decimal_at(s, 2));
    v as u32
}

// The value in thousandths of u, which has no sign, and at most 2^31 − 1.
fn unsigned_thousandths(u: &[u8]) -> u32
    ensures { result ≡ min (unsigned_thousandths u.now) 2147483647 }
{
    let wholes = u64::from(digits_value(before_point(u)));
    let decimals = u64::from(three_decimals(after_point(u)));
    (wholes * 1000 + decimals).min(2147483647) as u32
}

// Whether s is `0`, or a digit 1 to 9 and any digits.
#[tactic(auto, unfolding(crate::specs::Decimals::is_whole))]
fn whole(s: &[u8]) -> bool
    ensures { result ≡ is_whole s.now }
{
    same(s, b"0") || positive(s)
}

// Whether s is one to three digits.
#[tactic(auto, unfolding(crate::specs::Decimals::is_one_to_three))]
fn one_to_three(s: &[u8]) -> bool
    ensures { result ≡ is_one_to_three s.now }
{
    matches!(s.len(), 1..=3) && all_digits(s)
}

// Whether s is a `-` and its value zero.
fn minus_zero(s: &[u8]) -> bool
    ensures { result ≡ is_minus_zero s.now }
{
    negative(s) && unsigned_thousandths(unsigned(s)) == 0
}

// Whether s has the form of a number that may have decimals.
#[tactic(auto, unfolding(crate::specs::Decimals::is_decimal))]
pub fn is_decimal(s: &[u8]) -> bool
    ensures { result ≡ is_decimal s.now }
{
    if has_point(s) {
        let u = unsigned(s);
        whole(before_point(u)) && one_to_three(after_point(u)) && !minus_zero(s)
    } else {
        is_number(s)
    }
}

// The thousandths of the number that s is, kept within ±(2^31 − 1); none where s has not the form of a number that may have decimals.
pub fn read_decimal(s: &[u8]) -> Option<i32>
    ensures { result ≡ read_decimal s.now }
{
    if is_decimal(s) {
        Some(signed(negative(s), unsigned_thousandths(unsigned(s))))
    } else {
        None
    }
}
