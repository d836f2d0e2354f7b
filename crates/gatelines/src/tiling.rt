// Intervals, and whether the quadrants of a line tile: refusal 12.
ghost use Rattle.std.specs.Prelude.{◌≡◌, ◌<◌, ◌≤◌, ◌^◌};
ghost use Rattle.text.specs.Lines.{fields};
ghost use Rattle.plans.specs.Indices.{how_many};
ghost use Rattle.gates.specs.Quads.{divider_count, divider_value, quadrant_count, representative as representative_of};
ghost use Rattle.gates.specs.Tiling.{interval as interval_of, holds_interval, interval_in as part_of, is_combination, holds_combination, held_once, tiles as tiles_of};

use gatefields::fields::{is_star, value_of};
use gatefields::quads::{divider_at, divider_count, quadrant_at, quadrant_count, value_count};
use text::lines::field;

// Value j of divider t.
pub fn divider_value(line: &[u8], t: usize, j: usize) -> i32
    requires { (t ≤ 3) × (j ≤ 3) }
    ensures { result ≡ divider_value (fields line.now) t j }
{
    value_of(field(line, divider_at(line, t) + 2 + j))
}

// The interval of divider t that x lies in.
pub fn interval(line: &[u8], t: usize, x: i32) -> usize
    requires { t ≤ 3 }
    ensures { (result ≡ interval_of (fields line.now) t x) × (result ≤ 3) }
{
    (0..value_count(line, t))
        .filter(|&j| divider_value(line, t, j) <= x)
        .count()
}

// What quadrant q has for divider t.
pub fn representative(line: &[u8], q: usize, t: usize) -> &[u8]
    requires { (q < quadrant_count (fields line.now)) × (t < divider_count (fields line.now)) }
    ensures { result.now ≡ representative_of (fields line.now) q t }
{
    field(line, quadrant_at(line, q) + 1 + t)
}

fn holds_interval(line: &[u8], q: usize, t: usize, k: usize) -> bool
    requires { (q < quadrant_count (fields line.now)) × (t < divider_count (fields line.now)) }
    ensures { result ≡ holds_interval (fields line.now) q t k }
{
    let x = representative(line, q, t);
    is_star(x) | (interval(line, t, value_of(x)) == k)
}

// The interval of divider t in combination c.
fn part(c: usize, t: usize) -> usize
    requires { t < 3 }
    ensures { result ≡ part_of c t }
{
    if t == 0 {
        return c % 4;
    }
    if t == 1 {
        return c / 4 % 4;
    }
    c / 16 % 4
}

fn is_combination(line: &[u8], c: usize) -> bool
    ensures { result ≡ is_combination (fields line.now) c }
{
    (0..divider_count(line)).all(|t| part(c, t) <= value_count(line, t))
}

fn holds_combination(line: &[u8], c: usize, q: usize) -> bool
    requires { q < quadrant_count (fields line.now) }
    ensures { result ≡ holds_combination (fields line.now) c q }
{
    (0..divider_count(line)).all(|t| holds_interval(line, q, t, part(c, t)))
}

// How many quadrants hold combination c.
fn holders(line: &[u8], c: usize) -> usize
    ensures { result ≡ how_many (holds_combination (fields line.now) c) (quadrant_count (fields line.now)) }
{
    (0..quadrant_count(line))
        .filter(|&q| holds_combination(line, c, q))
        .count()
}

fn held_once(line: &[u8], c: usize) -> bool
    ensures { result ≡ held_once (fields line.now) c }
{
    if is_combination(line, c) {
        return holders(line, c) == 1;
    }
    true
}

// How many combinations d dividers number.
fn combinations(d: usize) -> usize
    requires { d ≤ 3 }
    ensures { result ≡ 4 ^ d }
{
    if d == 0 {
        return 1;
    }
    if d == 1 {
        return 4;
    }
    if d == 2 {
        return 16;
    }
    64
}

pub fn tiles(line: &[u8]) -> bool
    ensures { result ≡ tiles_of (fields line.now) }
{
    let n = combinations(divider_count(line));
    (quadrant_count(line) <= n) && (0..n).all(|c| held_once(line, c))
}
