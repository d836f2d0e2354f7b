// The layout of a quad line.
ghost use Rattle.std.specs.Prelude.{◌≡◌, cond, ◌+◌, ◌≤◌, min, length, leb, ltb};
ghost use Rattle.text.specs.Lines.{fields};
ghost use Rattle.plans.specs.Indices.{all};
ghost use Rattle.gates.specs.Quads.{count_digit, divider_count, divider_at, value_count, quadrants_at, quadrant_count, quadrant_at, layout_good};

use text::lines::{field, field_count};

fn count_of(x: &[u8]) -> usize
    ensures { (result ≡ count_digit x.now) × (result ≤ 3) }
{
    match x {
        b"1" => 1,
        b"2" => 2,
        b"3" => 3,
        _ => 0,
    }
}

pub fn divider_count(line: &[u8]) -> usize
    ensures { (result ≡ divider_count (fields line.now)) × (result ≤ 3) }
{
    count_of(field(line, 3))
}

// The field at which divider t begins; there are at most 3.
pub fn divider_at(line: &[u8], t: usize) -> usize
    ensures { (result ≡ divider_at (fields line.now) (min t 3)) × (4 ≤ result) × (result ≤ 19) }
{
    let mut a: usize = 4;
    for _ in 0..t.min(3) {
        a += 2 + count_of(field(line, a + 1));
    }
    a
}

pub fn value_count(line: &[u8], t: usize) -> usize
    ensures { (result ≡ value_count (fields line.now) (min t 3)) × (result ≤ 3) }
{
    count_of(field(line, divider_at(line, t) + 1))
}

// The field at which the quadrants begin.
pub fn quadrants_at(line: &[u8]) -> usize
    ensures { (result ≡ quadrants_at (fields line.now)) × (4 ≤ result) × (result ≤ 19) }
{
    divider_at(line, divider_count(line))
}

pub fn quadrant_count(line: &[u8]) -> usize
    ensures { result ≡ quadrant_count (fields line.now) }
{
    field_count(line).saturating_sub(quadrants_at(line)) / (1 + divider_count(line))
}

// The field at which quadrant q begins, or the number of fields where there is no such quadrant.
pub fn quadrant_at(line: &[u8], q: usize) -> usize
    ensures { result ≡ cond (ltb q (quadrant_count (fields line.now)))
        (quadrant_at (fields line.now) q) (length (fields line.now)) }
{
    let n = field_count(line);
    if q < quadrant_count(line) {
        return quadrants_at(line) + q * (1 + divider_count(line));
    }
    n
}

fn counts_good(line: &[u8], d: usize) -> bool
    requires { d ≤ 3 }
    ensures { result ≡ all (λ t. leb 1 (value_count (fields line.now) t)) d }
{
    (0..d).all(|t| 1 <= value_count(line, t))
}

pub fn layout_good(line: &[u8]) -> bool
    ensures { result ≡ layout_good (fields line.now) }
{
    let d = divider_count(line);
    let a = quadrants_at(line);
    let n = field_count(line);
    (1 <= d) && counts_good(line, d) && (a < n) && (n - a) % (1 + d) == 0
}
