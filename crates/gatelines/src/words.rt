// The words of a box, a polygon, an ellipse or an ellipsoid.
ghost use Rattle.std.specs.Prelude.{◌≡◌, ◌+◌, ◌-◌, ◌*◌, ◌<◌, ◌≤◌, pos, length, drop};
ghost use Rattle.text.specs.Lines.{fields};
ghost use Rattle.gates.specs.Kinds.{dimension_of};
ghost use Rattle.gates.specs.Quads.{divider_count, quadrant_count};
ghost use Rattle.gates.specs.Encoding.{min_word, max_word, rect_word, axes_word, decimal_word, lower_end, upper_end, quadrant_min, quadrant_max, quadrant_word};
ghost use Rattle.gates.specs.Inner.Regions.{line_word};

use crate::tiling::{divider_value, interval, representative};
use gatefields::fields::{dimension_of, is_star, thousandths_of, value_of};
use gatefields::quads::{divider_at, value_count};
use gates::LineKind;
use text::lines::field;

fn dimension_word(head: &[u8], x: &[u8]) -> i32
    requires { length (drop 1 (fields head.now)) ≤ 8 }
    ensures { result ≡ pos (dimension_of (drop 1 (fields head.now)) x.now) }
{
    dimension_of(head, x) as i32
}

fn min_word(x: &[u8]) -> i32
    ensures { result ≡ min_word x.now }
{
    if is_star(x) {
        return -65536;
    }
    value_of(x)
}

fn max_word(x: &[u8]) -> i32
    ensures { result ≡ max_word x.now }
{
    if is_star(x) {
        return 65536;
    }
    value_of(x)
}

fn rect_word(head: &[u8], line: &[u8], i: usize) -> i32
    requires { (length (drop 1 (fields head.now)) ≤ 8) × (i < length (fields line.now) - 3) }
    ensures { result ≡ rect_word (drop 1 (fields head.now)) (fields line.now) i }
{
    let x = field(line, 3 + i);
    if i % 3 == 0 {
        return dimension_word(head, x);
    }
    if i % 3 == 1 {
        return min_word(x);
    }
    max_word(x)
}

// A shape over so many dimensions: these, then numbers.
fn axes_word(many: usize, head: &[u8], line: &[u8], i: usize) -> i32
    requires { (length (drop 1 (fields head.now)) ≤ 8) × (i < length (fields line.now) - 3) }
    ensures { result ≡ axes_word many (drop 1 (fields head.now)) (fields line.now) i }
{
    let x = field(line, 3 + i);
    if i < many {
        return dimension_word(head, x);
    }
    value_of(x)
}

fn decimal_word(head: &[u8], line: &[u8], i: usize) -> i32
    requires { (length (drop 1 (fields head.now)) ≤ 8) × (i < length (fields line.now) - 3) }
    ensures { result ≡ decimal_word (drop 1 (fields head.now)) (fields line.now) i }
{
    if i < 4 {
        return axes_word(2, head, line, i);
    }
    thousandths_of(field(line, 3 + i))
}

// Word i of what a line draws with all its fields.
pub fn line_word(head: &[u8], kind: LineKind, line: &[u8], i: usize) -> i32
    requires { (length (drop 1 (fields head.now)) ≤ 8) × (i < length (fields line.now) - 3) }
    ensures { result ≡ line_word (drop 1 (fields head.now)) kind (fields line.now) i }
{
    match kind {
        LineKind::Rect => rect_word(head, line, i),
        LineKind::Poly => axes_word(2, head, line, i),
        LineKind::Ellip => axes_word(2, head, line, i),
        LineKind::DecimalEllip => decimal_word(head, line, i),
        LineKind::Ellip3 => axes_word(3, head, line, i),
        LineKind::Quad => 0,
        LineKind::And => 0,
        LineKind::Or => 0,
        LineKind::Not => 0,
        LineKind::Unknown => 0,
    }
}

fn lower_end(line: &[u8], t: usize, k: usize) -> i32
    requires { (t ≤ 3) × (k ≤ 3) }
    ensures { result ≡ lower_end (fields line.now) t k }
{
    if k == 0 {
        return -65536;
    }
    divider_value(line, t, k - 1)
}

fn upper_end(line: &[u8], t: usize, k: usize) -> i32
    requires { (t ≤ 3) × (k ≤ 3) }
    ensures { result ≡ upper_end (fields line.now) t k }
{
    if k == value_count(line, t) {
        return 65536;
    }
    divider_value(line, t, k)
}

fn quadrant_min(line: &[u8], q: usize, t: usize) -> i32
    requires { (q < quadrant_count (fields line.now)) × (t < divider_count (fields line.now)) }
    ensures { result ≡ quadrant_min (fields line.now) q t }
{
    let x = representative(line, q, t);
    if is_star(x) {
        return -65536;
    }
    lower_end(line, t, interval(line, t, value_of(x)))
}

fn quadrant_max(line: &[u8], q: usize, t: usize) -> i32
    requires { (q < quadrant_count (fields line.now)) × (t < divider_count (fields line.now)) }
    ensures { result ≡ quadrant_max (fields line.now) q t }
{
    let x = representative(line, q, t);
    if is_star(x) {
        return 65536;
    }
    upper_end(line, t, interval(line, t, value_of(x)))
}

// Word i of the box of quadrant q.
pub fn quadrant_word(head: &[u8], line: &[u8], q: usize, i: usize) -> i32
    requires { (length (drop 1 (fields head.now)) ≤ 8) × (q < quadrant_count (fields line.now)) × (i < 3 * divider_count (fields line.now)) }
    ensures { result ≡ quadrant_word (drop 1 (fields head.now)) (fields line.now) q i }
{
    let t = i / 3;
    if i % 3 == 0 {
        return dimension_word(head, field(line, divider_at(line, t)));
    }
    if i % 3 == 1 {
        return quadrant_min(line, q, t);
    }
    quadrant_max(line, q, t)
}
