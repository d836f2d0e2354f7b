// The names that gate lines give and refer to.
#![tactic(auto)]

ghost use Rattle.std.specs.Prelude.{◌≡◌, ◌≤◌};
ghost use Rattle.text.specs.Lines.{fields};
ghost use Rattle.linenames.specs.Inner.LineNames.{region_named, names_region, quad_count, quadrant_name, quadrant_named, gives_name, shares_name, new_quadrant, own_different, end_in, reference_end, has_reference, reference_at, refers_line};

use gatefields::fields::{combines, is_none, is_quad, kind_of, operand_name, step_kind};
use gatefields::quads::{quadrant_at, quadrant_count};
use gatelines::regions::{region_count, region_name};
use gates::LineKind;
use plans::form::kind_number;
use text::lines::{field, field_count};
use text::names::same;

// How many quadrants a gate line names.
fn quad_count(line: &[u8]) -> usize
    ensures { result ≡ quad_count (fields line.now) }
{
    if is_quad(kind_of(line)) {
        quadrant_count(line)
    } else {
        0
    }
}

fn quadrant_name(line: &[u8], q: usize) -> &[u8]
    ensures { result.now ≡ quadrant_name (fields line.now) q }
{
    field(line, quadrant_at(line, q))
}

// The first region of a gate line with a name, or their number.
pub fn find_region(line: &[u8], x: &[u8]) -> usize
    ensures { result ≡ region_named (fields line.now) x.now }
{
    let n = region_count(line);
    (0..n).find(|&q| same(x, region_name(line, q))).unwrap_or(n)
}

// Whether a region of a gate line has a name.
pub fn names_region(line: &[u8], x: &[u8]) -> bool
    ensures { result ≡ names_region (fields line.now) x.now }
{
    find_region(line, x) < region_count(line)
}

// The first quadrant of a gate line with a name, or their number.
fn find_quadrant(line: &[u8], x: &[u8]) -> usize
    ensures { result ≡ quadrant_named (fields line.now) x.now }
{
    if is_quad(kind_of(line)) {
        find_region(line, x)
    } else {
        0
    }
}

// Whether a gate line gives a name to its gate or to a quadrant.
fn gives_name(line: &[u8], x: &[u8]) -> bool
    ensures { result ≡ gives_name (fields line.now) x.now }
{
    same(x, field(line, 1)) | (find_quadrant(line, x) < quad_count(line))
}

// Whether a gate line gives a name that another gives.
pub fn shares_name(line: &[u8], other: &[u8]) -> bool
    ensures { result ≡ shares_name (fields line.now) (fields other.now) }
{
    if gives_name(other, field(line, 1)) {
        return true;
    }
    (0..quad_count(line)).any(|q| gives_name(other, quadrant_name(line, q)))
}

fn new_quadrant(line: &[u8], q: usize) -> bool
    ensures { result ≡ new_quadrant (fields line.now) q }
{
    let x = quadrant_name(line, q);
    !same(x, field(line, 1)) & (find_quadrant(line, x) == q)
}

// Whether the names that a gate line gives are different.
pub fn own_different(line: &[u8]) -> bool
    ensures { result ≡ own_different (fields line.now) }
{
    (0..quad_count(line)).all(|q| new_quadrant(line, q))
}

fn end_in(kind: LineKind, n: usize) -> usize
    ensures { (result ≡ end_in kind n) × (3 ≤ result) }
{
    if !combines(kind) {
        return 3;
    }
    if kind_number(step_kind(kind)) == 6 {
        return 4;
    }
    n.max(3)
}

// The field after the last that may name a region; the first is field 2.
pub fn reference_end(line: &[u8]) -> usize
    ensures { (result ≡ reference_end (fields line.now)) × (3 ≤ result) }
{
    end_in(kind_of(line), field_count(line))
}

// Whether field k is an operand, or a parent that is not `-`.
pub fn has_reference(line: &[u8], k: usize) -> bool
    ensures { result ≡ has_reference (fields line.now) k }
{
    !((k == 2) & is_none(field(line, 2)))
}

// The name of a region in field k, without `!`.
pub fn reference(line: &[u8], k: usize) -> &[u8]
    ensures { result.now ≡ reference_at (fields line.now) k }
{
    if k == 2 {
        return field(line, 2);
    }
    operand_name(field(line, k))
}

// Whether a gate line refers to a region of another.
pub fn refers_to(line: &[u8], other: &[u8]) -> bool
    ensures { result ≡ refers_line (fields line.now) (fields other.now) }
{
    for k in 2..reference_end(line) {
        if has_reference(line, k) & names_region(other, reference(line, k)) {
            return true;
        }
    }
    false
}
