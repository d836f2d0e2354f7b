// What a gate line says of its regions.
ghost use Rattle.std.specs.Prelude.{◌≡◌, ◌+◌, drop};
ghost use Rattle.text.specs.Lines.{fields};
ghost use Rattle.gates.specs.Kinds.{field_at, line_kind};
ghost use Rattle.gates.specs.Inner.Regions.{region_count, region_name, step_number, body_length, body_word_of};

use crate::words::{line_word, quadrant_word};
use gatefields::fields::{is_quad, kind_of, name_count, step_kind};
use gatefields::quads::{divider_count, quadrant_at, quadrant_count};
use plans::form::kind_number;
use text::lines::{field, field_count};

// How many regions the gate has.
pub fn region_count(line: &[u8]) -> usize
    ensures { result ≡ region_count (fields line.now) }
{
    if is_quad(kind_of(line)) {
        return quadrant_count(line);
    }
    1
}

// The name of region q, and nothing where there is no such region.
pub fn region_name(line: &[u8], q: usize) -> &[u8]
    ensures { result.now ≡ region_name (fields line.now) q }
{
    if region_count(line) <= q {
        return &line[..0];
    }
    if is_quad(kind_of(line)) {
        return field(line, quadrant_at(line, q));
    }
    field(line, 1)
}

// The name of the gate.
pub fn gate_name(line: &[u8]) -> &[u8]
    ensures { result.now ≡ field_at (fields line.now) 1 }
{
    field(line, 1)
}

// The parent field: a name, or `-` for none.
pub fn parent_field(line: &[u8]) -> &[u8]
    ensures { result.now ≡ field_at (fields line.now) 2 }
{
    field(line, 2)
}

// Operand j of a combination.
pub fn operand_field(line: &[u8], j: usize) -> &[u8]
    ensures { result.now ≡ field_at (fields line.now) (3 + j) }
{
    if field_count(line).saturating_sub(3) <= j {
        return &line[..0];
    }
    field(line, 3 + j)
}

// The number of the kind of each region's step.
pub fn step_number(line: &[u8]) -> u8
    ensures { result ≡ step_number (line_kind (fields line.now)) }
{
    kind_number(step_kind(kind_of(line)))
}

// How many words the body of each region has.
pub fn body_length(line: &[u8]) -> usize
    ensures { result ≡ body_length (fields line.now) }
{
    if is_quad(kind_of(line)) {
        return 3 * divider_count(line);
    }
    field_count(line).saturating_sub(3)
}

// Word i of the body of region q, of a box, polygon or ellipse; 0 where there is none.
pub fn word_of(head: &[u8], line: &[u8], q: usize, i: usize) -> i32
    ensures { result ≡ body_word_of (drop 1 (fields head.now)) (fields line.now) q i }
{
    if 8 < name_count(head) {
        return 0;
    }
    if region_count(line) <= q {
        return 0;
    }
    if body_length(line) <= i {
        return 0;
    }
    let kind = kind_of(line);
    if is_quad(kind) {
        return quadrant_word(head, line, q, i);
    }
    line_word(head, kind, line, i)
}
