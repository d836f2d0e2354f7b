// The refusal of a gate line.
ghost use Rattle.std.specs.Prelude.{◌≡◌, drop};
ghost use Rattle.text.specs.Lines.{fields};
ghost use Rattle.plans.specs.Symmetric.{symmetric_from};
ghost use Rattle.plans.specs.Form.{matrix3_good};
ghost use Rattle.gates.specs.Kinds.{field_at, value_of};
ghost use Rattle.gates.specs.Refusal.{shape_good, becomes as becomes_of, entry_of, matrix_passes, tiling_passes, line_refusal};
ghost use Rattle.gates.specs.LineRefusals.{earned_number};

use crate::tiling::tiles;
use gatefields::fields::{is_quad, is_unknown, kind_of, step_kind, thousandths_of, value_of};
use gatefields::quads::layout_good;
use gaterules::fields_refusal;
use gates::{LineKind, LineRefusal};
use plans::form::{is_length, kind_number};
use plans::matrix::matrix_good;
use plans::matrix3::matrix3_good;
use text::lines::{field, field_count};

// Whether a line of a kind, with m fields after its parent, has the shape.
fn shape_good(kind: LineKind, m: usize, line: &[u8]) -> bool
    ensures { result ≡ shape_good kind m (fields line.now) }
{
    if is_quad(kind) {
        return layout_good(line);
    }
    is_length(step_kind(kind), m)
}

// Whether a line becomes the kind of step with a number.
fn becomes(number: u8, kind: LineKind) -> bool
    ensures { result ≡ becomes_of number kind }
{
    kind_number(step_kind(kind)) == number
}

// An entry of the matrix of an ellipse.
fn entry_of(kind: LineKind, x: &[u8]) -> i32
    ensures { result ≡ entry_of kind x.now }
{
    if becomes(7, kind) {
        return thousandths_of(x);
    }
    value_of(x)
}

// Whether the matrix of an ellipsoid is good.
fn matrix3_passes(line: &[u8]) -> bool
    ensures { result ≡ matrix3_good (symmetric_from (λ k. value_of (field_at (fields line.now) k)) 9) }
{
    matrix3_good(
        value_of(field(line, 9)),
        value_of(field(line, 10)),
        value_of(field(line, 11)),
        value_of(field(line, 12)),
        value_of(field(line, 13)),
        value_of(field(line, 14)),
    )
}

// Whether the matrix of an ellipse or an ellipsoid is good; a line of another kind has none.
fn matrix_passes(kind: LineKind, line: &[u8]) -> bool
    ensures { result ≡ matrix_passes kind (fields line.now) }
{
    if becomes(8, kind) {
        return matrix3_passes(line);
    }
    if becomes(3, kind) | becomes(7, kind) {
        return matrix_good(
            entry_of(kind, field(line, 7)),
            entry_of(kind, field(line, 8)),
            entry_of(kind, field(line, 9)),
        );
    }
    true
}

// Whether the quadrants of a quad line tile; a line of another kind has none.
fn tiling_passes(kind: LineKind, line: &[u8]) -> bool
    ensures { result ≡ tiling_passes kind (fields line.now) }
{
    if is_quad(kind) {
        return tiles(line);
    }
    true
}

// The refusal of a gate line under a head line, 4 to 12, if there is one.
pub fn line_refusal(head: &[u8], line: &[u8]) -> Result<(), LineRefusal>
    ensures { earned_number result ≡ line_refusal (drop 1 (fields head.now)) (fields line.now) }
{
    let kind = kind_of(line);
    if is_unknown(kind) {
        return Err(LineRefusal::UnknownKind);
    }
    if !shape_good(kind, field_count(line).saturating_sub(3), line) {
        return Err(LineRefusal::WrongShape);
    }
    fields_refusal(head, kind, line)?;
    if !matrix_passes(kind, line) {
        return Err(LineRefusal::BadMatrix);
    }
    if !tiling_passes(kind, line) {
        return Err(LineRefusal::NoTiling);
    }
    Ok(())
}
