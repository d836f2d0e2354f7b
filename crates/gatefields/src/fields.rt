// What a line's single fields say.
ghost use Rattle.std.specs.Prelude.{◌≡◌, cond, ◌-◌, length, drop};
ghost use Rattle.text.specs.Bytes.{same as same_bytes};
ghost use Rattle.text.specs.Lines.{fields};
ghost use Rattle.gates.specs.Inner.Regions.{combines as combines_of};
ghost use Rattle.gates.specs.Kinds.{carries_point, kind_named, line_kind, step_kind, is_unknown, is_quad, is_star, is_none, is_parent, is_complement, operand_name, is_operand, dimension_of, value_of, thousandths_of};
ghost use Rattle.gates.specs.declared.LineKind.TheVariants.{Ellip, DecimalEllip};

use decimals::{has_point, read_decimal};
use gates::LineKind;
use plans::Kind;
use plans::form::{is_known, kind_number};
use text::lines::{field, field_count, find_field};
use text::names::{is_name, same};
use text::numbers::read_number;

// A kind where x is its name, or another.
fn kind_or(x: &[u8], name: &[u8], kind: LineKind, other: LineKind) -> LineKind
    ensures { result ≡ cond (same_bytes x.now name.now) kind other }
{
    if same(x, name) { kind } else { other }
}

// Whether an ellipse's c11, c12, c22 or D² carries a point.
fn carries_point(line: &[u8]) -> bool
    ensures { result ≡ carries_point (fields line.now) }
{
    has_point(field(line, 7))
        | has_point(field(line, 8))
        | has_point(field(line, 9))
        | has_point(field(line, 10))
}

// The kind of an ellipse, with or without decimals.
fn ellip_kind(decimals: bool) -> LineKind
    ensures { result ≡ cond decimals DecimalEllip Ellip }
{
    if decimals {
        LineKind::DecimalEllip
    } else {
        LineKind::Ellip
    }
}

// The kind with a name; of an ellipse, with or without decimals.
fn kind_named(decimals: bool, x: &[u8]) -> LineKind
    ensures { result ≡ kind_named decimals x.now }
{
    let kind = kind_or(x, b"not", LineKind::Not, LineKind::Unknown);
    let kind = kind_or(x, b"or", LineKind::Or, kind);
    let kind = kind_or(x, b"and", LineKind::And, kind);
    let kind = kind_or(x, b"quad", LineKind::Quad, kind);
    let kind = kind_or(x, b"ellip3", LineKind::Ellip3, kind);
    let kind = kind_or(x, b"ellip", ellip_kind(decimals), kind);
    let kind = kind_or(x, b"poly", LineKind::Poly, kind);
    kind_or(x, b"rect", LineKind::Rect, kind)
}

// The kind of a line.
pub fn kind_of(line: &[u8]) -> LineKind
    ensures { result ≡ line_kind (fields line.now) }
{
    kind_named(carries_point(line), field(line, 0))
}

// The kind of the steps that a line makes.
pub fn step_kind(kind: LineKind) -> Kind
    ensures { result ≡ step_kind kind }
{
    match kind {
        LineKind::Rect | LineKind::Quad => Kind::Box,
        LineKind::Poly => Kind::Polygon,
        LineKind::Ellip => Kind::Ellipse,
        LineKind::DecimalEllip => Kind::DecimalEllipse,
        LineKind::Ellip3 => Kind::Ellipsoid,
        LineKind::And => Kind::And,
        LineKind::Or => Kind::Or,
        LineKind::Not => Kind::Not,
        LineKind::Unknown => Kind::Unknown,
    }
}

pub fn is_unknown(kind: LineKind) -> bool
    ensures { result ≡ is_unknown kind }
{
    !is_known(step_kind(kind))
}

pub fn is_quad(kind: LineKind) -> bool
    ensures { result ≡ is_quad kind }
{
    kind == LineKind::Quad
}

// Whether the gate of a line combines operands.
pub fn combines(kind: LineKind) -> bool
    ensures { result ≡ combines_of kind }
{
    let n = kind_number(step_kind(kind));
    (4 <= n) & (n <= 6)
}

pub fn is_star(x: &[u8]) -> bool
    ensures { result ≡ is_star x.now }
{
    same(x, b"*")
}

// Whether x is the parent field of a gate with no parent.
pub fn is_none(x: &[u8]) -> bool
    ensures { result ≡ is_none x.now }
{
    same(x, b"-")
}

pub fn is_parent(x: &[u8]) -> bool
    ensures { result ≡ is_parent x.now }
{
    is_name(x) | is_none(x)
}

// Whether `!` stands before an operand's name.
pub fn is_complement(x: &[u8]) -> bool
    ensures { result ≡ is_complement x.now }
{
    x.first() == Some(&b'!')
}

pub fn operand_name(x: &[u8]) -> &[u8]
    ensures { result.now ≡ operand_name x.now }
{
    if is_complement(x) {
        return &x[1..];
    }
    x
}

pub fn is_operand(x: &[u8]) -> bool
    ensures { result ≡ is_operand x.now }
{
    is_name(operand_name(x))
}

pub fn value_of(x: &[u8]) -> i32
    ensures { result ≡ value_of x.now }
{
    read_number(x).unwrap_or(0)
}

// The value of a number that may have decimals, in thousandths.
pub fn thousandths_of(x: &[u8]) -> i32
    ensures { result ≡ thousandths_of x.now }
{
    read_decimal(x).unwrap_or(0)
}

// How many names the head line has.
pub fn name_count(head: &[u8]) -> usize
    ensures { result ≡ length (drop 1 (fields head.now)) }
{
    field_count(head) - 1
}

// The number of a dimension.
pub fn dimension_of(head: &[u8], x: &[u8]) -> usize
    ensures { result ≡ dimension_of (drop 1 (fields head.now)) x.now }
{
    find_field(head, 1, x) - 1
}
