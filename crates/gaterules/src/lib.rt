// Refusals 6 to 10 of a gate line: a rule for each field, and the least refusal that a field earns.
#![tactic(auto)]

ghost use Rattle.std.specs.Prelude.{◌≡◌, ◌+◌, ◌≤◌, min, drop};
ghost use Rattle.std.specs.Option.{option_map_or};
ghost use Rattle.integers.specs.Range.{in_range};
ghost use Rattle.text.specs.Lines.{fields};
ghost use Rattle.gates.specs.Inner.Bounds.{Bound, DecimalBound};
ghost use Rattle.gates.specs.Rules.{rect_rule, poly_rule, ellip_rule, ellip3_rule, divider_rule, divider_of, quad_rule, body_rule, rule_of};
ghost use Rattle.gates.specs.Rules.{dimension_passes, number_refusal, decimal_refusal, optional_refusal, field_refusal, fields_refusal, unless as unless_of, repeated as is_repeated, uncrossed as rises_of};
ghost use Rattle.gates.specs.LineRefusals.{line_refusal_number, earned_number};

use decimals::read_decimal;
use gatefields::fields::{dimension_of, is_operand, is_parent, is_star, name_count, value_of};
use gatefields::quads::{divider_at, divider_count, quadrants_at};
use gates::{LineKind, LineRefusal, Rule};
use text::lines::{field, field_count};
use text::names::{is_name, same};
use text::numbers::{is_number, read_number};

fn rect_rule(i: usize) -> Rule
    ensures { result ≡ rect_rule i }
{
    if i % 3 == 0 {
        return Rule::Dimension;
    }
    if i % 3 == 1 {
        return Rule::Min;
    }
    Rule::Max
}

fn poly_rule(i: usize) -> Rule
    ensures { result ≡ poly_rule i }
{
    if i < 2 {
        return Rule::Dimension;
    }
    Rule::Coordinate
}

fn ellip_rule(entry: Rule, distance: Rule, i: usize) -> Rule
    ensures { result ≡ ellip_rule entry distance i }
{
    if i < 2 {
        return Rule::Dimension;
    }
    if i < 4 {
        return Rule::Coordinate;
    }
    if i < 7 {
        return entry;
    }
    distance
}

fn ellip3_rule(i: usize) -> Rule
    ensures { result ≡ ellip3_rule i }
{
    if i < 3 {
        return Rule::Dimension;
    }
    if i < 6 {
        return Rule::Coordinate;
    }
    if i < 12 {
        return Rule::Entry;
    }
    Rule::Distance
}

fn divider_rule(i: usize) -> Rule
    ensures { result ≡ divider_rule i }
{
    if i == 0 {
        return Rule::Dimension;
    }
    if i == 1 {
        return Rule::Free;
    }
    if i == 2 {
        return Rule::Value;
    }
    Rule::Rising
}

// The divider that field k stands in.
fn divider_of(line: &[u8], k: usize) -> usize
    ensures { (result ≡ divider_of (fields line.now) k) × (result ≤ 3) }
{
    let d = divider_count(line);
    let mut r: usize = 0;
    for t in 0..d {
        if divider_at(line, t) <= k {
            r = t;
        }
    }
    r
}

fn quad_rule(line: &[u8], k: usize) -> Rule
    ensures { result ≡ quad_rule (fields line.now) k }
{
    if k <= 3 {
        return Rule::Free;
    }
    let a = quadrants_at(line);
    if k < a {
        return divider_rule(k.saturating_sub(divider_at(line, divider_of(line, k))));
    }
    let size = 1 + divider_count(line);
    if (k - a) % size == 0 {
        return Rule::Name;
    }
    Rule::Representative
}

// What field k, the one with index i after the parent, is judged as.
fn body_rule(kind: LineKind, line: &[u8], i: usize, k: usize) -> Rule
    requires { k ≡ 3 + i }
    ensures { result ≡ body_rule kind (fields line.now) i }
{
    match kind {
        LineKind::Rect => rect_rule(i),
        LineKind::Poly => poly_rule(i),
        LineKind::Ellip => ellip_rule(Rule::Entry, Rule::Distance, i),
        LineKind::DecimalEllip => ellip_rule(Rule::DecimalEntry, Rule::DecimalDistance, i),
        LineKind::Ellip3 => ellip3_rule(i),
        LineKind::Quad => quad_rule(line, k),
        LineKind::And => Rule::Operand,
        LineKind::Or => Rule::Operand,
        LineKind::Not => Rule::Operand,
        LineKind::Unknown => Rule::Free,
    }
}

// What field k is judged as.
pub fn rule_of(kind: LineKind, line: &[u8], k: usize) -> Rule
    ensures { result ≡ rule_of kind (fields line.now) k }
{
    if k == 0 {
        return Rule::Free;
    }
    if k == 1 {
        return Rule::Name;
    }
    if k == 2 {
        return Rule::Parent;
    }
    body_rule(kind, line, k - 3, k)
}

// Whether the dimension at k stands before k too.
fn repeated(kind: LineKind, line: &[u8], k: usize) -> bool
    ensures { result ≡ is_repeated kind (fields line.now) k }
{
    let x = field(line, k);
    (0..k).any(|j| rule_of(kind, line, j) == Rule::Dimension && same(field(line, j), x))
}

fn dimension_passes(head: &[u8], kind: LineKind, line: &[u8], k: usize) -> bool
    ensures { result ≡ dimension_passes (drop 1 (fields head.now)) kind (fields line.now) k }
{
    (dimension_of(head, field(line, k)) < name_count(head)) & !repeated(kind, line, k)
}

fn unless(good: bool, refusal: LineRefusal) -> Result<(), LineRefusal>
    ensures { earned_number result ≡ unless_of good (line_refusal_number refusal) }
{
    if good { Ok(()) } else { Err(refusal) }
}

// The least that two tests earn.
fn least_of(x: Result<(), LineRefusal>, y: Result<(), LineRefusal>) -> Result<(), LineRefusal>
    ensures { earned_number result ≡ min (earned_number x) (earned_number y) }
{
    match (x, y) {
        (Err(a), Err(b)) => Err(a.min(b)),
        (Ok(()), other) => other,
        (refused, Ok(())) => refused,
    }
}

// What is earned by a number, if it is one, that has to lie between two ends.
fn range_refusal(lo: i32, hi: i32, read: Option<i32>) -> Result<(), LineRefusal>
    ensures { earned_number result ≡ option_map_or (λ z. unless_of (in_range lo hi z) 8) read 7 }
{
    let value = read.ok_or(LineRefusal::BadNumber)?;
    unless((lo <= value) & (value <= hi), LineRefusal::OffScale)
}

fn number_refusal(lo: i32, hi: i32, x: &[u8]) -> Result<(), LineRefusal>
    requires { (Bound lo) × (Bound hi) }
    ensures { earned_number result ≡ number_refusal lo hi x.now }
{
    range_refusal(lo, hi, read_number(x))
}

// The same of a number that may have decimals, with the ends in thousandths.
fn decimal_refusal(lo: i32, hi: i32, x: &[u8]) -> Result<(), LineRefusal>
    requires { (DecimalBound lo) × (DecimalBound hi) }
    ensures { earned_number result ≡ decimal_refusal lo hi x.now }
{
    range_refusal(lo, hi, read_decimal(x))
}

fn optional_refusal(lo: i32, hi: i32, x: &[u8]) -> Result<(), LineRefusal>
    requires { (Bound lo) × (Bound hi) }
    ensures { earned_number result ≡ optional_refusal lo hi x.now }
{
    if is_star(x) {
        return Ok(());
    }
    number_refusal(lo, hi, x)
}

// Whether of two numbers the first is below the second.
fn rises(y: &[u8], x: &[u8]) -> bool
    ensures { result ≡ rises_of y.now x.now }
{
    !(is_number(y) & (is_number(x) & (value_of(x) <= value_of(y))))
}

// What a field earns.
fn field_refusal(head: &[u8], kind: LineKind, line: &[u8], k: usize) -> Result<(), LineRefusal>
    ensures { earned_number result ≡ field_refusal (drop 1 (fields head.now)) kind (fields line.now) k }
{
    let y = field(line, k.saturating_sub(1));
    let x = field(line, k);
    match rule_of(kind, line, k) {
        Rule::Free => Ok(()),
        Rule::Name => unless(is_name(x), LineRefusal::BadName),
        Rule::Parent => unless(is_parent(x), LineRefusal::BadName),
        Rule::Operand => unless(is_operand(x), LineRefusal::BadName),
        Rule::Dimension => unless(
            dimension_passes(head, kind, line, k),
            LineRefusal::BadDimension,
        ),
        Rule::Coordinate => number_refusal(-65536, 65535, x),
        Rule::Entry => number_refusal(-16777216, 16777216, x),
        Rule::Distance => number_refusal(1, 4096, x),
        Rule::DecimalEntry => decimal_refusal(-2000000000, 2000000000, x),
        Rule::DecimalDistance => decimal_refusal(1, 4096000, x),
        Rule::Min => optional_refusal(-65536, 65535, x),
        Rule::Max => least_of(
            optional_refusal(-65535, 65536, x),
            unless(rises(y, x), LineRefusal::CrossedBounds),
        ),
        Rule::Value => number_refusal(-65535, 65535, x),
        Rule::Rising => least_of(
            number_refusal(-65535, 65535, x),
            unless(rises(y, x), LineRefusal::CrossedBounds),
        ),
        Rule::Representative => optional_refusal(-65536, 65535, x),
    }
}

// The least refusal that a field earns, 6 to 10, if there is one.
pub fn fields_refusal(head: &[u8], kind: LineKind, line: &[u8]) -> Result<(), LineRefusal>
    ensures { earned_number result ≡ fields_refusal (drop 1 (fields head.now)) kind (fields line.now) }
{
    let mut least = Ok(());
    for k in 0..field_count(line) {
        least = least_of(least, field_refusal(head, kind, line, k));
    }
    least
}
