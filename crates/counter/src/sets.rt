// Sets of a group's events, as the bits of a number: bit e for event e of at most 64. A step is asked of a set at once.
ghost use Rattle.std.specs.Prelude.{◌≡◌, Bool, true, false, ◌&&◌, pos, ◌-ℤ◌, ◌<ℤ◌, ℕ, ◌+◌, ◌*◌, ◌/◌, ◌%◌, ◌<◌, ◌≤◌, length};
ghost use Rattle.std.specs.Int.Signed.{le_z, lt_z};
ghost use Rattle.std.specs.Fn.{FnReturnsAt};
ghost use Rattle.counter.specs.Counting.{event_at};
ghost use Rattle.counter.specs.Inner.Steps.{Taken, BoxBody, Operands, Shaped, SomeRegion, is_ellipsoid, StepShaped, Sound};
ghost use Rattle.counter.specs.declared.steps.Shape.TheVariants.{Box};
ghost use Rattle.counter.specs.Inner.Groups.{First, SetOf, Those, Candidates, first_of, triple_at, triples_at, Agree, Matched, outside, operand_at, all_at, any_at, parent_at, drawn_at, shape_at, member_by};

use crate::reading::{number_in, settle};
use crate::shapes::{in_ellipsoid, in_shape, is_ellipsoid};
use crate::steps::{Shape, Step, head_of, parent_of, step_at};

// Event e of a group of events of n values. Group, n and the number of events are handed on apart: as one struct with its facts,
// 8 boxes with parents take 1.15 times as long, events far from a large polygon up to 1.17 times.
pub fn event_of(group: &[i32], n: usize, e: usize) -> &[i32]
    requires { e * n + n ≤ length group.now }
    ensures { (result.now ≡ event_at n group.now e) × (length result.now ≡ n) }
{
    let start = e * n;
    let end = start + n;
    &group[start..end]
}

// The events that are not in the set.
pub fn complement(set: u64) -> u64
    ensures { SetOf (outside set) result }
{
    18446744073709551615 - set
}

// The first event of a set.
fn first_of(set: u64) -> usize
    requires { 0 < set }
    ensures { First 64 set result }
{
    u64::trailing_zeros(set) as usize
}

// Operand i of a combination: the set of its region, or the complement.
fn operand_of(sets: &[u64; 64], body: &[i32], i: usize) -> u64
    requires { (length sets.now ≡ 64) × (i < length body.now) × Operands body.now }
    ensures { SetOf (operand_at sets.now body.now i) result }
{
    let u = number_in(body, i);
    let q = u / 2;
    let set = sets[q];
    if u % 2 == 1 { complement(set) } else { set }
}

// The events of a set that are in all operands.
fn all_of(sets: &[u64; 64], body: &[i32], among: u64) -> u64
    requires { (length sets.now ≡ 64) × Operands body.now }
    ensures { Those among (all_at sets.now body.now (length body.now)) result }
{
    let mut rest = among;
    for i in 0..body.len() {
        rest = rest & operand_of(sets, body, i);
    }
    rest
}

// The events that are in some operand; for `!` also those that are not taken.
fn any_of(sets: &[u64; 64], body: &[i32]) -> u64
    requires { (length sets.now ≡ 64) × Operands body.now }
    ensures { SetOf (any_at sets.now body.now (length body.now)) result }
{
    let mut found = 0u64;
    for i in 0..body.len() {
        found = found | operand_of(sets, body, i);
    }
    found
}

// The events of a set that pass a test, asked one by one.
fn passing_of<F: Fn(&[i32]) -> bool>(group: &[i32], n: usize, g: usize, among: u64, test: F) -> u64
    requires set { Candidates n group.now g among }
    requires may { (x : _) → Taken x.now → length x.now ≡ n → F.pre test x }
    ensures { (holds : ℕ → Bool) → ((e : ℕ) (r : Bool) → FnReturnsAt F.Fn test (event_at n group.now e) r → r ≡ holds e) → Those among holds result }
{
    let mut rest = among;
    let mut found = 0u64;
    while 0 < rest {
        let e = first_of(rest);
        let member = test(event_of(group, n, e));
        found = settle(found, e, member);
        rest = rest & (rest - 1);
    }
    found
}

// The events of a set that are in a shape that is no ellipsoid.
fn each_of(group: &[i32], n: usize, g: usize, among: u64, body: &[i32], shape: Shape) -> u64
    requires { Candidates n group.now g among × (n ≤ 8) × Shaped shape n body.now × (is_ellipsoid shape ≡ false) }
    ensures { Those among (drawn_at shape n group.now body.now) result }
{
    passing_of(group, n, g, among, |event| in_shape(event, body, shape))
}

// The events of a set that are in an ellipsoid. In a loop of its own its cofactors are computed once, and the loop over other shapes stays small.
fn ellipsoid_of(group: &[i32], n: usize, g: usize, among: u64, body: &[i32], shape: Shape) -> u64
    requires { Candidates n group.now g among × Shaped shape n body.now × (is_ellipsoid shape ≡ true) }
    ensures { Those among (drawn_at shape n group.now body.now) result }
{
    passing_of(group, n, g, among, |event| in_ellipsoid(event, body, shape))
}

// How far max is above min.
fn span_of(min: i32, max: i32) -> u32
    requires { min <ℤ max }
    ensures { pos result ≡ max -ℤ min }
{
    (max as i64 - min as i64) as u32
}

// Whether a value is from min on and less than a span above it. A span is no negative number, so that the two tests are one of the machine.
fn in_span(value: i32, min: i32, span: u32) -> bool
    ensures { result ≡ (le_z (pos 0) (value -ℤ min) && lt_z (value -ℤ min) (pos span)) }
{
    let above = value as i64 - min as i64;
    (0 <= above) & (above < span as i64)
}

// The events of a group that triple t of a box holds, all asked.
fn triple_of(group: &[i32], n: usize, g: usize, body: &[i32], t: usize) -> u64
    requires { (g ≤ 64) × (g * n ≤ length group.now) × (t < length body.now / 3) × BoxBody n body.now × (n ≤ 8) }
    ensures { SetOf (first_of (triple_at n group.now body.now t) g) result }
{
    let i = 3 * t;
    let d = number_in(body, i);
    let min = body[i + 1];
    let span = span_of(min, body[i + 2]);
    let mut found = 0u64;
    for e in 0..g {
        let event = event_of(group, n, e);
        let member = in_span(event[d], min, span);
        found = settle(found, e, member);
    }
    found
}

// The events of a set that are in a box, triple by triple.
fn triples_of(group: &[i32], n: usize, g: usize, among: u64, body: &[i32]) -> u64
    requires { Candidates n group.now g among × BoxBody n body.now × (n ≤ 8) }
    ensures { Those among (triples_at n group.now body.now (length body.now / 3)) result }
{
    let mut rest = among;
    for t in 0..body.len() / 3 {
        rest = rest & triple_of(group, n, g, body, t);
    }
    rest
}

// The events of a set that are in a box: few are asked one by one, of many all are asked each triple.
// Where few become many is a matter of measuring, not of proof: both ways keep one contract.
fn box_of(group: &[i32], n: usize, g: usize, among: u64, body: &[i32]) -> u64
    requires { Candidates n group.now g among × (n ≤ 8) × BoxBody n body.now }
    ensures { Those among (drawn_at Box n group.now body.now) result }
{
    if u64::count_ones(among) < 40 {
        return each_of(group, n, g, among, body, Shape::Box);
    }
    triples_of(group, n, g, among, body)
}

// The events of a set that are in a shape.
fn drawn_of(group: &[i32], n: usize, g: usize, among: u64, body: &[i32], shape: Shape) -> u64
    requires { Candidates n group.now g among × (n ≤ 8) × Shaped shape n body.now }
    ensures { Those among (drawn_at shape n group.now body.now) result }
{
    // Asked by itself: as an arm of the match it makes one ellipsoid take 1.05 times as long.
    if is_ellipsoid(shape) {
        return ellipsoid_of(group, n, g, among, body, shape);
    }
    match shape {
        Shape::Box => box_of(group, n, g, among, body),
        _ => each_of(group, n, g, among, body, shape),
    }
}

// The events of a set that are in what a step draws or combines.
fn shape_of(
    group: &[i32],
    n: usize,
    g: usize,
    among: u64,
    sets: &[u64; 64],
    body: &[i32],
    step: Step,
) -> u64
    requires { Candidates n group.now g among × (n ≤ 8) × StepShaped step n body.now × (length sets.now ≡ 64) }
    ensures { (bits : ℕ → ℕ) → Agree among sets.now bits → Those among (shape_at step n group.now body.now bits) result }
{
    match step {
        Step::Drawn(_, shape) => drawn_of(group, n, g, among, body, shape),
        Step::And(_) => all_of(sets, body, among),
        Step::Or(_) => among & any_of(sets, body),
        Step::Not(_) => among & complement(operand_of(sets, body, 0)),
    }
}

// The set of a parent, or all that are taken where there is none.
fn parent_set(sets: &[u64; 64], taken: u64, parent: Option<usize>) -> u64
    requires { (length sets.now ≡ 64) × SomeRegion parent }
    ensures { SetOf (parent_at sets.now taken parent) result }
{
    match parent {
        Some(r) => sets[r],
        None => taken,
    }
}

// The events that the step at a place makes members of its region. The shape is not read where no event is in the parent.
pub fn step_of(
    plan: &[i32],
    group: &[i32],
    n: usize,
    g: usize,
    taken: u64,
    sets: &[u64; 64],
    at: usize,
) -> u64
    requires { Candidates n group.now g taken × Sound plan.now n at × (length sets.now ≡ 64) }
    ensures { (bits : ℕ → ℕ) → Matched taken sets.now bits → Those taken (member_by plan.now n group.now at bits) result }
{
    let among = taken & parent_set(sets, taken, parent_of(plan, at));
    if among == 0 {
        return 0;
    }
    let step = step_at(plan, at);
    let head = head_of(step);
    let start = head.start;
    let end = head.end;
    shape_of(group, n, g, among, sets, &plan[start..end], step)
}
