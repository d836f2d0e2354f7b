// What a position says.
ghost use Rattle.std.specs.Prelude.{◌≡◌};
ghost use Rattle.counter.specs.Positions.{not_outside, is_on_outline};
ghost use Rattle.counter.specs.Inner.Steps.{position_by, without_outline};

use crate::Position;
use std::cmp::Ordering;

// In the shape: not outside.
pub fn not_outside(position: Position) -> bool
    ensures { result ≡ not_outside position }
{
    position != Position::Outside
}

pub fn is_on_outline(position: Position) -> bool
    ensures { result ≡ is_on_outline position }
{
    position == Position::OnOutline
}

// The position of an event to a shape that has no outline, a box or a combination.
pub fn without_outline(member: bool) -> Position
    ensures { result ≡ without_outline member }
{
    if member {
        Position::Inside
    } else {
        Position::Outside
    }
}

// The position by how the left side of a rule compares with the right: on the outline where both are equal.
pub fn position_by(order: Ordering) -> Position
    ensures { result ≡ position_by order }
{
    match order {
        Ordering::Less => Position::Inside,
        Ordering::Equal => Position::OnOutline,
        Ordering::Greater => Position::Outside,
    }
}
