// Points: whether one is in range, and how far two are apart.
ghost use Rattle.std.specs.Prelude.{◌≡◌};
ghost use Rattle.axis.specs.Agreement.{sizes};
ghost use Rattle.axis.specs.Ready.{Tolerable};
ghost use Rattle.session.specs.Moves.{point_in_range};
ghost use Rattle.session.specs.Apart.{points_agree, point_change};
ghost use Rattle.session.specs.Ready.{PlacedPoint};

use crate::Point;
use axis::{Motion, Tolerances, agrees_on, change, in_range, larger_change};

pub fn point_in_range(q: Point) -> bool
    ensures { result ≡ point_in_range q }
{
    in_range(q.x) && in_range(q.y) && in_range(q.z)
}

// Whether on every axis the position and the velocity moved by no more than their tolerances.
pub fn points_agree(tolerances: Tolerances, q: Point, before: Point) -> bool
    requires tolerable { Tolerable tolerances }
    requires placed_point { PlacedPoint q }
    requires placed_point_2 { PlacedPoint before }
    ensures { result ≡ points_agree tolerances q before }
{
    agrees_on(tolerances, q.x, before.x)
        && agrees_on(tolerances, q.y, before.y)
        && agrees_on(tolerances, q.z, before.z)
}

// By how much a position moved at most, and a velocity.
pub fn point_change(q: Point, before: Point) -> Motion
    requires placed_point { PlacedPoint q }
    requires placed_point_2 { PlacedPoint before }
    ensures { result ≡ sizes (point_change q before) }
{
    let x = change(q.x, before.x);
    let y = change(q.y, before.y);
    let z = change(q.z, before.z);
    larger_change(x, larger_change(y, z))
}
