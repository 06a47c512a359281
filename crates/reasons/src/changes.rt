// The first value of a point that moved from the last estimate by more than its tolerance.
ghost use Rattle.std.specs.Prelude.{◌≡◌, not, ◌*◌, ◌^◌, ◌≤◌, leb, nat_abs};
ghost use Rattle.exact.specs.Numerator.{D, numerator, Bounded};
ghost use Rattle.session.specs.Ready.{Waiting, PlacedPoint};
ghost use Rattle.session.specs.Values.{six};
ghost use Rattle.reasons.specs.Reasons.{first, is_over, moved, compared};

use crate::Reason;
use crate::places::place;
use exact::Exact;
use session::{Point, Session, estimate_of};

// Whether a change, either way, is more than a tolerance.
fn is_over(tolerance: u64, change: Exact) -> bool
    requires tolerance_bound { tolerance ≤ 1048576 }
    requires bounded { Bounded (2 ^ 62) change }
    ensures { result ≡ not (leb (nat_abs (numerator change)) (tolerance * D)) }
{
    let most = tolerance as i64;
    !(change.at_most(Exact::of_whole(most)) && Exact::of_whole(-most).at_most(change))
}

// One value against its tolerance, where it moved by more.
fn compare(value: u8, tolerance: u64, now: Exact, before: Exact) -> Option<Reason>
    requires tolerance_bound { tolerance ≤ 1048576 }
    requires bounded { Bounded (2 ^ 52) now }
    requires bounded_2 { Bounded (2 ^ 52) before }
    ensures { result ≡ compared value tolerance now before }
{
    let change = now.subtract(before);
    if !is_over(tolerance, change) {
        return None;
    }
    Some(Reason {
        value,
        change: change.reported(),
        tolerance,
    })
}

pub(crate) fn first_over(s: Session, q: Point) -> Reason
    requires waiting { Waiting s }
    requires placed_point { PlacedPoint q }
    ensures { result ≡ first (is_over s q) (moved s q) six }
{
    let before = estimate_of(s);
    let position = s.tolerances.position;
    let velocity = s.tolerances.velocity;
    compare(1, position, q.x.position, before.x.position)
        .or(compare(2, position, q.y.position, before.y.position))
        .or(compare(3, position, q.z.position, before.z.position))
        .or(compare(4, velocity, q.x.velocity, before.x.velocity))
        .or(compare(5, velocity, q.y.velocity, before.y.velocity))
        .or(compare(6, velocity, q.z.velocity, before.z.velocity))
        .unwrap_or(place(0))
}
