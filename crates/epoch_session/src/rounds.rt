// A round: the points that the epoch and the samples give.
ghost use Rattle.std.specs.Prelude.{◌≡◌, true, ◌<◌};
ghost use Rattle.coefficients.specs.Formulas.{Small};
ghost use Rattle.epoch_coefficients.specs.Formulas.{has_centre};
ghost use Rattle.session.specs.Ready.{PlacedPoint};
ghost use Rattle.epoch_session.specs.Rounds.{round_of, earlier_point, round_in_range};
ghost use Rattle.epoch_session.specs.Ready.{ReadyRound};

use crate::Round;
use epoch_axis::{earlier_motion, started_axis};
use session::{Point, point_in_range};

// The samples of each axis are newest first; three lists, as the theorems on `round_of` name them.
#[tactic(auto, unfolding(crate::specs::Rounds::round_of))]
pub fn round_of(points: usize, epoch: Point, xs: [i64; 9], ys: [i64; 9], zs: [i64; 9]) -> Round
    requires points_value { has_centre points ≡ true }
    requires placed_point { PlacedPoint epoch }
    requires small { Small xs }
    requires small_2 { Small ys }
    requires small_3 { Small zs }
    ensures { result ≡ round_of points epoch xs ys zs }
{
    let x = started_axis(points, epoch.x, xs);
    let y = started_axis(points, epoch.y, ys);
    let z = started_axis(points, epoch.z, zs);
    Round { points, x, y, z }
}

// The point j steps before the newest.
#[tactic(auto, unfolding(crate::specs::Rounds::earlier_point))]
pub fn earlier_point(r: Round, j: usize) -> Point
    requires ready_round { ReadyRound r }
    requires j_lt_points { j < r.points }
    ensures { result ≡ earlier_point r j }
{
    let x = earlier_motion(r.points, r.x, j);
    let y = earlier_motion(r.points, r.y, j);
    let z = earlier_motion(r.points, r.z, j);
    Point { x, y, z }
}

pub fn round_in_range(r: Round) -> bool
    requires { ReadyRound r }
    ensures { result ≡ round_in_range r }
{
    for j in 0..r.points {
        if !point_in_range(earlier_point(r, j)) {
            return false;
        }
    }
    true
}
