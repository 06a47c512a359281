// What the calls make of a record: the points that it gives, and the record that they leave.
ghost use Rattle.std.specs.Prelude.{◌≡◌, ◌≤◌};
ghost use Rattle.coefficients.specs.Formulas.{Small};
ghost use Rattle.session.specs.Moves.{nowhere, estimate_of, predicted_point, corrected_point, settled_again, awaiting_at, accepted_at, opened_session, closed_session};
ghost use Rattle.session.specs.Ready.{ReadySession, Waiting, PlacedPoint};
ghost use Rattle.ticks.specs.Samples.{WithinLimit};

use crate::{Point, Session, State};
use axis::{
    Tolerances, advanced_axis, corrected_motion, empty_axis, no_motion, opened_axis,
    predicted_motion, with_estimate,
};
use ticks::WholeSample;

#[tactic(auto, unfolding(crate::specs::Moves::nowhere))]
pub fn no_point() -> Point
    ensures { result ≡ nowhere }
{
    let none = no_motion();
    Point {
        x: none,
        y: none,
        z: none,
    }
}

// The last estimate.
#[tactic(auto, unfolding(crate::specs::Moves::estimate_of))]
pub fn estimate_of(s: Session) -> Point
    ensures { result ≡ estimate_of s }
{
    let x = s.x.estimate;
    let y = s.y.estimate;
    let z = s.z.estimate;
    Point { x, y, z }
}

#[tactic(auto, unfolding(crate::specs::Moves::predicted_point))]
pub fn predicted_point(s: Session) -> Point
    requires { ReadySession s }
    ensures { result ≡ predicted_point s }
{
    let x = predicted_motion(s.points, s.x);
    let y = predicted_motion(s.points, s.y);
    let z = predicted_motion(s.points, s.z);
    Point { x, y, z }
}

pub fn corrected_point(s: Session, w: WholeSample) -> Point
    requires ready_session { ReadySession s }
    requires within_limit { WithinLimit w }
    ensures { result ≡ corrected_point s w }
{
    let x = corrected_motion(s.points, s.x, w.x);
    let y = corrected_motion(s.points, s.y, w.y);
    let z = corrected_motion(s.points, s.z, w.z);
    Point { x, y, z }
}

// Settled at the last accepted point.
#[tactic(auto, unfolding(crate::specs::Moves::settled_again))]
pub fn settle(s: Session) -> Session
    ensures { result ≡ settled_again s }
{
    let none = no_motion();
    let x = with_estimate(s.x, none);
    let y = with_estimate(s.y, none);
    let z = with_estimate(s.z, none);
    Session {
        state: State::Settled,
        corrections: 0,
        x,
        y,
        z,
        ..s
    }
}

// Awaiting a correction of an estimate, after so many.
#[tactic(auto, unfolding(crate::specs::Moves::awaiting_at))]
pub fn await_at(s: Session, corrections: u64, q: Point) -> Session
    ensures { result ≡ awaiting_at s corrections q }
{
    let x = with_estimate(s.x, q.x);
    let y = with_estimate(s.y, q.y);
    let z = with_estimate(s.z, q.z);
    Session {
        state: State::Awaiting,
        corrections,
        x,
        y,
        z,
        ..s
    }
}

// Settled at the next point, which has taken a sample in.
pub fn accept(s: Session, w: WholeSample) -> Session
    requires waiting { Waiting s }
    requires within_limit { WithinLimit w }
    ensures { result ≡ accepted_at s w }
{
    let x = advanced_axis(s.points, s.x, w.x);
    let y = advanced_axis(s.points, s.y, w.y);
    let z = advanced_axis(s.points, s.z, w.z);
    Session {
        state: State::Settled,
        accepted: s.accepted + 1,
        corrections: 0,
        x,
        y,
        z,
        ..s
    }
}

// Settled at point 0. The samples of each axis are newest first; three lists, as the theorems on `opened_session` name them.
#[tactic(auto, unfolding(crate::specs::Moves::opened_session))]
pub fn open_at(
    points: usize,
    tolerances: Tolerances,
    limit: u64,
    q: Point,
    xs: [i64; 9],
    ys: [i64; 9],
    zs: [i64; 9],
) -> Session
    requires le_points { (1 ≤ points) × (points ≤ 9) }
    requires placed_point { PlacedPoint q }
    requires small { Small xs }
    requires small_2 { Small ys }
    requires small_3 { Small zs }
    ensures { result ≡ opened_session points tolerances limit q xs ys zs }
{
    let x = opened_axis(points, q.x, xs);
    let y = opened_axis(points, q.y, ys);
    let z = opened_axis(points, q.z, zs);
    Session {
        state: State::Settled,
        points,
        tolerances,
        limit,
        accepted: 0,
        corrections: 0,
        x,
        y,
        z,
    }
}

// A record that was never opened, or that an open that was refused has closed.
#[tactic(auto, unfolding(crate::specs::Moves::closed_session))]
pub fn closed() -> Session
    ensures { result ≡ closed_session }
{
    let none = empty_axis();
    Session {
        state: State::Closed,
        points: 0,
        tolerances: Tolerances {
            position: 0,
            velocity: 0,
        },
        limit: 0,
        accepted: 0,
        corrections: 0,
        x: none,
        y: none,
        z: none,
    }
}
