// Open: a session settled at point 0, whatever the record held before.
ghost use Rattle.std.specs.Prelude.{◌≡◌, ◌*◌, ◌≤◌, ◌<◌, length};
ghost use Rattle.axis.specs.Formulas.{places};
ghost use Rattle.session.specs.Ready.{PlacedPoint};
ghost use Rattle.session.specs.Requests.{request, exact_point};
ghost use Rattle.steps.specs.Answers.{unrefused};
ghost use Rattle.steps.specs.Opening.{axis_samples, opened_with};
ghost use Rattle.steps.specs.Refusals.{open_refusal};
ghost use Rattle.steps.specs.Steps.{open_of};

use crate::checks::refusal_of;
use crate::{After, AfterOpen};
use axis::Tolerances;
use rules::{Reason, Refusal};
use session::{
    Point, Session, WholePoint, closed, exact_point, open_at, point_in_range, points_hold,
    settings_hold,
};

// The samples of axis k, newest first, out of x, y, z, x, y, z, .. that begin with the oldest point.
pub fn axis_samples(p: usize, k: usize, floats: &[f64]) -> [i64; 9]
    requires le_p { (1 ≤ p) × (p ≤ 9) }
    requires k_bound { k < 3 }
    requires floats_len { length floats.now ≡ 3 * p }
    ensures { result ≡ places p (axis_samples p k floats.now) }
{
    let mut out = [0i64; 9];
    for i in 0..p {
        let at = 3 * (p - 1 - i) + k;
        out[i] = ticks::ticks_in(ticks::round_to_tick(floats[at]));
    }
    out
}

// The arguments of an open that nothing refuses.
fn open_with(points: usize, tolerances: Tolerances, limit: u64, q: Point, floats: &[f64]) -> Session
    requires le_points { (1 ≤ points) × (points ≤ 9) }
    requires placed_point { PlacedPoint q }
    requires floats_len { length floats.now ≡ 3 * points }
    ensures { result ≡ opened_with points tolerances limit q floats.now }
{
    let xs = axis_samples(points, 0, floats);
    let ys = axis_samples(points, 1, floats);
    let zs = axis_samples(points, 2, floats);
    open_at(points, tolerances, limit, q, xs, ys, zs)
}

// The session that is opened, or what refuses it.
fn opened(
    points: usize,
    tolerances: Tolerances,
    limit: u64,
    point: WholePoint,
    floats: &[f64],
) -> Result<Session, Refusal>
    ensures { result ≡ unrefused (open_refusal (request points tolerances limit point floats.now)) (opened_with points tolerances limit (exact_point point) floats.now) }
{
    if !points_hold(points) {
        return Err(Reason::Points.into());
    }
    if floats.len() != 3 * points {
        return Err(Reason::Length.into());
    }
    if !settings_hold(tolerances, limit) {
        return Err(Reason::Settings.into());
    }
    let q = exact_point(point);
    if !point_in_range(q) {
        return Err(Reason::OutOfRange.into());
    }
    if let Some(fault) = ticks::fault_in(floats) {
        return Err(refusal_of(fault));
    }
    Ok(open_with(points, tolerances, limit, q, floats))
}

pub fn open_step(
    points: usize,
    tolerances: Tolerances,
    limit: u64,
    point: WholePoint,
    floats: &[f64],
) -> AfterOpen
    ensures { result ≡ open_of (request points tolerances limit point floats.now) }
{
    match opened(points, tolerances, limit, point, floats) {
        Ok(session) => After {
            session,
            answer: Ok(()),
        },
        Err(refusal) => After {
            session: closed(),
            answer: Err(refusal),
        },
    }
}
