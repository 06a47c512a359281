// The reports of a motion and of a point in range; and of none, where an answer carries nothing.
ghost use Rattle.std.specs.Prelude.{◌≡◌, true, ◌^◌, ◌≤◌, nat_abs};
ghost use Rattle.session.specs.Moves.{point_in_range};
ghost use Rattle.steps.specs.Answers.{reported_motion, reported_point, no_point, no_change};

use crate::{ReportedMotion, ReportedPoint};
use axis::{Motion, no_motion};
use session::{Point, no_point};

pub fn report_motion(m: Motion) -> ReportedMotion
    requires whole_bound { nat_abs m.position.whole ≤ 2 ^ 53 }
    requires whole_bound_2 { nat_abs m.velocity.whole ≤ 2 ^ 53 }
    ensures { result ≡ reported_motion m }
{
    let position = m.position.reported();
    let velocity = m.velocity.reported();
    ReportedMotion { position, velocity }
}

pub fn report_point(q: Point) -> ReportedPoint
    requires { point_in_range q ≡ true }
    ensures { result ≡ reported_point q }
{
    let x = report_motion(q.x);
    let y = report_motion(q.y);
    let z = report_motion(q.z);
    ReportedPoint { x, y, z }
}

pub fn no_reported_point() -> ReportedPoint
    ensures { result ≡ no_point }
{
    report_point(no_point())
}

pub fn no_change() -> ReportedMotion
    ensures { result ≡ no_change }
{
    report_motion(no_motion())
}
