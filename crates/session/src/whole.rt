// A point in whole ticks, as a point.
ghost use Rattle.std.specs.Prelude.{◌≡◌};
ghost use Rattle.session.specs.Requests.{whole_motion, exact_point};

use crate::{Point, WholePoint};
use axis::Motion;
use exact::Exact;

fn at_whole(position: i64, velocity: i64) -> Motion
    ensures { result ≡ whole_motion position velocity }
{
    Motion {
        position: Exact::of_whole(position),
        velocity: Exact::of_whole(velocity),
    }
}

pub fn exact_point(q: WholePoint) -> Point
    ensures { result ≡ exact_point q }
{
    let x = at_whole(q.x, q.vx);
    let y = at_whole(q.y, q.vy);
    let z = at_whole(q.z, q.vz);
    Point { x, y, z }
}
