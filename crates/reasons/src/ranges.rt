// The first value of a point that is out of its range.
ghost use Rattle.std.specs.Prelude.{◌≡◌};
ghost use Rattle.session.specs.Values.{six};
ghost use Rattle.reasons.specs.Reasons.{first, named, is_out};

use crate::Reason;
use crate::places::first_place;
use session::Point;

pub(crate) fn first_out(q: Point) -> Reason
    ensures { result ≡ first (is_out q) named six }
{
    first_place(&[
        !q.x.position.is_position(),
        !q.y.position.is_position(),
        !q.z.position.is_position(),
        !q.x.velocity.is_velocity(),
        !q.y.velocity.is_velocity(),
        !q.z.velocity.is_velocity(),
    ])
}
