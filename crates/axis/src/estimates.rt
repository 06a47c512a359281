// Estimates: the one that an axis holds, equality and the range.
ghost use Rattle.std.specs.Prelude.{◌≡◌};
ghost use Rattle.axis.specs.Estimates.{estimating, same_motion, in_range};

use crate::{Axis, Motion};

pub fn with_estimate(a: Axis, estimate: Motion) -> Axis
    ensures { result ≡ estimating a estimate }
{
    Axis { estimate, ..a }
}

pub fn same_motion(a: Motion, b: Motion) -> bool
    ensures { result ≡ same_motion a b }
{
    a == b
}

pub fn in_range(m: Motion) -> bool
    ensures { result ≡ in_range m }
{
    m.position.is_position() && m.velocity.is_velocity()
}
