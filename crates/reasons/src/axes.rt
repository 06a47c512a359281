// The first axis of a sample that has a fault.
ghost use Rattle.std.specs.Prelude.{◌≡◌};
ghost use Rattle.ticks.specs.Samples.{axes_of};
ghost use Rattle.reasons.specs.Reasons.{first, named, has_fault};

use crate::Reason;
use crate::places::first_place;
use ticks::{Fault, Sample, round_to_tick};

// Whether it is this that is wrong with a float.
fn has_fault(fault: Fault, x: f64) -> bool
    ensures { result ≡ has_fault fault x }
{
    round_to_tick(x) == Err(fault)
}

pub(crate) fn first_axis(fault: Fault, a: Sample) -> Reason
    ensures { result ≡ first (has_fault fault) named (axes_of a) }
{
    first_place(&[
        has_fault(fault, a.x),
        has_fault(fault, a.y),
        has_fault(fault, a.z),
    ])
}
