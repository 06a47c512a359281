// Whether an axis keeps the rules of a record, whatever a host filled it with.
ghost use Rattle.std.specs.Prelude.{◌≡◌, ◌≤◌};
ghost use Rattle.integers.specs.Tests.{◌and◌};
ghost use Rattle.axis.specs.Holding.{place_holds, places_hold, remainders_hold, axis_holds, first_fits, second_fits};

use crate::switch::by_points;
use crate::{Axis, estimates, formulas, parts};
use exact::Exact;

fn remainders_hold(a: Axis) -> bool
    ensures { result ≡ remainders_hold a }
{
    a.first.is_exact()
        && a.second.is_exact()
        && a.estimate.position.is_exact()
        && a.estimate.velocity.is_exact()
}

// A place that is used holds a sample, and an empty one 0.
fn place_holds(used: bool, sample: i64) -> bool
    ensures { result ≡ place_holds used sample }
{
    if used {
        (-268_435_456..=268_435_456).contains(&sample)
    } else {
        sample == 0
    }
}

fn places_by(p: usize, samples: [i64; 9]) -> bool
    ensures { result ≡ places_hold p samples }
{
    for (i, sample) in samples.iter().enumerate() {
        if !place_holds(i < p, *sample) {
            return false;
        }
    }
    true
}

pub fn places_hold(p: usize, samples: [i64; 9]) -> bool
    ensures { result ≡ places_hold p samples }
{
    by_points(p, |p| places_by(p, samples))
}

// No axis whose present point is in range has a first sum outside these; within them nothing leaves its type.
fn first_fits(first: Exact) -> bool
    ensures { result ≡ first_fits first }
{
    first.lies(-4_398_046_511_104, 4_398_046_511_104)
}

// The same of the second sum.
fn second_fits(second: Exact) -> bool
    ensures { result ≡ second_fits second }
{
    second.lies(-18_014_398_509_481_984, 18_014_398_509_481_984)
}

// What is looked at before anything is added.
fn is_ready(p: usize, a: Axis) -> bool
    ensures { result ≡ (remainders_hold a and places_hold p a.samples and first_fits a.first and second_fits a.second) }
{
    remainders_hold(a) && places_hold(p, a.samples) && first_fits(a.first) && second_fits(a.second)
}

pub fn axis_holds(p: usize, a: Axis) -> bool
    requires { (1 ≤ p) × (p ≤ 9) }
    ensures { result ≡ axis_holds p a }
{
    is_ready(p, a)
        && estimates::in_range(formulas::present_motion(p, a))
        && estimates::in_range(a.estimate)
        && estimates::same_motion(a.older, parts::older_motion(p, a.samples))
}
