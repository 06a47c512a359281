// One axis that is started from an epoch in its middle: the sums that the epoch fixes, and the points before the newest.
#![tactic(auto)]

ghost use Rattle.std.specs.Prelude.{◌≡◌, true, ◌≤◌, ◌<◌, ◌^◌};
ghost use Rattle.integers.specs.Differences.{at};
ghost use Rattle.exact.specs.Numerator.{Bounded};
ghost use Rattle.coefficients.specs.Formulas.{Small};
ghost use Rattle.epoch_coefficients.specs.Formulas.{has_centre};
ghost use Rattle.axis.specs.Ready.{Ready, Placed};
ghost use Rattle.epoch_axis.specs.Formulas.{run_on, run_back, earlier_motion, centre_sums, started_axis};

use axis::{Axis, Motion, axis_with, left_of, moved, next_first, no_motion, older_motion};
use exact::Exact;

// S1 at a point, and S2 at the point before it.
#[derive(Clone, Copy)]
pub struct Sums {
    pub first: Exact,
    pub before: Exact,
}

// The sums at the centre.
fn centre_sums(p: usize, epoch: Motion, samples: [i64; 9]) -> Sums
    requires p_value { has_centre p ≡ true }
    requires placed { Placed epoch }
    requires small { Small samples }
    ensures { result ≡ centre_sums p epoch samples }
{
    let j = (p - 1) / 2;
    let first = left_of(
        epoch.velocity,
        epoch_coefficients::velocity_sum(p, j, samples),
    );
    let before = left_of(
        epoch.position,
        epoch_coefficients::position_sum(p, j, samples),
    );
    Sums { first, before }
}

// The sums at the newest point, from those j steps before it.
fn run_on(samples: [i64; 9], j: usize, sums: Sums) -> Sums
    requires j_bound { j ≤ 4 }
    requires bounded { Bounded (2 ^ 41) sums.first }
    requires bounded_2 { Bounded (2 ^ 53) sums.before }
    requires small { Small samples }
    ensures { result ≡ run_on (at samples) j sums }
{
    let mut first = sums.first;
    let mut before = sums.before;
    for i in (0..j).rev() {
        before = before.add(first);
        first = next_first(first, samples[i]);
    }
    Sums { first, before }
}

// The axis at the newest point, with the sums that the epoch fixes.
pub fn started_axis(p: usize, epoch: Motion, samples: [i64; 9]) -> Axis
    requires p_value { has_centre p ≡ true }
    requires placed { Placed epoch }
    requires small { Small samples }
    ensures { result ≡ started_axis p epoch samples }
{
    let j = (p - 1) / 2;
    let sums = run_on(samples, j, centre_sums(p, epoch, samples));
    let first = sums.first;
    let second = sums.before.add(first);
    let older = older_motion(p, samples);
    axis_with(first, second, older, samples, no_motion())
}

// The sums j steps before the newest point.
fn run_back(samples: [i64; 9], j: usize, sums: Sums) -> Sums
    requires j_bound { j ≤ 8 }
    requires bounded { Bounded (2 ^ 42) sums.first }
    requires bounded_2 { Bounded (2 ^ 55) sums.before }
    requires small { Small samples }
    ensures { result ≡ run_back (at samples) j sums }
{
    let mut first = sums.first;
    let mut before = sums.before;
    for i in 0..j {
        first = left_of(first, samples[i] * (Exact::D as i64));
        before = before.subtract(first);
    }
    Sums { first, before }
}

// The point j steps before the newest.
pub fn earlier_motion(p: usize, a: Axis, j: usize) -> Motion
    requires p_value { has_centre p ≡ true }
    requires ready { Ready p a }
    requires j_lt_p { j < p }
    ensures { result ≡ earlier_motion p a j }
{
    let first = a.first;
    let before = a.second.subtract(first);
    let sums = run_back(a.samples, j, Sums { first, before });
    let position = moved(
        sums.before,
        epoch_coefficients::position_sum(p, j, a.samples),
    );
    let velocity = moved(
        sums.first,
        epoch_coefficients::velocity_sum(p, j, a.samples),
    );
    Motion { position, velocity }
}
