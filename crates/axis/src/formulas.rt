// The stepping formulas on one axis.
ghost use Rattle.std.specs.Prelude.{◌≡◌, ◌≤◌, ◌^◌, nat_abs, ◌+ℤ◌, ◌-ℤ◌};
ghost use Rattle.coefficients.specs.Formulas.{own_part, Small};
ghost use Rattle.exact.specs.Numerator.{exact_of, numerator, Bounded};
ghost use Rattle.axis.specs.Formulas.{ticks, axis_with, still, empty_axis};
ghost use Rattle.axis.specs.Formulas.{present_motion, predicted_motion, corrected_motion, kept_samples, advanced_axis, opened_axis};
ghost use Rattle.axis.specs.Ready.{Ready, Held, Placed};

use crate::parts::{corrector_part, older_motion, predictor_part};
use crate::{Axis, Motion};
use coefficients::Formula;
use exact::Exact;

// An axis from its parts.
pub fn axis_with(
    first: Exact,
    second: Exact,
    older: Motion,
    samples: [i64; 9],
    estimate: Motion,
) -> Axis
    ensures { result ≡ axis_with first second older samples estimate }
{
    Axis {
        first,
        second,
        older,
        samples,
        estimate,
    }
}

// A sum, and a change given by its numerator.
pub fn moved(sum: Exact, change: i64) -> Exact
    requires { Bounded (2 ^ 61) sum }
    ensures { result ≡ exact_of (numerator sum +ℤ change) }
{
    sum.add(Exact::split(change))
}

// The last accepted point.
pub fn present_motion(p: usize, a: Axis) -> Motion
    requires { Ready p a }
    ensures { result ≡ present_motion p a }
{
    let corrector = corrector_part(p, a.samples);
    let before = a.second.subtract(a.first);
    let position = before.add(corrector.position);
    let velocity = a.first.add(corrector.velocity);
    Motion { position, velocity }
}

// The next point, predicted.
pub fn predicted_motion(p: usize, a: Axis) -> Motion
    requires { Ready p a }
    ensures { result ≡ predicted_motion p a }
{
    let predictor = predictor_part(p, a.samples);
    let position = a.second.add(predictor.position);
    let velocity = a.first.add(predictor.velocity);
    Motion { position, velocity }
}

// S1 with one sample more.
pub fn next_first(first: Exact, sample: i64) -> Exact
    requires bounded { Bounded (2 ^ 42) first }
    requires sample_bound { nat_abs sample ≤ 2 ^ 28 }
    ensures { result ≡ exact_of (numerator first +ℤ ticks sample) }
{
    moved(first, sample * (Exact::D as i64))
}

// A sum with what the older samples give, and then the point's own sample.
fn corrected(which: Formula, p: usize, sum: Exact, older: Exact, sample: i64) -> Exact
    requires le_p { (1 ≤ p) × (p ≤ 9) }
    requires bounded { Bounded (2 ^ 55) sum }
    requires bounded_2 { Bounded (2 ^ 36) older }
    requires sample_bound { nat_abs sample ≤ 2 ^ 28 }
    ensures { result ≡ exact_of (numerator sum +ℤ numerator older +ℤ own_part which p sample) }
{
    let before = sum.add(older);
    moved(before, coefficients::own_part(which, p, sample))
}

// The next point, corrected with its sample: from the sums, the held sum and the sample.
pub fn corrected_motion(p: usize, a: Axis, sample: i64) -> Motion
    requires ready { Ready p a }
    requires held { Held p a }
    requires sample_bound { nat_abs sample ≤ 2 ^ 28 }
    ensures { result ≡ corrected_motion p a sample }
{
    let position = corrected(
        Formula::PositionCorrector,
        p,
        a.second,
        a.older.position,
        sample,
    );
    let first = next_first(a.first, sample);
    let velocity = corrected(
        Formula::VelocityCorrector,
        p,
        first,
        a.older.velocity,
        sample,
    );
    Motion { position, velocity }
}

// The samples with a new one in front; of the others the first p - 1 stay.
fn keep_samples(p: usize, sample: i64, samples: [i64; 9]) -> [i64; 9]
    requires { (1 ≤ p) × (p ≤ 9) }
    ensures { result ≡ kept_samples p sample samples }
{
    let mut out = [0i64; 9];
    out[0] = sample;
    for i in 1..p {
        out[i] = samples[i - 1];
    }
    out
}

// The sums and the samples at the next point, accepted with its sample.
pub fn advanced_axis(p: usize, a: Axis, sample: i64) -> Axis
    requires ready { Ready p a }
    requires sample_bound { nat_abs sample ≤ 2 ^ 28 }
    ensures { result ≡ advanced_axis p a sample }
{
    let samples = keep_samples(p, sample, a.samples);
    let first = next_first(a.first, sample);
    let second = a.second.add(first);
    let older = older_motion(p, samples);
    axis_with(first, second, older, samples, no_motion())
}

// What a change, given by its numerator, leaves of a value.
pub fn left_of(value: Exact, change: i64) -> Exact
    requires { Bounded (2 ^ 52) value }
    ensures { result ≡ exact_of (numerator value -ℤ change) }
{
    value.subtract(Exact::split(change))
}

// The sums at which the last accepted point is the one given.
pub fn opened_axis(p: usize, point: Motion, samples: [i64; 9]) -> Axis
    requires le_p { (1 ≤ p) × (p ≤ 9) }
    requires placed { Placed point }
    requires small { Small samples }
    ensures { result ≡ opened_axis p point samples }
{
    let first = left_of(
        point.velocity,
        coefficients::apply(Formula::VelocityCorrector, p, samples),
    );
    let before = left_of(
        point.position,
        coefficients::apply(Formula::PositionCorrector, p, samples),
    );
    let second = before.add(first);
    let older = older_motion(p, samples);
    axis_with(first, second, older, samples, no_motion())
}

pub fn no_motion() -> Motion
    ensures { result ≡ still }
{
    Motion {
        position: Exact::ZERO,
        velocity: Exact::ZERO,
    }
}

pub fn empty_axis() -> Axis
    ensures { result ≡ empty_axis }
{
    let none = no_motion();
    axis_with(Exact::ZERO, Exact::ZERO, none, [0i64; 9], none)
}
