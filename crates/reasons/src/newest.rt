// The p-th difference of a new sample on each axis.
ghost use Rattle.std.specs.Prelude.{◌≡◌, ◌^◌, ◌≤◌, nat_abs};
ghost use Rattle.integers.specs.Differences.{at, back, in_front};
ghost use Rattle.coefficients.specs.Formulas.{Small};
ghost use Rattle.ticks.specs.Samples.{WithinLimit};
ghost use Rattle.session.specs.Ready.{ReadySession};
ghost use Rattle.reasons.specs.Differences.{AtMost, difference, no_differences, differences_with};

use crate::Differences;
use session::Session;
use ticks::WholeSample;

// A new sample, and the nine places behind it.
fn in_front(sample: i64, samples: [i64; 9]) -> [i64; 10]
    ensures { at result ≡ in_front sample (at samples) }
{
    let mut out = [sample; 10];
    out[1..].copy_from_slice(&samples);
    out
}

// Each place less the one behind it; behind the last is 0.
fn backward(xs: [i64; 10]) -> [i64; 10]
    requires { AtMost (2 ^ 61) (at xs) }
    ensures { at result ≡ back (at xs) }
{
    let mut out = xs;
    for i in 0..9 {
        out[i] = xs[i] - xs[i + 1];
    }
    out
}

// The p-th difference of a new sample, with the samples behind it.
fn difference(p: usize, sample: i64, samples: [i64; 9]) -> i64
    requires p_bound { p ≤ 9 }
    requires sample_bound { nat_abs sample ≤ 2 ^ 28 }
    requires small { Small samples }
    ensures { result ≡ difference p (in_front sample (at samples)) }
{
    let mut xs = in_front(sample, samples);
    for _ in 0..p {
        xs = backward(xs);
    }
    xs[0]
}

pub(crate) fn no_differences() -> Differences
    ensures { result ≡ no_differences }
{
    Differences {
        given: false,
        x: 0,
        y: 0,
        z: 0,
    }
}

// Given at the first correction of a point.
pub(crate) fn differences_of(s: Session, w: WholeSample) -> Differences
    requires ready_session { ReadySession s }
    requires within_limit { WithinLimit w }
    ensures { result ≡ differences_with 0 s w }
{
    if s.corrections != 0 {
        return no_differences();
    }
    Differences {
        given: true,
        x: difference(s.points, w.x, s.x.samples),
        y: difference(s.points, w.y, s.y.samples),
        z: difference(s.points, w.z, s.z.samples),
    }
}
