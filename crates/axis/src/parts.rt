// The parts of a point that its samples give.
ghost use Rattle.std.specs.Prelude.{◌≡◌, ◌≤◌};
ghost use Rattle.integers.specs.Differences.{at, by_differences};
ghost use Rattle.coefficients.specs.Formulas.{weights_of, older_part, Small};
ghost use Rattle.axis.specs.Formulas.{motion_of, older_motion};
ghost use Rattle.axis.specs.Parts.{predictor_part, corrector_part};

use crate::Motion;
use crate::switch::by_points;
use coefficients::Formula;
use exact::Exact;

// What the samples give by one formula to the position, and by one to the velocity.
fn applied(position: Formula, velocity: Formula, p: usize, samples: [i64; 9]) -> Motion
    requires le_p { (1 ≤ p) × (p ≤ 9) }
    requires small { Small samples }
    ensures { result ≡ motion_of (by_differences (weights_of position p) (at samples)) (by_differences (weights_of velocity p) (at samples)) }
{
    let position = Exact::split(coefficients::apply(position, p, samples));
    let velocity = Exact::split(coefficients::apply(velocity, p, samples));
    Motion { position, velocity }
}

// What the samples so far give to the next predicted point.
pub fn predictor_part(p: usize, samples: [i64; 9]) -> Motion
    requires le_p { (1 ≤ p) × (p ≤ 9) }
    requires small { Small samples }
    ensures { result ≡ predictor_part p samples }
{
    by_points(p, |p| {
        applied(
            Formula::PositionPredictor,
            Formula::VelocityPredictor,
            p,
            samples,
        )
    })
}

// What the samples so far give to the last accepted point.
pub fn corrector_part(p: usize, samples: [i64; 9]) -> Motion
    requires le_p { (1 ≤ p) × (p ≤ 9) }
    requires small { Small samples }
    ensures { result ≡ corrector_part p samples }
{
    by_points(p, |p| {
        applied(
            Formula::PositionCorrector,
            Formula::VelocityCorrector,
            p,
            samples,
        )
    })
}

fn older_by(p: usize, samples: [i64; 9]) -> Motion
    requires le_p { (1 ≤ p) × (p ≤ 9) }
    requires small { Small samples }
    ensures { result ≡ older_motion p samples }
{
    let position = Exact::split(coefficients::older_part(Formula::PositionCorrector, p, samples));
    let velocity = Exact::split(coefficients::older_part(Formula::VelocityCorrector, p, samples));
    Motion { position, velocity }
}

// What the samples so far give to the next corrected point.
pub fn older_motion(p: usize, samples: [i64; 9]) -> Motion
    requires le_p { (1 ≤ p) × (p ≤ 9) }
    requires small { Small samples }
    ensures { result ≡ older_motion p samples }
{
    by_points(p, |p| older_by(p, samples))
}
