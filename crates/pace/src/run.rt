// The steps.
ghost use Rattle.std.specs.Prelude.{◌≤◌};

use crate::sums::with_point;
use axis::Tolerances;
use drawing::{Draw, drawn, sample_of};
use session::{Session, WholePoint};
use steps::Correction;

// The session, the number that the next draw begins with, and the checksum.
#[derive(Clone, Copy)]
struct Run {
    session: Session,
    seed: u64,
    sum: u64,
}

const AT_REST: WholePoint = WholePoint {
    x: 0,
    y: 0,
    z: 0,
    vx: 0,
    vy: 0,
    vz: 0,
};

const WIDEST: Tolerances = Tolerances {
    position: 1_048_576,
    velocity: 1_048_576,
};

// An eighth of a draw, rounded down: so little that a first correction moves no velocity past the widest tolerance.
fn eighth(d: Draw) -> Draw {
    Draw {
        seed: d.seed,
        x: d.x >> 3,
        y: d.y >> 3,
        z: d.z >> 3,
    }
}

// None where an answer is refused, here and below.
fn opened(points: usize) -> Option<Run>
    requires { points ≤ 9 }
{
    let zeros = [0.0; 27];
    let after = stepper::owned::open(
        session::closed(),
        points,
        WIDEST,
        1,
        AT_REST,
        &zeros[..3 * points],
    );
    after.answer.ok()?;
    Some(Run {
        session: after.session,
        seed: 1,
        sum: 0,
    })
}

impl Run {
    fn predicted(self) -> Option<Run> {
        let after = stepper::owned::predict(self.session);
        let q = after.answer.ok()?;
        Some(Run {
            session: after.session,
            seed: self.seed,
            sum: with_point(self.sum, q),
        })
    }

    fn corrected(self, d: Draw) -> Option<Run> {
        let after = stepper::owned::correct(self.session, sample_of(d));
        let Correction::Accepted(q) = after.answer else {
            return None;
        };
        Some(Run {
            session: after.session,
            seed: d.seed,
            sum: with_point(self.sum, q),
        })
    }

    fn stepped(self) -> Option<Run> {
        self.predicted()?.corrected(eighth(drawn(self.seed)))
    }
}

// The checksum after so many steps.
pub(crate) fn paced(points: usize, steps: u64) -> Option<u64>
    requires { points ≤ 9 }
{
    let mut run = opened(points)?;
    for _ in 0..steps {
        run = run.stepped()?;
    }
    Some(run.sum)
}
