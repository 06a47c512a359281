// One axis, followed by the answers: the differences of its samples, and its last two points.
use crate::formulas::{position_holds, velocity_holds};
use axis::Motion;
use exact::Exact;
use steps::ReportedMotion;

#[derive(Clone, Copy)]
pub(crate) struct Track {
    differences: [i64; 11],
    pub(crate) last: Motion,
    before: Motion,
}

// B^0 to B^10 with one sample more: B^i a(n) is B^(i-1) a(n) - B^(i-1) a(n-1). None where one of them is too large.
fn next_differences(old: &[i64; 11], sample: i64) -> Option<[i64; 11]> {
    let mut values = [sample; 11];
    for i in 1..11 {
        values[i] = values[i - 1].checked_sub(old[i - 1])?;
    }
    Some(values)
}

fn exactly(q: ReportedMotion) -> Motion {
    Motion {
        position: q.position.exact,
        velocity: q.velocity.exact,
    }
}

impl Track {
    // An axis at its opening point, before its samples.
    pub(crate) fn at_whole(position: i64, velocity: i64) -> Track {
        let start = Motion {
            position: Exact::of_whole(position),
            velocity: Exact::of_whole(velocity),
        };
        Track {
            differences: [0; 11],
            last: start,
            before: start,
        }
    }

    // One sample more: whether its differences are numbers.
    pub(crate) fn take(&mut self, sample: i64) -> bool {
        match next_differences(&self.differences, sample) {
            Some(differences) => {
                self.differences = differences;
                true
            }
            None => false,
        }
    }

    // One accepted point more: whether the formulas hold there, that of velocities at every point n, and that of positions from 2 on.
    pub(crate) fn follow(&mut self, n: u64, sample: i64, q: ReportedMotion) -> bool {
        let now = exactly(q);
        let (last, before) = (self.last, self.before);
        let holds = self.take(sample)
            && velocity_holds(&self.differences, now.velocity, last.velocity)
            && (n < 2
                || position_holds(
                    &self.differences,
                    now.position,
                    last.position,
                    before.position,
                ));
        self.last = now;
        self.before = last;
        holds
    }
}
