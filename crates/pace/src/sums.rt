// The checksum: the bits of every report, joined by exclusive or.
use steps::{ReportedMotion, ReportedPoint};

// A report is a number; the first test is for the checker alone.
fn bits_of(x: f64) -> u64 {
    if x.is_nan() { 0 } else { x.to_bits() }
}

fn with_motion(sum: u64, m: ReportedMotion) -> u64 {
    sum ^ bits_of(m.position.report) ^ bits_of(m.velocity.report)
}

pub(crate) fn with_point(sum: u64, q: ReportedPoint) -> u64 {
    with_motion(with_motion(with_motion(sum, q.x), q.y), q.z)
}
