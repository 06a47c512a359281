// The marathon: an opening, and a million points.
use crate::calls::{Host, Seen};
use crate::near::drawn_near;
use crate::track::Track;
use axis::Tolerances;
use drawing::{Draw, drawn, sample_of};
use session::WholePoint;
use steps::{Correction, ReportedPoint};

// The session with what was answered so far, the number that the next draw begins with, and the axes.
#[derive(Clone, Copy)]
pub(crate) struct Course {
    pub(crate) host: Host,
    seed: u64,
    pub(crate) x: Track,
    pub(crate) y: Track,
    pub(crate) z: Track,
}

const START: WholePoint = WholePoint {
    x: 4_000_000_000_000_000,
    y: -3_000_000_000_000_000,
    z: 12_345,
    vx: -4_000_000_000,
    vy: 5_000_000_000,
    vz: -67,
};

// Some first corrections exceed each; that of velocities is the widest there is.
const TOLERANCES: Tolerances = Tolerances {
    position: 320_000,
    velocity: 1_048_576,
};

// A session of nine points, opened at the start with nine samples of each axis, oldest first.
pub(crate) fn begin() -> Course {
    let mut x = Track::at_whole(START.x, START.vx);
    let mut y = Track::at_whole(START.y, START.vy);
    let mut z = Track::at_whole(START.z, START.vz);
    let mut floats = [0.0; 27];
    let mut seed: u64 = 1;
    for i in 0..9 {
        let d = drawn(seed);
        let a = sample_of(d);
        floats[3 * i] = a.x;
        floats[3 * i + 1] = a.y;
        floats[3 * i + 2] = a.z;
        x.take(d.x);
        y.take(d.y);
        z.take(d.z);
        seed = d.seed;
    }
    let after = stepper::owned::open(session::closed(), 9, TOLERANCES, 2, START, &floats);
    let mut host = Host {
        session: after.session,
        seen: Seen::default(),
    };
    if after.answer.is_err() {
        host.fail();
    }
    Course {
        host,
        seed,
        x,
        y,
        z,
    }
}

impl Course {
    // Point n was accepted with the samples of d.
    fn accepted(&mut self, n: u64, d: Draw, q: ReportedPoint) {
        let x = self.x.follow(n, d.x, q.x);
        let y = self.y.follow(n, d.y, q.y);
        let z = self.z.follow(n, d.z, q.z);
        if !(x && y && z) {
            self.host.fail();
        }
        self.seed = d.seed;
    }

    // A point was not accepted.
    fn stopped(&mut self, d: Draw) {
        self.host.fail();
        self.seed = d.seed;
    }

    // The second correction, with samples near the first; on some points the step is withdrawn before and begun anew.
    fn second(&mut self, n: u64, d: Draw) {
        if n % 5 == 2 {
            self.host.withdraw();
            self.host.predict();
            self.host.correct(sample_of(d));
        }
        let near = drawn_near(d);
        match self.host.correct(sample_of(near)) {
            Correction::Accepted(q) => self.accepted(n, near, q),
            Correction::Again(_, _) | Correction::Refused(_) => self.stopped(near),
        }
    }

    fn step(&mut self, n: u64) {
        self.host.predict();
        if n % 7 == 3 {
            self.host.withdraw();
            self.host.predict();
        }
        let d = drawn(self.seed);
        match self.host.correct(sample_of(d)) {
            Correction::Accepted(q) => self.accepted(n, d, q),
            Correction::Again(_, _) => self.second(n, d),
            Correction::Refused(_) => self.stopped(d),
        }
    }

    pub(crate) fn run(&mut self) {
        for n in 1..=1_000_000 {
            self.step(n);
        }
    }
}
