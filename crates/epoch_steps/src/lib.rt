// A start from an epoch by value: a first round and later ones. Each gives the record that it leaves, beside the answer.
#![tactic(auto)]

use steps::{After, ReportedMotion, ReportedPoint};

mod answers;
mod refines;
mod starts;

pub use refines::refine_step;
pub use starts::start_step;

// More is asked for, with the largest change of each kind; the session is open; or a refusal's number: three cases, as the paper asks for a correction's.
#[derive(Clone, Copy)]
pub enum Outcome {
    More(ReportedMotion),
    Opened,
    Refused(u8),
}

// The outcome, and the points of the round, oldest first.
#[derive(Clone, Copy)]
pub struct RoundAnswer {
    pub outcome: Outcome,
    pub track: [ReportedPoint; 9],
}

// A round's answer in the paper's shape: its number, its kind (2 more is asked for, 3 the session is open, 0 refused), the largest change of each kind
// and the points, zeros where it carries nothing.
#[derive(Clone, Copy)]
pub struct RoundValues {
    pub number: u8,
    pub kind: u8,
    pub change: ReportedMotion,
    pub track: [ReportedPoint; 9],
}

pub type AfterRound = After<RoundAnswer>;
