// The calls on a session by value: each takes a record and returns it as the call leaves it, beside the answer.
#![tactic(auto)]

use exact::Reported;
use rules::Refusal;
use session::Session;

mod checks;
mod corrects;
mod opens;
mod predicts;
mod reports;
mod withdraws;

pub use checks::{fault_number, refusal_of};
pub use corrects::{correct_awaiting, correct_step};
pub use opens::{axis_samples, open_step};
pub use predicts::{predict_settled, predict_step};
pub use reports::{no_change, no_reported_point, report_motion, report_point};
pub use withdraws::{withdraw_awaiting, withdraw_step};

// A position and a velocity, each beside its report.
#[derive(Clone, Copy)]
pub struct ReportedMotion {
    pub position: Reported,
    pub velocity: Reported,
}

#[derive(Clone, Copy)]
pub struct ReportedPoint {
    pub x: ReportedMotion,
    pub y: ReportedMotion,
    pub z: ReportedMotion,
}

// A point, an estimate and the largest change of each kind, or a refusal's number: the paper asks for these three cases (docs/FORMS.md).
#[derive(Clone, Copy)]
pub enum Correction {
    Accepted(ReportedPoint),
    Again(ReportedPoint, ReportedMotion),
    Refused(u8),
}

// Nothing or a point, or what refuses the call.
pub type Opening = Result<(), Refusal>;

pub type Prediction = Result<ReportedPoint, Refusal>;

pub type Withdrawal = Result<(), Refusal>;

// An answer in the paper's shape: its number, its kind (1 an accepted point, 2 one to be corrected again, 0 all other), a point and the largest
// change of each kind, zeros where it carries nothing.
#[derive(Clone, Copy)]
pub struct Answer {
    pub number: u8,
    pub kind: u8,
    pub point: ReportedPoint,
    pub change: ReportedMotion,
}

// The record as a call leaves it, beside the answer.
#[derive(Clone, Copy)]
pub struct After<A> {
    pub session: Session,
    pub answer: A,
}

pub type AfterOpen = After<Opening>;

pub type AfterPredict = After<Prediction>;

pub type AfterCorrect = After<Correction>;

pub type AfterWithdraw = After<Withdrawal>;
