// Every answer in the paper's shape: its number, its kind and its values, zeros where it carries nothing.
#![tactic(auto)]

ghost use Rattle.std.specs.Prelude.{◌≡◌};
ghost use Rattle.steps.specs.Answers.{answer, no_change, refused, opening_answer, prediction_answer, correction_answer, withdrawal_answer};
ghost use Rattle.epoch_steps.specs.Answers.{values, round_answer};

use epoch_steps::{Outcome, RoundAnswer, RoundValues};
use steps::{
    Answer, Correction, Opening, Prediction, ReportedMotion, ReportedPoint, Withdrawal, no_change,
    no_reported_point,
};

// A number, and zero in every other field.
fn bare(number: u8) -> Answer
    ensures { result ≡ refused number }
{
    Answer {
        number,
        kind: 0,
        point: no_reported_point(),
        change: no_change(),
    }
}

// A point without a change.
fn with_point(kind: u8, point: ReportedPoint) -> Answer
    ensures { result ≡ answer 0 kind point no_change }
{
    Answer {
        number: 0,
        kind,
        point,
        change: no_change(),
    }
}

pub fn opening_answer(opening: Opening) -> Answer
    ensures { result ≡ opening_answer opening }
{
    match opening {
        Ok(()) => bare(0),
        Err(refusal) => bare(refusal.number()),
    }
}

pub fn prediction_answer(prediction: Prediction) -> Answer
    ensures { result ≡ prediction_answer prediction }
{
    match prediction {
        Ok(point) => with_point(0, point),
        Err(refusal) => bare(refusal.number()),
    }
}

pub fn correction_answer(correction: Correction) -> Answer
    ensures { result ≡ correction_answer correction }
{
    match correction {
        Correction::Accepted(point) => with_point(1, point),
        Correction::Again(point, change) => Answer {
            number: 0,
            kind: 2,
            point,
            change,
        },
        Correction::Refused(number) => bare(number),
    }
}

pub fn withdrawal_answer(withdrawal: Withdrawal) -> Answer
    ensures { result ≡ withdrawal_answer withdrawal }
{
    match withdrawal {
        Ok(()) => bare(0),
        Err(refusal) => bare(refusal.number()),
    }
}

// The points of a round, and its change where it carries one.
fn of_round(number: u8, kind: u8, change: ReportedMotion, track: [ReportedPoint; 9]) -> RoundValues
    ensures { result ≡ values number kind change track }
{
    RoundValues {
        number,
        kind,
        change,
        track,
    }
}

pub fn round_answer(a: RoundAnswer) -> RoundValues
    ensures { result ≡ round_answer a }
{
    match a.outcome {
        Outcome::More(change) => of_round(0, 2, change, a.track),
        Outcome::Opened => of_round(0, 3, no_change(), a.track),
        Outcome::Refused(number) => of_round(number, 0, no_change(), a.track),
    }
}
