// Correct: the corrected point, which is accepted, awaits another correction, or is the last that the limit allows.
ghost use Rattle.std.specs.Prelude.{◌≡◌, true};
ghost use Rattle.axis.specs.Agreement.{sizes};
ghost use Rattle.ticks.specs.Samples.{whole_of};
ghost use Rattle.session.specs.Holding.{awaiting};
ghost use Rattle.session.specs.Moves.{corrected_point};
ghost use Rattle.session.specs.Ready.{Waiting, PlacedPoint};
ghost use Rattle.steps.specs.Refusals.{agrees, early_refusal, largest_change, is_last};
ghost use Rattle.steps.specs.Answers.{unrefused};
ghost use Rattle.steps.specs.Steps.{correct_of};
ghost use Rattle.steps.specs.Unagreed.{unagreed};

use crate::checks::whole_sample;
use crate::reports::{report_motion, report_point};
use crate::{After, AfterCorrect, Correction, ReportedPoint};
use axis::Motion;
use rules::{Reason, Refusal};
use session::{
    Point, Session, accept, await_at, corrected_point, estimate_of, is_awaiting, point_change,
    point_in_range, points_agree, settle,
};
use ticks::{Sample, WholeSample};

fn is_agreed(s: Session, q: Point) -> bool
    requires waiting { Waiting s }
    requires placed_point { PlacedPoint q }
    ensures { result ≡ agrees s q }
{
    points_agree(s.tolerances, q, estimate_of(s))
}

fn largest_change(s: Session, q: Point) -> Motion
    requires waiting { Waiting s }
    requires placed_point { PlacedPoint q }
    ensures { result ≡ sizes (largest_change s q) }
{
    point_change(q, estimate_of(s))
}

// A point that does not agree: the last correction was made, or another is awaited.
fn correct_again(s: Session, q: Point, point: ReportedPoint) -> AfterCorrect
    requires waiting { Waiting s }
    requires placed_point { PlacedPoint q }
    ensures { result ≡ unagreed (is_last s) s q point }
{
    let made = s.corrections + 1;
    if s.limit <= made {
        return After {
            session: settle(s),
            answer: Correction::Refused(Reason::LastCorrection as u8),
        };
    }
    let change = report_motion(largest_change(s, q));
    After {
        session: await_at(s, made, q),
        answer: Correction::Again(point, change),
    }
}

// The rounded sample and the point that it corrects to, or what refuses them.
fn corrected(ready: bool, s: Session, a: Sample) -> Result<(WholeSample, Point), Refusal>
    requires { ready ≡ awaiting s }
    ensures { result ≡ unrefused (early_refusal s a) (whole_of a, corrected_point s (whole_of a)) }
{
    if !ready {
        return Err(Reason::WrongState.into());
    }
    let w = whole_sample(a)?;
    let q = corrected_point(s, w);
    if !point_in_range(q) {
        return Err(Reason::OutOfRange.into());
    }
    Ok((w, q))
}

// A record of which it is known whether it awaits a correction.
fn correct_if(ready: bool, s: Session, a: Sample) -> AfterCorrect
    requires { ready ≡ awaiting s }
    ensures { result ≡ correct_of s a }
{
    let (w, q) = match corrected(ready, s, a) {
        Ok(both) => both,
        Err(refusal) => {
            return After {
                session: s,
                answer: Correction::Refused(refusal.number()),
            };
        }
    };
    let point = report_point(q);
    if is_agreed(s, q) {
        return After {
            session: accept(s, w),
            answer: Correction::Accepted(point),
        };
    }
    correct_again(s, q, point)
}

// A record that is known to await a correction.
pub fn correct_awaiting(s: Session, a: Sample) -> AfterCorrect
    requires { awaiting s ≡ true }
    ensures { result ≡ correct_of s a }
{
    correct_if(true, s, a)
}

pub fn correct_step(s: Session, a: Sample) -> AfterCorrect
    ensures { result ≡ correct_of s a }
{
    correct_if(is_awaiting(s), s, a)
}
