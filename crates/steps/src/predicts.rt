// Predict: the predicted point, which the session then awaits a correction of.
ghost use Rattle.std.specs.Prelude.{◌≡◌, true};
ghost use Rattle.session.specs.Holding.{settled};
ghost use Rattle.session.specs.Moves.{predicted_point};
ghost use Rattle.steps.specs.Refusals.{predict_refusal};
ghost use Rattle.steps.specs.Answers.{unrefused};
ghost use Rattle.steps.specs.Steps.{predict_of};

use crate::reports::report_point;
use crate::{After, AfterPredict};
use rules::{Reason, Refusal};
use session::{Point, Session, await_at, is_settled, point_in_range, predicted_point};

// The point that is predicted, or what refuses it.
fn predicted(ready: bool, s: Session) -> Result<Point, Refusal>
    requires { ready ≡ settled s }
    ensures { result ≡ unrefused (predict_refusal s) (predicted_point s) }
{
    if !ready {
        return Err(Reason::WrongState.into());
    }
    if 1_000_000 <= s.accepted {
        return Err(Reason::Full.into());
    }
    let q = predicted_point(s);
    if !point_in_range(q) {
        return Err(Reason::OutOfRange.into());
    }
    Ok(q)
}

// A record of which it is known whether it is settled.
fn predict_if(ready: bool, s: Session) -> AfterPredict
    requires { ready ≡ settled s }
    ensures { result ≡ predict_of s }
{
    match predicted(ready, s) {
        Ok(q) => After {
            session: await_at(s, 0, q),
            answer: Ok(report_point(q)),
        },
        Err(refusal) => After {
            session: s,
            answer: Err(refusal),
        },
    }
}

// A record that is known to be settled.
pub fn predict_settled(s: Session) -> AfterPredict
    requires { settled s ≡ true }
    ensures { result ≡ predict_of s }
{
    predict_if(true, s)
}

pub fn predict_step(s: Session) -> AfterPredict
    ensures { result ≡ predict_of s }
{
    predict_if(is_settled(s), s)
}
