// The record that an image holds, and the calls on it: whether it is settled or awaits a correction is known by its state.
ghost use Rattle.std.specs.Prelude.{◌≡◌, true, false, length, MatchOption};
ghost use Rattle.integers.specs.Tests.{◌and◌};
ghost use Rattle.image.specs.Standing.{standing};
ghost use Rattle.image.specs.Reading.{held_in, is_image};
ghost use Rattle.steps.specs.Steps.{predict_of, correct_of, withdraw_of};
ghost use Rattle.host.specs.Calls.{is_answer};

use image::read;
use rules::Reason;
use session::{Session, State};
use steps::{
    After, AfterCorrect, AfterPredict, AfterWithdraw, Correction, correct_awaiting,
    predict_settled, withdraw_awaiting,
};
use ticks::Sample;

// The record of an image, where the answer has its length.
pub(crate) fn held_in(image: &[u8], answer: &[u8]) -> Option<Session>
    ensures { MatchOption result ((is_answer answer.now and is_image image.now) ≡ false)
        (λ s. ((is_answer answer.now and is_image image.now) ≡ true) × (s ≡ held_in image.now)) }
{
    if answer.len() != 200 {
        return None;
    }
    let held = read(image);
    if held.number == 0 {
        Some(held.session)
    } else {
        None
    }
}

pub(crate) fn predict_held(s: Session) -> AfterPredict
    requires { standing s ≡ s }
    ensures { result ≡ predict_of s }
{
    match s.state {
        State::Settled => predict_settled(s),
        _ => After {
            session: s,
            answer: Err(Reason::WrongState.into()),
        },
    }
}

pub(crate) fn correct_held(s: Session, a: Sample) -> AfterCorrect
    requires { standing s ≡ s }
    ensures { result ≡ correct_of s a }
{
    match s.state {
        State::Awaiting => correct_awaiting(s, a),
        _ => After {
            session: s,
            answer: Correction::Refused(Reason::WrongState as u8),
        },
    }
}

pub(crate) fn withdraw_held(s: Session) -> AfterWithdraw
    requires { standing s ≡ s }
    ensures { result ≡ withdraw_of s }
{
    match s.state {
        State::Awaiting => withdraw_awaiting(s),
        _ => After {
            session: s,
            answer: Err(Reason::WrongState.into()),
        },
    }
}
