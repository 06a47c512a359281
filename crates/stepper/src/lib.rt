// The calls of the library: each is lent the session's record, takes the step by value, and leaves the record that the step gives.
#![tactic(auto)]

ghost use Rattle.std.specs.Prelude.{◌≡◌};
ghost use Rattle.epoch_steps.specs.Answers.{round_answer};
ghost use Rattle.epoch_steps.specs.Steps.{start_of, start_answer, refine_of, refine_answer};
ghost use Rattle.running.specs.Bound.{WithinAllowance};
ghost use Rattle.running.specs.Runs.{run_of};
ghost use Rattle.session.specs.Requests.{request};
ghost use Rattle.steps.specs.Answers.{opening_answer, prediction_answer, correction_answer, withdrawal_answer};
ghost use Rattle.steps.specs.Steps.{open_of, open_answer, predict_of, predict_answer, correct_of, correct_answer, withdraw_of, withdraw_answer};

use axis::Tolerances;
use epoch_steps::RoundAnswer;
use running::RunAnswer;
use session::{Session, WholePoint};
use steps::{Correction, Opening, Prediction, Withdrawal};
use ticks::Sample;

pub mod owned;

pub fn open(
    s: &mut Session,
    points: usize,
    tolerances: Tolerances,
    limit: u64,
    point: WholePoint,
    samples: &[f64],
) -> Opening
    ensures { (s.new ≡ (open_of (request points tolerances limit point samples.now)).session)
        × (result ≡ (open_of (request points tolerances limit point samples.now)).answer)
        × (opening_answer result ≡ open_answer (request points tolerances limit point samples.now)) }
{
    let r = steps::open_step(points, tolerances, limit, point, samples);
    *s = r.session;
    r.answer
}

pub fn predict(s: &mut Session) -> Prediction
    ensures { (s.new ≡ (predict_of s.old).session)
        × (result ≡ (predict_of s.old).answer)
        × (prediction_answer result ≡ predict_answer s.old) }
{
    let r = steps::predict_step(*s);
    *s = r.session;
    r.answer
}

pub fn correct(s: &mut Session, a: Sample) -> Correction
    ensures { (s.new ≡ (correct_of s.old a).session)
        × (result ≡ (correct_of s.old a).answer)
        × (correction_answer result ≡ correct_answer s.old a) }
{
    let r = steps::correct_step(*s, a);
    *s = r.session;
    r.answer
}

pub fn withdraw(s: &mut Session) -> Withdrawal
    ensures { (s.new ≡ (withdraw_of s.old).session)
        × (result ≡ (withdraw_of s.old).answer)
        × (withdrawal_answer result ≡ withdraw_answer s.old) }
{
    let r = steps::withdraw_step(*s);
    *s = r.session;
    r.answer
}

// A first round of a start from an epoch.
pub fn start(
    s: &mut Session,
    points: usize,
    tolerances: Tolerances,
    limit: u64,
    epoch: WholePoint,
    samples: &[f64],
) -> RoundAnswer
    ensures { (s.new ≡ (start_of (request points tolerances limit epoch samples.now)).session)
        × (result ≡ (start_of (request points tolerances limit epoch samples.now)).answer)
        × (round_answer result ≡ start_answer (request points tolerances limit epoch samples.now)) }
{
    let r = epoch_steps::start_step(points, tolerances, limit, epoch, samples);
    *s = r.session;
    r.answer
}

// A later round.
pub fn refine(s: &mut Session, samples: &[f64]) -> RoundAnswer
    ensures { (s.new ≡ (refine_of s.old samples.now).session)
        × (result ≡ (refine_of s.old samples.now).answer)
        × (round_answer result ≡ refine_answer s.old samples.now) }
{
    let r = epoch_steps::refine_step(*s, samples);
    *s = r.session;
    r.answer
}

// A run: predictions, and corrections with the samples in turn, until so many points are settled, a call is refused, or no sample is left.
pub fn run(s: &mut Session, samples: &[f64], wanted: u64) -> RunAnswer
    ensures { (s.new ≡ (run_of s.old samples.now wanted).session)
        × (result ≡ (run_of s.old samples.now wanted).answer)
        × WithinAllowance s.old.limit result }
{
    let r = running::run_step(*s, samples, wanted);
    *s = r.session;
    r.answer
}
