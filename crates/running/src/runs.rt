// The run, sample after sample.
ghost use Rattle.std.specs.Prelude.{◌≡◌, true, ◌+◌, ◌^◌, ◌<◌};
ghost use Rattle.session.specs.Holding.{holds, settled, awaiting};
ghost use Rattle.running.specs.Samples.{samples_in};
ghost use Rattle.running.specs.Runs.{come, correcting, taken, over, on, run_of};
ghost use Rattle.running.specs.Readied.{readied};

use crate::samples::sample_at;
use crate::{AfterRun, RunAnswer};
use rules::Refusal;
use session::{Session, State, is_settled};
use steps::{After, Correction, correct_awaiting, predict_settled};
use ticks::Sample;

fn come_to(session: Session, number: u8, points: u64, used: usize) -> AfterRun
    ensures { result ≡ come session number points used }
{
    After {
        session,
        answer: RunAnswer {
            number,
            points,
            used,
        },
    }
}

// A sample for a session that awaits a correction.
fn correct_on(r: RunAnswer, s: Session, a: Sample) -> AfterRun
    requires s_value { awaiting s ≡ true }
    requires points_bound { r.points + 1 < 2 ^ 64 }
    requires used_bound { r.used + 1 < 2 ^ 64 }
    ensures { result ≡ correcting r s a }
{
    let after = correct_awaiting(s, a);
    let used = r.used + 1;
    match after.answer {
        Correction::Accepted(_) => come_to(after.session, 0, r.points + 1, used),
        Correction::Again(_, _) => come_to(after.session, 0, r.points, used),
        Correction::Refused(number) => come_to(after.session, number, r.points, used),
    }
}

// A session that awaits a correction, which predicts first where it does not, or what refuses its prediction.
fn made_ready(s: Session) -> Result<Session, Refusal>
    requires { holds s ≡ true }
    ensures { result ≡ readied s }
{
    if matches!(s.state, State::Awaiting) {
        return Ok(s);
    }
    let after = predict_settled(s);
    let _ = after.answer?;
    Ok(after.session)
}

// One sample more.
fn take(run: AfterRun, a: Sample) -> AfterRun
    requires session_value { holds run.session ≡ true }
    requires points_bound { run.answer.points + 1 < 2 ^ 64 }
    requires used_bound { run.answer.used + 1 < 2 ^ 64 }
    ensures { result ≡ taken run a }
{
    let r = run.answer;
    match made_ready(run.session) {
        Ok(session) => correct_on(r, session, a),
        Err(refusal) => come_to(run.session, refusal.number(), r.points, r.used),
    }
}

fn is_over(wanted: u64, r: RunAnswer) -> bool
    ensures { result ≡ over wanted r }
{
    r.number != 0 || wanted <= r.points
}

// A session that is known to be settled.
fn run_settled(s: Session, samples: &[f64], wanted: u64) -> AfterRun
    requires { settled s ≡ true }
    ensures { result ≡ on wanted (come s 0 0 0) (samples_in samples.now) }
{
    let mut run = come_to(s, 0, 0, 0);
    for i in 0..samples.len() / 3 {
        if is_over(wanted, run.answer) {
            return run;
        }
        run = take(run, sample_at(samples, i));
    }
    run
}

pub fn run_step(s: Session, samples: &[f64], wanted: u64) -> AfterRun
    ensures { result ≡ run_of s samples.now wanted }
{
    if !is_settled(s) {
        return come_to(s, 7, 0, 0);
    }
    if samples.len() % 3 != 0 {
        return come_to(s, 2, 0, 0);
    }
    run_settled(s, samples, wanted)
}
