// The same calls for whoever owns the record: each lends its own copy to a call, and returns what the call leaves beside its answer.
ghost use Rattle.std.specs.Prelude.{◌≡◌};
ghost use Rattle.epoch_steps.specs.Steps.{start_of, refine_of};
ghost use Rattle.running.specs.Runs.{run_of};
ghost use Rattle.session.specs.Requests.{request};
ghost use Rattle.steps.specs.Steps.{open_of, predict_of, correct_of, withdraw_of};

use axis::Tolerances;
use epoch_steps::AfterRound;
use running::AfterRun;
use session::{Session, WholePoint};
use steps::{After, AfterCorrect, AfterOpen, AfterPredict, AfterWithdraw};
use ticks::Sample;

pub fn open(
    s: Session,
    points: usize,
    tolerances: Tolerances,
    limit: u64,
    point: WholePoint,
    samples: &[f64],
) -> AfterOpen
    ensures { result ≡ open_of (request points tolerances limit point samples.now) }
{
    let mut session = s;
    let answer = crate::open(&mut session, points, tolerances, limit, point, samples);
    After { session, answer }
}

pub fn predict(s: Session) -> AfterPredict
    ensures { result ≡ predict_of s }
{
    let mut session = s;
    let answer = crate::predict(&mut session);
    After { session, answer }
}

pub fn correct(s: Session, a: Sample) -> AfterCorrect
    ensures { result ≡ correct_of s a }
{
    let mut session = s;
    let answer = crate::correct(&mut session, a);
    After { session, answer }
}

pub fn withdraw(s: Session) -> AfterWithdraw
    ensures { result ≡ withdraw_of s }
{
    let mut session = s;
    let answer = crate::withdraw(&mut session);
    After { session, answer }
}

pub fn start(
    s: Session,
    points: usize,
    tolerances: Tolerances,
    limit: u64,
    epoch: WholePoint,
    samples: &[f64],
) -> AfterRound
    ensures { result ≡ start_of (request points tolerances limit epoch samples.now) }
{
    let mut session = s;
    let answer = crate::start(&mut session, points, tolerances, limit, epoch, samples);
    After { session, answer }
}

pub fn refine(s: Session, samples: &[f64]) -> AfterRound
    ensures { result ≡ refine_of s samples.now }
{
    let mut session = s;
    let answer = crate::refine(&mut session, samples);
    After { session, answer }
}

pub fn run(s: Session, samples: &[f64], wanted: u64) -> AfterRun
    ensures { result ≡ run_of s samples.now wanted }
{
    let mut session = s;
    let answer = crate::run(&mut session, samples, wanted);
    After { session, answer }
}
