// A first round: the session is starting, whatever the record held before.
ghost use Rattle.std.specs.Prelude.{◌≡◌, true};
ghost use Rattle.epoch_session.specs.Rounds.{round_in_range};
ghost use Rattle.epoch_session.specs.Ready.{ReadyRound};
ghost use Rattle.session.specs.Requests.{request};
ghost use Rattle.steps.specs.Answers.{unrefused};
ghost use Rattle.epoch_steps.specs.Refusals.{first_round, start_refusal};
ghost use Rattle.epoch_steps.specs.Steps.{starting_from, start_by, start_of};

use crate::answers::{given_round, refused, round_points};
use crate::{AfterRound, Outcome, RoundAnswer};
use axis::Tolerances;
use epoch_coefficients::has_centre;
use epoch_session::{Round, round_in_range, start_at};
use rules::{Reason, Refusal};
use session::{
    Point, Session, WholePoint, closed, exact_point, point_in_range, points_hold, settings_hold,
};
use steps::{After, no_change, refusal_of};

// The record that starts from a round, after so many later ones.
pub(crate) fn starting_from(
    tolerances: Tolerances,
    limit: u64,
    rounds: u64,
    epoch: Point,
    r: Round,
) -> Session
    ensures { result ≡ starting_from tolerances limit rounds epoch r }
{
    start_at(
        r.points,
        tolerances,
        limit,
        rounds,
        epoch,
        r.x.samples,
        r.y.samples,
        r.z.samples,
    )
}

// A first round whose points are in range.
fn begin(tolerances: Tolerances, limit: u64, epoch: Point, r: Round) -> AfterRound
    requires ready_round { ReadyRound r }
    requires r_value { round_in_range r ≡ true }
    ensures { result ≡ start_by 0 tolerances limit epoch r }
{
    After {
        session: starting_from(tolerances, limit, 0, epoch, r),
        answer: RoundAnswer {
            outcome: Outcome::More(no_change()),
            track: round_points(r),
        },
    }
}

// The first round, or what refuses it.
fn first_round(
    points: usize,
    tolerances: Tolerances,
    limit: u64,
    epoch: WholePoint,
    floats: &[f64],
) -> Result<Round, Refusal>
    ensures { result ≡ unrefused (start_refusal (request points tolerances limit epoch floats.now)) (first_round (request points tolerances limit epoch floats.now)) }
{
    if !points_hold(points) {
        return Err(Reason::Points.into());
    }
    if !has_centre(points) {
        return Err(Reason::NoCentre.into());
    }
    if floats.len() != 3 * points {
        return Err(Reason::Length.into());
    }
    if !settings_hold(tolerances, limit) {
        return Err(Reason::Settings.into());
    }
    let q = exact_point(epoch);
    if !point_in_range(q) {
        return Err(Reason::OutOfRange.into());
    }
    if let Some(fault) = ticks::fault_in(floats) {
        return Err(refusal_of(fault));
    }
    let r = given_round(points, q, floats);
    if !round_in_range(r) {
        return Err(Reason::OutOfRange.into());
    }
    Ok(r)
}

pub fn start_step(
    points: usize,
    tolerances: Tolerances,
    limit: u64,
    epoch: WholePoint,
    floats: &[f64],
) -> AfterRound
    ensures { result ≡ start_of (request points tolerances limit epoch floats.now) }
{
    match first_round(points, tolerances, limit, epoch, floats) {
        Ok(r) => begin(tolerances, limit, exact_point(epoch), r),
        Err(refusal) => refused(closed(), refusal),
    }
}
