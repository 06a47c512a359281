// The points of a round beside their reports, the round of an epoch and floats, and the answer to one that is refused.
ghost use Rattle.std.specs.Prelude.{◌≡◌, true, ◌*◌, length};
ghost use Rattle.epoch_coefficients.specs.Formulas.{has_centre};
ghost use Rattle.session.specs.Ready.{PlacedPoint};
ghost use Rattle.epoch_session.specs.Rounds.{round_in_range};
ghost use Rattle.epoch_session.specs.Ready.{ReadyRound};
ghost use Rattle.epoch_steps.specs.Answers.{round_points, no_points};
ghost use Rattle.epoch_steps.specs.Refusals.{given_round};
ghost use Rattle.epoch_steps.specs.Steps.{refused};

use crate::{AfterRound, Outcome, RoundAnswer};
use epoch_session::{Round, earlier_point, round_of};
use rules::Refusal;
use session::{Point, Session};
use steps::{After, ReportedPoint, axis_samples, no_reported_point, report_point};

pub fn given_round(points: usize, epoch: Point, floats: &[f64]) -> Round
    requires points_value { has_centre points ≡ true }
    requires placed_point { PlacedPoint epoch }
    requires floats_len { length floats.now ≡ 3 * points }
    ensures { result ≡ given_round points epoch floats.now }
{
    let xs = axis_samples(points, 0, floats);
    let ys = axis_samples(points, 1, floats);
    let zs = axis_samples(points, 2, floats);
    round_of(points, epoch, xs, ys, zs)
}

pub fn no_points() -> [ReportedPoint; 9]
    ensures { result ≡ no_points }
{
    let none = no_reported_point();
    [none; 9]
}

pub fn round_points(r: Round) -> [ReportedPoint; 9]
    requires ready_round { ReadyRound r }
    requires r_value { round_in_range r ≡ true }
    ensures { result ≡ round_points r }
{
    let mut out = no_points();
    for i in 0..r.points {
        out[i] = report_point(earlier_point(r, r.points - 1 - i));
    }
    out
}

// The record that is left, and no points.
pub fn refused(session: Session, refusal: Refusal) -> AfterRound
    ensures { result ≡ record { session = session; answer = refused refusal } }
{
    After {
        session,
        answer: RoundAnswer {
            outcome: Outcome::Refused(refusal.number()),
            track: no_points(),
        },
    }
}
