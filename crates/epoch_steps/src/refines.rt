// A later round: compared with the round that the record holds.
ghost use Rattle.std.specs.Prelude.{◌≡◌, true};
ghost use Rattle.rules.specs.Rules.{first_of};
ghost use Rattle.epoch_session.specs.Rounds.{round_in_range};
ghost use Rattle.epoch_session.specs.Records.{starting};
ghost use Rattle.epoch_session.specs.Ready.{ReadyRound};
ghost use Rattle.steps.specs.Answers.{unrefused};
ghost use Rattle.epoch_steps.specs.Refusals.{early_refusal, later_round, later_rules};
ghost use Rattle.epoch_steps.specs.Steps.{refine_by, refine_of};

use crate::answers::{given_round, refused, round_points};
use crate::starts::starting_from;
use crate::{AfterRound, Outcome, RoundAnswer};
use epoch_session::{
    Round, held_round, is_starting, largest_move, open_round, round_in_range, rounds_agree,
};
use rules::{Reason, Refusal};
use session::{Session, closed, estimate_of};
use steps::{After, refusal_of, report_motion};

// The round's points are in range: the session opens, or the last round was made, or more is asked for.
fn judge_round(s: Session, r: Round) -> AfterRound
    requires s_value { starting s ≡ true }
    requires ready_round { ReadyRound r }
    requires points_value { r.points ≡ s.points }
    requires r_value { round_in_range r ≡ true }
    ensures { result ≡ refine_by (first_of (later_rules s r)) s r }
{
    let before = held_round(s);
    if rounds_agree(s.tolerances, r, before) {
        return After {
            session: open_round(s.tolerances, s.limit, r),
            answer: RoundAnswer {
                outcome: Outcome::Opened,
                track: round_points(r),
            },
        };
    }
    let made = s.corrections + 1;
    if s.limit <= made {
        return refused(closed(), Reason::LastCorrection.into());
    }
    let change = report_motion(largest_move(r, before));
    After {
        session: starting_from(s.tolerances, s.limit, made, estimate_of(s), r),
        answer: RoundAnswer {
            outcome: Outcome::More(change),
            track: round_points(r),
        },
    }
}

// The later round, or what refuses it before it is compared.
fn later_round(s: Session, floats: &[f64]) -> Result<Round, Refusal>
    ensures { result ≡ unrefused (early_refusal s floats.now) (later_round s floats.now) }
{
    if !is_starting(s) {
        return Err(Reason::WrongState.into());
    }
    if floats.len() != 3 * s.points {
        return Err(Reason::Length.into());
    }
    if let Some(fault) = ticks::fault_in(floats) {
        return Err(refusal_of(fault));
    }
    let r = given_round(s.points, estimate_of(s), floats);
    if !round_in_range(r) {
        return Err(Reason::OutOfRange.into());
    }
    Ok(r)
}

pub fn refine_step(s: Session, floats: &[f64]) -> AfterRound
    ensures { result ≡ refine_of s floats.now }
{
    match later_round(s, floats) {
        Ok(r) => judge_round(s, r),
        Err(refusal) => refused(s, refusal),
    }
}
