// How far the points of a round are from those of the round before it.
ghost use Rattle.std.specs.Prelude.{◌≡◌, true};
ghost use Rattle.axis.specs.Agreement.{sizes};
ghost use Rattle.axis.specs.Ready.{Tolerable};
ghost use Rattle.epoch_session.specs.Rounds.{round_in_range, rounds_agree, largest_move};
ghost use Rattle.epoch_session.specs.Ready.{ReadyRound};

use crate::Round;
use crate::rounds::earlier_point;
use axis::{Motion, Tolerances, larger_change, no_motion};
use session::{point_change, points_agree};

// Whether at every point the positions and the velocities moved by no more than their tolerances.
pub fn rounds_agree(tolerances: Tolerances, r: Round, before: Round) -> bool
    requires tolerable { Tolerable tolerances }
    requires ready_round { ReadyRound r }
    requires ready_round_2 { ReadyRound before }
    requires points_value { r.points ≡ before.points }
    requires r_value { round_in_range r ≡ true }
    requires before_value { round_in_range before ≡ true }
    ensures { result ≡ rounds_agree tolerances r before }
{
    for j in 0..r.points {
        if !points_agree(tolerances, earlier_point(r, j), earlier_point(before, j)) {
            return false;
        }
    }
    true
}

// By how much a position moved at most, and a velocity, at any point.
pub fn largest_move(r: Round, before: Round) -> Motion
    requires ready_round { ReadyRound r }
    requires ready_round_2 { ReadyRound before }
    requires points_value { r.points ≡ before.points }
    requires r_value { round_in_range r ≡ true }
    requires before_value { round_in_range before ≡ true }
    ensures { result ≡ sizes (largest_move r before) }
{
    let mut most = no_motion();
    for j in 0..r.points {
        most = larger_change(
            most,
            point_change(earlier_point(r, j), earlier_point(before, j)),
        );
    }
    most
}
