// Explain: the rules of a correction in their order, and for the one that answers the first value at fault.
ghost use Rattle.std.specs.Prelude.{◌≡◌, true};
ghost use Rattle.ticks.specs.Samples.{WithinLimit};
ghost use Rattle.session.specs.Holding.{awaiting};
ghost use Rattle.session.specs.Moves.{point_in_range};
ghost use Rattle.session.specs.Ready.{Waiting, PlacedPoint};
ghost use Rattle.reasons.specs.Differences.{no_differences};
ghost use Rattle.reasons.specs.Explanations.{explanation, judged_point, explained_with, explain_of};

use crate::axes::first_axis;
use crate::changes::first_over;
use crate::newest::{differences_of, no_differences};
use crate::places::place;
use crate::ranges::first_out;
use crate::{Differences, Explanation, Reason};
use session::{Point, Session, corrected_point, is_awaiting, point_in_range};
use steps::fault_number;
use ticks::{Sample, WholeSample};

// Refused before a corrected point is worked out.
fn refused(number: u8, reason: Reason) -> Explanation
    ensures { result ≡ explanation number 0 reason no_differences }
{
    Explanation {
        number,
        kind: 0,
        reason,
        differences: no_differences(),
    }
}

// The point is in range: it is accepted, or the last correction was made, or another is awaited.
fn judge(s: Session, q: Point, differences: Differences) -> Explanation
    requires waiting { Waiting s }
    requires placed_point { PlacedPoint q }
    requires q_value { point_in_range q ≡ true }
    ensures { result ≡ judged_point s q differences }
{
    let reason = first_over(s, q);
    let (number, kind) = if reason.value == 0 {
        (0, 1)
    } else if s.limit <= s.corrections + 1 {
        (8, 0)
    } else {
        (0, 2)
    };
    Explanation {
        number,
        kind,
        reason,
        differences,
    }
}

// An awaiting session and a sample without fault.
fn explain_with(s: Session, w: WholeSample) -> Explanation
    requires s_value { awaiting s ≡ true }
    requires within_limit { WithinLimit w }
    ensures { result ≡ explained_with s w }
{
    let q = corrected_point(s, w);
    let differences = differences_of(s, w);
    if !point_in_range(q) {
        return Explanation {
            number: 6,
            kind: 0,
            reason: first_out(q),
            differences,
        };
    }
    judge(s, q, differences)
}

// Why a correction of this session by this sample would be answered as it is; neither changes.
pub fn explain(s: Session, a: Sample) -> Explanation
    ensures { result ≡ explain_of s a }
{
    if !is_awaiting(s) {
        return refused(7, place(0));
    }
    match ticks::round_sample(a) {
        Ok(w) => explain_with(s, w),
        Err(sample) => refused(
            fault_number(Some(sample.fault)),
            first_axis(sample.fault, a),
        ),
    }
}
