// Whether a record counts as open, whatever a host filled it with.
ghost use Rattle.std.specs.Prelude.{◌≡◌, ◌≤◌};
ghost use Rattle.axis.specs.Holding.{axis_holds};
ghost use Rattle.session.specs.Holding.{every_axis, counts_hold, same_point, settled_holds, estimate_begins, awaiting_holds, state_holds, holds, settled, awaiting};
ghost use Rattle.session.specs.Moves.{estimate_of};
ghost use Rattle.session.specs.Ready.{ReadySession};

use crate::moves::{estimate_of, no_point, predicted_point};
use crate::numbers::{points_hold, settings_hold};
use crate::{Point, Session, State};
use axis::axis_holds;

#[tactic(auto, unfolding(crate::specs::Holding::counts_hold))]
fn counts_hold(s: Session) -> bool
    ensures { result ≡ counts_hold s }
{
    points_hold(s.points) && settings_hold(s.tolerances, s.limit) && s.accepted <= 1_000_000
}

fn estimate_is(s: Session, q: Point) -> bool
    ensures { result ≡ same_point (estimate_of s) q }
{
    estimate_of(s) == q
}

#[tactic(auto, unfolding(crate::specs::Holding::settled_holds))]
fn settled_holds(s: Session) -> bool
    ensures { result ≡ settled_holds s }
{
    estimate_is(s, no_point()) && s.corrections == 0
}

#[tactic(auto, unfolding(crate::specs::Holding::estimate_begins))]
fn estimate_begins(s: Session) -> bool
    requires { ReadySession s }
    ensures { result ≡ estimate_begins s }
{
    s.corrections != 0 || estimate_is(s, predicted_point(s))
}

#[tactic(auto, unfolding(crate::specs::Holding::awaiting_holds))]
fn awaiting_holds(s: Session) -> bool
    requires { ReadySession s }
    ensures { result ≡ awaiting_holds s }
{
    s.corrections < s.limit && estimate_begins(s) && s.accepted < 1_000_000
}

fn state_holds(s: Session) -> bool
    requires { ReadySession s }
    ensures { result ≡ state_holds s.state s }
{
    match s.state {
        State::Closed | State::Starting => false,
        State::Settled => settled_holds(s),
        State::Awaiting => awaiting_holds(s),
    }
}

// Each axis, once the number of points is known to keep to its numbers.
fn axes_hold(s: Session) -> bool
    requires { (1 ≤ s.points) × (s.points ≤ 9) }
    ensures { result ≡ every_axis s (axis_holds s.points) }
{
    axis_holds(s.points, s.x) && axis_holds(s.points, s.y) && axis_holds(s.points, s.z)
}

fn is_open(s: Session) -> bool
    ensures { result ≡ holds s }
{
    counts_hold(s) && axes_hold(s) && state_holds(s)
}

#[tactic(auto, unfolding(crate::specs::Holding::settled))]
pub fn is_settled(s: Session) -> bool
    ensures { result ≡ settled s }
{
    s.state == State::Settled && is_open(s)
}

#[tactic(auto, unfolding(crate::specs::Holding::awaiting))]
pub fn is_awaiting(s: Session) -> bool
    ensures { result ≡ awaiting s }
{
    s.state == State::Awaiting && is_open(s)
}
