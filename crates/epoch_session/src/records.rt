// The record of a session between rounds, and the one that they open.
ghost use Rattle.std.specs.Prelude.{◌≡◌, true};
ghost use Rattle.epoch_coefficients.specs.Formulas.{has_centre};
ghost use Rattle.session.specs.Holding.{every_axis};
ghost use Rattle.epoch_session.specs.Records.{held_round, sums_zero, older_zero, epoch_holds, axis_starts, axes_start, start_holds, starting, starting_axis, starting_session, opened_round};
ghost use Rattle.epoch_session.specs.Ready.{HoldsRound};

use crate::Round;
use crate::rounds::{round_in_range, round_of};
use axis::{Axis, Motion, Tolerances, axis_with, in_range, no_motion, places_hold, same_motion};
use epoch_coefficients::has_centre;
use exact::Exact;
use session::{Point, Session, State, estimate_of, settings_hold};

fn sums_zero(a: Axis) -> bool
    ensures { result ≡ sums_zero a }
{
    a.first.same(Exact::ZERO) && a.second.same(Exact::ZERO)
}

#[tactic(auto, unfolding(crate::specs::Records::epoch_holds))]
fn epoch_holds(m: Motion) -> bool
    ensures { result ≡ epoch_holds m }
{
    m.position.part == 0 && m.velocity.part == 0 && in_range(m)
}

#[tactic(auto, unfolding(crate::specs::Records::axis_starts))]
fn axis_starts(p: usize, a: Axis) -> bool
    ensures { result ≡ axis_starts p a }
{
    sums_zero(a) && places_hold(p, a.samples) && epoch_holds(a.estimate)
}

// The round that a starting record holds.
pub fn held_round(s: Session) -> Round
    requires { HoldsRound s }
    ensures { result ≡ held_round s }
{
    round_of(
        s.points,
        estimate_of(s),
        s.x.samples,
        s.y.samples,
        s.z.samples,
    )
}

// Each axis keeps the rules: then the record holds a round.
fn each_starts(s: Session) -> bool
    ensures { result ≡ every_axis s (axis_starts s.points) }
{
    axis_starts(s.points, s.x) && axis_starts(s.points, s.y) && axis_starts(s.points, s.z)
}

fn axes_start(s: Session) -> bool
    requires { has_centre s.points ≡ true }
    ensures { result ≡ axes_start s }
{
    each_starts(s) && round_in_range(held_round(s))
}

#[tactic(auto, unfolding(crate::specs::Records::older_zero))]
fn older_zero(a: Axis) -> bool
    ensures { result ≡ older_zero a }
{
    same_motion(a.older, no_motion())
}

// No axis holds a sum of older samples.
fn olders_zero(s: Session) -> bool
    ensures { result ≡ every_axis s older_zero }
{
    older_zero(s.x) && older_zero(s.y) && older_zero(s.z)
}

#[tactic(auto, unfolding(crate::specs::Records::start_holds))]
fn start_holds(s: Session) -> bool
    ensures { result ≡ start_holds s }
{
    has_centre(s.points)
        && settings_hold(s.tolerances, s.limit)
        && s.accepted == 0
        && s.corrections < s.limit
        && olders_zero(s)
        && axes_start(s)
}

#[tactic(auto, unfolding(crate::specs::Records::starting))]
pub fn is_starting(s: Session) -> bool
    ensures { result ≡ starting s }
{
    s.state == State::Starting && start_holds(s)
}

fn starting_axis(epoch: Motion, samples: [i64; 9]) -> Axis
    ensures { result ≡ starting_axis epoch samples }
{
    axis_with(Exact::ZERO, Exact::ZERO, no_motion(), samples, epoch)
}

// Starting, after so many later rounds. The samples are three lists, as the theorems on `starting_session` name them.
#[tactic(auto, unfolding(crate::specs::Records::starting_session))]
pub fn start_at(
    points: usize,
    tolerances: Tolerances,
    limit: u64,
    rounds: u64,
    epoch: Point,
    xs: [i64; 9],
    ys: [i64; 9],
    zs: [i64; 9],
) -> Session
    ensures { result ≡ starting_session points tolerances limit rounds epoch xs ys zs }
{
    let x = starting_axis(epoch.x, xs);
    let y = starting_axis(epoch.y, ys);
    let z = starting_axis(epoch.z, zs);
    Session {
        state: State::Starting,
        points,
        tolerances,
        limit,
        accepted: 0,
        corrections: rounds,
        x,
        y,
        z,
    }
}

// Settled at the newest point of a round.
#[tactic(auto, unfolding(crate::specs::Records::opened_round))]
pub fn open_round(tolerances: Tolerances, limit: u64, r: Round) -> Session
    ensures { result ≡ opened_round tolerances limit r }
{
    Session {
        state: State::Settled,
        points: r.points,
        tolerances,
        limit,
        accepted: 0,
        corrections: 0,
        x: r.x,
        y: r.y,
        z: r.z,
    }
}
