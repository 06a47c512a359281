// The session that bytes say, field by field.
ghost use Rattle.std.specs.Prelude.{◌≡◌, ◌+◌, ◌≤◌, ◌<◌, length};
ghost use Rattle.image.specs.Reading.{signed_at, exact_at, motion_at, samples_at, axis_at, state_of, tolerances_at, session_in};

use crate::words::word_at;
use axis::{Axis, Motion, Tolerances, axis_with};
use exact::Exact;
use session::{Session, State};

fn signed_at(s: &[u8], at: usize) -> i64
    requires { at + 8 ≤ length s.now }
    ensures { result ≡ signed_at at s.now }
{
    word_at(s, at).cast_signed()
}

fn exact_at(s: &[u8], at: usize) -> Exact
    requires { at + 16 ≤ length s.now }
    ensures { result ≡ exact_at at s.now }
{
    let whole = signed_at(s, at);
    let part = (word_at(s, at + 8) % 4_294_967_296) as u32;
    Exact { whole, part }
}

fn motion_at(s: &[u8], at: usize) -> Motion
    requires { at + 32 ≤ length s.now }
    ensures { result ≡ motion_at at s.now }
{
    Motion {
        position: exact_at(s, at),
        velocity: exact_at(s, at + 16),
    }
}

fn samples_at(s: &[u8], at: usize) -> [i64; 9]
    requires { at + 200 ≤ length s.now }
    ensures { result ≡ samples_at 9 at s.now }
{
    let mut samples = [0; 9];
    for (k, sample) in samples.iter_mut().enumerate() {
        *sample = signed_at(s, at + 24 * k);
    }
    samples
}

fn axis_at(s: &[u8], k: usize) -> Axis
    requires { (k < 3) × (656 ≤ length s.now) }
    ensures { result ≡ axis_at k s.now }
{
    let first = exact_at(s, 152 + 64 * k);
    let second = exact_at(s, 168 + 64 * k);
    let older = motion_at(s, 184 + 64 * k);
    let samples = samples_at(s, 344 + 8 * k);
    let estimate = motion_at(s, 560 + 32 * k);
    axis_with(first, second, older, samples, estimate)
}

#[tactic(auto, unfolding(crate::specs::Reading::state_of))]
fn state_of(n: u64) -> State
    ensures { result ≡ state_of n }
{
    match n {
        1 => State::Settled,
        2 => State::Awaiting,
        3 => State::Starting,
        _ => State::Closed,
    }
}

fn tolerances_at(s: &[u8], at: usize) -> Tolerances
    requires { at + 16 ≤ length s.now }
    ensures { result ≡ tolerances_at at s.now }
{
    Tolerances {
        position: word_at(s, at),
        velocity: word_at(s, at + 8),
    }
}

pub(crate) fn session_in(s: &[u8]) -> Session
    requires { 656 ≤ length s.now }
    ensures { result ≡ session_in s.now }
{
    Session {
        state: state_of(word_at(s, 96)),
        points: word_at(s, 104) as usize,
        tolerances: tolerances_at(s, 112),
        limit: word_at(s, 128),
        accepted: word_at(s, 136),
        corrections: word_at(s, 144),
        x: axis_at(s, 0),
        y: axis_at(s, 1),
        z: axis_at(s, 2),
    }
}
