// The pieces of a record, read one after another. What is missing is as 0.
ghost use Rattle.std.specs.Prelude.{◌≡◌};
ghost use Rattle.script.specs.Words.{Reads, is_there};
ghost use Rattle.script.specs.Records.{three, part_of, exactly, motion, samples, axis, state_of, state, tolerances, settings, session};

use crate::words::Words;
use axis::{Axis, Motion, Tolerances};
use exact::Exact;
use session::{Session, State};

// What an opening and a record have of a session's settings.
#[derive(Clone, Copy)]
pub struct Settings {
    pub points: usize,
    pub tolerances: Tolerances,
    pub limit: u64,
}

#[tactic(auto, unfolding(crate::specs::Records::three))]
pub(crate) fn read_three(words: &mut Words<'_>) -> (i64, i64, i64)
    ensures { three words.old ≡ (result, words.new) }
{
    (words.integer(), words.integer(), words.integer())
}

#[tactic(auto, unfolding(crate::specs::Records::part_of))]
fn part_of(n: u64) -> Option<u32>
    ensures { result ≡ part_of n }
{
    u32::try_from(n).ok()
}

#[tactic(auto, unfolding(crate::specs::Records::exactly))]
fn read_exact(words: &mut Words<'_>) -> Exact
    ensures { exactly words.old ≡ (result, words.new) }
{
    let whole = words.integer();
    let n = words.natural();
    let part = words.given(part_of(n), 0);
    Exact { whole, part }
}

#[tactic(auto, unfolding(crate::specs::Records::motion))]
fn read_motion(words: &mut Words<'_>) -> Motion
    ensures { motion words.old ≡ (result, words.new) }
{
    let position = read_exact(words);
    let velocity = read_exact(words);
    Motion { position, velocity }
}

#[tactic(auto, unfolding(crate::specs::Records::samples))]
fn read_samples(words: &mut Words<'_>) -> [i64; 9]
    ensures { samples words.old ≡ (result, words.new) }
{
    let (a, b, c) = read_three(words);
    let (d, e, f) = read_three(words);
    let (g, h, i) = read_three(words);
    [a, b, c, d, e, f, g, h, i]
}

#[tactic(auto, unfolding(crate::specs::Records::axis))]
fn read_axis(words: &mut Words<'_>) -> Axis
    ensures { axis words.old ≡ (result, words.new) }
{
    let first = read_exact(words);
    let second = read_exact(words);
    let older = read_motion(words);
    let samples = read_samples(words);
    let estimate = read_motion(words);
    axis::axis_with(first, second, older, samples, estimate)
}

#[tactic(auto, unfolding(crate::specs::Records::state_of))]
fn state_of(n: u64) -> Option<State>
    ensures { result ≡ state_of n }
{
    match n {
        0 => Some(State::Closed),
        1 => Some(State::Settled),
        2 => Some(State::Awaiting),
        3 => Some(State::Starting),
        _ => None,
    }
}

#[tactic(auto, unfolding(crate::specs::Records::state))]
fn read_state(words: &mut Words<'_>) -> State
    ensures { state words.old ≡ (result, words.new) }
{
    let n = words.natural();
    words.given(state_of(n), State::Closed)
}

#[tactic(auto, unfolding(crate::specs::Records::tolerances))]
fn read_tolerances(words: &mut Words<'_>) -> Tolerances
    ensures { tolerances words.old ≡ (result, words.new) }
{
    let position = words.natural();
    let velocity = words.natural();
    Tolerances { position, velocity }
}

#[tactic(auto, unfolding(crate::specs::Records::settings))]
pub(crate) fn read_settings(words: &mut Words<'_>) -> Settings
    ensures { settings words.old ≡ (result, words.new) }
{
    let points = words.natural() as usize;
    let tolerances = read_tolerances(words);
    let limit = words.natural();
    Settings {
        points,
        tolerances,
        limit,
    }
}

#[tactic(auto, unfolding(crate::specs::Records::session))]
pub fn read_session(words: &mut Words<'_>) -> Result<Session, Session>
    ensures { Reads (session words.old) (is_there words.new) result words.new }
{
    let state = read_state(words);
    let settings = read_settings(words);
    let accepted = words.natural();
    let corrections = words.natural();
    let x = read_axis(words);
    let y = read_axis(words);
    let z = read_axis(words);
    words.answer(Session {
        state,
        points: settings.points,
        tolerances: settings.tolerances,
        limit: settings.limit,
        accepted,
        corrections,
        x,
        y,
        z,
    })
}
