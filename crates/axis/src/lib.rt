// One axis of a session: its sums and samples, the points that they give, and whether they keep the rules.
#![tactic(auto)]

use exact::Exact;

mod changes;
mod estimates;
mod formulas;
mod holding;
mod parts;
mod switch;

pub use changes::{agrees_on, change, larger_change};
pub use estimates::{in_range, same_motion, with_estimate};
pub use formulas::{
    advanced_axis, axis_with, corrected_motion, empty_axis, left_of, moved, next_first, no_motion,
    opened_axis, predicted_motion, present_motion,
};
pub use holding::{axis_holds, places_hold};
pub use parts::older_motion;

// A position and its velocity.
#[derive(Clone, Copy, PartialEq, Eq)]
pub struct Motion {
    pub position: Exact,
    pub velocity: Exact,
}

// How far a position, in ticks, and a velocity, in ticks per step, may move and still agree.
#[derive(Clone, Copy)]
pub struct Tolerances {
    pub position: u64,
    pub velocity: u64,
}

// S1 and S2 at the last accepted point, what the older samples give to the next corrected one, the samples, newest first, and the last estimate.
#[derive(Clone, Copy)]
pub struct Axis {
    pub first: Exact,
    pub second: Exact,
    pub older: Motion,
    pub samples: [i64; 9],
    pub estimate: Motion,
}
