// The record of a session: when it counts as open, and what the calls make of it.
#![tactic(auto)]

use axis::{Axis, Motion, Tolerances};

mod holding;
mod moves;
mod numbers;
mod points;
mod whole;

pub use holding::{is_awaiting, is_settled};
pub use moves::{
    accept, await_at, closed, corrected_point, estimate_of, no_point, open_at, predicted_point,
    settle,
};
pub use numbers::{points_hold, settings_hold};
pub use points::{point_change, point_in_range, points_agree};
pub use whole::exact_point;

#[derive(Clone, Copy, PartialEq, Eq)]
pub enum State {
    Closed,
    Settled,
    Awaiting,
    Starting,
}

#[derive(Clone, Copy)]
pub struct Session {
    pub state: State,
    pub points: usize,
    pub tolerances: Tolerances,
    pub limit: u64,
    pub accepted: u64,
    pub corrections: u64,
    pub x: Axis,
    pub y: Axis,
    pub z: Axis,
}

// A position and a velocity on each axis.
#[derive(Clone, Copy, PartialEq, Eq)]
pub struct Point {
    pub x: Motion,
    pub y: Motion,
    pub z: Motion,
}

// A position and a velocity on each axis, in whole ticks: what a host gives.
#[derive(Clone, Copy)]
pub struct WholePoint {
    pub x: i64,
    pub y: i64,
    pub z: i64,
    pub vx: i64,
    pub vy: i64,
    pub vz: i64,
}
