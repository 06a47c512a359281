// A start from an epoch: its rounds, the record between them, and the record that they open.
#![tactic(auto)]

use axis::Axis;

mod comparing;
mod records;
mod rounds;

pub use comparing::{largest_move, rounds_agree};
pub use records::{held_round, is_starting, open_round, start_at};
pub use rounds::{earlier_point, round_in_range, round_of};

// The axes of a round, with their sums at the newest of its points.
#[derive(Clone, Copy)]
pub struct Round {
    pub points: usize,
    pub x: Axis,
    pub y: Axis,
    pub z: Axis,
}
