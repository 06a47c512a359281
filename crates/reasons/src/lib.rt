// Why a correction would be answered as it is: the first value that is the cause, and at a point's first correction the newest sample's p-th differences.
#![tactic(auto)]

use exact::Reported;

mod axes;
mod changes;
mod explains;
mod newest;
mod places;
mod ranges;

pub use explains::explain;

// Which value is the cause: 0 for none, 1 to 6 for the positions x, y, z and then the velocities x, y, z, and with 4, 13 and 5 the sample's axis 1 to 3; its
// change from the last estimate, beside its report; and the tolerance of its kind. Both are zero where no change was compared.
// By its place, as the theorem `Causes` of the crate causes speaks of it: `value` is 0, `change` and `tolerance` are zeros where no value is named.
#[derive(Clone, Copy)]
pub struct Reason {
    pub value: u8,
    pub change: Reported,
    pub tolerance: u64,
}

// The newest sample's p-th difference on each axis, and zeros where they are not given.
// A flag beside the zeros, since the theorem `GivesDifferences` of the crate causes says both.
#[derive(Clone, Copy)]
pub struct Differences {
    pub given: bool,
    pub x: i64,
    pub y: i64,
    pub z: i64,
}

// What the correction would answer, by its number and kind, and why.
// Numbers as the paper has them, since the theorem `Causes` says for each of them which reason it has.
#[derive(Clone, Copy)]
pub struct Explanation {
    pub number: u8,
    pub kind: u8,
    pub reason: Reason,
    pub differences: Differences,
}
