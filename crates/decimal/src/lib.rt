// Exact values in the units of a message, and whole numbers as text with a fixed count of decimals.
#![tactic(auto)]

mod reading;
mod units;
mod writing;

pub use reading::read_fixed;
pub use units::{position_units, velocity_units};
pub use writing::{has_few_digits, put_fixed, put_last_digits};

// A quotient rounded down, and what is left.
#[derive(Clone, Copy)]
struct Quotient {
    whole: i64,
    rest: u64,
}
