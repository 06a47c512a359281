// Times of the years 1 to 9999: moments, their whole seconds since 0001-01-01T00:00:00, and their text YYYY-MM-DDThh:mm:ss.
#![tactic(auto)]

mod counting;
mod finding;
mod reader;
mod writer;

pub use counting::seconds_of;
pub use finding::moment_of;
pub use reader::{read_time, same};
pub use writer::{put_time, time_bytes};

#[derive(Clone, Copy)]
pub struct Moment {
    pub year: u64,
    pub month: u64,
    pub day: u64,
    pub hour: u64,
    pub minute: u64,
    pub second: u64,
}
