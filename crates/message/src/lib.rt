// Orbit ephemeris messages, written into a lent room.
#![tactic(auto)]

mod forms;
mod lines;
mod measures;
mod points;
mod refusals;
mod writer;

pub use forms::{all_between, is_time, name_holds};
pub use lines::put_time_entry;
pub use writer::{write_edition, write_message};

// The edition of the standard that a message is of: version 2.0 or version 3.0.
#[derive(Clone, Copy, PartialEq, Eq)]
pub enum Edition {
    Two,
    Three,
}

// What a message is asked for: five names and two times as text, 2^tick ticks in a metre, `step` seconds between two points, and
// twelve numbers to a point.
#[derive(Clone, Copy)]
pub struct Request<'a> {
    pub originator: &'a [u8],
    pub object: &'a [u8],
    pub id: &'a [u8],
    pub center: &'a [u8],
    pub frame: &'a [u8],
    pub created: &'a [u8],
    pub start: &'a [u8],
    pub tick: u64,
    pub step: u64,
    pub points: &'a [i64],
}

// The number that refuses, or 0, and how many bytes were written.
#[derive(Clone, Copy)]
pub struct Written {
    pub number: u8,
    pub length: usize,
}
