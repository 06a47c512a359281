// Orbit ephemeris messages read from a text, and mended.
#![tactic(auto)]

mod data;
mod forms;
mod heads;
mod judging;
mod lines;
mod mending;
mod planning;
mod reader;
mod surveying;
mod versions;

pub use mending::mend_message;
pub use reader::{read_either, read_message};

// Where a value stands in the text.
#[derive(Clone, Copy)]
pub struct Place {
    pub start: usize,
    pub length: usize,
}

// The number that refuses, or 0. With 15 the line at which reading stops; with 0 how many points there are, and where the names and the time of
// creation stand.
// One record of numbers: the contracts of `read_message` and `read_either` say it whole (`answer_to`).
#[derive(Clone, Copy)]
pub struct Received {
    pub number: u8,
    pub line: usize,
    pub count: usize,
    pub created: Place,
    pub originator: Place,
    pub object: Place,
    pub id: Place,
    pub center: Place,
    pub frame: Place,
}

// The number that refuses, or 0, and how many bytes and how many changes were written.
// One record of numbers: the contract of `mend_message` says it whole (`mended_to`).
#[derive(Clone, Copy)]
pub struct Mended {
    pub number: u8,
    pub length: usize,
    pub changes: usize,
}
