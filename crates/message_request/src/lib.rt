// Requests for ephemeris messages, read from a text of lines.
#![tactic(auto)]

mod lines;
mod points;
mod requests;

pub use requests::{read_request, read_version};

// What follows the word of a line: its first place and the place past it; and where the next line stands, or the place of a line that is not
// as it has to be.
#[derive(Clone, Copy)]
pub struct Rest {
    pub from: usize,
    pub end: usize,
    pub next: Result<usize, usize>,
}

// The value of the line of an edition, where it stands first, and where the next line stands.
#[derive(Clone, Copy)]
pub struct Version {
    pub value: Option<Rest>,
    pub next: Result<usize, usize>,
}

// What the first seven lines give.
#[derive(Clone, Copy)]
pub struct Names {
    pub created: Rest,
    pub originator: Rest,
    pub object: Rest,
    pub id: Rest,
    pub center: Rest,
    pub frame: Rest,
    pub start: Rest,
}

// What the lines between the names and the points give, and where the points stand.
#[derive(Clone, Copy)]
pub struct Settings {
    pub tick: u64,
    pub step: u64,
    pub room: Option<u64>,
    pub next: Result<usize, usize>,
}

// What a text asks for; so many numbers are those of its points. They lie in the room that the caller lends, since no heap is used.
#[derive(Clone, Copy)]
pub struct Asked {
    pub names: Names,
    pub settings: Settings,
    pub count: usize,
}

// Why a text is not read: the line of a number is not as it has to be, or there are more points than there is room for.
#[derive(Clone, Copy, PartialEq, Eq)]
pub enum Unread {
    Line(u64),
    Full,
}

// What was read of a text before that. A part that was not read is empty, and a number that was not read is 0.
#[derive(Clone, Copy)]
pub struct NotAsked {
    pub unread: Unread,
    pub names: Names,
    pub settings: Settings,
    pub count: usize,
}
