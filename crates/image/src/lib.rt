// A saved session: a table of contents and four bodies, 656 bytes in words of eight, the lowest byte first.
#![tactic(auto)]

use session::Session;

mod floats;
mod reading;
mod saving;
mod standing;
mod words;
mod writing;

pub use floats::{bits_of, float_of};
pub use saving::{read, save};
pub use words::{put_u64, word_at};
pub use writing::{put_exact, put_record};

// 0 and the session, or 14 and the closed one. No Option: theorem OfReading says the number and the session of a refusal too.
#[derive(Clone, Copy)]
pub struct Loaded {
    pub number: u8,
    pub session: Session,
}
