// What refuses a call, which contracts see as its number in the paper. The rest of the crate is its specs/: ordered rules as data, and the laws that
// every list of them keeps.
#![tactic(auto)]

ghost use Rattle.std.specs.Prelude.{◌≡◌};
ghost use Rattle.rules.specs.Reasons.{number_of};

use std::marker::Model;

// One case for each number of the paper.
#[derive(Clone, Copy, PartialEq, Eq, Debug)]
pub enum Reason {
    // p is outside 1 to 9.
    Points = 1,
    // A slice has not as many floats as the call needs.
    Length = 2,
    // A tolerance or the limit of corrections is out of range.
    Settings = 3,
    // A sample has a NaN.
    NotANumber = 4,
    // A rounded sample is too large.
    TooLarge = 5,
    // A position or a velocity, given or worked out, is out of range.
    OutOfRange = 6,
    // The call does not fit the session's state.
    WrongState = 7,
    // The last correction that the limit allows does not agree.
    LastCorrection = 8,
    // The session has 1,000,000 points.
    Full = 9,
    // A start from an epoch at a p that has no centre.
    NoCentre = 10,
    // A message of names, times, a tick or a step outside their form, or of no points.
    BadMessage = 11,
    // What is to be written does not fit the room.
    NoRoom = 12,
    // A sample has an infinity.
    Infinite = 13,
    // The bytes are no session's image, or the answer's have another length.
    NoImage = 14,
    // The reader stops at a line.
    Unreadable = 15,
    // The header or the metadata cannot be mended, or no data line is left.
    Unmendable = 16,
    // The message is of another version.
    OtherVersion = 17,
}

// What refuses a call: the paper's number of its reason.
#[derive(Clone, Copy, PartialEq, Eq, Debug)]
pub struct Refusal {
    number: u8,
}

impl Model for Refusal {
    ghost use Rattle.std.specs.Prelude.{ℕ};

    ghost Value = { ℕ };

    ghost view = { λ r. r.number };

    ghost inverse = { λ n. record { number = n } };
}

impl From<Reason> for Refusal {
    ghost from_gives = { λ reason refusal. refusal ≡ number_of reason };

    fn from(reason: Reason) -> Refusal {
        Refusal {
            number: reason as u8,
        }
    }
}

impl Refusal {
    // By its number.
    pub fn numbered(number: u8) -> Refusal
        ensures { result ≡ number }
    {
        Refusal { number }
    }

    // The paper's number.
    pub fn number(self) -> u8
        ensures { result ≡ self }
    {
        self.number
    }
}
