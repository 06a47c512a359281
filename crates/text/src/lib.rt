// Numbers as text in ASCII, written into a lent buffer and read from one.
#![tactic(auto)]

mod reading;
mod writing;

pub use reading::{negative, positive, read_decimal, read_hex, read_signed};
pub use writing::{Writer, size};
