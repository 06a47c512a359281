// Why a correction was not accepted, as a sentence written into a lent buffer.
#![tactic(auto)]

mod decimals;
mod sentences;
mod words;

pub use sentences::put_sentence;
