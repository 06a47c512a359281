// A script of calls, read from standard input and played on one session. Two programs share it, each with a voice of its own.
#![tactic(auto)]

mod answering;
mod calls;
mod explaining;
mod lines;
mod runs;
mod turns;

pub use turns::play;

// What is written of each line: its answer and the record after it, or a sentence where a correction is not accepted.
#[derive(Clone, Copy)]
pub enum Voice {
    Answers,
    Sentences,
}
