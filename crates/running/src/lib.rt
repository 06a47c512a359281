// A run by value: from a settled session on, predictions and corrections with the samples of a slice, until it has the points, a refusal, or no sample is left.
#![tactic(auto)]

use steps::After;

mod runs;
mod samples;

pub use runs::run_step;

// The number of the call that ended the run, 0 where none was refused, as the paper numbers an answer; the points settled and the samples used.
#[derive(Clone, Copy)]
pub struct RunAnswer {
    pub number: u8,
    pub points: u64,
    pub used: usize,
}

pub type AfterRun = After<RunAnswer>;
