// Scripts of calls as text: a line read as a call, and an answer, an explanation, an image and a record written as lines.
#![tactic(auto)]

mod calls;
mod digits;
mod explanation_lines;
mod lines;
mod pieces;
mod round_lines;
mod run_lines;
mod saved_lines;
mod series;
mod words;

pub use calls::{Name, OpenCall, name_of, read_floats, read_load, read_open, read_sample};
pub use explanation_lines::put_why;
pub use lines::{put_answer, put_no_call, put_record};
pub use pieces::{Settings, read_session};
pub use round_lines::put_round;
pub use run_lines::{RunCall, put_run, read_run};
pub use saved_lines::{put_load, put_save};
pub use series::Series;
pub use words::Words;
