// What was read from a message, and what was changed in one, as text in a lent buffer.
#![tactic(auto)]

mod changes;
mod list;
mod names;
mod points;
mod refusals;
mod report;

pub use list::put_list;
pub use report::put_report;
