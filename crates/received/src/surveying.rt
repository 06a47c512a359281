// The data lines of a text one after another: which are kept, and what is known of them.
ghost use Rattle.std.specs.Prelude.{◌≡◌, ◌≤◌, ◌<◌, ◌+◌, length, drop};
ghost use Rattle.calendar.specs.Calendar.{most_seconds};
ghost use Rattle.received.specs.Lines.{lines_in};
ghost use Rattle.received.specs.Planning.{Looked, survey_of};

use crate::data::read_after;
use crate::lines::past_line;

// The place past a data line; whether it is kept, and its time.
#[derive(Clone, Copy)]
pub struct Step {
    pub end: usize,
    pub good: bool,
    pub seconds: u64,
}

// How many data lines are kept, with how many bytes, and how many are dropped; the times of the first and the last kept.
#[derive(Clone, Copy)]
pub struct Surveyed {
    pub kept: usize,
    pub bytes: usize,
    pub dropped: usize,
    pub first: u64,
    pub last: u64,
}

pub(crate) fn look(text: &[u8], at: usize, earliest: u64) -> Step
    requires { at < length text.now }
    ensures { Looked text.now at earliest result }
{
    let end = past_line(text, at);
    match read_after(&text[at..end], earliest) {
        Some(d) => Step {
            end,
            good: true,
            seconds: d.seconds,
        },
        None => Step {
            end,
            good: false,
            seconds: 0,
        },
    }
}

// The data lines from a place on.
pub(crate) fn survey(text: &[u8], from: usize) -> Surveyed
    requires { from ≤ length text.now }
    ensures { (result ≡ survey_of (lines_in (drop from text.now))) × (from + result.bytes + result.dropped ≤ length text.now) × (result.first ≤ most_seconds) × (result.last ≤ most_seconds) }
{
    let mut at = from;
    let mut kept = 0;
    let mut bytes = 0;
    let mut dropped = 0;
    let mut first = 0;
    let mut last = 0;
    let mut earliest = 0;
    while at < text.len() {
        let l = look(text, at, earliest);
        if l.good {
            last = l.seconds;
            if kept == 0 {
                first = last;
            }
            earliest = last + 1;
            kept += 1;
            bytes += l.end - at;
        } else {
            dropped += 1;
        }
        at = l.end;
    }
    Surveyed {
        kept,
        bytes,
        dropped,
        first,
        last,
    }
}
