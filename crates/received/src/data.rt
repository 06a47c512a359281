// The points of data lines.
ghost use Rattle.std.specs.Prelude.{◌≡◌, ◌≤◌, ◌<◌, ◌+◌, true, false, length, drop, IfOk, IfErr, MatchOption};
ghost use Rattle.text.specs.Numbers.{ascii};
ghost use Rattle.calendar.specs.Text.{same_text};
ghost use Rattle.calendar.specs.Calendar.{most_seconds};
ghost use Rattle.received.specs.Lines.{lines_in};
ghost use Rattle.received.specs.Data.{decimals_of, field_at, field_start, value_in, first_ones, datum_in, accepts, IsDatum};
ghost use Rattle.received.specs.Finding.{scanned_of};

use crate::lines::past_line;
use calendar::{read_time, same};
use decimal::{has_few_digits, read_fixed};

// The time and the six numbers of a data line.
#[derive(Clone, Copy)]
pub struct Datum {
    pub seconds: u64,
    pub values: [i64; 6],
}

// How many data lines there are, and the times of the first and the last.
#[derive(Clone, Copy)]
pub struct Scanned {
    pub count: usize,
    pub first: u64,
    pub last: u64,
}

fn decimals_of(k: usize) -> usize
    ensures { result ≡ decimals_of k }
{
    if k < 3 { 6 } else { 9 }
}

// Field k behind a space at a place, which has at most 16 digits, and the place past it.
fn read_field(line: &[u8], at: usize, k: usize) -> Option<(i64, usize)>
    requires { 0 < at }
    ensures { result ≡ field_at (decimals_of k) line.now at }
{
    if line.len() <= at || line[at] != b' ' {
        return None;
    }
    let (value, end) = read_fixed(line, at + 1, decimals_of(k))?;
    if has_few_digits(value) {
        Some((value, end))
    } else {
        None
    }
}

// Six fields behind the time, and the place past them.
fn read_fields(line: &[u8]) -> Option<([i64; 6], usize)>
    ensures { MatchOption result (field_start line.now 6 ≡ 0) (λ r. (r.0 ≡ first_ones (value_in line.now) 6) × (r.1 ≡ field_start line.now 6)) }
{
    let mut values = [0i64; 6];
    let mut end = 19;
    for k in 0..6 {
        let (value, next) = read_field(line, end, k)?;
        values[k] = value;
        end = next;
    }
    Some((values, end))
}

// A newline stands at a place, and nothing behind it.
fn ends_at(line: &[u8], at: usize) -> bool
    ensures { result ≡ same_text (drop at line.now) (ascii "\n") }
{
    at < line.len() && same(&line[at..], b"\n")
}

pub(crate) fn read_datum(line: &[u8]) -> Option<Datum>
    ensures { MatchOption result ((datum_in line.now).good ≡ false) (IsDatum line.now) }
{
    if line.len() < 19 {
        return None;
    }
    let seconds = read_time(&line[..19])?;
    let (values, end) = read_fields(line)?;
    if ends_at(line, end) {
        Some(Datum { seconds, values })
    } else {
        None
    }
}

// A line that can be read, and whose time is not before an earliest one.
pub(crate) fn read_after(line: &[u8], earliest: u64) -> Option<Datum>
    ensures { MatchOption result (accepts earliest (datum_in line.now) ≡ false) (λ d. (accepts earliest (datum_in line.now) ≡ true) × IsDatum line.now d) }
{
    let d = read_datum(line)?;
    if earliest <= d.seconds { Some(d) } else { None }
}

// The data lines from a place on, of which there are some; or how many come before one that is not accepted.
pub(crate) fn scan(text: &[u8], from: usize) -> Result<Scanned, usize>
    requires { from ≤ length text.now }
    ensures value { result ≡ scanned_of (lines_in (drop from text.now)) }
    ensures times { IfOk result (λ s. (s.first ≤ most_seconds) × (s.last ≤ most_seconds)) }
    ensures few { IfErr result (λ count. from + count ≤ length text.now) }
{
    let mut at = from;
    let mut count = 0;
    let mut first = 0;
    let mut last = 0;
    let mut earliest = 0;
    while at < text.len() {
        let end = past_line(text, at);
        let Some(d) = read_after(&text[at..end], earliest) else {
            return Err(count);
        };
        last = d.seconds;
        if count == 0 {
            first = last;
        }
        earliest = last + 1;
        count += 1;
        at = end;
    }
    if count == 0 {
        return Err(0);
    }
    Ok(Scanned { count, first, last })
}
