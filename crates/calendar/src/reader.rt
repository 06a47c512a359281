// A time read from a text.
ghost use Rattle.std.specs.Prelude.{◌≡◌, ◌+◌, ◌-◌, ◌≤◌, length};
ghost use Rattle.calendar.specs.Calendar.{is_real};
ghost use Rattle.calendar.specs.Text.{value_at, moment_in, same_text, time_in};

use crate::Moment;
use crate::counting::{days_of_month, seconds_of};
use crate::writer::time_bytes;

// One test after the other: as one chain of `&&` the proof did not close.
fn is_real(m: Moment) -> bool
    ensures { result ≡ is_real m }
{
    if m.year < 1 {
        return false;
    }
    if 9999 < m.year {
        return false;
    }
    if m.month < 1 {
        return false;
    }
    if 12 < m.month {
        return false;
    }
    if m.day < 1 {
        return false;
    }
    if days_of_month(m.year, m.month) < m.day {
        return false;
    }
    if 23 < m.hour {
        return false;
    }
    if 59 < m.minute {
        return false;
    }
    if 59 < m.second {
        return false;
    }
    true
}

// The value of a digit; a character that is none has some value too.
fn value(b: u8) -> u64
    ensures { result ≡ b - 48 }
{
    u64::from(b.saturating_sub(b'0'))
}

fn two_at(s: &[u8], at: usize) -> u64
    requires { at + 2 ≤ length s.now }
    ensures { (result ≡ value_at s.now at 2) × (result ≤ 2277) }
{
    value(s[at]) * 10 + value(s[at + 1])
}

fn moment_in(s: &[u8]) -> Moment
    requires { length s.now ≡ 19 }
    ensures { result ≡ moment_in s.now }
{
    Moment {
        year: two_at(s, 0) * 100 + two_at(s, 2),
        month: two_at(s, 5),
        day: two_at(s, 8),
        hour: two_at(s, 11),
        minute: two_at(s, 14),
        second: two_at(s, 17),
    }
}

pub fn same(a: &[u8], b: &[u8]) -> bool
    ensures { result ≡ same_text a.now b.now }
{
    a == b
}

// The seconds of a text that is the one of the moment whose numbers it shows.
pub fn read_time(s: &[u8]) -> Option<u64>
    ensures { result ≡ time_in s.now }
{
    if s.len() != 19 {
        return None;
    }
    let m = moment_in(s);
    if is_real(m) && same(s, &time_bytes(m)) {
        Some(seconds_of(m))
    } else {
        None
    }
}
