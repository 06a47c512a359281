// Days of months and years, and the seconds of a moment.
ghost use Rattle.std.specs.Prelude.{◌≡◌, cond};
ghost use Rattle.calendar.specs.Calendar.{leap, days_of_month, days_before_year, days_before_month, Within, Real, seconds_of};

use crate::Moment;

fn is_leap(year: u64) -> bool
    ensures { result ≡ leap year }
{
    if year % 100 == 0 {
        year % 400 == 0
    } else {
        year % 4 == 0
    }
}

fn february(year: u64) -> u64
    ensures { result ≡ cond (leap year) 29 28 }
{
    if is_leap(year) { 29 } else { 28 }
}

pub(crate) fn days_of_month(year: u64, month: u64) -> u64
    requires { Within 1 12 month }
    ensures { result ≡ days_of_month year month }
{
    let lengths: [u64; 12] = [31, february(year), 31, 30, 31, 30, 31, 31, 30, 31, 30, 31];
    lengths[(month - 1) as usize]
}

// The days of the years before one: 365 each, and one more for each leap year.
pub(crate) fn days_before_year(year: u64) -> u64
    requires { Within 1 10000 year }
    ensures { result ≡ days_before_year year }
{
    let n = year - 1;
    n * 365 + n / 4 - n / 100 + n / 400
}

pub(crate) fn days_before_month(year: u64, month: u64) -> u64
    requires { Within 1 12 month }
    ensures { result ≡ days_before_month year month }
{
    let mut days = 0;
    for k in 1..month {
        days += days_of_month(year, k);
    }
    days
}

pub fn seconds_of(m: Moment) -> u64
    requires { Real m }
    ensures { result ≡ seconds_of m }
{
    let days = days_before_year(m.year) + days_before_month(m.year, m.month) + (m.day - 1);
    ((days * 24 + m.hour) * 60 + m.minute) * 60 + m.second
}
