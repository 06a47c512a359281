// The moment of a number of seconds.
ghost use Rattle.std.specs.Prelude.{◌≡◌, ◌≤◌};
ghost use Rattle.calendar.specs.Calendar.{most_days, most_seconds, year_of, month_of, moment_of};

use crate::Moment;
use crate::counting::{days_before_month, days_before_year, days_of_month};

// The year in which d days are over: the mean length of a year finds it, or the year before.
fn year_of(d: u64) -> u64
    requires { d ≤ most_days }
    ensures { result ≡ year_of d }
{
    let years = d * 400 / 146_097;
    if days_before_year(years + 2) <= d {
        years + 2
    } else {
        years + 1
    }
}

// The month of a year in which d days of it are over.
fn month_of(year: u64, d: u64) -> u64
    ensures { result ≡ month_of year d }
{
    let mut end = 0;
    for month in 1..12 {
        end += days_of_month(year, month);
        if d < end {
            return month;
        }
    }
    12
}

pub fn moment_of(n: u64) -> Moment
    requires { n ≤ most_seconds }
    ensures { result ≡ moment_of n }
{
    let days = n / 86_400;
    let year = year_of(days);
    let rest = days - days_before_year(year);
    let month = month_of(year, rest);
    let day = rest - days_before_month(year, month) + 1;
    Moment {
        year,
        month,
        day,
        hour: n / 3600 % 24,
        minute: n / 60 % 60,
        second: n % 60,
    }
}
