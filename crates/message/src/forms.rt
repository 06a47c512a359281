// The forms of names and times, and the ranges of tick and step.
ghost use Rattle.std.specs.Prelude.{◌≡◌, ◌≤◌};
ghost use Rattle.calendar.specs.Calendar.{most_seconds};
ghost use Rattle.message.specs.Request.{seconds_in};
ghost use Rattle.message.specs.Form.{has_between, all_between, one_case, name_holds};
ghost use Rattle.message.specs.Refusals.{is_time, names_hold, settings_hold};

use crate::Request;
use calendar::read_time;

// Some byte is from low to high.
fn has_between(s: &[u8], low: u8, high: u8) -> bool
    ensures { result ≡ has_between low high s.now }
{
    s.iter().any(|b| low <= *b && *b <= high)
}

// Every byte is from low to high.
pub fn all_between(s: &[u8], low: u8, high: u8) -> bool
    ensures { result ≡ all_between low high s.now }
{
    s.iter().all(|b| low <= *b && *b <= high)
}

// Not both of the upper and the lower case have letters in it.
fn one_case(name: &[u8]) -> bool
    ensures { result ≡ one_case name.now }
{
    !(has_between(name, b'A', b'Z') && has_between(name, b'a', b'z'))
}

// A name after a keyword of so many characters.
pub fn name_holds(keyword: usize, name: &[u8]) -> bool
    requires { keyword ≤ 251 }
    ensures { result ≡ name_holds keyword name.now }
{
    if name.len() < 1 {
        return false;
    }
    if 251 - keyword < name.len() {
        return false;
    }
    if !all_between(name, 32, 126) {
        return false;
    }
    if name[0] == b' ' {
        return false;
    }
    if name[name.len() - 1] == b' ' {
        return false;
    }
    one_case(name)
}

pub(crate) fn names_hold(r: &Request<'_>) -> bool
    ensures { result ≡ names_hold r.now.originator.now r.now.object.now r.now.id.now r.now.center.now r.now.frame.now }
{
    name_holds(10, r.originator)
        && name_holds(11, r.object)
        && name_holds(9, r.id)
        && name_holds(11, r.center)
        && name_holds(9, r.frame)
}

pub fn is_time(s: &[u8]) -> bool
    ensures { result ≡ is_time s.now }
{
    read_time(s).is_some()
}

pub(crate) fn seconds_in(s: &[u8]) -> u64
    ensures { (result ≡ seconds_in s.now) × (result ≤ most_seconds) }
{
    read_time(s).unwrap_or(0)
}

pub(crate) fn settings_hold(tick: u64, step: u64) -> bool
    ensures { result ≡ settings_hold tick step }
{
    tick <= 16 && matches!(step, 1..=3600)
}
