// The number that refuses a request.
ghost use Rattle.std.specs.Prelude.{◌≡◌, ◌+◌, ◌-◌, ◌*◌, ◌/◌, ◌^◌, ◌≤◌, leb, length};
ghost use Rattle.calendar.specs.Calendar.{most_seconds};
ghost use Rattle.message.specs.Request.{request_of};
ghost use Rattle.message.specs.Refusals.{well_formed, refusal};

use crate::Request;
use crate::forms::{is_time, names_hold, seconds_in, settings_hold};
use crate::measures::lines_length;

// The last of the points that so many numbers make, from 0 on.
pub(crate) fn last_point(numbers: usize) -> u64
    ensures { result ≡ numbers / 12 - 1 }
{
    if numbers < 12 {
        return 0;
    }
    (numbers / 12 - 1) as u64
}

// The last point is not after the year 9999.
fn ends_in_time(first: u64, step: u64, last: u64) -> bool
    requires { (first ≤ most_seconds) × (1 ≤ step) }
    ensures { result ≡ leb (first + last * step) most_seconds }
{
    last <= (315_537_897_599 - first) / step
}

fn well_formed(r: &Request<'_>) -> bool
    ensures { result ≡ well_formed (request_of r.now) }
{
    names_hold(r)
        && is_time(r.created)
        && is_time(r.start)
        && settings_hold(r.tick, r.step)
        && !r.points.is_empty()
        && ends_in_time(seconds_in(r.start), r.step, last_point(r.points.len()))
}

// The length of a message, whose data lines are so long.
fn whole_length(r: &Request<'_>, lines: usize) -> usize
    requires { (length r.now.originator.now ≤ 251) × (length r.now.object.now ≤ 251) × (length r.now.id.now ≤ 251) × (length r.now.center.now ≤ 251) × (length r.now.frame.now ≤ 251) × (lines ≤ 2 ^ 56) }
    ensures { result ≡ 231 + (length r.now.originator.now + length r.now.object.now + length r.now.id.now + length r.now.center.now + length r.now.frame.now) + lines }
{
    let names = r.originator.len() + r.object.len() + r.id.len() + r.center.len() + r.frame.len();
    231 + names + lines
}

// The room is compared with the exact length of the text.
pub(crate) fn refusal_of(room: usize, r: &Request<'_>) -> u8
    ensures { result ≡ refusal (request_of r.now) room }
{
    if !well_formed(r) {
        return 11;
    }
    if r.points.len() % 12 != 0 {
        return 6;
    }
    let data = lines_length(r.points, r.tick, r.step);
    if data == 0 {
        return 6;
    }
    if room < whole_length(r, data) {
        return 12;
    }
    0
}
