// What is found in a whole text.
ghost use Rattle.std.specs.Prelude.{◌≡◌, true, ◌≤◌, ◌<◌};
ghost use Rattle.calendar.specs.Calendar.{most_seconds};
ghost use Rattle.calendar.specs.Text.{same_text};
ghost use Rattle.message.specs.Message.{time_after};
ghost use Rattle.received.specs.Reading.{slot_at, rest_at, read_of};
ghost use Rattle.received.specs.Finding.{is_one, walk_over, is_through, groups_of, judged_by};

use crate::data::scan;
use crate::heads::{begin_of, place_of, reach};
use calendar::read_time;
use message::Edition;

// The place of the data, and the count of points.
#[derive(Clone, Copy)]
pub struct Judged {
    pub at: usize,
    pub count: usize,
}

// A text is the time of so many seconds.
fn is_time_of(s: &[u8], seconds: u64) -> bool
    requires { seconds ≤ most_seconds }
    ensures { result ≡ same_text s.now (time_after seconds) }
{
    read_time(s) == Some(seconds)
}

// The value of slot k is the time of so many seconds.
pub(crate) fn says_time(text: &[u8], edition: Edition, k: usize, seconds: u64) -> bool
    requires k_bound { (k < 17) × (is_one (slot_at edition k) ≡ true) }
    requires through { is_through (walk_over edition text.now) ≡ true }
    requires in_time { seconds ≤ most_seconds }
    ensures { result ≡ same_text (rest_at (groups_of (walk_over edition text.now)) k) (time_after seconds) }
{
    let place = place_of(text, edition, k);
    is_time_of(&text[place.start..place.start + place.length], seconds)
}

// Where the data are, or the line at which reading stops.
#[tactic(auto, using(crate::proofs::Headed::goes_through))]
pub(crate) fn judge(text: &[u8], edition: Edition) -> Result<Judged, usize>
    ensures { result ≡ judged_by (read_of edition text.now) }
{
    let head = reach(text, edition, 17)?;
    let data = match scan(text, head.at) {
        Ok(data) => data,
        Err(count) => return Err(head.line + count),
    };
    if !says_time(text, edition, 13, data.first) {
        return Err(begin_of(text, edition, 13).line);
    }
    if !says_time(text, edition, 14, data.last) {
        return Err(begin_of(text, edition, 14).line);
    }
    Ok(Judged {
        at: head.at,
        count: data.count,
    })
}
