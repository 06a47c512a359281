// What there is to write when a text is mended.
ghost use Rattle.std.specs.Prelude.{◌≡◌, cond, MatchOption};
ghost use Rattle.received.specs.Mending.{Cannot, mend_of};
ghost use Rattle.received.specs.Planning.{Planned, PlanOf, room_in};

use crate::heads::{begin_of, reach};
use crate::judging::says_time;
use crate::surveying::survey;
use message::Edition;

// The places of START_TIME, META_STOP and the data, the numbers of START_TIME and of the first data line,
// the times of the first and the last line kept and whether they are said, and how many bytes are kept and how many lines dropped.
#[derive(Clone, Copy)]
pub struct Plan {
    pub start: usize,
    pub stop: usize,
    pub from: usize,
    pub line: usize,
    pub number: usize,
    pub first: u64,
    pub last: u64,
    pub starts: bool,
    pub stops: bool,
    pub bytes: usize,
    pub dropped: usize,
}

// None where it cannot be mended.
#[tactic(auto, using(crate::proofs::Headed::goes_through))]
pub(crate) fn plan_of(text: &[u8], edition: Edition) -> Option<Plan>
    ensures { MatchOption result (mend_of edition text.now ≡ Cannot) (PlanOf edition text.now) }
{
    let Ok(head) = reach(text, edition, 17) else {
        return None;
    };
    let data = survey(text, head.at);
    if data.kept == 0 {
        return None;
    }
    let start = begin_of(text, edition, 13);
    let stop = begin_of(text, edition, 15);
    let starts = says_time(text, edition, 13, data.first);
    let stops = says_time(text, edition, 14, data.last);
    Some(Plan {
        start: start.at,
        stop: stop.at,
        from: head.at,
        line: start.line,
        number: head.line,
        first: data.first,
        last: data.last,
        starts,
        stops,
        bytes: data.bytes,
        dropped: data.dropped,
    })
}

fn one_unless(same: bool) -> usize
    ensures { result ≡ cond same 0 1 }
{
    if same { 0 } else { 1 }
}

pub(crate) fn has_rooms(text: &[u8], p: Plan, out: usize, changes: usize) -> bool
    requires { Planned text.now p }
    ensures { result ≡ room_in text.now p out changes }
{
    let count = p.dropped + one_unless(p.starts) + one_unless(p.stops);
    65 <= out && p.start + (p.from - p.stop) + p.bytes <= out - 65 && count <= changes / 2
}
