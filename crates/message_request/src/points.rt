// The points of a request: lines of twelve wholes, whose numbers are kept in lent room.
ghost use Rattle.std.specs.Prelude.{◌≡◌, ◌/◌, length};
ghost use Rattle.message_request.specs.Points.{whole_at, wholes_at, point_at, kept_from, kept_at, points_of, over};

use crate::Unread;
use crate::lines::{line_number, past_word};
use text::read_signed;

// The number after one space at a place, and the place past it.
#[tactic(auto, unfolding(crate::specs::Points::whole_at, text::specs::Numbers::ascii))]
fn read_whole(text: &[u8], at: usize) -> Option<(i64, usize)>
    ensures { result ≡ whole_at text.now at }
{
    let from = past_word(text, at, b" ")?;
    read_signed(text, from)
}

// Twelve such numbers, and the place past them.
fn read_wholes(text: &[u8], at: usize) -> Option<([i64; 12], usize)>
    ensures { result ≡ wholes_at text.now at }
{
    let mut values = [0i64; 12];
    let mut end = at;
    for value in values.iter_mut() {
        let (whole, next) = read_whole(text, end)?;
        *value = whole;
        end = next;
    }
    Some((values, end))
}

// A line of twelve numbers, and the place past it.
#[tactic(auto, unfolding(crate::specs::Points::point_at, text::specs::Numbers::ascii))]
fn read_point(text: &[u8], at: usize) -> Option<([i64; 12], usize)>
    ensures { result ≡ point_at text.now at }
{
    let (values, end) = read_wholes(text, past_word(text, at, b"point")?)?;
    let next = past_word(text, end, b"\n")?;
    Some((values, next))
}

// The points from a place on, up to a line that is none or for which there is no room: how many numbers they have, and why the reading ends
// before the text. Each point says where the next line stands: no index is counted here.
fn read_from(text: &[u8], start: usize, numbers: &mut [i64]) -> (usize, Option<Unread>)
    ensures { (result ≡ points_of (kept_from (length numbers.old / 12) text.now start)) × (numbers.new ≡ over (kept_from (length numbers.old / 12) text.now start) numbers.old) }
{
    let mut at = start;
    let mut count: usize = 0;
    while at < text.len() {
        let Some(point) = read_point(text, at) else {
            return (count, Some(Unread::Line(line_number(text, at))));
        };
        let (values, next) = point;
        if numbers.len() - count < 12 {
            return (count, Some(Unread::Full));
        }
        numbers[count..count + 12].copy_from_slice(&values);
        count += 12;
        at = next;
    }
    (count, None)
}

// The points that stand past lines that are as they have to be.
#[tactic(auto, unfolding(crate::specs::Points::kept_at))]
pub(crate) fn read_points(
    text: &[u8],
    place: Result<usize, usize>,
    numbers: &mut [i64],
) -> (usize, Option<Unread>)
    ensures { (result ≡ points_of (kept_at text.now place (length numbers.old))) × (numbers.new ≡ over (kept_at text.now place (length numbers.old)) numbers.old) }
{
    match place {
        Ok(start) => read_from(text, start, numbers),
        Err(at) => (0, Some(Unread::Line(line_number(text, at)))),
    }
}
