// The forms of the lines before the data.
ghost use Rattle.std.specs.Prelude.{◌≡◌, true, false, ◌<◌, ◌≤◌, MatchOption};
ghost use Rattle.message.specs.Editions.{version_of};
ghost use Rattle.received.specs.Slots.{has_front, rest_in, is_of, form_of};
ghost use Rattle.received.specs.Profile.{printable, is_text, is_remark, comment_form};
ghost use Rattle.received.specs.Reading.{slot_at, front_at};
ghost use Rattle.received.specs.Finding.{kind_of};

use crate::versions::is_version;
use calendar::same;
use message::{Edition, all_between, is_time, name_holds};

// How many lines a slot is for.
#[derive(Clone, Copy)]
pub enum Kind {
    One,
    Perhaps,
    Any,
}

pub(crate) fn kind_of(k: usize) -> Kind
    requires { k < 17 }
    ensures { (e : Edition) → result ≡ kind_of (slot_at e k) }
{
    match k {
        1 | 7 | 16 => Kind::Any,
        2 | 5 => Kind::Perhaps,
        _ => Kind::One,
    }
}

// What stands first in a line of slot k.
#[tactic(auto, unfolding(text::specs::Numbers::ascii))]
pub(crate) fn front_of(k: usize) -> &'static [u8]
    ensures { result.now ≡ front_at k }
{
    match k {
        0 => b"CCSDS_OEM_VERS = ",
        2 => b"CLASSIFICATION = ",
        3 => b"CREATION_DATE = ",
        4 => b"ORIGINATOR = ",
        5 => b"MESSAGE_ID = ",
        6 => b"META_START",
        8 => b"OBJECT_NAME = ",
        9 => b"OBJECT_ID = ",
        10 => b"CENTER_NAME = ",
        11 => b"REF_FRAME = ",
        12 => b"TIME_SYSTEM = ",
        13 => b"START_TIME = ",
        14 => b"STOP_TIME = ",
        15 => b"META_STOP",
        _ => b"COMMENT",
    }
}

// What a line has between its front and the newline that ends it.
fn rest_of<'a>(line: &'a [u8], front: &[u8]) -> Option<&'a [u8]>
    ensures { MatchOption result (has_front front.now line.now ≡ false) (λ rest. (has_front front.now line.now ≡ true) × (rest.now ≡ rest_in front.now line.now)) }
{
    line.strip_prefix(front)?.strip_suffix(b"\n")
}

// Printable characters behind a front of so many, in a line of at most 254.
#[tactic(auto, unfolding(crate::specs::Profile::printable))]
fn is_printable(rest: &[u8], front: usize) -> bool
    requires { front ≤ 254 }
    ensures { result ≡ printable front rest.now }
{
    rest.len() <= 254 - front && all_between(rest, 32, 126)
}

// Free text behind a front of so many characters.
#[tactic(auto, unfolding(crate::specs::Profile::is_text))]
fn is_text(value: &[u8], front: usize) -> bool
    requires { front ≤ 254 }
    ensures { result ≡ is_text front value.now }
{
    1 <= value.len()
        && is_printable(value, front)
        && value[0] != b' '
        && value[value.len() - 1] != b' '
}

// What stands behind COMMENT.
#[tactic(auto, unfolding(crate::specs::Profile::is_remark))]
fn is_remark(rest: &[u8]) -> bool
    ensures { result ≡ is_remark rest.now }
{
    (rest.is_empty() || rest[0] == b' ') && is_printable(rest, 7)
}

fn is_comment(line: &[u8]) -> bool
    ensures { result ≡ is_of comment_form line.now }
{
    rest_of(line, b"COMMENT").is_some_and(is_remark)
}

// What stands behind the front of slot k, which has so many characters, or a keyword with three more.
#[tactic(auto, unfolding(text::specs::Numbers::ascii))]
fn holds(edition: Edition, k: usize, rest: &[u8]) -> bool
    ensures { result ≡ (form_of (slot_at edition k)).test rest.now }
{
    match k {
        0 => is_version(rest, edition),
        2 => is_text(rest, 17),
        3 => is_time(rest),
        4 => name_holds(10, rest),
        5 => is_text(rest, 13),
        6 | 15 => same(rest, b""),
        8 | 10 => name_holds(11, rest),
        9 | 11 => name_holds(9, rest),
        12 => same(rest, b"TAI"),
        13 => is_printable(rest, 13),
        14 => is_printable(rest, 12),
        _ => is_remark(rest),
    }
}

// A line is of the form of slot k, by the slot's front. Out of line, so that a walk over comments stays small.
#[inline(never)]
fn is_entry(edition: Edition, k: usize, line: &[u8]) -> bool
    ensures { result ≡ is_of (form_of (slot_at edition k)) line.now }
{
    rest_of(line, front_of(k)).is_some_and(|rest| holds(edition, k, rest))
}

// A line is of the form of slot k. A comment by a constant front, for there may be very many of them.
pub(crate) fn passes(edition: Edition, k: usize, line: &[u8]) -> bool
    ensures { result ≡ is_of (form_of (slot_at edition k)) line.now }
{
    match k {
        1 | 7 | 16 => is_comment(line),
        _ => is_entry(edition, k, line),
    }
}
