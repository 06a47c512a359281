// The version that a text names, and the edition that it is read by.
ghost use Rattle.std.specs.Prelude.{◌≡◌};
ghost use Rattle.calendar.specs.Text.{same_text};
ghost use Rattle.message.specs.Editions.{version_of};
ghost use Rattle.received.specs.Versions.{up_to_newline, is_other, edition_in};

use crate::forms::front_of;
use crate::lines::newline_in;
use calendar::same;
use message::Edition;

// What stands before the first newline, or all where there is none.
fn up_to_newline(text: &[u8]) -> &[u8]
    ensures { result.now ≡ up_to_newline text.now }
{
    match newline_in(text) {
        Some(i) => &text[..i],
        None => text,
    }
}

#[tactic(auto, unfolding(text::specs::Numbers::ascii))]
pub(crate) fn is_version(value: &[u8], edition: Edition) -> bool
    ensures { result ≡ same_text value.now (version_of edition) }
{
    match edition {
        Edition::Two => same(value, b"2.0"),
        Edition::Three => same(value, b"3.0"),
    }
}

// A version line stands first, and names another version than an edition's.
pub(crate) fn is_other(text: &[u8], edition: Edition) -> bool
    ensures { result ≡ is_other edition text.now }
{
    match text.strip_prefix(front_of(0)) {
        Some(named) => !is_version(up_to_newline(named), edition),
        None => false,
    }
}

// The edition that the version line chooses.
#[tactic(auto, unfolding(crate::specs::Versions::edition_in))]
pub(crate) fn edition_of(text: &[u8]) -> Edition
    ensures { result ≡ edition_in text.now }
{
    if is_other(text, Edition::Two) {
        Edition::Three
    } else {
        Edition::Two
    }
}
