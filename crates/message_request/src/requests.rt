// A whole request: its lines in their order.
ghost use Rattle.std.specs.Prelude.{◌≡◌, length};
ghost use Rattle.message_request.specs.Requests.{version_line, names_in, settings_in, asked_in, numbers_after};

use crate::lines::{line_end, natural_line, past_word, read_natural, read_rest};
use crate::points::read_points;
use crate::{Asked, Names, NotAsked, Rest, Settings, Version};

// The line of an edition, where it stands first. Its value ends with the text where no newline follows, and no line stands after it.
#[tactic(auto, unfolding(crate::specs::Requests::version_line, text::specs::Numbers::ascii))]
pub fn read_version(text: &[u8]) -> Version
    ensures { result ≡ version_line text.now }
{
    let Some(from) = past_word(text, 0, b"edition ") else {
        return Version {
            value: None,
            next: Ok(0),
        };
    };
    let end = line_end(text, from);
    let next = past_word(text, end, b"\n").ok_or(0);
    let value = Some(Rest { from, end, next });
    Version { value, next }
}

#[tactic(auto, unfolding(crate::specs::Requests::names_in, text::specs::Numbers::ascii))]
fn read_names(text: &[u8], from: Result<usize, usize>) -> Names
    ensures { result ≡ names_in text.now from }
{
    let created = read_rest(text, from, b"created ");
    let originator = read_rest(text, created.next, b"originator ");
    let object = read_rest(text, originator.next, b"object ");
    let id = read_rest(text, object.next, b"id ");
    let center = read_rest(text, id.next, b"center ");
    let frame = read_rest(text, center.next, b"frame ");
    let start = read_rest(text, frame.next, b"start ");
    Names {
        created,
        originator,
        object,
        id,
        center,
        frame,
        start,
    }
}

// A line of room may be left out.
#[tactic(auto, unfolding(crate::specs::Requests::settings_in, text::specs::Numbers::ascii))]
fn read_settings(text: &[u8], from: Result<usize, usize>) -> Settings
    ensures { result ≡ settings_in text.now from }
{
    let (tick, next) = read_natural(text, from, b"tick ");
    let (step, next) = read_natural(text, next, b"step ");
    let (room, next) = match natural_line(text, next, b"room ") {
        Some((room, past)) => (Some(room), past),
        None => (None, next),
    };
    Settings {
        tick,
        step,
        room,
        next,
    }
}

// What a text asks for from a place on, or what was read of it before a fault, with the numbers of its points kept in the room that is lent
// for them.
#[tactic(auto, unfolding(crate::specs::Requests::asked_in, crate::specs::Requests::numbers_after, crate::specs::Requests::kept_in))]
pub fn read_request(
    text: &[u8],
    from: Result<usize, usize>,
    numbers: &mut [i64],
) -> Result<Asked, NotAsked>
    ensures { (result ≡ asked_in text.now from (length numbers.old)) × (numbers.new ≡ numbers_after text.now from numbers.old) }
{
    let names = read_names(text, from);
    let settings = read_settings(text, names.start.next);
    let (count, unread) = read_points(text, settings.next, numbers);
    match unread {
        None => Ok(Asked {
            names,
            settings,
            count,
        }),
        Some(unread) => Err(NotAsked {
            unread,
            names,
            settings,
            count,
        }),
    }
}
