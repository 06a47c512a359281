// What is written for a text: the message that it asks for, or one line.
ghost use Rattle.std.specs.Prelude.{◌≡◌, ◌+◌, ◌≤◌, length, IfSome};
ghost use mathlib.Core.List.{flatten};
ghost use Rattle.message.specs.Answer.{answer_as, room_as};
ghost use Rattle.message_request.specs.Within.{Within, AllWithin};
ghost use Rattle.oem.specs.Answers.{Says, line_with, part_of, edition_named, edition_of, request_of, room_for, message_or, told_by, answer_from, answer_for};

use calendar::same;
use message::{Edition, Request, Written};
use message_request::{Asked, Names, Rest, Settings, Unread};
use text::Writer;

// A line with a number in it, from the start of the buffer.
fn put_line(out: &mut [u8], before: &[u8], n: u64, after: &[u8]) -> usize
    requires { length before.now + 20 + length after.now ≤ length out.old }
    ensures { Says out.new result (flatten (line_with before.now n after.now)) }
{
    let mut w = Writer::new(out);
    w.put_word(before);
    w.put_decimal(n);
    w.put_word(after);
    w.place()
}

// What follows the word of a line.
#[tactic(auto, unfolding(crate::specs::Answers::part_of))]
fn part(text: &[u8], rest: Rest) -> &[u8]
    requires { Within text.now rest }
    ensures { result.now ≡ part_of text.now rest }
{
    &text[rest.from..rest.end]
}

// The edition that a value names.
#[tactic(auto, unfolding(crate::specs::Answers::edition_named, text::specs::Numbers::ascii))]
fn edition_named(value: &[u8]) -> Option<Edition>
    ensures { result ≡ edition_named value.now }
{
    if same(value, b"3.0") {
        Some(Edition::Three)
    } else if same(value, b"2.0") {
        Some(Edition::Two)
    } else {
        None
    }
}

// Without the line of an edition it is version 2.0.
#[tactic(auto, unfolding(crate::specs::Answers::edition_of))]
fn edition_of(text: &[u8], value: Option<Rest>) -> Option<Edition>
    requires { IfSome value (Within text.now) }
    ensures { result ≡ edition_of text.now value }
{
    match value {
        Some(rest) => edition_named(part(text, rest)),
        None => Some(Edition::Two),
    }
}

// The message of these lines and points, in a room that is lent for it.
fn put_message(
    out: &mut [u8],
    edition: Edition,
    text: &[u8],
    names: Names,
    settings: Settings,
    points: &[i64],
) -> Written
    requires { AllWithin text.now names }
    ensures { (result ≡ answer_as edition (request_of text.now names settings points.now) out.old) × (out.new ≡ room_as edition (request_of text.now names settings points.now) out.old) }
{
    let request = Request {
        originator: part(text, names.originator),
        object: part(text, names.object),
        id: part(text, names.id),
        center: part(text, names.center),
        frame: part(text, names.frame),
        created: part(text, names.created),
        start: part(text, names.start),
        tick: settings.tick,
        step: settings.step,
        points,
    };
    message::write_edition(out, edition, &request)
}

// The room for the message: what the request allows of what is held.
#[tactic(auto, unfolding(crate::specs::Answers::room_for))]
fn room_for(settings: Settings, held: usize) -> usize
    ensures { result ≡ room_for settings held }
{
    match settings.room {
        Some(room) => (room as usize).min(held),
        None => held,
    }
}

// A request is answered by its message, or by the number that refuses it.
fn answer_request(
    out: &mut [u8],
    edition: Edition,
    text: &[u8],
    asked: Asked,
    points: &[i64],
) -> usize
    requires all_within { AllWithin text.now asked.names }
    requires room { 64 ≤ length out.old }
    ensures { Says out.new result (message_or edition (request_of text.now asked.names asked.settings points.now) (room_for asked.settings (length out.old))) }
{
    let room = room_for(asked.settings, out.len());
    let written = put_message(
        &mut out[..room],
        edition,
        text,
        asked.names,
        asked.settings,
        points,
    );
    if written.number == 0 {
        return written.length;
    }
    put_line(out, b"refused ", written.number as u64, b"\n")
}

// Why the text is not read, in one line.
#[tactic(auto, unfolding(text::specs::Numbers::ascii))]
fn put_refusal(out: &mut [u8], unread: Unread, most: u64) -> usize
    requires { 64 ≤ length out.old }
    ensures { Says out.new result (told_by unread most) }
{
    match unread {
        Unread::Line(line) => put_line(out, b"line ", line, b": not a request\n"),
        Unread::Full => put_line(out, b"more than ", most, b" points\n"),
    }
}

// The answer to the lines from a place on.
fn answer_from(
    edition: Edition,
    text: &[u8],
    from: Result<usize, usize>,
    numbers: &mut [i64],
    out: &mut [u8],
) -> usize
    requires { 64 ≤ length out.old }
    ensures { Says out.new result (answer_from edition text.now from (length numbers.old) (length out.old)) }
{
    let most = (numbers.len() / 12) as u64;
    match message_request::read_request(text, from, numbers) {
        Ok(asked) => answer_request(out, edition, text, asked, &numbers[..asked.count]),
        Err(refused) => put_refusal(out, refused.unread, most),
    }
}

// The answer to a text, from the start of the buffer.
pub(crate) fn answer(text: &[u8], numbers: &mut [i64], out: &mut [u8]) -> usize
    requires { 64 ≤ length out.old }
    ensures { Says out.new result (answer_for text.now (length numbers.old) (length out.old)) }
{
    let version = message_request::read_version(text);
    match edition_of(text, version.value) {
        Some(edition) => answer_from(edition, text, version.next, numbers, out),
        None => put_line(out, b"refused ", 17, b"\n"),
    }
}
