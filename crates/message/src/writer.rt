// A message written from the start of a lent room, or refused.
ghost use Rattle.std.specs.Prelude.{◌≡◌, true, ◌+◌, ◌≤◌, length};
ghost use mathlib.Core.List.{flatten};
ghost use Rattle.text.specs.Writes.{Fits, HasRoom, Writes};
ghost use Rattle.calendar.specs.Calendar.{most_seconds};
ghost use Rattle.message.specs.Request.{request_of};
ghost use Rattle.message.specs.Editions.{version_of};
ghost use Rattle.message.specs.Message.{says, message_as};
ghost use Rattle.message.specs.Parts.{header_lines, name_lines, time_lines};
ghost use Rattle.message.specs.Refusals.{well_formed, points_hold};
ghost use Rattle.message.specs.Answer.{answer_as, room_as, answer_to, room_after};

use crate::forms::seconds_in;
use crate::lines::{put_entry, put_lines, put_time_entry};
use crate::refusals::{last_point, refusal_of};
use crate::{Edition, Request, Written};
use text::Writer;

fn put_version(w: &mut Writer<'_>, edition: Edition)
    requires { Fits w.old (says "CCSDS_OEM_VERS" (version_of edition)) }
    ensures { Writes w.old (says "CCSDS_OEM_VERS" (version_of edition)) w.new }
{
    match edition {
        Edition::Two => w.put_word(b"CCSDS_OEM_VERS = 2.0\n"),
        Edition::Three => w.put_word(b"CCSDS_OEM_VERS = 3.0\n"),
    }
}

fn put_header(w: &mut Writer<'_>, edition: Edition, r: &Request<'_>)
    requires { HasRoom w.old (header_lines edition r.now.created.now r.now.originator.now) }
    ensures { Writes w.old (flatten (header_lines edition r.now.created.now r.now.originator.now)) w.new }
{
    put_version(w, edition);
    put_entry(w, b"CREATION_DATE", r.created);
    put_entry(w, b"ORIGINATOR", r.originator);
}

fn put_names(w: &mut Writer<'_>, r: &Request<'_>)
    requires { HasRoom w.old (name_lines r.now.object.now r.now.id.now r.now.center.now r.now.frame.now) }
    ensures { Writes w.old (flatten (name_lines r.now.object.now r.now.id.now r.now.center.now r.now.frame.now)) w.new }
{
    w.put_word(b"META_START\n");
    put_entry(w, b"OBJECT_NAME", r.object);
    put_entry(w, b"OBJECT_ID", r.id);
    put_entry(w, b"CENTER_NAME", r.center);
    put_entry(w, b"REF_FRAME", r.frame);
}

fn put_times(w: &mut Writer<'_>, first: u64, last: u64)
    requires first_le_most_seconds { (first ≤ most_seconds) × (last ≤ most_seconds) }
    requires room { HasRoom w.old (time_lines first last) }
    ensures { Writes w.old (flatten (time_lines first last)) w.new }
{
    put_entry(w, b"TIME_SYSTEM", b"TAI");
    put_time_entry(w, b"START_TIME", first);
    put_time_entry(w, b"STOP_TIME", last);
    w.put_word(b"META_STOP\n");
}

fn put_message(w: &mut Writer<'_>, edition: Edition, r: &Request<'_>)
    requires points_value { well_formed (request_of r.now) ≡ true }
    requires points_value_2 { points_hold r.now.tick r.now.step r.now.points.now ≡ true }
    requires points_in_bounds { Fits w.old (message_as edition (request_of r.now)) }
    ensures { Writes w.old (message_as edition (request_of r.now)) w.new }
{
    let first = seconds_in(r.start);
    let last = first + last_point(r.points.len()) * r.step;
    put_header(w, edition, r);
    put_names(w, r);
    put_times(w, first, last);
    put_lines(w, r.points, first, r.tick, r.step);
}

// A message of an edition.
pub fn write_edition(out: &mut [u8], edition: Edition, r: &Request<'_>) -> Written
    ensures { (result ≡ answer_as edition (request_of r.now) out.old) × (out.new ≡ room_as edition (request_of r.now) out.old) }
{
    let number = refusal_of(out.len(), r);
    if number != 0 {
        return Written { number, length: 0 };
    }
    let mut w = Writer::new(out);
    put_message(&mut w, edition, r);
    let length = w.place();
    Written { number, length }
}

// A message of version 2.0.
pub fn write_message(out: &mut [u8], r: &Request<'_>) -> Written
    ensures { (result ≡ answer_to (request_of r.now) out.old) × (out.new ≡ room_after (request_of r.now) out.old) }
{
    write_edition(out, Edition::Two, r)
}
