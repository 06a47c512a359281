// The names of a message as lines.
ghost use Rattle.std.specs.Prelude.{◌≡◌};
ghost use mathlib.Core.List.{flatten};
ghost use Rattle.text.specs.Writes.{Fits, HasRoom, Writes};
ghost use Rattle.reports.specs.Reports.{name_line, part_of, Within, AllWithin, sender_in, object_in, names_in};

use received::{Place, Received};
use text::Writer;

fn part(text: &[u8], place: Place) -> &[u8]
    requires { Within text.now place }
    ensures { result.now ≡ part_of text.now place }
{
    let start = place.start;
    let end = start + place.length;
    &text[start..end]
}

fn put_line(w: &mut Writer<'_>, keyword: &[u8], value: &[u8])
    requires { HasRoom w.old (name_line keyword.now value.now) }
    ensures { Writes w.old (flatten (name_line keyword.now value.now)) w.new }
{
    w.put_word(keyword);
    w.put(b' ');
    w.put_word(value);
    w.put(b'\n');
}

fn put_name(w: &mut Writer<'_>, keyword: &[u8], text: &[u8], place: Place)
    requires within { Within text.now place }
    requires room { HasRoom w.old (name_line keyword.now (part_of text.now place)) }
    ensures { Writes w.old (flatten (name_line keyword.now (part_of text.now place))) w.new }
{
    put_line(w, keyword, part(text, place));
}

// When the message was made, and by whom.
fn put_sender(w: &mut Writer<'_>, text: &[u8], r: Received)
    requires all_within { AllWithin text.now r }
    requires room { HasRoom w.old (sender_in text.now r) }
    ensures { Writes w.old (flatten (sender_in text.now r)) w.new }
{
    put_name(w, b"CREATION_DATE", text, r.created);
    put_name(w, b"ORIGINATOR", text, r.originator);
}

// What it is about.
fn put_object(w: &mut Writer<'_>, text: &[u8], r: Received)
    requires all_within { AllWithin text.now r }
    requires room { HasRoom w.old (object_in text.now r) }
    ensures { Writes w.old (flatten (object_in text.now r)) w.new }
{
    put_name(w, b"OBJECT_NAME", text, r.object);
    put_name(w, b"OBJECT_ID", text, r.id);
    put_name(w, b"CENTER_NAME", text, r.center);
    put_name(w, b"REF_FRAME", text, r.frame);
}

pub(crate) fn put_names(w: &mut Writer<'_>, text: &[u8], r: Received)
    requires all_within { AllWithin text.now r }
    requires room { HasRoom w.old (names_in text.now r) }
    ensures { Writes w.old (flatten (names_in text.now r)) w.new }
{
    put_sender(w, text, r);
    put_object(w, text, r);
}
