// The words of a sentence, written into a lent buffer.
ghost use Rattle.std.specs.Prelude.{◌+◌, ◌≤◌, length};
ghost use Rattle.text.specs.Writes.{Fits, HasRoom, Writes};
ghost use Rattle.sentences.specs.Sentences.{name_text, ordinal, cardinal, unit_text};

use text::Writer;

// The name of a value.
pub(crate) fn put_name(w: &mut Writer<'_>, value: u8)
    requires { Fits w.old (name_text value) }
    ensures { Writes w.old (name_text value) w.new }
{
    match value {
        1 => w.put_word(b"x"),
        2 => w.put_word(b"y"),
        3 => w.put_word(b"z"),
        4 => w.put_word(b"vx"),
        5 => w.put_word(b"vy"),
        6 => w.put_word(b"vz"),
        _ => {}
    }
}

// Which correction it is after so many.
pub(crate) fn put_ordinal(w: &mut Writer<'_>, n: u64)
    requires { Fits w.old (ordinal n) }
    ensures { Writes w.old (ordinal n) w.new }
{
    match n {
        0 => w.put_word(b"first"),
        1 => w.put_word(b"second"),
        2 => w.put_word(b"third"),
        3 => w.put_word(b"fourth"),
        4 => w.put_word(b"fifth"),
        5 => w.put_word(b"sixth"),
        6 => w.put_word(b"seventh"),
        7 => w.put_word(b"eighth"),
        _ => {}
    }
}

pub(crate) fn put_cardinal(w: &mut Writer<'_>, n: u64)
    requires { Fits w.old (cardinal n) }
    ensures { Writes w.old (cardinal n) w.new }
{
    match n {
        1 => w.put_word(b"one"),
        2 => w.put_word(b"two"),
        3 => w.put_word(b"three"),
        4 => w.put_word(b"four"),
        5 => w.put_word(b"five"),
        6 => w.put_word(b"six"),
        7 => w.put_word(b"seven"),
        8 => w.put_word(b"eight"),
        _ => {}
    }
}

// The unit of a value's change.
pub(crate) fn put_unit(w: &mut Writer<'_>, value: u8)
    requires { Fits w.old (unit_text value) }
    ensures { Writes w.old (unit_text value) w.new }
{
    if 3 < value {
        w.put_word(b" ticks per step");
        return;
    }
    w.put_word(b" ticks");
}
