// The answers to saving and loading as lines, written into a lent buffer.
ghost use mathlib.Core.List.{flatten};
ghost use Rattle.text.specs.Writes.{Fits, HasRoom, Writes};
ghost use Rattle.script.specs.Lines.{save_line, load_line};

use crate::digits::put_bytes;
use crate::lines::put_natural;
use session::Session;
use text::Writer;

// The session's image, two digits to a byte.
pub fn put_save(w: &mut Writer<'_>, s: Session)
    requires { HasRoom w.old (save_line s) }
    ensures { Writes w.old (flatten (save_line s)) w.new }
{
    let mut room = [0u8; 656];
    image::save(&mut room, s);
    w.put_word(b"save 0 ");
    put_bytes(w, &room);
    w.put(b'\n');
}

// The number alone.
pub fn put_load(w: &mut Writer<'_>, number: u8)
    requires { HasRoom w.old (load_line number) }
    ensures { Writes w.old (flatten (load_line number)) w.new }
{
    w.put_word(b"load");
    put_natural(w, number as u64);
    w.put(b'\n');
}
