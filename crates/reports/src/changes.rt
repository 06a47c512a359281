// Changes as lines.
ghost use mathlib.Core.List.{flatten};
ghost use Rattle.std.specs.Prelude.{◌+◌, ◌*◌, ◌≤◌, length, take};
ghost use Rattle.text.specs.Writes.{Fits, HasRoom, Writes};
ghost use Rattle.reports.specs.Reports.{what_text, change_line, changes_text, changes_of};

use text::Writer;

fn put_what(w: &mut Writer<'_>, what: u64)
    requires { Fits w.old (what_text what) }
    ensures { Writes w.old (what_text what) w.new }
{
    if what == 1 {
        w.put_word(b" dropped\n");
    } else if what == 2 {
        w.put_word(b" START_TIME\n");
    } else {
        w.put_word(b" STOP_TIME\n");
    }
}

fn put_change(w: &mut Writer<'_>, line: u64, what: u64)
    requires { HasRoom w.old (change_line line what) }
    ensures { Writes w.old (flatten (change_line line what)) w.new }
{
    w.put_decimal(line);
    put_what(w, what);
}

// The first changes of a room.
pub(crate) fn put_changes(w: &mut Writer<'_>, words: &[u64], count: usize)
    requires count_in_bounds { 2 * count ≤ length words.now }
    requires words_in_bounds { Fits w.old (changes_text (take count (changes_of words.now))) }
    ensures { Writes w.old (changes_text (take count (changes_of words.now))) w.new }
{
    for k in 0..count {
        put_change(w, words[2 * k], words[2 * k + 1]);
    }
}
