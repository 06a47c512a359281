// Refusals as lines.
ghost use mathlib.Core.List.{flatten};
ghost use Rattle.text.specs.Writes.{Fits, HasRoom, Writes};
ghost use Rattle.reports.specs.Reports.{refused_line, stopped_line};

use text::Writer;

pub(crate) fn put_refused(w: &mut Writer<'_>, number: u64)
    requires { HasRoom w.old (refused_line number) }
    ensures { Writes w.old (flatten (refused_line number)) w.new }
{
    w.put_word(b"refused ");
    w.put_decimal(number);
    w.put(b'\n');
}

// Where reading stops.
pub(crate) fn put_stopped(w: &mut Writer<'_>, line: u64)
    requires { HasRoom w.old (stopped_line line) }
    ensures { Writes w.old (flatten (stopped_line line)) w.new }
{
    w.put_word(b"refused 15 ");
    w.put_decimal(line);
    w.put(b'\n');
}
